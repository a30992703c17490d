//! Writes drafts as a plan's text has configurations. What is read from the text is compared with the drafts.

use crate::drafts::Draft;
use quorum_expr::{Expr, MEMBERS, MemberSet};
use std::alloc::{AllocError, Global};

/// Appends members as an array.
pub fn add_members(text: &mut String, members: MemberSet) -> Result<(), AllocError> {
    let mut comma = "";
    text.push_str("[")?;
    for member in 0..MEMBERS {
        if members.contains(member) {
            write!(text, "{comma}{member}")?;
            comma = ",";
        }
    }
    text.push_str("]")
}

/// Appends the weights of children as an array.
fn add_weights(text: &mut String, of: &[(u8, Expr<Global>)]) -> Result<(), AllocError> {
    let mut comma = "";
    text.push_str(",\"weights\":[")?;
    for (weight, _) in of {
        write!(text, "{comma}{weight}")?;
        comma = ",";
    }
    text.push_str("]")
}

/// Appends an expression.
fn add_expression(text: &mut String, expr: &Expr<Global>) -> Result<(), AllocError> {
    match expr {
        Expr::Member(member) => write!(text, "{member}"),
        Expr::KOf { k, of } => {
            write!(text, "{{\"k\":{k},\"of\":[")?;
            let mut is_first = true;
            for (_, child) in of {
                if !is_first {
                    text.push_str(",")?;
                }
                is_first = false;
                add_expression(text, child)?;
            }
            text.push_str("]")?;
            if of.iter().any(|child| child.0 != 1) {
                add_weights(text, of)?;
            }
            text.push_str("}")
        }
    }
}

/// Appends a draft as a configuration without certificates, behind a comma.
fn add_draft(text: &mut String, draft: &Draft) -> Result<(), AllocError> {
    let parent = draft.parent;
    write!(text, ",{{\"parent\":{parent},\"members\":")?;
    add_members(text, draft.members)?;
    text.push_str(",\"full\":")?;
    add_members(text, draft.full)?;
    text.push_str(",\"read\":")?;
    add_expression(text, &draft.read)?;
    text.push_str(",\"write\":")?;
    add_expression(text, &draft.write)?;
    text.push_str(",\"meets\":null,\"step\":null}")
}

/// Returns drafts as further configurations of an array: a comma before each.
pub fn drafts_text(alloc: Global, drafts: &[Draft]) -> Result<String, AllocError> {
    let mut text = String::new(alloc);
    for draft in drafts {
        add_draft(&mut text, draft)?;
    }
    Ok(text)
}
