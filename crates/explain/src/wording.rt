//! Members and expressions in words.

ghost use Rattle.std.specs.Prelude.{◌≤◌};

use crate::facts::Members;
use quorum_expr::{Expr, MEMBERS, MemberSet};
use std::alloc::{AllocError, Global};
use std::fmt;

/// Returns the last member of the run of members that begins with this one.
fn last_of_run(members: MemberSet, first: u8) -> u8 {
    let mut last = first;
    for member in first..MEMBERS {
        if !members.contains(member) {
            return last;
        }
        last = member;
    }
    last
}

/// Returns whether a run of members begins with this one.
fn begins_run(members: MemberSet, member: u8) -> bool {
    members.contains(member) && (member == 0 || !members.contains(member.saturating_sub(1)))
}

/// Writes the members in growing order, runs as `0-5`.
impl fmt::Display for Members {
    fn fmt<W: fmt::Write>(&self, f: &mut fmt::Formatter<W>) -> fmt::Result {
        let mut space = "";
        for member in 0..MEMBERS {
            if begins_run(self.0, member) {
                let last = last_of_run(self.0, member);
                write!(f, "{space}{member}")?;
                if last > member {
                    write!(f, "-{last}")?;
                }
                space = " ";
            }
        }
        Ok(())
    }
}

/// Appends these words and the members of a set, unless it has none.
pub fn add_kind(text: &mut String, word: &str, members: Members) -> Result<(), AllocError> {
    if members.0.is_empty() {
        return Ok(());
    }
    write!(text, "{word}{members}")
}

/// The members of a set, written in braces one by one.
#[derive(Clone, Copy)]
pub(crate) struct Each(pub Members);

impl fmt::Display for Each {
    fn fmt<W: fmt::Write>(&self, f: &mut fmt::Formatter<W>) -> fmt::Result {
        write!(f, "{{")?;
        let mut space = "";
        let set = self.0.0;
        for member in 0..MEMBERS {
            if set.contains(member) {
                write!(f, "{space}{member}")?;
                space = " ";
            }
        }
        write!(f, "}}")
    }
}

/// Returns the set of a list of different members of weight 1, or `None` for any other list.
fn plain_members(of: &[(u8, Expr<Global>)]) -> Option<MemberSet> {
    let mut members = MemberSet::empty();
    for (weight, child) in of {
        match child {
            Expr::Member(member) if *weight == 1 && *member < MEMBERS => {
                if members.contains(*member) {
                    return None;
                }
                members = members.with(*member);
            }
            _ => return None,
        }
    }
    Some(members)
}

/// Returns the number of members and thresholds of an expression, at least one.
pub fn nodes(expr: &Expr<Global>) -> u64
    ensures { 1 ≤ result }
{
    match expr {
        Expr::Member(_) => 1,
        Expr::KOf { of, .. } => {
            let mut count = 1u64;
            for (_, child) in of {
                count = count.saturating_add(nodes(child));
            }
            count
        }
    }
}

/// Appends an expression: `any 3 of 0-5`, or `2 of {any 2 of 0-2, any 2 of 3-5}`, each child with its weight if it
/// isn't one.
pub fn add_expr(text: &mut String, expr: &Expr<Global>) -> Result<(), AllocError> {
    match expr {
        Expr::Member(member) => write!(text, "{member}"),
        Expr::KOf { k, of } => {
            if let Some(members) = plain_members(of) {
                let members = Members(members);
                return write!(text, "any {k} of {members}");
            }
            write!(text, "{k} of {{")?;
            let mut is_first = true;
            for (weight, child) in of {
                if !is_first {
                    text.push_str(", ")?;
                }
                is_first = false;
                add_expr(text, child)?;
                if *weight != 1 {
                    write!(text, " (weight {weight})")?;
                }
            }
            text.push_str("}")
        }
    }
}
