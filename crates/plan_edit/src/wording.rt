//! Says in words why a replacement is refused.

use crate::refusal::EditRefusal;
use crate::replacement::Replacement;
use std::alloc::{AllocError, Global};

/// Returns the line that says why a replacement is refused.
pub fn reason(
    alloc: Global,
    refusal: &EditRefusal,
    replacement: Replacement,
) -> Result<String, AllocError> {
    let Replacement {
        group,
        configuration,
        old,
        new,
        ..
    } = replacement;
    let mut text = String::from_str(alloc, "no: ")?;
    let written = match refusal {
        EditRefusal::NotInPlan => write!(
            text,
            "the plan has no configuration {configuration} of group {group}\n"
        ),
        EditRefusal::NotAMember => write!(
            text,
            "member {old} isn't in configuration {configuration} of group {group}\n"
        ),
        EditRefusal::MemberReused => write!(
            text,
            "configuration {configuration} of group {group}, or one on the way to it, has member {new} already\n"
        ),
        EditRefusal::NoPlace => {
            write!(
                text,
                "group {group} would have more than 64 configurations\n"
            )
        }
        other => write!(text, "{other}\n"),
    };
    written?;
    Ok(text)
}
