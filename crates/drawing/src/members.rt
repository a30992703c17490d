//! Members as squares and in words.

use crate::cards::Card;
use explain::Members;
use quorum_expr::{MEMBERS, MemberSet};
use std::alloc::AllocError;

/// The most members of a row.
pub(crate) const A_ROW: usize = 12;

/// The distance of two members of a row, and of two rows, in pixels.
const PITCH: (usize, usize) = (27, 23);

/// Returns the height of this many members.
pub(crate) fn members_height(count: u8) -> usize {
    usize::from(count).div_ceil(A_ROW).saturating_mul(PITCH.1)
}

/// Returns the class of a member's square.
fn class_of(is_full: bool, is_fresh: bool) -> &'static str {
    match (is_full, is_fresh) {
        (true, true) => "full fresh",
        (true, false) => "full",
        (false, true) => "tail fresh",
        (false, false) => "tail",
    }
}

/// Appends the squares of a configuration's members, in rows from this corner on.
pub(crate) fn add_squares(
    svg: &mut String,
    card: &Card,
    corner: (usize, usize),
) -> Result<(), AllocError> {
    let mut place = 0usize;
    for member in 0..MEMBERS {
        if card.members.contains(member) {
            let down = (place / A_ROW).saturating_mul(PITCH.1);
            let x = corner.0.saturating_add(place % A_ROW * PITCH.0);
            let y = corner.1.saturating_add(down);
            let (middle, base) = (x.saturating_add(11), y.saturating_add(13));
            let class = class_of(card.full.contains(member), card.fresh.contains(member));
            write!(
                svg,
                "<rect class=\"{class}\" x=\"{x}\" y=\"{y}\" width=\"23\" height=\"18\" rx=\"4\"/>\
                    <text class=\"number\" x=\"{middle}\" y=\"{base}\">{member}</text>\n"
            )?;
            place = place.saturating_add(1);
        }
    }
    Ok(())
}

/// Appends a title with the members of a configuration in words.
pub(crate) fn add_title(svg: &mut String, card: &Card) -> Result<(), AllocError> {
    let (group, number) = (card.group, card.number);
    let (members, full) = (Members(card.members), Members(card.full));
    write!(
        svg,
        "<title>group {group}, configuration {number}: members {members}, full {full}</title>\n"
    )
}

/// The legend: one square of each kind, and what it means.
pub(crate) const LEGEND: &str = "<g class=\"legend\">\
    <rect class=\"full\" x=\"24\" y=\"24\" width=\"23\" height=\"18\" rx=\"4\"/>\
    <text x=\"54\" y=\"37\">full: keeps whole pages</text>\
    <rect class=\"tail\" x=\"210\" y=\"24\" width=\"23\" height=\"18\" rx=\"4\"/>\
    <text x=\"240\" y=\"37\">tail: keeps only the log</text>\
    <rect class=\"tail fresh\" x=\"396\" y=\"24\" width=\"23\" height=\"18\" rx=\"4\"/>\
    <text x=\"426\" y=\"37\">fresh: added by the step</text></g>\n";
