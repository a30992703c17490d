//! Places of cards: a tree from left to right for each group, one group below the other.

use crate::cards::{CARD_WIDTH, Card};
use std::alloc::{AllocError, Global};

/// The space around the picture in pixels.
pub(crate) const MARGIN: usize = 24;

/// The space between two columns, in which lines lead from parents to children, in pixels.
pub(crate) const GAP: usize = 48;

/// The space between two rows in pixels.
const ROW_GAP: usize = 20;

/// The height of a group's heading in pixels.
const GROUP_HEADING: usize = 34;

/// Counts the rows of each card of a group, children before parents.
fn count_rows(cards: &mut [Card]) {
    let count = cards.len();
    for back in 1..=count {
        let number = count - back;
        let rows = cards[number].place.rows.max(1);
        cards[number].place.rows = rows;
        if let Some(parent) = cards[number].parent
            && parent < number as u64
        {
            let place = &mut cards[parent as usize].place;
            place.rows = place.rows.saturating_add(rows);
        }
    }
}

/// Finds the depth and the row of each card of a group, parents before children.
fn find_places(cards: &mut [Card]) {
    for number in 0..cards.len() {
        let rows = cards[number].place.rows;
        if let Some(parent) = cards[number].parent
            && parent < number as u64
        {
            let above = cards[parent as usize].place;
            cards[parent as usize].place.taken = above.taken.saturating_add(rows);
            let place = &mut cards[number].place;
            place.depth = above.depth.saturating_add(1);
            place.row = above.row.saturating_add(above.taken);
        }
    }
}

/// Returns the height of each row of a group, 0 for a row that it hasn't.
fn row_heights(alloc: Global, cards: &[Card]) -> Result<Vec<usize>, AllocError> {
    let mut heights = vec![in alloc; 0usize; cards.len()]?;
    for card in cards {
        if let Some(height) = heights.get_mut(card.place.row) {
            *height = card.height.max(*height);
        }
    }
    Ok(heights)
}

/// Replaces the heights of rows by their tops. Returns the bottom of the last one.
fn tops_of(heights: &mut [usize], top: usize) -> usize {
    let mut next = top;
    for height in heights.iter_mut() {
        let gap = if *height > 0 { ROW_GAP } else { 0 };
        let below = next.saturating_add(*height).saturating_add(gap);
        *height = next;
        next = below;
    }
    next
}

/// Places the cards of a group whose heading begins here. Returns where the group ends.
pub(crate) fn place_group(
    alloc: Global,
    cards: &mut [Card],
    top: usize,
) -> Result<usize, AllocError> {
    count_rows(cards);
    find_places(cards);
    let mut rows = row_heights(alloc, cards)?;
    let bottom = tops_of(rows.as_mut_slice(), top.saturating_add(GROUP_HEADING));
    for card in cards.iter_mut() {
        let shift = card.place.depth.saturating_mul(CARD_WIDTH + GAP);
        let y = rows.get(card.place.row).copied().unwrap_or(top);
        card.corner = (shift.saturating_add(MARGIN), y);
    }
    Ok(bottom)
}

/// Returns the width of a picture of these cards.
pub(crate) fn width_of(cards: &[Card]) -> usize {
    let mut right = 600usize;
    for card in cards {
        right = right.max(card.corner.0.saturating_add(CARD_WIDTH));
    }
    right.saturating_add(MARGIN)
}
