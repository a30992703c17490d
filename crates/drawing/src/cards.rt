//! Cards: what is drawn of each configuration, and how large.

use crate::claims::{add_configuration, is_certified};
use crate::members::members_height;
use crate::sheet::Sheet;
use explain::ConfigurationFacts;
use quorum_expr::MemberSet;
use std::alloc::{AllocError, Global};

/// The width of a card in pixels.
pub(crate) const CARD_WIDTH: usize = 352;

/// The height of a card's heading in pixels.
pub(crate) const HEADING: usize = 30;

/// What is drawn of a configuration.
#[derive(Clone, Copy)]
pub(crate) struct Card {
    /// The group's number.
    pub group: u8,
    /// Its own number.
    pub number: u8,
    /// The number of its parent, if it has one.
    pub parent: Option<u64>,
    /// Its members.
    pub members: MemberSet,
    /// The members that keep whole pages.
    pub full: MemberSet,
    /// The members that the parent hasn't.
    pub fresh: MemberSet,
    /// Whether its step is certified and may be taken, or it has none.
    pub has_good_step: bool,
    /// Whether it has a good step and its read sets are certified to meet its write sets.
    pub is_good: bool,
    /// The numbers of its first line and of the line after its last one.
    pub lines: (usize, usize),
    /// Its height in pixels.
    pub height: usize,
    /// Its place in the tree.
    pub place: Place,
    /// Its upper left corner in pixels.
    pub corner: (usize, usize),
}

/// A configuration's place in its group's tree.
#[derive(Clone, Copy, Default)]
pub(crate) struct Place {
    /// The number of its ancestors.
    pub depth: usize,
    /// Its row. Each configuration without a child has a row of its own; another one is in the row of its first child.
    pub row: usize,
    /// The number of rows of its descendants, and at least one.
    pub rows: usize,
    /// The number of those rows that its first children take.
    pub taken: usize,
}

/// Returns whether the step of a configuration is certified and may be taken, or it has none.
fn has_good_step(this: &ConfigurationFacts) -> bool {
    match &this.step {
        Some(step) => is_certified(&step.claim) && step.kept_can_read,
        None => true,
    }
}

/// Returns the card of a configuration whose lines have these numbers and this height. Its place isn't known yet.
fn card_of(this: &ConfigurationFacts, lines: (usize, usize), words: usize) -> Card {
    let members = this.members.0;
    let squares = members_height(members.len());
    let has_good_step = has_good_step(this);
    let (parent, fresh) = match &this.step {
        Some(step) => (step.parent, step.adds.0),
        None => (None, MemberSet::empty()),
    };
    Card {
        group: this.group,
        number: this.configuration,
        parent,
        members,
        full: this.full.0,
        fresh,
        has_good_step,
        is_good: has_good_step && is_certified(&this.meets),
        lines,
        height: squares.saturating_add(words).saturating_add(HEADING + 14),
        place: Place::default(),
        corner: (0, 0),
    }
}

/// The cards of a group, by the numbers of their configurations.
#[derive(Drop)]
pub(crate) struct Tree {
    /// The group's number.
    pub group: u8,
    /// Where its heading begins.
    pub top: usize,
    /// Its cards.
    pub cards: Vec<Card>,
}

/// Returns the cards of each group, and adds their sentences to the sheet.
pub(crate) fn trees_of(
    alloc: Global,
    sheet: &mut Sheet,
    configurations: &[ConfigurationFacts],
) -> Result<Vec<Tree>, AllocError> {
    let mut trees: Vec<Tree> = Vec::new(alloc);
    for this in configurations {
        if this.configuration == 0 {
            trees.push(Tree {
                group: this.group,
                top: 0,
                cards: Vec::new(alloc),
            })?;
        }
        let first = sheet.lines();
        add_configuration(sheet, this)?;
        let lines = (first, sheet.lines());
        if let Some(tree) = trees.last_mut() {
            tree.cards.push(card_of(this, lines, sheet.height(lines)))?;
        }
    }
    Ok(trees)
}
