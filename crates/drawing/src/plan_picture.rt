//! A plan as a picture: each group's tree of configurations.

use crate::cards::{CARD_WIDTH, Card, HEADING, Tree, trees_of};
use crate::layout::{GAP, MARGIN, place_group, width_of};
use crate::members::{LEGEND, add_squares, add_title, members_height};
use crate::sheet::Sheet;
use crate::svg::begin_picture;
use explain::plan_facts;
use plan::{Plan, PlanFault};
use std::alloc::{AllocError, Global};

/// The style sheet.
const STYLE: &str = "<style>\
    text{fill:#1f2328}\
    .title{font-size:15px;font-weight:600}\
    .heading{font-size:13px;font-weight:600}\
    .detail{fill:#59636e}\
    .good{fill:#1a7f37}\
    .bad{fill:#cf222e}\
    .number{font-size:11px;text-anchor:middle}\
    .card{fill:#fff;stroke:#818b98}\
    .card-bad{fill:#fff5f5;stroke:#cf222e;stroke-width:1.5}\
    .full{fill:#a8d1ff;stroke:#0969da}\
    .tail{fill:#fff;stroke:#0969da}\
    .fresh{stroke:#1f2328;stroke-width:2;stroke-dasharray:4 2}\
    .edge{fill:none;stroke:#818b98;stroke-width:1.5}\
    .edge-bad{fill:none;stroke:#cf222e;stroke-width:1.5}\
    </style>\n";

/// The height of the legend in pixels.
const LEGEND_HEIGHT: usize = 40;

/// The distance of a card's text from its edge in pixels.
const PADDING: usize = 14;

/// Appends the heading of a group.
fn add_heading(svg: &mut String, group: u8, born: u8, top: usize) -> Result<(), AllocError> {
    let y = top.saturating_add(20);
    let words = if group < born {
        ""
    } else {
        ", which joins the volume later"
    };
    write!(
        svg,
        "<text class=\"title\" x=\"{MARGIN}\" y=\"{y}\">group {group}{words}</text>\n"
    )
}

/// Appends the frame of a card and its heading.
fn add_frame(svg: &mut String, card: &Card) -> Result<(), AllocError> {
    let (x, y) = card.corner;
    let (left, base) = (x.saturating_add(PADDING), y.saturating_add(20));
    let (height, number) = (card.height, card.number);
    let class = if card.is_good { "card" } else { "card-bad" };
    write!(
        svg,
        "<rect class=\"{class}\" x=\"{x}\" y=\"{y}\" width=\"{CARD_WIDTH}\" height=\"{height}\" rx=\"4\"/>\
            <text class=\"heading\" x=\"{left}\" y=\"{base}\">configuration {number}</text>\n"
    )
}

/// Appends a card.
fn add_card(svg: &mut String, sheet: &Sheet, card: &Card) -> Result<(), AllocError> {
    svg.push_str("<g>")?;
    add_title(svg, card)?;
    add_frame(svg, card)?;
    let x = card.corner.0.saturating_add(PADDING);
    let squares = card.corner.1.saturating_add(HEADING);
    add_squares(svg, card, (x, squares))?;
    let words = squares.saturating_add(members_height(card.members.len()));
    sheet.add_lines(svg, card.lines, x, words)?;
    svg.push_str("</g>\n")
}

/// Appends the line to a card from its parent's, if it has a parent.
fn add_edge(svg: &mut String, cards: &[Card], card: &Card) -> Result<(), AllocError> {
    let Some(number) = card.parent else {
        return Ok(());
    };
    let Some(parent) = cards.get(number.min(64) as usize) else {
        return Ok(());
    };
    let class = if card.has_good_step {
        "edge"
    } else {
        "edge-bad"
    };
    let from = parent.corner.0.saturating_add(CARD_WIDTH);
    let middle = from.saturating_add(GAP / 2);
    let high = parent.corner.1.saturating_add(HEADING / 2);
    let low = card.corner.1.saturating_add(HEADING / 2);
    let to = card.corner.0;
    write!(
        svg,
        "<path class=\"{class}\" d=\"M{from} {high}H{middle}V{low}H{to}\"/>\n"
    )
}

/// Appends a group: its heading, its cards and the lines between them.
fn add_tree(svg: &mut String, sheet: &Sheet, born: u8, tree: &Tree) -> Result<(), AllocError> {
    add_heading(svg, tree.group, born, tree.top)?;
    for card in &tree.cards {
        add_edge(svg, tree.cards.as_slice(), card)?;
        add_card(svg, sheet, card)?;
    }
    Ok(())
}

/// Places all groups. Returns the width and the height of the picture.
fn place_trees(alloc: Global, trees: &mut [Tree]) -> Result<(usize, usize), AllocError> {
    let (mut width, mut bottom) = (0usize, MARGIN + LEGEND_HEIGHT);
    for tree in trees.iter_mut() {
        tree.top = bottom;
        bottom = place_group(alloc, tree.cards.as_mut_slice(), bottom)?;
        width = width.max(width_of(tree.cards.as_slice()));
    }
    Ok((width, bottom.saturating_add(4)))
}

/// Returns a plan as an SVG picture: each group's tree of configurations from left to right; of each configuration its
/// members, what its expressions ask for and survive, its step, and whether its claims are certified, in red if not.
///
/// # Errors
/// The plan's first fault of parents or fresh members, or [`NoMemory`](volume_model::Fault::NoMemory).
pub fn draw_plan(alloc: Global, plan: &Plan) -> Result<String, PlanFault> {
    let configurations = plan_facts(alloc, plan)?;
    let mut sheet = Sheet::new(alloc);
    let mut trees = trees_of(alloc, &mut sheet, configurations.as_slice())?;
    let (width, height) = place_trees(alloc, trees.as_mut_slice())?;
    let mut svg = String::new(alloc);
    begin_picture(&mut svg, width, height, STYLE)?;
    svg.push_str(LEGEND)?;
    for tree in &trees {
        add_tree(&mut svg, &sheet, plan.born, tree)?;
    }
    svg.push_str("</svg>\n")?;
    Ok(svg)
}
