//! A run as a picture: a lane for each actor, and a row for each line.

use crate::act::{Act, add_act};
use crate::actor::{Actor, add_lane, lane_of};
use crate::durable::{note_growth, outcome_of};
use crate::run_rows::{Row, rows_of};
use crate::svg::{begin_picture, begin_text};
use plan::CheckedPlan;
use std::alloc::{AllocError, Global};
use std::sync::Arc;
use volume_model::Fault;
use world::Order;

/// The most lines with an event of a script that is drawn.
pub const MOST_ROWS: usize = 2_000;

/// The style sheet.
const STYLE: &str = "<style>\
    text{fill:#1f2328;paint-order:stroke;stroke:#fff;stroke-width:3px}\
    .lane-name{font-weight:600;text-anchor:middle}\
    .line-number{fill:#59636e;text-anchor:end}\
    .lane{stroke:#d1d9e0;fill:none}\
    .log{stroke:#0969da;fill:#0969da}\
    .recovery{stroke:#8250df;fill:#8250df}\
    .step{stroke:#59636e;fill:#59636e}\
    .page{stroke:#9a6700;fill:#9a6700}\
    .refused{stroke:#cf222e;fill:#cf222e}\
    .refused-words{fill:#cf222e}\
    .commit{fill:#1a7f37;font-weight:600}\
    .cut{fill:none;stroke:#8250df;stroke-dasharray:6 4}\
    </style>\n";

/// The height of a row in pixels.
const ROW: usize = 24;

/// The height of the lanes' names in pixels. They are repeated above every so many rows.
const NAMES: usize = 44;

/// The number of rows below the lanes' names.
const ROWS_A_BAND: usize = 40;

/// The distance of two lanes in pixels.
const LANE: usize = 84;

/// The place of the first lane in pixels.
const FIRST_LANE: usize = 96;

/// The space for words to the right of the last lane in pixels.
const WORDS: usize = 330;

/// Returns where a lane is.
fn lane_x(lane: usize) -> usize {
    lane.saturating_mul(LANE).saturating_add(FIRST_LANE)
}

/// Returns where a row is.
fn row_y(row: usize) -> usize {
    let bands = row / ROWS_A_BAND + 1;
    let names = bands.saturating_mul(NAMES);
    row.saturating_mul(ROW)
        .saturating_add(names)
        .saturating_add(ROW)
}

/// Returns the lanes of all actors of a run.
fn lanes_of(alloc: Global, rows: &[Row]) -> Result<Vec<Actor>, AllocError> {
    let mut lanes = Vec::new(alloc);
    for row in rows {
        add_lane(&mut lanes, row.actor)?;
        if let Act::Takes(Some(sent)) = row.act {
            add_lane(&mut lanes, sent.from)?;
        }
    }
    Ok(lanes)
}

/// Appends the names of the lanes.
fn add_names(svg: &mut String, lanes: &[Actor], top: usize) -> Result<(), AllocError> {
    for (lane, actor) in lanes.iter().enumerate() {
        actor.add_name(svg, lane_x(lane), top.saturating_add(20))?;
    }
    Ok(())
}

/// Appends the lines of the lanes.
fn add_lanes(svg: &mut String, lanes: usize, bottom: usize) -> Result<(), AllocError> {
    for lane in 0..lanes {
        let x = lane_x(lane);
        write!(svg, "<path class=\"lane\" d=\"M{x} {NAMES}V{bottom}\"/>\n")?;
    }
    Ok(())
}

/// Appends an arrow.
fn add_arrow(
    svg: &mut String,
    class: &str,
    from: usize,
    to: usize,
    y: usize,
) -> Result<(), AllocError> {
    let back = if from < to { "-8 -4" } else { "8 -4" };
    write!(
        svg,
        "<path class=\"{class}\" d=\"M{from} {y}H{to}m0 0l{back}v8z\"/>\n"
    )
}

/// Appends what a line does in words, beginning at a place.
fn add_words(svg: &mut String, row: &Row, x: usize, y: usize) -> Result<(), AllocError> {
    let class = match (row.refused, row.durable) {
        (Some(_), _) => "refused-words",
        (_, Some(_)) => "commit",
        _ => "words",
    };
    begin_text(svg, class, x, y)?;
    add_act(svg, row.act)?;
    match (row.refused, row.durable) {
        (Some(fault), _) => write!(svg, ": refused {fault}</text>\n"),
        (_, Some(point)) => write!(svg, ", durable up to {point}</text>\n"),
        _ => svg.push_str("</text>\n"),
    }
}

/// Appends a row's arrow or point, and its words.
fn add_mark(svg: &mut String, lanes: &[Actor], row: &Row, y: usize) -> Result<(), AllocError> {
    let class = if row.refused.is_some() {
        "refused"
    } else {
        row.act.class()
    };
    let at = lane_x(lane_of(lanes, row.actor));
    if let Act::Takes(Some(sent)) = row.act {
        let from = lane_x(lane_of(lanes, sent.from));
        add_arrow(svg, class, from, at, y)?;
        let x = from.min(at).saturating_add(10);
        return add_words(svg, row, x, y.saturating_sub(5));
    }
    write!(
        svg,
        "<circle class=\"{class}\" cx=\"{at}\" cy=\"{y}\" r=\"4\"/>\n"
    )?;
    add_words(svg, row, at.saturating_add(10), y.saturating_add(4))
}

/// Appends a row, with a line across all lanes if a recovery has found the log.
fn add_row(svg: &mut String, lanes: &[Actor], row: &Row, y: usize) -> Result<(), AllocError> {
    let (line, base) = (row.line, y.saturating_add(4));
    write!(
        svg,
        "<text class=\"line-number\" x=\"40\" y=\"{base}\">{line}</text>\n"
    )?;
    if let Act::Cut(Some(_)) = row.act {
        let right = lane_x(lanes.len());
        write!(
            svg,
            "<path class=\"cut\" d=\"M{FIRST_LANE} {y}H{right}\"/>\n"
        )?;
    }
    add_mark(svg, lanes, row, y)
}

/// Appends a picture of these rows and lanes.
fn add_picture(svg: &mut String, lanes: &[Actor], rows: &[Row]) -> Result<(), AllocError> {
    let bottom = row_y(rows.len());
    let width = lane_x(lanes.len()).saturating_add(WORDS);
    begin_picture(svg, width, bottom, STYLE)?;
    add_lanes(svg, lanes.len(), bottom.saturating_sub(12))?;
    for (place, row) in rows.iter().enumerate() {
        let y = row_y(place);
        if place % ROWS_A_BAND == 0 {
            add_names(svg, lanes, y.saturating_sub(ROW + NAMES - 6))?;
        }
        add_row(svg, lanes, row, y)?;
    }
    svg.push_str("</svg>\n")
}

/// Returns a script's run over a plan as an SVG picture: a lane for each actor; a row for each order, beside the number
/// of its line in `lines`; messages as arrows with the LSNs of their records; durable points where they grow; refusals
/// in red; and the cuts of recoveries.
///
/// # Errors
/// [`OverLimit`](Fault::OverLimit) if there are more than 2,000 orders, or [`NoMemory`](Fault::NoMemory).
pub fn draw_run(
    alloc: Global,
    plan: &Arc<CheckedPlan>,
    lines: &[u32],
    orders: &[Order],
) -> Result<String, Fault> {
    if orders.len() > MOST_ROWS {
        return Err(Fault::OverLimit);
    }
    let outcome = outcome_of(alloc, plan, orders)?;
    let (mut rows, events) = rows_of(alloc, lines, orders, &outcome)?;
    note_growth(alloc, plan, events.as_slice(), rows.as_mut_slice())?;
    let lanes = lanes_of(alloc, rows.as_slice())?;
    let mut svg = String::new(alloc);
    add_picture(&mut svg, lanes.as_slice(), rows.as_slice())?;
    Ok(svg)
}
