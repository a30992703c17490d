//! Pictures of plans and of runs, as SVG.
#![tactic(auto)]

mod act;
mod actor;
mod cards;
mod claims;
mod durable;
mod layout;
mod members;
mod plan_picture;
mod run_picture;
mod run_rows;
mod sheet;
mod svg;

pub use plan_picture::draw_plan;
pub use run_picture::{MOST_ROWS, draw_run};
