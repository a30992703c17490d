//! What a plan says, in words: what each configuration survives, and why a claim fails.
#![tactic(auto)]

mod certificate_place;
mod claims;
mod configurations;
mod explaining;
mod expression_place;
mod facts;
mod faults;
mod json_walk;
mod line_check;
mod line_forms;
mod page;
mod placing;
mod plan_place;
mod report;
mod stepping;
mod survival;
mod text_place;
mod trail;
mod wording;

pub use claims::{ClaimAnswer, answer_claim};
pub use configurations::plan_facts;
pub use explaining::explain;
pub use facts::{
    BlockFacts, ClaimFacts, ClaimState, ConfigurationFacts, Members, QuorumFacts, StepFacts,
    WitnessFacts,
};
pub use faults::{FAULTS, FaultWords, add_meaning, fault_lines, fault_words};
pub use line_check::bad_line;
pub use page::{COLUMNS, Page};
pub use placing::{place_lines, warning_lines};
pub use report::{json_report, known_configurations};
pub use stepping::{NoStep, step_script};
pub use survival::{Survival, survival_of};
pub use text_place::{FaultPlace, fault_place};
pub use wording::{add_expr, add_kind};
