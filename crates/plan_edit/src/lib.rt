//! Edits of plans: new configurations behind those that a plan has.
#![tactic(auto)]

mod certifying;
mod checking;
mod comparing;
mod drafts;
mod expressions;
mod making;
mod new_checking;
mod new_refusal;
mod new_text;
mod picking;
mod plan_words;
mod refusal;
mod replacement;
mod replacing;
mod requests;
mod splicing;
mod text;
mod word_reading;
mod wording;

pub use making::new_plan;
pub use new_refusal::{NewRefusal, refusal_lines};
pub use plan_words::{PlanWords, Quorums};
pub use refusal::EditRefusal;
pub use replacement::Replacement;
pub use replacing::replace;
pub use requests::{PlanRequest, requested_plan};
pub use word_reading::{
    SurvivalWord, Weights, WordFault, read_members, read_survival, read_weights, read_zones,
};
pub use wording::reason;
