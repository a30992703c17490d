//! Plans: groups of members and their quorums, how these change, and the certificates that make a plan safe.
#![tactic(auto)]

mod certificates;
mod checked;
mod checking;
mod configurations;
mod expressions;
mod fault;
mod fields;
mod formats;
mod laws;
mod lent;
mod listing;
mod parents;
mod placed;
mod plan_text;
mod puts;
mod reading;
mod shapes;
mod sizes;
mod taped;
mod tree;
mod written;

pub use checked::CheckedPlan;
pub use checking::check_plan;
pub use configurations::{Configuration, Group, Plan};
pub use fault::{PlanFault, Quorum, claim_name};
pub use fields::{Fields, Header};
pub use formats::Format;
pub use laws::{no_fault_is_certified, reuse_is_found, shown_claims_certify};
pub use lent::ClaimRef;
pub use listing::{claims, lent_claims};
pub use placed::NamedClaim;
pub use plan_text::{read_plan, write_plan};
pub use reading::{fields_at, group_array, header, read_plan_at};
pub use taped::{PLAN_BYTES, TapedPlan};
