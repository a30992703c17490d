//! The model of the volume, and the theorem about all its runs.
#![tactic(auto)]

ghost use Rattle.volume_model.specs.Headline.{VolumeKeepsCommits, PagesAreTrue, AcknowledgementsLast};
ghost use Rattle.volume_model.specs.Claims.{ClaimsCertify};

mod actors;
mod fault;
mod laws;

pub use actors::{
    agrees_at_last, leaves_others, messages_are_found, messages_grow, refusals_are_own,
    refusals_last, runs_go_on, steps_alike, steps_are_of_actors,
};
pub use fault::Fault;
pub use laws::{
    complete_and_durable_points_are_greatest, complete_point_is_greatest, cut_is_greatest,
    each_group_is_raised, finds_last, found_is_reported, full_and_tail_certified,
    group_point_is_greatest, log_found_leads_down, member_replaced_certified, new_groups_are_empty,
    newest_is_newest, nodes_records_in_order, one_lineage_an_epoch, opens_at_its_cut,
    pages_byte_by_byte, parts_of_logs, pieces_are_of_one, pieces_make_up, pieces_unite,
    record_at_is_first, records_live, reports_were_made, runs_are_orderly, six_copies_certified,
    steps_are_few,
};

/// Proves the main theorem for every certified plan and every list of events. Each commit that any writer acknowledges,
/// and the whole log before it, is in the log that every recovery of a later volume epoch finds. No two different
/// records are acknowledged under one LSN.
pub fn volume_keeps_commits()
    ensures { VolumeKeepsCommits }
{}

/// Proves that every page that any node makes for any writer is the page of that writer's log at the requested point.
pub fn pages_are_true()
    ensures { PagesAreTrue }
{}

/// Proves that what a writer has acknowledged stays acknowledged, with the same log before it.
pub fn acknowledgements_last()
    ensures { AcknowledgementsLast }
{}

/// Proves that a plan is certified if its configurations and steps satisfy their claims.
pub fn claims_certify()
    ensures { ClaimsCertify }
{}
