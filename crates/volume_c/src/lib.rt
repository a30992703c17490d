//! The actors of a volume for programs in C, by opaque handles.
//!
//! `docs/EMBEDDING.md` says how an engine uses it. Each export checks its arguments, returns 0 or a status number, and
//! has a contract that refers to the model.
#![tactic(auto)]

mod actor;
mod acts;
mod advance_calls;
mod authority_calls;
mod buffer;
mod changes;
mod client_calls;
mod constructors;
mod frames;
mod handle;
mod handle_calls;
mod laws;
mod names;
mod outbox;
mod parts;
mod plan_calls;
mod saved;
mod segment_calls;
mod snapshot_bytes;
mod snapshot_calls;
mod status;

pub use advance_calls::{VolumeReadiness, volume_authority_may_advance};
pub use authority_calls::{
    volume_authority_advance, volume_authority_assign, volume_authority_grow, volume_authority_new,
    volume_authority_refresh, volume_authority_resume, volume_authority_snapshot,
};
pub use changes::VolumeChange;
pub use client_calls::{
    VolumePoints, volume_client_take, volume_recovery_cut, volume_recovery_new,
    volume_recovery_open, volume_writer_acknowledged, volume_writer_first,
    volume_writer_group_point, volume_writer_issue, volume_writer_points, volume_writer_read,
    volume_writer_resend,
};
pub use frames::volume_segment_take_frame;
pub use handle::Handle;
pub use handle_calls::{volume_close, volume_fault_name, volume_next_message};
pub use laws::{last_ack_suffices, replay_reaches};
pub use plan_calls::volume_plan_read;
pub use segment_calls::{
    VolumeSegmentState, volume_segment_hydrate, volume_segment_new, volume_segment_offer,
    volume_segment_page, volume_segment_resume, volume_segment_scl, volume_segment_state,
    volume_segment_take,
};
pub use snapshot_calls::{volume_segment_snapshot, volume_snapshot_read};
