//! Saves a segment's state, and resumes a segment from it.

ghost use Rattle.std.specs.Prelude.{◌≡◌, Ok, IfOk};

use super::Segment;
use crate::assembly::Assembly;
use crate::segment_state::SegmentState;
use crate::snapshot::SegmentSnapshot;
use hydration::Hydration;
use plan::CheckedPlan;
use std::alloc::{AllocError, Global};
use std::sync::Arc;
use volume_model::Fault;
use wire::Place;

impl Segment {
    ghost use Rattle.std.specs.Arc.{arc_value};
    ghost use Rattle.volume_model.specs.Common.{AnswersNew, restarted};
    ghost use Rattle.plan.specs.Common.{checked_model};
    ghost use Rattle.segment_core.specs.Segment.{node_of, segment_plan, segment_group, segment_member, IsSameActor, IsSegmentOf};
    ghost use Rattle.segment_core.specs.Snapshot.{node_in, resumed};

    /// Returns the state that survives a restart. It shares the segment's records. Costs a pointer for each run, or
    /// nothing if the segment has reported since its last record.
    ///
    /// # Errors
    /// Fails only if memory runs out. The segment is unchanged.
    pub fn snapshot(&mut self, alloc: Global) -> Result<SegmentSnapshot, AllocError>
        ensures kept { IfOk result (λ snapshot. node_in snapshot ≡ restarted (node_of self.old)) }
        ensures resumes { IfOk result (λ snapshot. resumed (segment_plan self.old) (segment_group self.old)
            (segment_member self.old) (node_in snapshot) ≡ Ok (restarted (node_of self.old))) }
        ensures node { node_of self.new ≡ node_of self.old }
        ensures actor { IsSameActor self.old self.new }
    {
        let contents = self.held.contents(alloc)?;
        let place = Place {
            configuration: self.configuration,
            epoch: self.epoch,
        };
        Ok(SegmentSnapshot {
            volume: self.volume,
            place,
            whole: self.whole,
            contents,
            copied: self.copied,
        })
    }

    /// Resumes the segment of a member of a group from a snapshot. The result is the segment that was saved, after a
    /// restart.
    ///
    /// # Errors
    /// `NoActor` if the plan doesn't name such a member, else `NoMemory` if memory runs out.
    pub fn resumed(
        alloc: Global,
        plan: Arc<CheckedPlan>,
        group: u8,
        member: u8,
        snapshot: SegmentSnapshot,
    ) -> Result<Segment, Fault>
        ensures node { AnswersNew node_of (resumed (checked_model (arc_value plan)) group member (node_in snapshot))
            result }
        ensures actor { IfOk result (λ segment. IsSegmentOf (checked_model (arc_value plan)) group member segment) }
    {
        if !plan.names(group, member) {
            return Err(Fault::NoActor);
        }
        let held = SegmentState::of(alloc, snapshot.contents)?;
        Ok(Segment {
            plan,
            group,
            member,
            volume: snapshot.volume,
            configuration: snapshot.place.configuration,
            epoch: snapshot.place.epoch,
            whole: snapshot.whole,
            held,
            copies: Hydration::new(alloc),
            assembly: Assembly::new(),
            copied: snapshot.copied,
        })
    }
}
