//! The contents of a segment, and its last report.

ghost use Rattle.std.specs.Prelude.{option_map, ◌≡◌, IfOk};
ghost use Rattle.std.specs.Arc.{arc_value};
ghost use Rattle.segment_core.specs.Reported.{IsReported, contents_with};

use crate::pending_insert::PendingInsert;
use crate::records::Records;
use lineage::Lineage;
use pages::BLOCK;
use redo_record::{RunPlace, SharedRecord};
use std::alloc::{AllocError, Global};
use std::sync::Arc;
use wire::Contents;

/// The contents of a segment, and its last report. Later reports share that one until a record is added.
#[derive(Drop)]
pub struct SegmentState {
    /// The lineage.
    pub lineage: Lineage,
    /// The records.
    pub records: Records,
    /// The last report's contents, if no record was added since.
    reported: Option<Arc<Contents>>,
    ghost is_report: { ∥ IsReported (option_map arc_value reported) (contents_with lineage records) ∥₁ },
}

impl SegmentState {
    ghost use Rattle.volume_model.specs.Common.{page_of};
    ghost use Rattle.redo_record.specs.Common.{StandsAt, shared_redo};
    ghost use Rattle.wire.specs.Common.{contents_of};
    ghost use Rattle.segment_core.specs.SegmentState.{state_contents, entered};
    ghost use Rattle.segment_core.specs.Records.{CanEnter};

    /// Makes the state with this lineage and these records.
    pub fn new(lineage: Lineage, records: Records) -> SegmentState
        ensures { state_contents result ≡ contents_with lineage records }
    {
        SegmentState {
            lineage,
            records,
            reported: None,
        }
    }

    /// Makes the state with these contents, which reports share. Fails only with `NoMemory`.
    pub fn of(alloc: Global, contents: Arc<Contents>) -> Result<SegmentState, AllocError>
        ensures { IfOk result (λ held. state_contents held ≡ contents_of (arc_value contents)) }
    {
        let lineage = contents.lineage.clone()?;
        let records = Records::from_set(alloc, &contents.records)?;
        Ok(SegmentState {
            lineage,
            records,
            reported: Some(contents),
        })
    }

    /// Returns the contents. Later calls share them until a record is added. Fails only with `NoMemory`.
    pub fn contents(&mut self, alloc: Global) -> Result<Arc<Contents>, AllocError>
        ensures contents { IfOk result (λ contents. contents_of (arc_value contents) ≡ state_contents self.new) }
        ensures same { state_contents self.new ≡ state_contents self.old }
    {
        if let Some(reported) = &self.reported {
            return reported.clone();
        }
        let contents = Contents {
            lineage: self.lineage.clone()?,
            records: self.records.to_set()?,
        };
        let shared = Arc::new(alloc, contents)?;
        self.reported = Some(shared.clone()?);
        Ok(shared)
    }

    /// Returns the page of a block: its records up to the point, applied to zeros. The first page builds the index of
    /// blocks.
    ///
    /// # Errors
    /// `AllocError` if memory runs out.
    #[inline(always)]
    pub fn page(&mut self, alloc: Global, block: u32, point: u64) -> Result<[u8; BLOCK], AllocError>
        ensures page { IfOk result (λ page. page ≡ page_of (state_contents self.new).records block point) }
        ensures same { state_contents self.new ≡ state_contents self.old }
    {
        self.records.page(alloc, block, point)
    }

    /// Prepares to add a record: reserves all room. The records are unchanged.
    ///
    /// # Errors
    /// `AllocError` if memory runs out.
    #[inline(always)]
    pub fn prepare(
        &mut self,
        alloc: Global,
        place: RunPlace,
        packet: &SharedRecord,
    ) -> Result<PendingInsert, AllocError>
        requires { StandsAt place self.old.records.ordered (shared_redo packet.now) }
        ensures ready { IfOk result (λ pending_insert. CanEnter self.new.records pending_insert) }
        ensures packet { IfOk result (λ pending_insert. shared_redo pending_insert.packet ≡ shared_redo packet.now) }
        ensures same { state_contents self.new ≡ state_contents self.old }
    {
        self.records.prepare(alloc, place, packet)
    }

    /// Adds a prepared record. Allocates nothing.
    #[inline(always)]
    pub fn enter(&mut self, pending_insert: PendingInsert)
        requires { CanEnter self.old.records pending_insert }
        ensures { state_contents self.new ≡ entered (shared_redo pending_insert.packet) (state_contents self.old) }
    {
        self.reported = None;
        self.records.enter(pending_insert);
    }
}
