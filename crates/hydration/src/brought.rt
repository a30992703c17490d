//! The contents of complete copies.

ghost use Rattle.std.specs.Prelude.{◌≡◌, map, IfOk};
ghost use Rattle.std.specs.FinSet as set;
ghost use Rattle.volume_model.specs.Common.{newest, newest_with, brought, brought_by, copied_by, united, united_copy};
ghost use Rattle.volume_model.specs.Lineage.{found_in};
ghost use Rattle.lineage.specs.Lineage.{lineage_of};
ghost use Rattle.redo_record.specs.Common.{records_of};
ghost use Rattle.hydration.specs.KeptCopies.{all_kept_copies, kept_copy_of, contents_kept};

use crate::kept::Kept;
use crate::kept_copy::KeptCopy;
use lineage::Lineage;
use quorum_expr::MemberSet;
use redo_record::RecordSet;
use std::alloc::{AllocError, Global};

/// Returns the members whose copy is complete.
pub(crate) fn copied_by(copies: &[KeptCopy]) -> MemberSet
    ensures { set.contains result ≡ copied_by (all_kept_copies copies.now) }
{
    let mut members = MemberSet::empty();
    for copy in copies {
        if copy.pieces.is_complete() {
            members = members.with(copy.from);
        }
    }
    members
}

/// Returns the newest of the pieces' lineages and `last`.
fn newest_of<'a>(kept: &'a [Kept], last: &'a Lineage) -> &'a Lineage
    ensures { lineage_of result.now ≡ newest_with (lineage_of last.now) (contents_kept kept.now) }
{
    let mut newest = last;
    let mut left = kept.len();
    while left > 0 {
        left -= 1;
        newest = kept[left].contents.lineage.newer(newest);
    }
    newest
}

/// Returns the newest lineage of the complete copies and `last`.
fn newest_brought<'a>(copies: &'a [KeptCopy], last: &'a Lineage) -> &'a Lineage
    ensures { lineage_of result.now ≡ newest_with (lineage_of last.now) (brought (all_kept_copies copies.now)) }
{
    match copies {
        [] => last,
        [first, rest @ ..] => {
            let behind = newest_brought(rest, last);
            if first.pieces.is_complete() {
                newest_of(first.pieces.as_slice(), behind)
            } else {
                behind
            }
        }
    }
}

/// Returns the newest lineage of the complete copies, or the empty lineage if there is none.
///
/// # Errors
/// `AllocError` if memory runs out.
pub(crate) fn newest_copied(alloc: Global, copies: &[KeptCopy]) -> Result<Lineage, AllocError>
    ensures { IfOk result (λ lineage. lineage_of lineage ≡ newest (brought (all_kept_copies copies.now))) }
{
    let none = Lineage::empty(alloc);
    newest_brought(copies, &none).clone()
}

/// Returns the records of a copy if it is complete, else no records.
fn united_records(alloc: Global, copy: &KeptCopy) -> Result<RecordSet, AllocError>
    ensures { IfOk result (λ set. records_of set ≡ united (brought_by (kept_copy_of copy.now))) }
{
    if copy.pieces.is_complete() {
        copy.pieces.join(alloc)
    } else {
        Ok(RecordSet::new(alloc))
    }
}

/// Returns all records of the complete copies that are live in the lineage.
///
/// # Errors
/// `AllocError` if memory runs out.
pub(crate) fn copied_in(
    alloc: Global,
    lineage: &Lineage,
    copies: &[KeptCopy],
) -> Result<RecordSet, AllocError>
    ensures { IfOk result (λ set. records_of set ≡ found_in (lineage_of lineage.now)
        (map (united_copy (lineage_of lineage.now)) (all_kept_copies copies.now))) }
{
    match copies {
        [] => Ok(RecordSet::new(alloc)),
        [first, rest @ ..] => {
            let found = copied_in(alloc, lineage, rest)?;
            let records = united_records(alloc, first)?;
            lineage.with_live(alloc, &records, &found)
        }
    }
}
