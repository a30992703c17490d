//! The contents of several reports together.

ghost use Rattle.std.specs.Prelude.{◌≡◌, IfOk};
ghost use Rattle.std.specs.FinSet as set;
ghost use Rattle.volume_model.specs.Common.{newest_with, with_found, contents_of, senders};
ghost use Rattle.lineage.specs.Lineage.{lineage_of};
ghost use Rattle.redo_record.specs.Common.{records_of};
ghost use Rattle.hydration.specs.Copies.{copies_in};

use crate::copied::Copied;
use lineage::Lineage;
use quorum_expr::MemberSet;
use redo_record::RecordSet;
use std::alloc::{AllocError, Global};

/// Returns the members that sent the copies.
pub fn senders(copies: &[Copied]) -> MemberSet
    ensures { set.contains result ≡ senders (copies_in copies.now) }
{
    let mut members = MemberSet::empty();
    for copy in copies {
        members = members.with(copy.from);
    }
    members
}

/// Returns the newest of the copies' lineages and `last`.
pub fn newest_with<'a>(copies: &'a [Copied], last: &'a Lineage) -> &'a Lineage
    ensures { lineage_of result.now ≡ newest_with (lineage_of last.now) (contents_of (copies_in copies.now)) }
{
    match copies {
        [] => last,
        [first, rest @ ..] => first.contents.lineage.newer(newest_with(rest, last)),
    }
}

/// Returns the union of `kept` and the records of the copies that are live in the lineage.
///
/// # Errors
/// `AllocError` if memory runs out.
pub fn with_found(
    alloc: Global,
    lineage: &Lineage,
    copies: &[Copied],
    kept: RecordSet,
) -> Result<RecordSet, AllocError>
    ensures { IfOk result (λ set. records_of set ≡ with_found (lineage_of lineage.now)
        (contents_of (copies_in copies.now)) (records_of kept)) }
{
    match copies {
        [] => Ok(kept),
        [first, rest @ ..] => {
            let found = with_found(alloc, lineage, rest, kept)?;
            lineage.with_live(alloc, &first.contents.records, &found)
        }
    }
}
