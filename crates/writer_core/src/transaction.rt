//! Checks transactions.

ghost use Rattle.std.specs.Prelude.{◌≡◌};
ghost use Rattle.volume_model.specs.Common.{have_joined, is_change, is_transaction};
ghost use Rattle.writer_core.specs.Changes.{change_of, changes_of};
ghost use Rattle.writer_core.specs.Groups.{groups_in};

use crate::change::Change;
use crate::group_states::GroupStates;

/// The bytes of a block.
const BLOCK: usize = 512;

/// The most changes of a transaction.
pub const MOST_CHANGES: usize = 32;

/// Returns whether a change is to one of the groups and lies within a block.
fn is_change(groups: usize, change: &Change) -> bool
    ensures { result ≡ is_change groups (change_of change.now) }
{
    usize::from(change.group()) < groups
        && usize::from(change.offset()) + change.bytes().len() <= BLOCK
}

/// Returns whether there are 1 to 32 changes, all of them valid.
pub fn is_transaction(groups: usize, changes: &[Change]) -> bool
    ensures { result ≡ is_transaction groups (changes_of changes.now) }
{
    if changes.is_empty() || changes.len() > MOST_CHANGES {
        return false;
    }
    for change in changes {
        if !is_change(groups, change) {
            return false;
        }
    }
    true
}

/// Returns whether each group that the changes name has joined the writer.
pub fn have_joined(group_states: &GroupStates, changes: &[Change]) -> bool
    ensures { result ≡ have_joined (groups_in group_states.now) (changes_of changes.now) }
{
    for change in changes {
        if !group_states.has_joined(change.group()) {
            return false;
        }
    }
    true
}
