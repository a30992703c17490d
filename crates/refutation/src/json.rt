//! JSON nodes, one level at a time.

ghost use Rattle.std.specs.Prelude.{◌≡◌, ◌≢◌, ◌≤◌, IfOk, IfErr};
ghost use Rattle.serde_json.specs.Data.{put as with_member};
ghost use Rattle.serde_json.specs.View.{view, members_view};
ghost use Rattle.volume_model.specs.Common.{Gives};
ghost use Rattle.quorum_expr.specs.Common.{items_in};
ghost use Rattle.refutation.specs.Reading.{has_keys, array_of, two_of, number_to, number_at};

use quorum_expr::{Node, value_at, whole};
use serde_json::{Map, Value, put};
use std::alloc::{AllocError, Global};
use volume_model::Fault;

/// Checks that a node is an object of `keys` keys.
///
/// # Errors
/// `Malformed` if it isn't.
pub fn has_keys<N: Node>(value: &N, keys: usize) -> Result<(), Fault>
    requires { keys ≤ 7 }
    ensures { Gives (λ u. u) result (has_keys keys (N.means value.now)) }
{
    match value.keys(keys + 1) {
        Some(count) => {
            if count != keys {
                return Err(Fault::Malformed);
            }
            Ok(())
        }
        None => Err(Fault::Malformed),
    }
}

/// Returns the items of an array.
///
/// # Errors
/// `Malformed` for any other value.
pub fn array<N: Node>(value: &N) -> Result<N::Rest, Fault>
    ensures given { Gives N.left result (array_of (N.means value.now)) }
    ensures own { IfErr result (λ fault. fault ≢ Fault.NoMemory) }
{
    match value.items() {
        Some(rest) => Ok(rest),
        None => Err(Fault::Malformed),
    }
}

/// Returns the node if it is an array.
///
/// # Errors
/// `Malformed` for any other value.
pub fn listed<N: Node>(value: N) -> Result<N, Fault>
    ensures { Gives (λ n. items_in (N.means n)) result (array_of (N.means value)) }
{
    match value.items() {
        Some(_) => Ok(value),
        None => Err(Fault::Malformed),
    }
}

/// Returns the two items of an array.
///
/// # Errors
/// `Malformed` for any other value.
#[tactic(auto, unfolding(crate::specs::Reading::two_of))]
pub fn two<N: Node>(value: &N) -> Result<(N, N), Fault>
    ensures given { Gives (λ p. (N.means p.0, N.means p.1)) result (two_of (N.means value.now)) }
    ensures own { IfErr result (λ fault. fault ≢ Fault.NoMemory) }
{
    let mut rest = array(value)?;
    let Some(first) = N::next(&mut rest) else {
        return Err(Fault::Malformed);
    };
    let Some(second) = N::next(&mut rest) else {
        return Err(Fault::Malformed);
    };
    match N::next(&mut rest) {
        Some(_) => Err(Fault::Malformed),
        None => Ok((first, second)),
    }
}

/// Returns a whole number from 0 to a limit.
///
/// # Errors
/// `Malformed` for any other value.
#[tactic(auto, unfolding(crate::specs::Reading::number_to))]
#[inline(always)]
pub fn number_to<N: Node>(value: &N, most: u64) -> Result<u64, Fault>
    ensures given { Gives (λ n. n) result (number_to most (N.means value.now)) }
    ensures own { IfErr result (λ fault. fault ≢ Fault.NoMemory) }
    ensures within { IfOk result (λ n. n ≤ most) }
{
    let n = whole(value)?;
    if n > most {
        return Err(Fault::Malformed);
    }
    Ok(n)
}

/// Returns a whole number from 0 to a limit at a key of an object.
///
/// # Errors
/// `Malformed` if there is none.
#[tactic(auto, unfolding(crate::specs::Reading::number_at))]
#[inline(always)]
pub fn number_at<N: Node>(value: &N, key: &str, most: u64) -> Result<u64, Fault>
    ensures given { Gives (λ n. n) result (number_at key.now most (N.means value.now)) }
    ensures within { IfOk result (λ n. n ≤ most) }
{
    let found = value_at(value, key)?;
    number_to(&found, most)
}

/// Returns the object with one more key and value, which replaces an earlier one with the same key. Fails only if
/// memory runs out.
pub fn with(
    alloc: Global,
    map: Map<String, Value>,
    key: &str,
    value: Value,
) -> Result<Map<String, Value>, AllocError>
    ensures { IfOk result (λ m. members_view m.entries ≡ with_member key.now (view value) (members_view map.entries)) }
{
    let mut map = map;
    put(&mut map, alloc, key, value)?;
    Ok(map)
}
