//! A test of claims that are dealt to hands.

ghost use Rattle.std.specs.Prelude.{◌<◌, ◌≤◌};

use cert_search::deal;
use std::alloc::Global;
use std::sync::Wait;
use std::test::*;
use volume_model::Fault;

/// The index of a hand, and the claim that it takes.
type ExpectedTake = (usize, Option<usize>);

/// Deals `claims` claims to `workers` workers. Returns the index of the first take that differs from the expected one;
/// the number of takes if there are more or fewer hands than workers.
fn broken<R: Wait>(
    rt: &R,
    alloc: Global,
    claims: usize,
    workers: usize,
    takes: &[ExpectedTake],
) -> Result<Option<usize>, Fault>
    requires some { 0 < workers }
    requires few { workers ≤ 16 }
{
    let mut hands = deal(alloc, claims, workers)?;
    if hands.len() != workers {
        return Ok(Some(takes.len()));
    }
    for (place, (hand, expected)) in takes.iter().enumerate() {
        let Some(hand) = hands.get_mut(*hand) else {
            return Ok(Some(place));
        };
        if hand.take(rt) != *expected {
            return Ok(Some(place));
        }
    }
    Ok(None)
}

/// Two workers take five claims, each once, and then none.
const EACH_ONCE: &[ExpectedTake] = &[
    (1, Some(1)),
    (0, Some(0)),
    (1, Some(3)),
    (1, Some(2)),
    (0, Some(4)),
    (0, None),
    (1, None),
    (1, None),
];

/// One of three takes all seven.
const ONE_TAKES_ALL: &[ExpectedTake] = &[
    (1, Some(1)),
    (1, Some(4)),
    (1, Some(2)),
    (1, Some(5)),
    (1, Some(0)),
    (1, Some(3)),
    (1, Some(6)),
    (1, None),
    (0, None),
];

/// A single worker takes three.
const ALONE: &[ExpectedTake] = &[(0, Some(0)), (0, Some(1)), (0, Some(2)), (0, None)];

#[test]
fn claims_are_dealt(rt: HostRuntime) {
    let alloc = rt.alloc();
    let first_wrong = [
        broken(&rt, alloc, 5, 2, EACH_ONCE),
        broken(&rt, alloc, 7, 3, ONE_TAKES_ALL),
        broken(&rt, alloc, 0, 2, &[(1, None)]),
        broken(&rt, alloc, 3, 1, ALONE),
    ];
    assert_eq!(rt; first_wrong, [Ok(None); 4]);
}
