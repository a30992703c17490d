//! Sums of the weights of children.

ghost use Rattle.std.specs.Prelude.{◌≡◌, ◌≤◌, ◌*◌, length};
ghost use Rattle.volume_model.specs.Common.{total_weight, each_weighs, weight_at};
ghost use Rattle.quorum_checker.specs.Items.{bare};
ghost use Rattle.quorum_checker.specs.Refutes.{picked_weight, paired_weight};

use quorum_expr::{Expr, wide};
use std::alloc::Allocator;

/// Returns the weight of all children.
pub fn total<A: Allocator>(of: &[(u8, Expr<A>)]) -> u128
    ensures sum { result ≡ total_weight (bare of.now) }
    ensures small { result ≤ 255 * length of.now }
{
    let mut all = 0u128;
    for (weight, _) in of {
        all += wide(*weight);
    }
    all
}

/// Returns whether each child has a weight of at least 1.
pub fn all_weigh<A: Allocator>(of: &[(u8, Expr<A>)]) -> bool
    ensures { result ≡ each_weighs (bare of.now) }
{
    for (weight, _) in of {
        if *weight == 0 {
            return false;
        }
    }
    true
}

/// Returns the weight of the child with a number, 0 if there is none.
fn weight_of<A: Allocator>(of: &[(u8, Expr<A>)], number: u8) -> u128
    ensures is { result ≡ weight_at (bare of.now) number }
    ensures small { result ≤ 255 }
{
    match of.get(usize::from(number)) {
        Some(child) => wide(child.0),
        None => 0,
    }
}

/// Returns the weight of the children with these numbers.
pub fn picked<A: Allocator>(of: &[(u8, Expr<A>)], numbers: &[u8]) -> u128
    ensures sum { result ≡ picked_weight (bare of.now) numbers.now }
    ensures small { result ≤ 255 * length numbers.now }
{
    let mut all = 0u128;
    for number in numbers {
        all += weight_of(of, *number);
    }
    all
}

/// Returns the sum, over the pairs, of the smaller of the two weights.
pub fn paired<A: Allocator>(
    of: &[(u8, Expr<A>)],
    others: &[(u8, Expr<A>)],
    pairs: &[(u8, u8)],
) -> u128
    ensures sum { result ≡ paired_weight (bare of.now) (bare others.now) pairs.now }
    ensures small { result ≤ 255 * length pairs.now }
{
    let mut all = 0u128;
    for pair in pairs {
        all += weight_of(of, pair.0).min(weight_of(others, pair.1));
    }
    all
}
