//! Decides how many workers are worth their threads.

ghost use Rattle.std.specs.Prelude.{◌<◌, ◌≤◌};

use plan::ClaimRef;
use quorum_checker::children;
use quorum_expr::Expr;
use std::alloc::Allocator;

/// The number of pairs of subexpressions for which one more thread is worth while.
const PAIRS: usize = 1024;

/// This many pairs of a claim over plain thresholds take as long as one pair of another claim.
const PLAIN: usize = 64;

/// Returns the number of an expression's subexpressions, itself included.
fn size<A: Allocator>(expr: &Expr<A>) -> usize {
    match expr {
        Expr::Member(_) => 1,
        Expr::KOf { of, .. } => {
            let mut all = 1usize;
            for (_, child) in of {
                all = all.saturating_add(size(child));
            }
            all
        }
    }
}

/// Returns whether all children of an expression are members of weight 1.
fn is_flat<A: Allocator>(expr: &Expr<A>) -> bool {
    for (weight, child) in children(expr) {
        match child {
            Expr::Member(_) if *weight == 1 => {}
            _ => return false,
        }
    }
    true
}

/// Returns the number of pairs of subexpressions of a claim's two sides. Claims over plain thresholds count less.
fn pairs_of(claim: &ClaimRef<'_>) -> usize {
    let left = &claim.this.read;
    let right = match claim.parent {
        None => &claim.this.write,
        Some(parent) => &parent.read,
    };
    let pairs = size(left).saturating_mul(size(right));
    if is_flat(left) && is_flat(right) {
        pairs / PLAIN
    } else {
        pairs
    }
}

/// Returns how many of `workers` workers are worth their threads for these claims.
pub fn useful_workers(claims: &[ClaimRef<'_>], workers: usize) -> usize
    requires { 0 < workers }
    ensures { (0 < result) × (result ≤ workers) }
{
    if workers == 1 {
        return workers;
    }
    let mut pairs = 0usize;
    for claim in claims {
        pairs = pairs.saturating_add(pairs_of(claim));
    }
    let wanted = (pairs / PAIRS).saturating_add(1);
    wanted.min(claims.len().max(1)).min(workers)
}
