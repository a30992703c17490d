//! Finds claims that are true because enough members are equal.

ghost use Rattle.std.specs.Prelude.{◌≡◌, ◌<◌, ◌≤◌, IfOk, IfSome, None, Ok, length, true};
ghost use Rattle.volume_model.specs.Common.{Gives};
ghost use Rattle.quorum_expr.specs.Common.{formula_of, formulas_of, expression_fault};
ghost use Rattle.refutation.specs.Common.{rule_of, rules_of, is_certificate, branches_of, pair_up};
ghost use Rattle.cert_search.specs.Plain.{clashes, equal_pairs, is_member, pair_at, place_of, plain_rule};

use quorum_checker::children;
use quorum_expr::Expr;
use refutation::Refutation;
use std::alloc::Allocator;
use volume_model::Fault;

/// Returns whether an expression is this member.
pub fn is_member<A: Allocator>(member: u8, expr: &Expr<A>) -> bool
    ensures { result ≡ is_member member (formula_of expr.now) }
{
    match expr {
        Expr::Member(own) => *own == member,
        Expr::KOf { .. } => false,
    }
}

/// Returns the place of the first expression that is this member.
fn place_of<A: Allocator>(member: u8, others: &[(u8, Expr<A>)]) -> Option<usize>
    ensures within { IfSome result (λ j. j < length others.now) }
    ensures place { result ≡ place_of member (formulas_of others.now) }
{
    for (j, (_, other)) in others.iter().enumerate() {
        if is_member(member, other) {
            return Some(j);
        }
    }
    None
}

/// Returns the place of a member, and the place of an equal one among the others, if there is one.
fn pair_at<A: Allocator>(i: u8, child: &Expr<A>, others: &[(u8, Expr<A>)]) -> Option<(u8, u8)>
    requires { length others.now ≤ 64 }
    ensures { result ≡ pair_at i (formula_of child.now) (formulas_of others.now) }
{
    match child {
        Expr::Member(member) => place_of(*member, others).map(|j| (i, j as u8)),
        Expr::KOf { .. } => None,
    }
}

/// Returns the pairs of places of equal members of two lists.
fn equal_pairs<A: Allocator, B: Allocator + Clone>(
    arena: &B,
    of: &[(u8, Expr<A>)],
    others: &[(u8, Expr<A>)],
) -> Result<Vec<(u8, u8), B>, Fault>
    requires { (length of.now ≤ 64) × (length others.now ≤ 64) }
    ensures pairs { Gives (λ v. v.items) result (Ok (equal_pairs 0 (formulas_of of.now) (formulas_of others.now))) }
    ensures few { IfOk result (λ v. length v.items ≤ 64) }
{
    let mut pairs = Vec::with_capacity(arena.clone()?, of.len().min(others.len()))?;
    for (i, (_, child)) in of.iter().enumerate() {
        if let Some(pair) = pair_at(i as u8, child, others) {
            pairs.push(pair)?;
        }
    }
    Ok(pairs)
}

/// Returns a clash of the only items for each pair.
fn clashes<B: Allocator + Clone>(
    arena: &B,
    pairs: &[(u8, u8)],
) -> Result<Vec<Refutation<B>, B>, Fault>
    ensures { Gives (λ v. rules_of v.items) result (Ok (clashes pairs.now)) }
{
    let mut then = Vec::with_capacity(arena.clone()?, pairs.len())?;
    for _ in pairs {
        then.push(Refutation::Clash { left: 0, right: 0 })?;
    }
    Ok(then)
}

/// Returns a match of the only items.
fn only_match<B: Allocator>(pairs: Vec<(u8, u8), B>, then: Vec<Refutation<B>, B>) -> Refutation<B>
    ensures { rule_of result ≡ pair_up 0 0 pairs.items (branches_of (rules_of then.items)) }
{
    Refutation::Match {
        left: 0,
        right: 0,
        pairs,
        then,
    }
}

/// Returns the match of all pairs of equal members, each closed by a clash.
pub fn plain_tree<A: Allocator, B: Allocator + Clone>(
    arena: &B,
    left: &Expr<A>,
    right: &Expr<A>,
) -> Result<Refutation<B>, Fault>
    requires left { expression_fault (formula_of left.now) ≡ None }
    requires right { expression_fault (formula_of right.now) ≡ None }
    ensures rule { Gives rule_of result (Ok (plain_rule (formula_of left.now) (formula_of right.now))) }
    ensures within { IfOk result (λ tree. is_certificate (rule_of tree) ≡ true) }
{
    let pairs = equal_pairs(arena, children(left), children(right))?;
    let then = clashes(arena, pairs.as_slice())?;
    Ok(only_match(pairs, then))
}
