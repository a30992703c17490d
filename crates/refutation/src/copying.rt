//! Copies refutations into another allocator.

ghost use Rattle.std.specs.Prelude.{Ok};
ghost use Rattle.volume_model.specs.Common.{Gives};
ghost use Rattle.refutation.specs.Rule.{open_all, pick, pair_up, split, branches_of};
ghost use Rattle.refutation.specs.Refutation.{rule_of};
ghost use Rattle.refutation.specs.Forms.{rules_of};

use crate::{Refutation, Side};
use std::alloc::Allocator;
use volume_model::Fault;

/// Copies a list of numbers.
fn copy_list<T: Copy, B: Allocator + Clone>(numbers: &[T], alloc: &B) -> Result<Vec<T, B>, Fault>
    ensures { Gives (λ v. v.items) result (Ok numbers.now) }
{
    let mut copy = Vec::new(alloc.clone()?);
    copy.extend_from_slice(numbers)?;
    Ok(copy)
}

/// Moves a refutation into a box.
#[inline]
fn boxed<B: Allocator + Clone>(
    rule: Refutation<B>,
    alloc: &B,
) -> Result<Box<Refutation<B>, B>, Fault>
    ensures { Gives (λ b. b.value) result (Ok rule) }
{
    Ok(Box::new(alloc.clone()?, rule)?)
}

fn copy_open<B: Allocator + Clone>(
    side: Side,
    item: u16,
    then: Refutation<B>,
    alloc: &B,
) -> Result<Refutation<B>, Fault>
    ensures { Gives rule_of result (Ok (open_all side item (rule_of then))) }
{
    let then = boxed(then, alloc)?;
    Ok(Refutation::Open { side, item, then })
}

fn copy_split<B: Allocator + Clone>(
    member: u8,
    left: Refutation<B>,
    right: Refutation<B>,
    alloc: &B,
) -> Result<Refutation<B>, Fault>
    ensures { Gives rule_of result (Ok (split member (rule_of left) (rule_of right))) }
{
    let left = boxed(left, alloc)?;
    let right = boxed(right, alloc)?;
    Ok(Refutation::Split {
        member,
        left,
        right,
    })
}

fn copy_pick<B: Allocator + Clone>(
    side: Side,
    item: u16,
    children: &[u8],
    then: Vec<Refutation<B>, B>,
    alloc: &B,
) -> Result<Refutation<B>, Fault>
    ensures { Gives rule_of result (Ok (pick side item children.now (branches_of (rules_of then.items)))) }
{
    let children = copy_list(children, alloc)?;
    Ok(Refutation::Pick {
        side,
        item,
        children,
        then,
    })
}

fn copy_match<B: Allocator + Clone>(
    left: u16,
    right: u16,
    pairs: &[(u8, u8)],
    then: Vec<Refutation<B>, B>,
    alloc: &B,
) -> Result<Refutation<B>, Fault>
    ensures { Gives rule_of result (Ok (pair_up left right pairs.now (branches_of (rules_of then.items)))) }
{
    let pairs = copy_list(pairs, alloc)?;
    Ok(Refutation::Match {
        left,
        right,
        pairs,
        then,
    })
}

/// Copies a refutation.
#[cycle(copy)]
pub fn copy_tree<A: Allocator, B: Allocator + Clone>(
    rule: &Refutation<A>,
    alloc: &B,
) -> Result<Refutation<B>, Fault>
    ensures { Gives rule_of result (Ok (rule_of rule.now)) }
{
    match rule {
        Refutation::Dead { side, item } => Ok(Refutation::Dead {
            side: *side,
            item: *item,
        }),
        Refutation::Clash { left, right } => Ok(Refutation::Clash {
            left: *left,
            right: *right,
        }),
        Refutation::Open { side, item, then } => {
            let copy = copy_tree(then, alloc)?;
            copy_open(*side, *item, copy, alloc)
        }
        Refutation::Pick {
            side,
            item,
            children,
            then,
        } => {
            let copies = copy_branches(then, alloc)?;
            copy_pick(*side, *item, children, copies, alloc)
        }
        Refutation::Match {
            left,
            right,
            pairs,
            then,
        } => {
            let copies = copy_branches(then, alloc)?;
            copy_match(*left, *right, pairs, copies, alloc)
        }
        Refutation::Split {
            member,
            left,
            right,
        } => {
            let first = copy_tree(left, alloc)?;
            let second = copy_tree(right, alloc)?;
            copy_split(*member, first, second, alloc)
        }
    }
}

#[cycle(copy)]
fn copy_branches<A: Allocator, B: Allocator + Clone>(
    then: &[Refutation<A>],
    alloc: &B,
) -> Result<Vec<Refutation<B>, B>, Fault>
    ensures { Gives (λ v. rules_of v.items) result (Ok (rules_of then.now)) }
{
    let mut copies = Vec::new(alloc.clone()?);
    for rule in then {
        copies.push(copy_tree(rule, alloc)?)?;
    }
    Ok(copies)
}
