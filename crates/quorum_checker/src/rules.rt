//! The check of a refutation, rule by rule.

ghost use Rattle.std.specs.Prelude.{◌≡◌, ◌+◌, ◌<◌, ◌≤◌, map, OnOk};
ghost use Rattle.refutation.specs.Common.{dead, clash, open_all, pick, pair_up, branches_of, depth_of, HasLimits, rule_of};
ghost use Rattle.quorum_checker.specs.Items.{state_of};
ghost use Rattle.quorum_checker.specs.Refutes.{without};
ghost use Rattle.quorum_checker.specs.FirstFault.{first_fault, under};
ghost use Rattle.quorum_checker.specs.Outcome.{Answers};

use crate::fault::{FaultAt, inside};
use crate::items::Items;
use crate::node::{fault_of_clash, fault_of_dead, fault_of_match, fault_of_open, fault_of_pick};
use refutation::{Refutation, Side, branch_count_of};
use std::alloc::Allocator;

fn check_dead<A: Allocator>(side: Side, item: u16, items: &Items<'_, A>) -> Result<(), FaultAt>
    ensures { Answers result (first_fault (dead side item) (state_of items.now)) 1 }
{
    let target = items.item(side, item)?;
    match fault_of_dead(target, items.absent(side)) {
        Some(fault) => Err(FaultAt::here(fault)),
        None => Ok(()),
    }
}

fn check_clash<A: Allocator>(left: u16, right: u16, items: &Items<'_, A>) -> Result<(), FaultAt>
    ensures { Answers result (first_fault (clash left right) (state_of items.now)) 1 }
{
    let one = items.item(Side::Left, left)?;
    let other = items.item(Side::Right, right)?;
    match fault_of_clash(one, other) {
        Some(fault) => Err(FaultAt::here(fault)),
        None => Ok(()),
    }
}

/// Checks a rule against a state. The state is unchanged if the rule has no fault.
#[cycle(rules)]
pub fn check_rule<A: Allocator, B: Allocator>(
    rule: &Refutation<B>,
    items: &mut Items<'_, A>,
) -> Result<(), FaultAt>
    requires depth { depth_of (rule_of rule.now) ≤ 40 }
    requires limits { HasLimits (rule_of rule.now) }
    ensures answers { Answers result (first_fault (rule_of rule.now) (state_of items.old))
        (depth_of (rule_of rule.now)) }
    ensures kept { OnOk result (state_of items.new ≡ state_of items.old) }
{
    match rule {
        Refutation::Dead { side, item } => check_dead(*side, *item, items),
        Refutation::Clash { left, right } => check_clash(*left, *right, items),
        Refutation::Open { side, item, then } => check_open(*side, *item, then, items),
        Refutation::Pick {
            side,
            item,
            children,
            then,
        } => check_pick(*side, *item, children, then, items),
        Refutation::Match {
            left,
            right,
            pairs,
            then,
        } => check_match(*left, *right, pairs, then, items),
        Refutation::Split {
            member,
            left,
            right,
        } => {
            match check_case(0, Side::Left, *member, left, items) {
                Ok(()) => check_case(1, Side::Right, *member, right, items),
                Err(e) => Err(e),
            }
        }
    }
}

/// Checks the branch in which one more member is absent from a side.
#[cycle(rules)]
fn check_case<A: Allocator, B: Allocator>(
    branch: u8,
    side: Side,
    member: u8,
    then: &Refutation<B>,
    items: &mut Items<'_, A>,
) -> Result<(), FaultAt>
    requires depth { 1 + depth_of (rule_of then.now) ≤ 40 }
    requires limits { HasLimits (rule_of then.now) }
    requires member { member < 64 }
    ensures answers { Answers result
        (under branch (first_fault (rule_of then.now) (without side member (state_of items.old))))
        (1 + depth_of (rule_of then.now)) }
    ensures kept { OnOk result (state_of items.new ≡ state_of items.old) }
{
    let absent = items.absent(side);
    items.set_absent(side, absent.with(member));
    match inside(branch, check_rule(then, items)) {
        Ok(()) => {
            items.set_absent(side, absent);
            Ok(())
        }
        Err(e) => Err(e),
    }
}

#[cycle(rules)]
fn check_open<A: Allocator, B: Allocator>(
    side: Side,
    item: u16,
    then: &Refutation<B>,
    items: &mut Items<'_, A>,
) -> Result<(), FaultAt>
    requires depth { 1 + depth_of (rule_of then.now) ≤ 40 }
    requires limits { HasLimits (rule_of then.now) }
    ensures answers { Answers result (first_fault (open_all side item (rule_of then.now)) (state_of items.old))
        (1 + depth_of (rule_of then.now)) }
    ensures kept { OnOk result (state_of items.new ≡ state_of items.old) }
{
    let target = items.item(side, item)?;
    if let Some(fault) = fault_of_open(target) {
        return Err(FaultAt::here(fault));
    }
    let kept = items.take_out(side, item);
    items.push_children(side, target)?;
    match inside(0, check_rule(then, items)) {
        Ok(()) => {
            items.truncate(side, kept);
            items.put_back(side, item, target)
        }
        Err(e) => Err(e),
    }
}

#[cycle(rules)]
fn check_pick<A: Allocator, B: Allocator>(
    side: Side,
    item: u16,
    picked: &[u8],
    then: &[Refutation<B>],
    items: &mut Items<'_, A>,
) -> Result<(), FaultAt>
    requires depth { depth_of (pick side item picked.now (branches_of (map rule_of then.now))) ≤ 40 }
    requires limits { HasLimits (pick side item picked.now (branches_of (map rule_of then.now))) }
    ensures answers { Answers result (first_fault (pick side item picked.now (branches_of (map rule_of then.now)))
        (state_of items.old)) (depth_of (pick side item picked.now (branches_of (map rule_of then.now)))) }
    ensures kept { OnOk result (state_of items.new ≡ state_of items.old) }
{
    let target = items.item(side, item)?;
    if let Some(fault) = fault_of_pick(target, picked, branch_count_of(then)) {
        return Err(FaultAt::here(fault));
    }
    let kept = items.take_out(side, item);
    for (n, branch) in then.iter().enumerate() {
        items.push(side, target.child(picked[n]))?;
        let outcome = check_rule(branch, items);
        match inside(n as u8, outcome) {
            Ok(()) => {}
            Err(e) => return Err(e),
        }
        items.truncate(side, kept);
    }
    items.put_back(side, item, target)
}

#[cycle(rules)]
fn check_match<A: Allocator, B: Allocator>(
    left: u16,
    right: u16,
    pairs: &[(u8, u8)],
    then: &[Refutation<B>],
    items: &mut Items<'_, A>,
) -> Result<(), FaultAt>
    requires depth { depth_of (pair_up left right pairs.now (branches_of (map rule_of then.now))) ≤ 40 }
    requires limits { HasLimits (pair_up left right pairs.now (branches_of (map rule_of then.now))) }
    ensures answers { Answers result (first_fault (pair_up left right pairs.now (branches_of (map rule_of then.now)))
        (state_of items.old)) (depth_of (pair_up left right pairs.now (branches_of (map rule_of then.now)))) }
    ensures kept { OnOk result (state_of items.new ≡ state_of items.old) }
{
    let one = items.item(Side::Left, left)?;
    let other = items.item(Side::Right, right)?;
    if let Some(fault) = fault_of_match(one, other, pairs, branch_count_of(then)) {
        return Err(FaultAt::here(fault));
    }
    let kept = items.take_out(Side::Left, left);
    let also = items.take_out(Side::Right, right);
    for (n, branch) in then.iter().enumerate() {
        let pair = pairs[n];
        items.push(Side::Left, one.child(pair.0))?;
        items.push(Side::Right, other.child(pair.1))?;
        let outcome = check_rule(branch, items);
        match inside(n as u8, outcome) {
            Ok(()) => {}
            Err(e) => return Err(e),
        }
        items.truncate(Side::Left, kept);
        items.truncate(Side::Right, also);
    }
    items.put_back(Side::Left, left, one)?;
    items.put_back(Side::Right, right, other)
}
