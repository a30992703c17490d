//! Checks that a new plan is the one that was asked for.

ghost use Rattle.std.specs.Prelude.{◌≡◌, [], IfOk, OnOk, get_or, map, true};
ghost use Rattle.volume_model.specs.Common.{at_least, child, no_child, listed};
ghost use Rattle.quorum_expr.specs.Common.{formula_of, weighed};
ghost use Rattle.plan.specs.Common.{configuration_data, plan_data};
ghost use Rattle.plan_edit.specs.NewPlans.{counted, weighing, HasRoot, IsAsked, IsNew, IsRoot, IsWanted, Outlasts, OutlastsOne, OutlastsZones, OutlastsZonesAndOne, tail_read, tail_write};
ghost use Rattle.plan_edit.specs.Renamed.{two_of};

use crate::comparing::is_same_set;
use crate::new_refusal::NewRefusal;
use crate::plan_words::{PlanWords, Quorums};
use crate::refusal::EditRefusal;
use plan::{Configuration, Plan, check_plan, read_plan};
use quorum_checker::stopping_set;
use quorum_expr::{Expr, MEMBERS, MemberSet, holds};
use std::alloc::Global;
use volume_model::Fault;

/// The most losses that are tried for an expression.
const BUDGET: u64 = 1_000_000;

/// Returns whether an expression survives any loss of `lost` members.
fn outlasts(alloc: Global, expr: &Expr<Global>, members: MemberSet, lost: u8) -> Result<bool, Fault>
    ensures { IfOk result (λ b. b ≡ true → Outlasts lost (formula_of expr.now) members) }
{
    match stopping_set(alloc, expr, members, BUDGET)? {
        Some(least) => Ok(least.len() > lost),
        None => Ok(false),
    }
}

/// Returns whether an expression survives the loss of each zone.
fn outlasts_zones(expr: &Expr<Global>, members: MemberSet, zones: &[MemberSet]) -> bool
    ensures { result ≡ true → OutlastsZones zones.now (formula_of expr.now) members }
{
    for i in 0..zones.len() {
        if !holds(expr, members.difference(zones[i])) {
            return false;
        }
    }
    true
}

/// Returns whether an expression survives the loss of a member, whichever it is.
fn outlasts_one(expr: &Expr<Global>, members: MemberSet) -> bool
    ensures { result ≡ true → OutlastsOne (formula_of expr.now) members }
{
    for member in 0..MEMBERS {
        if !holds(expr, members.without(member)) {
            return false;
        }
    }
    true
}

/// Returns whether an expression survives the loss of each zone and of one more member.
fn outlasts_zones_and_one(expr: &Expr<Global>, members: MemberSet, zones: &[MemberSet]) -> bool
    ensures { result ≡ true → OutlastsZonesAndOne zones.now (formula_of expr.now) members }
{
    for i in 0..zones.len() {
        if !outlasts_one(expr, members.difference(zones[i])) {
            return false;
        }
    }
    true
}

/// Returns the members of a set, in growing order.
fn list_of(alloc: Global, members: MemberSet) -> Result<Vec<u8>, Fault>
    ensures { IfOk result (λ v. v.items ≡ listed members) }
{
    let mut list = Vec::new(alloc);
    for member in 0..MEMBERS {
        if members.contains(member) {
            list.push(member)?;
        }
    }
    Ok(list)
}

/// Returns the weight of a member, 1 if none is given.
pub(crate) fn weight_of(weights: &[u8], member: u8) -> u8
    ensures { result ≡ get_or weights.now member 1 }
{
    weights.get(usize::from(member)).copied().unwrap_or(1)
}

/// Returns whether children are these members with their weights.
fn are_weighing(of: &[(u8, Expr<Global>)], weights: &[u8], list: &[u8]) -> bool
    ensures { result ≡ true → weighed formula_of of.now ≡ weighing weights.now list.now }
{
    if of.len() != list.len() {
        return false;
    }
    for i in 0..of.len() {
        let child = &of[i];
        let Expr::Member(member) = &child.1 else {
            return false;
        };
        if *member != list[i] || child.0 != weight_of(weights, list[i]) {
            return false;
        }
    }
    true
}

/// Returns whether an expression is a threshold over members with their weights.
fn is_counted(expr: &Expr<Global>, wanted: u16, weights: &[u8], list: &[u8]) -> bool
    ensures { result ≡ true → formula_of expr.now ≡ at_least wanted (weighing weights.now list.now) }
{
    match expr {
        Expr::Member(_) => false,
        Expr::KOf { k, of } => *k == wanted && are_weighing(of, weights, list),
    }
}

/// Returns whether the expressions of a configuration are thresholds over its members.
fn are_counted(
    alloc: Global,
    configuration: &Configuration,
    read: u16,
    write: u16,
    weights: &[u8],
) -> Result<bool, Fault>
    ensures read { IfOk result (λ b. b ≡ true → (configuration_data configuration.now).read
        ≡ counted read weights.now (configuration_data configuration.now).members) }
    ensures write { IfOk result (λ b. b ≡ true → (configuration_data configuration.now).write
        ≡ counted write weights.now (configuration_data configuration.now).members) }
{
    let list = list_of(alloc, configuration.members)?;
    if !is_counted(&configuration.read, read, weights, &list) {
        return Ok(false);
    }
    Ok(is_counted(&configuration.write, write, weights, &list))
}

/// Returns whether children are two thresholds over members: `first` of all members, and `second` of the full ones.
fn are_two(of: &[(u8, Expr<Global>)], first: u16, all: &[u8], second: u16, full: &[u8]) -> bool
    ensures { result ≡ true → weighed formula_of of.now ≡ child 1 (at_least first (weighing [] all.now))
        (child 1 (at_least second (weighing [] full.now)) no_child) }
{
    if of.len() != 2 {
        return false;
    }
    let (one, other) = (&of[0], &of[1]);
    one.0 == 1
        && other.0 == 1
        && is_counted(&one.1, first, &[], all)
        && is_counted(&other.1, second, &[], full)
}

/// Returns whether an expression asks for `wanted` of two thresholds over members.
fn is_pair(
    expr: &Expr<Global>,
    wanted: u16,
    first: u16,
    all: &[u8],
    second: u16,
    full: &[u8],
) -> bool
    ensures { result ≡ true → formula_of expr.now ≡ two_of wanted (at_least first (weighing [] all.now))
        (at_least second (weighing [] full.now)) }
{
    match expr {
        Expr::Member(_) => false,
        Expr::KOf { k, of } => *k == wanted && are_two(of, first, all, second, full),
    }
}

/// Returns whether the expressions of a configuration have Aurora's full and tail form.
fn are_full_and_tail(
    alloc: Global,
    configuration: &Configuration,
    read: u16,
    write: u16,
) -> Result<bool, Fault>
    ensures read { IfOk result (λ b. b ≡ true → (configuration_data configuration.now).read
        ≡ tail_read read (configuration_data configuration.now).members
        (configuration_data configuration.now).full) }
    ensures write { IfOk result (λ b. b ≡ true → (configuration_data configuration.now).write
        ≡ tail_write write (configuration_data configuration.now).members
        (configuration_data configuration.now).full) }
{
    let all = list_of(alloc, configuration.members)?;
    let full = list_of(alloc, configuration.full)?;
    let Ok(count) = u16::try_from(full.len()) else {
        return Ok(false);
    };
    if !is_pair(&configuration.read, 2, read, &all, 1, &full) {
        return Ok(false);
    }
    Ok(is_pair(&configuration.write, 1, write, &all, count, &full))
}

/// Returns whether both expressions of a configuration survive any loss of `lost` members.
fn are_outlasting(alloc: Global, configuration: &Configuration, lost: u8) -> Result<bool, Fault>
    ensures { IfOk result (λ b. b ≡ true → IsAsked (Quorums.Surviving lost)
        (configuration_data configuration.now)) }
{
    let members = configuration.members;
    if !outlasts(alloc, &configuration.read, members, lost)? {
        return Ok(false);
    }
    outlasts(alloc, &configuration.write, members, lost)
}

/// Returns whether both expressions of a configuration survive the loss of each zone, and the read expression that of
/// one more member too.
fn are_outlasting_zones(
    configuration: &Configuration,
    zones: &[MemberSet],
    is_one_more: bool,
) -> bool
    ensures { result ≡ true → IsAsked (Quorums.Zones zones.entry is_one_more)
        (configuration_data configuration.now) }
{
    let members = configuration.members;
    if !outlasts_zones(&configuration.write, members, zones) {
        return false;
    }
    if is_one_more {
        return outlasts_zones_and_one(&configuration.read, members, zones);
    }
    outlasts_zones(&configuration.read, members, zones)
}

/// Returns whether the expressions of a configuration are the ones that are asked for, or survive what is asked.
fn is_asked(
    alloc: Global,
    configuration: &Configuration,
    words: &PlanWords<'_>,
) -> Result<bool, Fault>
    ensures { IfOk result (λ b. b ≡ true → IsAsked words.now.quorums (configuration_data configuration.now)) }
{
    match words.quorums {
        Quorums::Counted {
            read,
            write,
            weights,
        } => are_counted(alloc, configuration, read, write, weights),
        Quorums::FullAndTail { read, write } => are_full_and_tail(
            alloc,
            configuration,
            read,
            write,
        ),
        Quorums::Surviving(lost) => are_outlasting(alloc, configuration, lost),
        Quorums::Zones { zones, is_one_more } => {
            Ok(are_outlasting_zones(configuration, zones, is_one_more))
        }
    }
}

/// Returns whether a configuration is the one that is asked for.
fn is_root(
    alloc: Global,
    configuration: &Configuration,
    words: &PlanWords<'_>,
) -> Result<bool, Fault>
    ensures { IfOk result (λ b. b ≡ true → IsRoot words.now (configuration_data configuration.now)) }
{
    if configuration.parent.is_some()
        || !is_same_set(configuration.members, words.members)
        || !is_same_set(configuration.full, words.members.difference(words.tail))
    {
        return Ok(false);
    }
    is_asked(alloc, configuration, words)
}

/// Returns whether a group has one configuration, the one that is asked for.
fn has_root(
    alloc: Global,
    configurations: &[Configuration],
    words: &PlanWords<'_>,
) -> Result<bool, Fault>
    ensures { IfOk result (λ b. b ≡ true → HasRoot words.now (map configuration_data configurations.now)) }
{
    if configurations.len() != 1 {
        return Ok(false);
    }
    is_root(alloc, &configurations[0], words)
}

/// Returns whether a plan is the one that is asked for.
fn is_wanted(alloc: Global, new: &Plan, words: &PlanWords<'_>) -> Result<bool, Fault>
    ensures { IfOk result (λ b. b ≡ true → IsWanted words.now (plan_data new.now)) }
{
    if new.lal != words.lal
        || new.born != words.born
        || new.groups.len() != usize::from(words.groups)
    {
        return Ok(false);
    }
    for g in 0..new.groups.len() {
        let group = &new.groups[g];
        if !has_root(alloc, &group.configurations, words)? {
            return Ok(false);
        }
    }
    Ok(true)
}

/// Checks that a line is the text of a plan without a fault: of the one that is asked for.
///
/// # Errors
/// The first fault of the text; `Defect` if its plan is another one; the first fault of the plan.
pub fn check_new(alloc: Global, words: &PlanWords<'_>, line: &[u8]) -> Result<(), NewRefusal>
    ensures { OnOk result (IsNew words.now line.now) }
{
    let new = read_plan(alloc, line)?;
    if !is_wanted(alloc, &new, words)? {
        return Err(NewRefusal::Plan(EditRefusal::Defect));
    }
    match check_plan(alloc, new) {
        Ok(_checked) => Ok(()),
        Err(refused) => Err(NewRefusal::from(refused.0)),
    }
}
