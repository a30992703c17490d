//! Reads expressions from JSON nodes.

ghost use Rattle.std.specs.Prelude.{◌≡◌, ◌≤◌, ◌+◌, ◌-◌, ◌&&◌, ◌≢◌, Ok, None, IfOk, IfErr, map, nat_lt, true, min, ◌==◌};
ghost use Rattle.std.specs.FinSet as set;
ghost use Rattle.serde_json.specs.View.{view};
ghost use Rattle.serde_json.specs.Events.{items_len};
ghost use Rattle.volume_model.specs.Common.{Gives, each_once, listed};
ghost use Rattle.volume_model.specs.Formula.{member};
ghost use Rattle.quorum_expr.specs.Expr.{formula_of};
ghost use Rattle.quorum_expr.specs.Valid.{nodes, row_nodes, expression_fault};
ghost use Rattle.quorum_expr.specs.Reading.{at_key, whole_of, child_list_of, child_count, whole_list_of, weights_of, good_keys, good_row, choice_of, form_of, children_at, formula_from, formula_at, expression_in};
ghost use Rattle.quorum_expr.specs.Nodes.{items_in};
ghost use Rattle.quorum_expr.specs.Forms.{child_list, form_data, formulas_of, weights_data, HaveWeights};

use crate::counting::count_items;
use crate::expression::{Expr, wide};
use crate::form::{Children, Form, ListName, Lists, Weights};
use crate::member_set::{MEMBERS, MemberSet};
use crate::node::Node;
use crate::validity::{LEVELS, NODES};
use serde_json::Value;
use std::alloc::Global;
use volume_model::Fault;

/// Returns the value at a key of an object.
///
/// # Errors
/// [`Fault::Malformed`] if there is none, or the node isn't an object.
#[inline(always)]
pub fn value_at<N: Node>(value: &N, key: &str) -> Result<N, Fault>
    ensures { Gives N.means result (at_key key.now (N.means value.now)) }
{
    match value.get(key) {
        Some(found) => Ok(found),
        None => Err(Fault::Malformed),
    }
}

/// Returns a whole number from 0.
///
/// # Errors
/// [`Fault::Malformed`] for any other value.
#[inline(always)]
pub fn whole<N: Node>(value: &N) -> Result<u64, Fault>
    ensures given { Gives (λ n. n) result (whole_of (N.means value.now)) }
    ensures own { IfErr result (λ fault. fault ≢ Fault.NoMemory) }
{
    match value.as_u64() {
        Some(n) => Ok(n),
        None => Err(Fault::Malformed),
    }
}

/// Reads the value of the key `of`.
fn children<N: Node>(value: N) -> Result<Children<N>, Fault>
    ensures { Gives (child_list N.means) result (child_list_of (N.means value)) }
{
    match value.items() {
        Some(_) => Ok(Children::Each(value)),
        None => {
            if value.is_text("all") {
                Ok(Children::Named(ListName::All))
            } else if value.is_text("full") {
                Ok(Children::Named(ListName::Full))
            } else if value.is_text("tail") {
                Ok(Children::Named(ListName::Tail))
            } else {
                Err(Fault::Malformed)
            }
        }
    }
}

/// Reads an array of whole numbers.
fn wholes<N: Node>(alloc: Global, value: &N) -> Result<Vec<u64>, Fault>
    ensures { Gives (λ v. v.items) result (whole_list_of (N.means value.now)) }
{
    let Some(mut rest) = value.items() else {
        return Err(Fault::Malformed);
    };
    let mut numbers = Vec::new(alloc);
    'numbers: while let Some(value) = N::next(&mut rest) {
        match value.as_u64() {
            Some(number) => numbers.push(number)?,
            None => return Err(Fault::Malformed),
        }
    }
    Ok(numbers)
}

/// Returns whether an array has `count` items; any other value counts as an empty one.
fn has_count<N: Node>(list: &N, count: usize) -> bool
    ensures { result ≡ (count == items_len (items_in (N.means list.now))) }
{
    let Some(mut rest) = list.items() else {
        return count == 0;
    };
    for _number in 0..count {
        match N::next(&mut rest) {
            Some(_) => {}
            None => return false,
        }
    }
    match N::next(&mut rest) {
        Some(_) => false,
        None => true,
    }
}

/// Returns whether there are `count` children.
fn has_children<N: Node>(lists: &Lists, list: &Children<N>, count: usize) -> bool
    ensures { result ≡ (count == child_count lists.now (child_list N.means list.now)) }
{
    match list {
        Children::Each(list) => has_count(list, count),
        Children::Named(name) => count == usize::from(lists.named(*name).len()),
    }
}

/// Reads the weights of a threshold's children from an object with `keys` keys.
#[tactic(auto, unfolding(crate::specs::Reading::weights_of))]
fn weights<N: Node>(
    alloc: Global,
    lists: &Lists,
    value: &N,
    keys: usize,
    list: &Children<N>,
) -> Result<Weights, Fault>
    ensures { Gives weights_data result (weights_of keys (child_count lists.now (child_list N.means list.now))
        (N.means value.now)) }
{
    if keys == 2 {
        return Ok(Weights::Once);
    }
    let found = value_at(value, "weights")?;
    let numbers = wholes(alloc, &found)?;
    if !has_children(lists, list, numbers.len()) {
        return Err(Fault::Malformed);
    }
    Ok(Weights::Each(numbers))
}

#[tactic(auto, unfolding(crate::specs::Reading::choice_of))]
fn choice<N: Node>(alloc: Global, lists: &Lists, keys: usize, value: &N) -> Result<Form<N>, Fault>
    ensures { Gives (form_data N.means) result (choice_of lists.now keys (N.means value.now)) }
{
    let first = value_at(value, "k")?;
    let k = whole(&first)?;
    let second = value_at(value, "of")?;
    let of = children(second)?;
    let weights = weights(alloc, lists, value, keys, &of)?;
    Ok(Form::Choice(k, of, weights))
}

/// Returns whether an object of `keys` keys may be a threshold.
fn is_good_keys(is_weighted: bool, keys: usize) -> bool
    ensures { result ≡ good_keys is_weighted keys }
{
    keys == 2 || (is_weighted && keys == 3)
}

/// Reads one level of a node.
fn form_at<N: Node>(alloc: Global, lists: &Lists, value: &N) -> Result<Form<N>, Fault>
    ensures { Gives (form_data N.means) result (form_of lists.now (N.means value.now)) }
{
    if value.is_number() {
        return Ok(Form::Single(whole(value)?));
    }
    let Some(keys) = value.keys(4) else {
        return Err(Fault::Malformed);
    };
    if !is_good_keys(lists.is_weighted, keys) {
        return Err(Fault::Malformed);
    }
    choice(alloc, lists, keys, value)
}

fn is_member(members: MemberSet, n: u64) -> bool
    ensures { result ≡ (nat_lt n 64 && set.contains members n) }
{
    n < u64::from(MEMBERS) && members.contains(n as u8)
}

/// Counts the children, up to 65.
fn child_count<N: Node>(lists: &Lists, list: &Children<N>) -> usize
    ensures { result ≡ min (child_count lists.now (child_list N.means list.now)) 65 }
{
    match list {
        Children::Each(list) => count_items(list, 65),
        Children::Named(name) => usize::from(lists.named(*name).len()),
    }
}

/// Returns whether there are at most 64 children, their weights are from 1 to 255, and the threshold is from 1 to the
/// sum of the weights.
fn is_good_row(k: u64, count: usize, weights: &Weights) -> bool
    ensures good { result ≡ good_row k count (weights_data weights.now) }
    ensures small { result ≡ true → k ≤ 16320 }
{
    if count > 64 {
        return false;
    }
    let mut all = 0u128;
    for number in 0..count {
        let weight = weights.at(number);
        if weight == 0 {
            return false;
        }
        all += wide(weight);
    }
    1 <= k && u128::from(k) <= all
}

/// Returns whether a threshold is valid for its children and their weights.
fn is_good_threshold<N: Node>(lists: &Lists, k: u64, list: &Children<N>, weights: &Weights) -> bool
    ensures good { result ≡ good_row k (child_count lists.now (child_list N.means list.now))
        (weights_data weights.now) }
    ensures small { result ≡ true → k ≤ 16320 }
{
    is_good_row(k, child_count(lists, list), weights)
}

/// Returns an expression for each member of a set, in growing order.
fn each_member(
    alloc: Global,
    members: MemberSet,
    weights: &Weights,
    room: &mut u32,
) -> Result<Vec<(u8, Expr<Global>)>, Fault>
    ensures read { Gives (λ v. formulas_of v.items) result (Ok (map member (listed members))) }
    ensures weights { IfOk result (λ v. HaveWeights (weights_data weights.now) 0 v.items) }
    ensures counted { IfOk result (λ v. room.new ≡ room.old - row_nodes (each_once (formulas_of v.items))) }
{
    let mut of = Vec::with_capacity(alloc, usize::from(members.len()))?;
    let mut rest = members;
    while let Some(m) = rest.first() {
        of.push((weights.at(of.len()), Expr::Member(m)))?;
        *room = room.saturating_sub(1);
        rest = rest.without(m);
    }
    Ok(of)
}

/// Reads an expression of at most `left` levels. Subtracts its nodes from `room`, down to 0.
#[cycle(tree)]
fn tree<N: Node>(
    alloc: Global,
    lists: &Lists,
    left: u8,
    value: &N,
    room: &mut u32,
) -> Result<Expr<Global>, Fault>
    ensures read { Gives formula_of result (formula_at lists.now left (N.means value.now)) }
    ensures counted { IfOk result (λ e. room.new ≡ room.old - nodes (formula_of e)) }
{
    let form = form_at(alloc, lists, value)?;
    if left == 0 {
        return Err(Fault::TooDeep);
    }
    tree_of_form(alloc, lists, left - 1, &form, room)
}

#[cycle(tree)]
fn tree_of_form<N: Node>(
    alloc: Global,
    lists: &Lists,
    left: u8,
    form: &Form<N>,
    room: &mut u32,
) -> Result<Expr<Global>, Fault>
    ensures read { Gives formula_of result (formula_from lists.now left (formula_at lists.now left)
        (form_data N.means form.now)) }
    ensures counted { IfOk result (λ e. room.new ≡ room.old - nodes (formula_of e)) }
{
    match form {
        Form::Single(n) => {
            if !is_member(lists.members, *n) {
                return Err(Fault::NotAMember);
            }
            *room = room.saturating_sub(1);
            Ok(Expr::Member(*n as u8))
        }
        Form::Choice(k, list, weights) => {
            if !is_good_threshold(lists, *k, list, weights) {
                return Err(Fault::BadCount);
            }
            *room = room.saturating_sub(1);
            let of = child_trees(alloc, lists, left, list, weights, room)?;
            Ok(Expr::KOf { k: *k as u16, of })
        }
    }
}

#[cycle(tree)]
fn child_trees<N: Node>(
    alloc: Global,
    lists: &Lists,
    left: u8,
    list: &Children<N>,
    weights: &Weights,
    room: &mut u32,
) -> Result<Vec<(u8, Expr<Global>)>, Fault>
    ensures read { Gives (λ v. formulas_of v.items) result (children_at lists.now left (formula_at lists.now left)
        (child_list N.means list.now)) }
    ensures weights { IfOk result (λ v. HaveWeights (weights_data weights.now) 0 v.items) }
    ensures counted { IfOk result (λ v. room.new ≡ room.old - row_nodes (each_once (formulas_of v.items))) }
{
    match list {
        Children::Named(name) => {
            if left == 0 {
                return Err(Fault::TooDeep);
            }
            each_member(alloc, lists.named(*name), weights, room)
        }
        Children::Each(list) => {
            let Some(mut rest) = list.items() else {
                return Ok(Vec::new(alloc));
            };
            let mut of = Vec::new(alloc);
            'children: while let Some(value) = N::next(&mut rest) {
                let weight = weights.at(of.len());
                of.push((weight, tree(alloc, lists, left, &value, room)?))?;
            }
            Ok(of)
        }
    }
}

/// Reads the expression of a node; `lists` has the members that it may name.
///
/// # Errors
/// Those of [`read_expr`].
#[tactic(auto, unfolding(crate::specs::Reading::expression_in))]
pub fn read_expr_at<N: Node>(alloc: Global, node: &N, lists: &Lists) -> Result<Expr<Global>, Fault>
    ensures read { Gives formula_of result (expression_in lists.now (N.means node.now)) }
    ensures valid { IfOk result (λ e. expression_fault (formula_of e) ≡ None) }
{
    // Starts at one more than the limit: room is left exactly if the limit isn't passed.
    let mut room = NODES + 1;
    let expr = tree(alloc, lists, LEVELS, node, &mut room)?;
    if room == 0 {
        return Err(Fault::OverLimit);
    }
    Ok(expr)
}

/// Returns the expression of a value; `lists` has the members that it may name.
///
/// # Errors
/// The first fault, outer ones before inner ones and children in order:
/// - [`Fault::Malformed`] if a node has another shape, or another number of weights than of children;
/// - [`Fault::TooDeep`] for a seventh level;
/// - [`Fault::BadCount`] if a threshold has more than 64 children, a weight that isn't from 1 to 255, or isn't from 1
///   to the sum of its weights itself;
/// - [`Fault::NotAMember`] for a number that isn't a member;
/// - [`Fault::OverLimit`] for more than 4,096 nodes, which are counted last. A named list counts as its members.
pub fn read_expr(alloc: Global, value: &Value, lists: &Lists) -> Result<Expr<Global>, Fault>
    ensures read { Gives formula_of result (expression_in lists.now (view value.now)) }
    ensures valid { IfOk result (λ e. expression_fault (formula_of e) ≡ None) }
{
    read_expr_at(alloc, &value, lists)
}
