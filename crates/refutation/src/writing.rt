//! Writes certificates as JSON.

ghost use Rattle.std.specs.Prelude.{◌≡◌, ◌≤◌, All, IfOk, OnOk, Ok, codes, map};
ghost use Rattle.volume_model.specs.Common.{Gives};
ghost use Rattle.serde_json.specs.Data.{depth, string, no_members, put as with_member};
ghost use Rattle.serde_json.specs.View.{view, items_view, members_view};
ghost use Rattle.refutation.specs.Rule.{branches_of};
ghost use Rattle.refutation.specs.Refutation.{rule_of};
ghost use Rattle.refutation.specs.Certificate.{certificate_rule};
ghost use Rattle.refutation.specs.Ranges.{IsPairInRange, HasRanges, EachHasRanges};
ghost use Rattle.refutation.specs.Reading.{certificate_in};
ghost use Rattle.refutation.specs.Writing.{side_text, number_data, numbers_data, pair_data, pairs_data, dead_data, clash_data, open_data, pick_data, match_data, split_data, certificate_data, branches_data};

use crate::certificate::Certificate;
use crate::json::with;
use crate::{Refutation, Side};
use serde_json::{Map, Value};
use std::alloc::{AllocError, Allocator, Global};
use volume_model::Fault;

fn side_name(side: Side) -> &'static str
    ensures { result.now ≡ side_text side }
{
    match side {
        Side::Left => "left",
        Side::Right => "right",
    }
}

/// Returns an object with the name of a rule.
fn named(alloc: Global, name: &str) -> Result<Map<String, Value>, AllocError>
    ensures { IfOk result (λ m. members_view m.entries ≡ with_member (codes "rule") (string name.now) no_members) }
{
    let name = Value::try_from_str(alloc, name)?;
    with(alloc, Map::new(alloc), "rule", name)
}

/// Returns the keys and values that all rules about an item of one side have.
fn at_side(
    alloc: Global,
    name: &str,
    side: Side,
    item: u16,
) -> Result<Map<String, Value>, AllocError>
    ensures written { IfOk result (λ m. members_view m.entries ≡ with_member (codes "item") (number_data item)
        (with_member (codes "side") (string (side_text side)) (with_member (codes "rule") (string name.now)
        no_members))) }
    ensures range { item ≤ 65535 }
{
    let map = named(alloc, name)?;
    let side = Value::try_from_str(alloc, side_name(side))?;
    let map = with(alloc, map, "side", side)?;
    with(alloc, map, "item", Value::from(u64::from(item)))
}

/// Returns the keys and values that all rules about an item of each side have.
fn at_both(
    alloc: Global,
    name: &str,
    left: u16,
    right: u16,
) -> Result<Map<String, Value>, AllocError>
    ensures written { IfOk result (λ m. members_view m.entries ≡ with_member (codes "right") (number_data right)
        (with_member (codes "left") (number_data left) (with_member (codes "rule") (string name.now) no_members))) }
    ensures left_range { left ≤ 65535 }
    ensures right_range { right ≤ 65535 }
{
    let map = named(alloc, name)?;
    let map = with(alloc, map, "left", Value::from(u64::from(left)))?;
    with(alloc, map, "right", Value::from(u64::from(right)))
}

fn dead_json(alloc: Global, side: Side, item: u16) -> Result<Value, AllocError>
    ensures written { IfOk result (λ v. view v ≡ dead_data side item) }
    ensures range { item ≤ 65535 }
{
    Ok(Value::Object(at_side(alloc, "dead", side, item)?))
}

fn clash_json(alloc: Global, left: u16, right: u16) -> Result<Value, AllocError>
    ensures written { IfOk result (λ v. view v ≡ clash_data left right) }
    ensures left_range { left ≤ 65535 }
    ensures right_range { right ≤ 65535 }
{
    Ok(Value::Object(at_both(alloc, "clash", left, right)?))
}

fn open_json(alloc: Global, side: Side, item: u16, then: Value) -> Result<Value, AllocError>
    ensures written { IfOk result (λ v. view v ≡ open_data side item (view then)) }
    ensures range { item ≤ 65535 }
{
    let map = at_side(alloc, "open", side, item)?;
    Ok(Value::Object(with(alloc, map, "then", then)?))
}

fn pick_json(
    alloc: Global,
    side: Side,
    item: u16,
    children: Vec<Value>,
    then: Vec<Value>,
) -> Result<Value, AllocError>
    ensures written { IfOk result (λ v. view v ≡ pick_data side item (items_view children.items)
        (items_view then.items)) }
    ensures range { item ≤ 65535 }
{
    let map = at_side(alloc, "pick", side, item)?;
    let map = with(alloc, map, "children", Value::Array(children))?;
    Ok(Value::Object(with(alloc, map, "then", Value::Array(then))?))
}

fn match_json(
    alloc: Global,
    left: u16,
    right: u16,
    pairs: Vec<Value>,
    then: Vec<Value>,
) -> Result<Value, AllocError>
    ensures written { IfOk result (λ v. view v ≡ match_data left right (items_view pairs.items)
        (items_view then.items)) }
    ensures left_range { left ≤ 65535 }
    ensures right_range { right ≤ 65535 }
{
    let map = at_both(alloc, "match", left, right)?;
    let map = with(alloc, map, "pairs", Value::Array(pairs))?;
    Ok(Value::Object(with(alloc, map, "then", Value::Array(then))?))
}

fn split_json(alloc: Global, member: u8, left: Value, right: Value) -> Result<Value, AllocError>
    ensures { IfOk result (λ v. view v ≡ split_data member (view left) (view right)) }
{
    let map = named(alloc, "split")?;
    let map = with(alloc, map, "member", Value::from(u64::from(member)))?;
    let map = with(alloc, map, "left", left)?;
    Ok(Value::Object(with(alloc, map, "right", right)?))
}

fn pair_json(alloc: Global, pair: (u8, u8)) -> Result<Value, AllocError>
    ensures written { IfOk result (λ v. view v ≡ pair_data pair) }
    ensures range { IsPairInRange pair }
{
    let mut list = Vec::new(alloc);
    list.push(Value::from(u64::from(pair.0)))?;
    list.push(Value::from(u64::from(pair.1)))?;
    Ok(Value::Array(list))
}

fn numbers_json(alloc: Global, numbers: &[u8]) -> Result<Vec<Value>, AllocError>
    ensures written { IfOk result (λ v. items_view v.items ≡ numbers_data numbers.now) }
    ensures ranges { OnOk result (All (λ n. n ≤ 255) numbers.now) }
{
    let mut list = Vec::new(alloc);
    for number in numbers {
        list.push(Value::from(u64::from(*number)))?;
    }
    Ok(list)
}

fn pairs_json(alloc: Global, pairs: &[(u8, u8)]) -> Result<Vec<Value>, AllocError>
    ensures written { IfOk result (λ v. items_view v.items ≡ pairs_data pairs.now) }
    ensures ranges { OnOk result (All IsPairInRange pairs.now) }
{
    let mut list = Vec::new(alloc);
    for pair in pairs {
        list.push(pair_json(alloc, *pair)?)?;
    }
    Ok(list)
}

#[cycle(write)]
fn tree_json<A: Allocator>(alloc: Global, rule: &Refutation<A>) -> Result<Value, AllocError>
    ensures written { IfOk result (λ v. view v ≡ certificate_data (rule_of rule.now)) }
    ensures ranges { OnOk result (HasRanges (rule_of rule.now)) }
{
    match rule {
        Refutation::Dead { side, item } => dead_json(alloc, *side, *item),
        Refutation::Clash { left, right } => clash_json(alloc, *left, *right),
        Refutation::Open { side, item, then } => {
            let branch = tree_json(alloc, then)?;
            open_json(alloc, *side, *item, branch)
        }
        Refutation::Pick {
            side,
            item,
            children,
            then,
        } => {
            let branches = branches_json(alloc, then)?;
            let numbers = numbers_json(alloc, children)?;
            pick_json(alloc, *side, *item, numbers, branches)
        }
        Refutation::Match {
            left,
            right,
            pairs,
            then,
        } => {
            let branches = branches_json(alloc, then)?;
            let numbers = pairs_json(alloc, pairs)?;
            match_json(alloc, *left, *right, numbers, branches)
        }
        Refutation::Split {
            member,
            left,
            right,
        } => {
            let first = tree_json(alloc, left)?;
            let second = tree_json(alloc, right)?;
            split_json(alloc, *member, first, second)
        }
    }
}

#[cycle(write)]
fn branches_json<A: Allocator>(
    alloc: Global,
    then: &[Refutation<A>],
) -> Result<Vec<Value>, AllocError>
    ensures written { IfOk result (λ v. items_view v.items ≡ branches_data (branches_of (map rule_of then.now))) }
    ensures ranges { OnOk result (EachHasRanges (branches_of (map rule_of then.now))) }
{
    let mut list = Vec::new(alloc);
    for branch in then {
        list.push(tree_json(alloc, branch)?)?;
    }
    Ok(list)
}

/// Returns the JSON of a certificate, from which the same certificate is read. It nests at most 81 deep. Fails only if
/// memory runs out.
pub fn write_certificate<A: Allocator>(
    alloc: Global,
    certificate: &Certificate<A>,
) -> Result<Value, Fault>
    ensures written { Gives view result (Ok (certificate_data (certificate_rule certificate.now))) }
    ensures read_back { IfOk result (λ v. certificate_in (view v) ≡ Ok (certificate_rule certificate.now)) }
    ensures nests { IfOk result (λ v. depth (view v) ≤ 81) }
{
    Ok(tree_json(alloc, certificate.tree())?)
}
