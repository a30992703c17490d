//! Reads certificates from JSON nodes.

ghost use Rattle.std.specs.Prelude.{◌≡◌, ◌≢◌, IfErr};
ghost use Rattle.serde_json.specs.View.{view};
ghost use Rattle.volume_model.specs.Common.{Gives};
ghost use Rattle.quorum_expr.specs.Common.{items_in};
ghost use Rattle.refutation.specs.Refutation.{rule_of};
ghost use Rattle.refutation.specs.Certificate.{certificate_rule};
ghost use Rattle.refutation.specs.Forms.{form_data, rules_of};
ghost use Rattle.refutation.specs.Reading.{side_of, numbers_of, pair_of, pairs_of, rule_name_of, dead_in, clash_in, open_in, pick_in, match_in, split_in, fields_of, form_of, each_rule, rule_from, rule_level, rule_at, certificate_in};

use crate::certificate::{Certificate, MAX_DEPTH};
use crate::form::{Form, RuleName};
use crate::json::{array, has_keys, listed, number_at, number_to, two};
use crate::{Refutation, Side};
use quorum_expr::{Node, count_items, value_at};
use serde_json::Value;
use std::alloc::Global;
use volume_model::Fault;

/// Reads the name of a side.
fn side<N: Node>(value: &N) -> Result<Side, Fault>
    ensures { result ≡ side_of (N.means value.now) }
{
    if value.is_text("left") {
        Ok(Side::Left)
    } else if value.is_text("right") {
        Ok(Side::Right)
    } else {
        Err(Fault::Malformed)
    }
}

fn rule_name<N: Node>(value: &N) -> Result<RuleName, Fault>
    ensures { result ≡ rule_name_of (N.means value.now) }
{
    if value.is_text("dead") {
        Ok(RuleName::Dead)
    } else if value.is_text("clash") {
        Ok(RuleName::Clash)
    } else if value.is_text("open") {
        Ok(RuleName::Open)
    } else if value.is_text("pick") {
        Ok(RuleName::Pick)
    } else if value.is_text("match") {
        Ok(RuleName::Match)
    } else if value.is_text("split") {
        Ok(RuleName::Split)
    } else {
        Err(Fault::Malformed)
    }
}

/// Reads the numbers of children in an array.
fn numbers<N: Node>(alloc: Global, rest: &mut N::Rest) -> Result<Vec<u8>, Fault>
    ensures { Gives (λ v. v.items) result (numbers_of (N.left rest.old)) }
{
    let mut list = Vec::new(alloc);
    while let Some(value) = N::next(rest) {
        list.push(number_to(&value, 255)? as u8)?;
    }
    Ok(list)
}

/// Reads an array of two numbers of children.
fn pair<N: Node>(value: &N) -> Result<(u8, u8), Fault>
    ensures given { Gives (λ p. p) result (pair_of (N.means value.now)) }
    ensures own { IfErr result (λ fault. fault ≢ Fault.NoMemory) }
{
    let (first, second) = two(value)?;
    let a = number_to(&first, 255)?;
    let b = number_to(&second, 255)?;
    Ok((a as u8, b as u8))
}

/// Reads the pairs in an array.
fn pairs<N: Node>(alloc: Global, rest: &mut N::Rest) -> Result<Vec<(u8, u8)>, Fault>
    ensures { Gives (λ v. v.items) result (pairs_of (N.left rest.old)) }
{
    let mut list = Vec::with_capacity(alloc, 12)?;
    while let Some(value) = N::next(rest) {
        list.push(pair(&value)?)?;
    }
    Ok(list)
}

#[tactic(auto, unfolding(crate::specs::Reading::dead_in))]
fn dead<N: Node>(value: &N) -> Result<Form<N>, Fault>
    ensures { Gives (form_data N.means) result (dead_in (N.means value.now)) }
{
    let name = value_at(value, "side")?;
    let side = side(&name)?;
    let item = number_at(value, "item", 65_535)?;
    Ok(Form::Dead(side, item as u16))
}

#[tactic(auto, unfolding(crate::specs::Reading::clash_in))]
fn clash<N: Node>(value: &N) -> Result<Form<N>, Fault>
    ensures { Gives (form_data N.means) result (clash_in (N.means value.now)) }
{
    let left = number_at(value, "left", 65_535)?;
    let right = number_at(value, "right", 65_535)?;
    Ok(Form::Clash(left as u16, right as u16))
}

#[tactic(auto, unfolding(crate::specs::Reading::open_in))]
fn open<N: Node>(value: &N) -> Result<Form<N>, Fault>
    ensures { Gives (form_data N.means) result (open_in (N.means value.now)) }
{
    let name = value_at(value, "side")?;
    let side = side(&name)?;
    let item = number_at(value, "item", 65_535)?;
    let then = value_at(value, "then")?;
    Ok(Form::Open(side, item as u16, then))
}

#[tactic(auto, unfolding(crate::specs::Reading::pick_in))]
fn pick<N: Node>(alloc: Global, value: &N) -> Result<Form<N>, Fault>
    ensures { Gives (form_data N.means) result (pick_in (N.means value.now)) }
{
    let name = value_at(value, "side")?;
    let side = side(&name)?;
    let item = number_at(value, "item", 65_535)?;
    let found = value_at(value, "children")?;
    let mut rest = array(&found)?;
    let children = numbers::<N>(alloc, &mut rest)?;
    let branches = value_at(value, "then")?;
    let then = listed(branches)?;
    Ok(Form::Pick(side, item as u16, children, then))
}

#[tactic(auto, unfolding(crate::specs::Reading::match_in))]
fn match_up<N: Node>(alloc: Global, value: &N) -> Result<Form<N>, Fault>
    ensures { Gives (form_data N.means) result (match_in (N.means value.now)) }
{
    let left = number_at(value, "left", 65_535)?;
    let right = number_at(value, "right", 65_535)?;
    let found = value_at(value, "pairs")?;
    let mut rest = array(&found)?;
    let pairs = pairs::<N>(alloc, &mut rest)?;
    let branches = value_at(value, "then")?;
    let then = listed(branches)?;
    Ok(Form::Match(left as u16, right as u16, pairs, then))
}

#[tactic(auto, unfolding(crate::specs::Reading::split_in))]
fn split<N: Node>(value: &N) -> Result<Form<N>, Fault>
    ensures { Gives (form_data N.means) result (split_in (N.means value.now)) }
{
    let member = number_at(value, "member", 63)?;
    let left = value_at(value, "left")?;
    let right = value_at(value, "right")?;
    Ok(Form::Split(member as u8, left, right))
}

fn fields<N: Node>(alloc: Global, name: RuleName, value: &N) -> Result<Form<N>, Fault>
    ensures { Gives (form_data N.means) result (fields_of name (N.means value.now)) }
{
    match name {
        RuleName::Dead => dead(value),
        RuleName::Clash => clash(value),
        RuleName::Open => open(value),
        RuleName::Pick => pick(alloc, value),
        RuleName::Match => match_up(alloc, value),
        RuleName::Split => split(value),
    }
}

/// Reads one level of a node.
#[tactic(auto, unfolding(crate::specs::Reading::form_of))]
fn form_at<N: Node>(alloc: Global, value: &N) -> Result<Form<N>, Fault>
    ensures { Gives (form_data N.means) result (form_of (N.means value.now)) }
{
    let found = value_at(value, "rule")?;
    let name = rule_name(&found)?;
    has_keys(value, name.key_count())?;
    fields(alloc, name, value)
}

/// Reads a refutation of at most `left` levels.
#[cycle(tree)]
fn tree<N: Node>(alloc: Global, left: u8, value: &N) -> Result<Refutation<Global>, Fault>
    ensures { Gives rule_of result (rule_at left (N.means value.now)) }
{
    let form = form_at(alloc, value)?;
    tree_of_form(alloc, left, form)
}

#[cycle(tree)]
fn tree_of_form<N: Node>(
    alloc: Global,
    left: u8,
    form: Form<N>,
) -> Result<Refutation<Global>, Fault>
    ensures { Gives rule_of result (rule_level left (form_data N.means form)) }
{
    if left == 0 {
        return Err(Fault::OverLimit);
    }
    if !form.is_short() {
        return Err(Fault::OverLimit);
    }
    tree_of_branches(alloc, left - 1, form)
}

#[cycle(tree)]
fn tree_of_branches<N: Node>(
    alloc: Global,
    left: u8,
    form: Form<N>,
) -> Result<Refutation<Global>, Fault>
    ensures { Gives rule_of result (rule_from (rule_at left) (form_data N.means form)) }
{
    match form {
        Form::Dead(side, item) => Ok(Refutation::Dead { side, item }),
        Form::Clash(left, right) => Ok(Refutation::Clash { left, right }),
        Form::Open(side, item, node) => {
            let then = boxed(alloc, left, &node)?;
            Ok(Refutation::Open { side, item, then })
        }
        Form::Pick(side, item, children, list) => {
            let then = branches(alloc, left, &list)?;
            Ok(Refutation::Pick {
                side,
                item,
                children,
                then,
            })
        }
        Form::Match(first, second, pairs, list) => {
            let then = branches(alloc, left, &list)?;
            Ok(Refutation::Match {
                left: first,
                right: second,
                pairs,
                then,
            })
        }
        Form::Split(member, without_left, without_right) => {
            let first = boxed(alloc, left, &without_left)?;
            let second = boxed(alloc, left, &without_right)?;
            Ok(Refutation::Split {
                member,
                left: first,
                right: second,
            })
        }
    }
}

/// Reads a refutation of at most `left` levels into a box. Isn't inlined, because it would enlarge the frame of `tree`.
#[cycle(tree)]
#[inline(never)]
fn boxed<N: Node>(alloc: Global, left: u8, value: &N) -> Result<Box<Refutation<Global>>, Fault>
    ensures { Gives (λ b. rule_of b.value) result (rule_at left (N.means value.now)) }
{
    Ok(Box::new(alloc, tree(alloc, left, value)?)?)
}

#[cycle(tree)]
fn branches<N: Node>(alloc: Global, left: u8, list: &N) -> Result<Vec<Refutation<Global>>, Fault>
    ensures { Gives (λ v. rules_of v.items) result (each_rule (rule_at left) (items_in (N.means list.now))) }
{
    let Some(mut rest) = list.items() else {
        return Ok(Vec::new(alloc));
    };
    let mut rules = Vec::with_capacity(alloc, count_items(list, 256))?;
    'branches: while let Some(value) = N::next(&mut rest) {
        rules.push(tree(alloc, left, &value)?)?;
    }
    Ok(rules)
}

/// Reads the certificate of a node.
///
/// # Errors
/// Those of [`read_certificate`].
#[tactic(auto, unfolding(crate::specs::Reading::certificate_in))]
pub fn read_certificate_at<N: Node>(alloc: Global, node: &N) -> Result<Certificate<Global>, Fault>
    ensures { Gives certificate_rule result (certificate_in (N.means node.now)) }
{
    let tree = tree(alloc, MAX_DEPTH, node)?;
    match Certificate::new(tree) {
        Ok(certificate) => Ok(certificate),
        Err((fault, _)) => Err(fault),
    }
}

/// Returns the certificate of a value.
///
/// # Errors
/// The first fault, outer ones before inner ones and branches in order:
/// - `Malformed` if a rule has another shape, or a number is out of its range;
/// - `OverLimit` for a list of more than 255 entries, or a 41st level;
/// - `OverLimit` for more than 100,000 rules, which are counted last.
pub fn read_certificate(alloc: Global, value: &Value) -> Result<Certificate<Global>, Fault>
    ensures { Gives certificate_rule result (certificate_in (view value.now)) }
{
    read_certificate_at(alloc, &value)
}
