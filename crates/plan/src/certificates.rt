//! Writes certificates as JSON text.

ghost use Rattle.std.specs.Prelude.{◌<◌, OnSome, codes};
ghost use Rattle.serde_json.specs.Data.{string, no_members};
ghost use Rattle.refutation.specs.Common.{side_text, number_data, dead_data, clash_data};
ghost use Rattle.plan.specs.Rewriting.{value_or_null};
ghost use Rattle.plan.specs.Heads.{side_members};
ghost use Rattle.plan.specs.Puts.{Puts, PutsMember};
ghost use Rattle.plan.specs.Rules.{rule_data, rules_data};
ghost use Rattle.plan.specs.Certificates.{certificate_values, OpensTo, pick_members, match_members, PutsBetween, PutsLast};

use crate::puts::{
    close_array, close_object, open_array, open_object, put_key, put_null, put_number_at,
    put_numbers, put_pairs, put_text_at,
};
use json::Writer;
use refutation::{Certificate, Refutation, Side};
use std::alloc::{Allocator, Global};

fn put_side(writer: &mut Writer, side: Side) -> Option<()>
    ensures { OnSome result (PutsMember (codes "side") (string (side_text side)) writer.old writer.new) }
{
    match side {
        Side::Left => put_text_at(writer, "side", "left"),
        Side::Right => put_text_at(writer, "side", "right"),
    }
}

fn put_dead(writer: &mut Writer, side: Side, item: u16) -> Option<()>
    ensures { OnSome result (Puts (dead_data side item) writer.old writer.new) }
{
    open_object(writer)?;
    put_number_at(writer, "item", u64::from(item))?;
    put_text_at(writer, "rule", "dead")?;
    put_side(writer, side)?;
    close_object(writer)
}

fn put_clash(writer: &mut Writer, left: u16, right: u16) -> Option<()>
    ensures { OnSome result (Puts (clash_data left right) writer.old writer.new) }
{
    open_object(writer)?;
    put_number_at(writer, "left", u64::from(left))?;
    put_number_at(writer, "right", u64::from(right))?;
    put_text_at(writer, "rule", "clash")?;
    close_object(writer)
}

/// Writes an `open` rule up to its branch.
fn begin_open(writer: &mut Writer, side: Side, item: u16) -> Option<()>
    ensures { OnSome result (OpensTo (side_members (codes "open") side item) (codes "then") writer.old writer.new) }
{
    open_object(writer)?;
    put_number_at(writer, "item", u64::from(item))?;
    put_text_at(writer, "rule", "open")?;
    put_side(writer, side)?;
    put_key(writer, "then")
}

/// Writes a `pick` rule up to its branches.
fn begin_pick(writer: &mut Writer, side: Side, item: u16, children: &[u8]) -> Option<()>
    ensures { OnSome result (OpensTo (pick_members side item children.now) (codes "then") writer.old writer.new) }
{
    open_object(writer)?;
    put_key(writer, "children")?;
    put_numbers(writer, children)?;
    put_number_at(writer, "item", u64::from(item))?;
    put_text_at(writer, "rule", "pick")?;
    put_side(writer, side)?;
    put_key(writer, "then")
}

/// Writes a `match` rule up to its branches.
fn begin_match(writer: &mut Writer, left: u16, right: u16, pairs: &[(u8, u8)]) -> Option<()>
    ensures { OnSome result (OpensTo (match_members left right pairs.now) (codes "then") writer.old writer.new) }
{
    open_object(writer)?;
    put_number_at(writer, "left", u64::from(left))?;
    put_key(writer, "pairs")?;
    put_pairs(writer, pairs)?;
    put_number_at(writer, "right", u64::from(right))?;
    put_text_at(writer, "rule", "match")?;
    put_key(writer, "then")
}

/// Writes a `split` rule up to its left branch.
fn begin_split(writer: &mut Writer) -> Option<()>
    ensures { OnSome result (OpensTo no_members (codes "left") writer.old writer.new) }
{
    open_object(writer)?;
    put_key(writer, "left")
}

/// Writes the text between the branches of a `split` rule.
fn put_split_member(writer: &mut Writer, member: u8) -> Option<()>
    ensures { OnSome result (PutsBetween (codes "member") (number_data member) (codes "right") writer.old writer.new) }
{
    put_number_at(writer, "member", u64::from(member))?;
    put_key(writer, "right")
}

/// Writes the text after the branches of a `split` rule.
fn end_split(writer: &mut Writer) -> Option<()>
    ensures { OnSome result (PutsLast (codes "rule") (string (codes "split")) writer.old writer.new) }
{
    put_text_at(writer, "rule", "split")?;
    close_object(writer)
}

/// Writes a rule with its branches.
#[cycle(put)]
fn put_rule<A: Allocator>(writer: &mut Writer, rule: &Refutation<A>) -> Option<()>
    ensures { OnSome result (Puts (rule_data rule.now) writer.old writer.new) }
{
    match rule {
        Refutation::Dead { side, item } => put_dead(writer, *side, *item),
        Refutation::Clash { left, right } => put_clash(writer, *left, *right),
        Refutation::Open { side, item, then } => {
            begin_open(writer, *side, *item)?;
            put_rule(writer, then)?;
            close_object(writer)
        }
        Refutation::Pick {
            side,
            item,
            children,
            then,
        } => {
            begin_pick(writer, *side, *item, children)?;
            put_branches(writer, then)?;
            close_object(writer)
        }
        Refutation::Match {
            left,
            right,
            pairs,
            then,
        } => {
            begin_match(writer, *left, *right, pairs)?;
            put_branches(writer, then)?;
            close_object(writer)
        }
        Refutation::Split {
            member,
            left,
            right,
        } => {
            begin_split(writer)?;
            put_rule(writer, left)?;
            put_split_member(writer, *member)?;
            put_rule(writer, right)?;
            end_split(writer)
        }
    }
}

#[cycle(put)]
fn put_branches<A: Allocator>(writer: &mut Writer, then: &[Refutation<A>]) -> Option<()>
    ensures { OnSome result (Puts (rules_data then.now) writer.old writer.new) }
{
    open_array(writer)?;
    for branch in then {
        put_rule(writer, branch)?;
    }
    close_array(writer)
}

/// Writes the certificate at a place of a list, or null.
pub(crate) fn put_certificate_at(
    writer: &mut Writer,
    certificates: &[Option<Certificate<Global>>],
    place: usize,
) -> Option<()>
    ensures { OnSome result (Puts (value_or_null (certificate_values certificates.now) place) writer.old writer.new) }
{
    match certificates.get(place) {
        Some(Some(certificate)) => put_rule(writer, certificate.tree()),
        _ => put_null(writer),
    }
}
