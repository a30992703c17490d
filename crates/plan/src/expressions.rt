//! Writes the expressions of a tape as they were read.

ghost use Rattle.std.specs.Prelude.{OnSome};
ghost use Rattle.quorum_expr.specs.Common.{data_of};
ghost use Rattle.plan.specs.Known.{EndsThreshold};
ghost use Rattle.plan.specs.Puts.{Puts};

use crate::puts::{
    close_array, close_object, open_array, open_object, put_key, put_number, put_text,
};
use json::Writer;
use quorum_expr::{Node, TapeNode};

/// The most levels of an expression.
const LEVELS: u8 = 6;

/// Writes a whole number.
pub(crate) fn put_whole(writer: &mut Writer, node: &TapeNode<'_, '_>) -> Option<()>
    ensures { OnSome result (Puts (data_of node.now) writer.old writer.new) }
{
    let number = node.as_u64()?;
    put_number(writer, number)
}

/// Writes an array of whole numbers.
pub(crate) fn put_wholes(writer: &mut Writer, node: &TapeNode<'_, '_>) -> Option<()>
    ensures { OnSome result (Puts (data_of node.now) writer.old writer.new) }
{
    let mut rest = node.items()?;
    open_array(writer)?;
    while let Some(item) = TapeNode::next(&mut rest) {
        put_whole(writer, &item)?;
    }
    close_array(writer)
}

/// Writes the name of a list.
fn put_name(writer: &mut Writer, node: &TapeNode<'_, '_>) -> Option<()>
    ensures { OnSome result (Puts (data_of node.now) writer.old writer.new) }
{
    if node.is_text("all") {
        put_text(writer, "all")
    } else if node.is_text("full") {
        put_text(writer, "full")
    } else if node.is_text("tail") {
        put_text(writer, "tail")
    } else {
        None
    }
}

/// Writes the weights and the end of a threshold with three keys.
fn close_weighted(writer: &mut Writer, node: &TapeNode<'_, '_>) -> Option<()>
    ensures { OnSome result (EndsThreshold 3 (data_of node.now) writer.old writer.new) }
{
    put_key(writer, "weights")?;
    let weights = node.get("weights")?;
    put_wholes(writer, &weights)?;
    close_object(writer)
}

/// Writes the rest of a threshold with `keys` keys, after its children.
fn close_threshold(writer: &mut Writer, node: &TapeNode<'_, '_>, keys: usize) -> Option<()>
    ensures { OnSome result (EndsThreshold keys (data_of node.now) writer.old writer.new) }
{
    if keys == 3 {
        return close_weighted(writer, node);
    }
    if keys != 2 {
        return None;
    }
    close_object(writer)
}

#[cycle(put)]
fn put_children(writer: &mut Writer, node: &TapeNode<'_, '_>, left: u8) -> Option<()>
    ensures { OnSome result (Puts (data_of node.now) writer.old writer.new) }
{
    let Some(mut rest) = node.items() else {
        return put_name(writer, node);
    };
    open_array(writer)?;
    'children: while let Some(item) = TapeNode::next(&mut rest) {
        put_within(writer, &item, left)?;
    }
    close_array(writer)
}

/// Writes an expression of at most `left` levels.
#[cycle(put)]
fn put_within(writer: &mut Writer, node: &TapeNode<'_, '_>, left: u8) -> Option<()>
    ensures { OnSome result (Puts (data_of node.now) writer.old writer.new) }
{
    if node.is_number() {
        return put_whole(writer, node);
    }
    if left == 0 {
        return None;
    }
    let keys = node.keys(4)?;
    open_object(writer)?;
    put_key(writer, "k")?;
    let k = node.get("k")?;
    put_whole(writer, &k)?;
    put_key(writer, "of")?;
    let of = node.get("of")?;
    put_children(writer, &of, left - 1)?;
    close_threshold(writer, node, keys)
}

/// Writes an expression.
pub fn put_expression(writer: &mut Writer, node: &TapeNode<'_, '_>) -> Option<()>
    ensures { OnSome result (Puts (data_of node.now) writer.old writer.new) }
{
    put_within(writer, node, LEVELS)
}
