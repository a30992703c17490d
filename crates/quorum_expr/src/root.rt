//! The root of a tape as a node.

ghost use Rattle.std.specs.Prelude.{◌≡◌, ◌<◌, ◌≤◌, ◌+◌, ◌^◌, IfSome, Some, map, true};
ghost use Rattle.json.specs.Tape.{node_token};
ghost use Rattle.quorum_expr.specs.Placed.{passes, PassesTo};
ghost use Rattle.quorum_expr.specs.Tapes.{IsRootOf};

use crate::number::is_in_range;
use crate::on_tape::TapeNode;
use json::{Node, Tape};

/// The most levels of arrays and objects.
const LEVELS: u128 = 127;

/// Returns the levels that remain after a node, or `None` if it nests too deep or its number is out of range.
#[tactic(auto, unfolding(crate::specs::Placed::passes))]
fn after(node: &Node<'_>, left: u128) -> Option<u128>
    requires { left < 2 ^ 100 }
    ensures passes { PassesTo left (node_token node.now) result }
    ensures few { IfSome result (λ l. l ≤ left + 1) }
{
    match node {
        Node::Object(_) | Node::Array(_) => { if left == 0 { None } else { Some(left - 1) } }
        Node::EndObject | Node::EndArray => Some(left + 1),
        Node::Number(text) => { if is_in_range(text) { Some(left) } else { None } }
        Node::Key(_) | Node::String(_) | Node::Bool(_) | Node::Null => Some(left),
    }
}

/// Returns whether each number is in range and nothing nests deeper than 127.
fn are_readable(nodes: &[Node<'_>]) -> bool
    ensures { result ≡ passes 127 (map node_token nodes.now) }
{
    let mut left = LEVELS;
    for node in nodes {
        match after(node, left) {
            Some(more) => left = more,
            None => return false,
        }
    }
    true
}

/// Returns whether `serde_json` reads a tape's text: each number is in range and nothing nests deeper than 127.
pub fn is_readable(tape: &Tape<'_>) -> bool
    ensures { result ≡ passes 127 tape.now }
{
    are_readable(tape.nodes())
}

/// Returns the root of a tape whose text `serde_json` reads.
pub fn readable_root<'t, 'a>(tape: &'t Tape<'a>) -> TapeNode<'t, 'a>
    requires { passes 127 tape.now ≡ true }
    ensures { IsRootOf tape.now (Some result) }
{
    TapeNode {
        element: tape.root(),
    }
}

/// Returns the root of a tape, if `serde_json` reads its text.
pub fn tape_root<'t, 'a>(tape: &'t Tape<'a>) -> Option<TapeNode<'t, 'a>>
    ensures { IsRootOf tape.now result }
{
    if !is_readable(tape) {
        return None;
    }
    Some(readable_root(tape))
}
