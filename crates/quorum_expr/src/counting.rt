//! Counts of items.

ghost use Rattle.std.specs.Prelude.{◌≡◌, min};
ghost use Rattle.serde_json.specs.Events.{items_len};
ghost use Rattle.quorum_expr.specs.Nodes.{items_in};

use crate::node::Node;

/// Counts an array's items, up to `most`. Any other value counts as an empty array.
pub fn count_items<N: Node>(node: &N, most: usize) -> usize
    ensures { result ≡ min (items_len (items_in (N.means node.now))) most }
{
    let Some(mut rest) = node.items() else {
        return 0;
    };
    let mut count = 0;
    for number in 0..most {
        match N::next(&mut rest) {
            Some(_) => count = number + 1,
            None => return number,
        }
    }
    count
}
