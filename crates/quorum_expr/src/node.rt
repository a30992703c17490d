//! The trait for nodes of JSON.

ghost use Rattle.std.specs.Prelude.{◌≡◌, ◌≤◌, Option, MatchOption, option_map, option_and_then, is_some};
ghost use Rattle.serde_json.specs.Data.{Data, Items, no_items, item};
ghost use Rattle.serde_json.specs.Find.{get, as_null, as_number, as_u64, as_array};
ghost use Rattle.quorum_expr.specs.Nodes.{says, keys_up_to};

/// A node of JSON: a value in memory, or a place of a tape. `means` is the value that `serde_json` reads there.
pub trait Node: Drop {
    /// The items of an array that `next` has not returned yet.
    type Rest: Drop;

    ghost means: { Self → Data };

    ghost left: { Self.Rest → Items };

    /// Returns whether the node is null.
    fn is_null(&self) -> bool
        ensures { result ≡ is_some (as_null (means self.now)) };

    /// Returns whether the node is a number.
    fn is_number(&self) -> bool
        ensures { result ≡ is_some (as_number (means self.now)) };

    /// Returns the node's value, if it is a whole number from 0 that is written in digits only.
    fn as_u64(&self) -> Option<u64>
        ensures { result ≡ option_and_then as_u64 (as_number (means self.now)) };

    /// Returns whether the node is a string with this text.
    fn is_text(&self, text: &str) -> bool
        ensures { result ≡ says text.now (means self.now) };

    /// Returns the number of distinct keys of an object, or `most` if it has more.
    fn keys(&self, most: usize) -> Option<usize>
        requires { most ≤ 8 }
        ensures { result ≡ keys_up_to most (means self.now) };

    /// Returns the value at a key of an object: the last one, if the key is repeated.
    fn get(&self, key: &str) -> Option<Self>
        ensures { option_map means result ≡ get key.now (means self.now) };

    /// Returns the items of an array.
    fn items(&self) -> Option<Self::Rest>
        ensures { option_map left result ≡ as_array (means self.now) };

    /// Returns the next item, and removes it from `rest`.
    fn next(rest: &mut Self::Rest) -> Option<Self>
        ensures { MatchOption result (left rest.old ≡ no_items) (λ n. left rest.old ≡ item (means n) (left rest.new)) };
}
