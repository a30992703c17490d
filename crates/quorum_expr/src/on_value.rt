//! The impl of `Node` for a value in memory.

ghost use Rattle.serde_json.specs.View.{view, items_view};

use crate::node::Node;
use serde_json::Value;

impl<'v> Node for &'v Value {
    type Rest = &'v [Value];

    ghost means = { λ v. view v.now };

    ghost left = { λ vs. items_view vs.now };

    fn is_null(&self) -> bool {
        Value::is_null(*self)
    }

    fn is_number(&self) -> bool {
        Value::is_number(*self)
    }

    fn as_u64(&self) -> Option<u64> {
        Value::as_u64(*self)
    }

    fn is_text(&self, text: &str) -> bool {
        match Value::as_str(*self) {
            Some(found) => found == text,
            None => false,
        }
    }

    fn keys(&self, most: usize) -> Option<usize> {
        match Value::as_object(*self) {
            Some(map) => Some(map.len().min(most)),
            None => None,
        }
    }

    fn get(&self, key: &str) -> Option<&'v Value> {
        Value::get(*self, key)
    }

    fn items(&self) -> Option<&'v [Value]> {
        match Value::as_array(*self) {
            Some(list) => Some(list.as_slice()),
            None => None,
        }
    }

    fn next(rest: &mut &'v [Value]) -> Option<&'v Value> {
        let values: &'v [Value] = *rest;
        match values.split_first() {
            Some((first, more)) => {
                *rest = more;
                Some(first)
            }
            None => None,
        }
    }
}
