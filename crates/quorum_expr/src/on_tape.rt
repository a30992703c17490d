//! The impl of `Node` for a place of a tape.

ghost use Rattle.std.specs.Prelude.{◌≡◌, ◌≤◌, is_some, true};
ghost use Rattle.json.specs.Json as json;
ghost use Rattle.std.specs.Str.{bytes_eq};
ghost use Rattle.json.specs.Find.{BeginsWith, Finds, get};
ghost use Rattle.quorum_expr.specs.Placed.{data_at, items_at, or_null, or_none, among, HasKeys};

use crate::node::Node;
use crate::number::whole_number;
use json::{Element, Members};

/// A place of a tape where a value begins that `serde_json` reads.
#[derive(Drop)]
pub struct TapeNode<'t, 'a> {
    pub(crate) element: Element<'t, 'a>,
    ghost readable: { is_some (data_at element) ≡ true },
}

/// Items of an array that `serde_json` reads.
#[derive(Drop)]
pub struct TapeItems<'t, 'a> {
    items: json::Items<'t, 'a>,
    ghost readable: { is_some (items_at items) ≡ true },
}

/// The most distinct keys that `distinct` counts.
const KEYS: usize = 8;

/// Returns whether two texts are equal. Most unequal ones differ in length or in their first byte.
#[inline(always)]
fn is_equal(a: &str, b: &str) -> bool
    ensures { result ≡ bytes_eq a.now b.now }
{
    let (left, right) = (a.as_bytes(), b.as_bytes());
    if left.len() != right.len() {
        return false;
    }
    if left.is_empty() || left[0] != right[0] {
        return left.is_empty();
    }
    a == b
}

/// Returns the last member with a key, as [`Element::get`] does.
#[inline(always)]
fn find<'t, 'a>(element: &Element<'t, 'a>, key: &str) -> Option<Element<'t, 'a>>
    ensures { (j : json.Json) → BeginsWith element.now j → Finds result (get key.now j) }
{
    let mut members = element.members()?;
    let mut found = None;
    while let Some((name, member)) = members.next() {
        if is_equal(name, key) {
            found = Some(member);
        }
    }
    found
}

/// Returns whether a key is one of `seen`.
fn is_among(seen: &[&str], key: &str) -> bool
    ensures { result ≡ among key.now seen.now }
{
    for other in seen {
        if is_equal(other, key) {
            return true;
        }
    }
    false
}

/// Counts the distinct keys of members, up to `most`.
fn distinct(members: &mut Members<'_, '_>, most: usize) -> usize
    requires { most ≤ 8 }
    ensures { HasKeys members.old most result }
{
    let mut seen = [""; KEYS];
    let mut count = 0usize;
    'keys: while count < most {
        match members.next() {
            Some((key, _)) => {
                if !is_among(&seen[..count], key) {
                    seen[count] = key;
                    count += 1;
                }
            }
            None => return count,
        }
    }
    count
}

impl<'t, 'a> Node for TapeNode<'t, 'a> {
    type Rest = TapeItems<'t, 'a>;

    ghost means = { λ n. or_null (data_at n.element) };

    ghost left = { λ r. or_none (items_at r.items) };

    fn is_null(&self) -> bool {
        self.element.is_null()
    }

    fn is_number(&self) -> bool {
        match self.element.as_number() {
            Some(_) => true,
            None => false,
        }
    }

    #[inline(always)]
    fn as_u64(&self) -> Option<u64> {
        match self.element.as_number() {
            Some(text) => whole_number(text),
            None => None,
        }
    }

    #[inline(always)]
    fn is_text(&self, text: &str) -> bool {
        match self.element.as_str() {
            Some(found) => is_equal(found, text),
            None => false,
        }
    }

    fn keys(&self, most: usize) -> Option<usize> {
        match self.element.members() {
            Some(mut members) => Some(distinct(&mut members, most)),
            None => None,
        }
    }

    #[inline(always)]
    fn get(&self, key: &str) -> Option<TapeNode<'t, 'a>> {
        match find(&self.element, key) {
            Some(element) => Some(TapeNode { element }),
            None => None,
        }
    }

    fn items(&self) -> Option<TapeItems<'t, 'a>> {
        match self.element.items() {
            Some(items) => Some(TapeItems { items }),
            None => None,
        }
    }

    fn next(rest: &mut TapeItems<'t, 'a>) -> Option<TapeNode<'t, 'a>> {
        match rest.items.next() {
            Some(element) => Some(TapeNode { element }),
            None => None,
        }
    }
}
