//! One level of a JSON node, before its children are read.

ghost use Rattle.std.specs.Prelude.{◌≡◌};
ghost use Rattle.quorum_expr.specs.Reading.{set_of, small};

use crate::member_set::MemberSet;

/// The members of a configuration and those of them that are full. A plan's text can name these lists.
#[derive(Clone, Copy)]
pub struct Lists {
    /// All members; the text names them `all`.
    pub members: MemberSet,
    /// The full members; the text names them `full`.
    pub full: MemberSet,
    /// Whether a threshold may give weights to its children.
    pub is_weighted: bool,
}

/// The name of a list: all members, the full ones, or those that aren't full.
#[derive(Clone, Copy)]
pub enum ListName {
    All,
    Full,
    Tail,
}

/// The children of a threshold.
#[derive(Drop)]
pub enum Children<N> {
    /// The array of the children.
    Each(N),
    /// The name of a list.
    Named(ListName),
}

/// The weights of a threshold's children.
#[derive(Drop)]
pub enum Weights {
    /// 1 for each child.
    Once,
    /// A number for each child.
    Each(Vec<u64>),
}

/// A member's number, or a threshold over children.
#[derive(Drop)]
pub enum Form<N> {
    Single(u64),
    Choice(u64, Children<N>, Weights),
}

/// Returns a whole number up to 255, or 0 for a larger one.
fn small(number: u64) -> u8
    ensures { result ≡ small number }
{
    u8::try_from(number).unwrap_or(0)
}

impl Lists {
    /// Returns the members of a named list.
    pub fn named(&self, name: ListName) -> MemberSet
        ensures { result ≡ set_of self.now name }
    {
        match name {
            ListName::All => self.members,
            ListName::Full => self.full,
            ListName::Tail => self.members.difference(self.full),
        }
    }
}

impl Weights {
    ghost use Rattle.quorum_expr.specs.Reading.{weight_of};
    ghost use Rattle.quorum_expr.specs.Forms.{weights_data};

    /// Returns the weight of the child with a number, or 0 if it isn't from 1 to 255.
    pub fn at(&self, number: usize) -> u8
        ensures { result ≡ weight_of (weights_data self.now) number }
    {
        match self {
            Weights::Once => 1,
            Weights::Each(weights) => match weights.get(number) {
                Some(weight) => small(*weight),
                None => 0,
            },
        }
    }
}
