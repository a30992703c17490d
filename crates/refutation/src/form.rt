//! One level of a JSON node, before its branches are read.

use crate::Side;
use quorum_expr::{Node, count_items};

/// The name of a rule.
#[derive(Clone, Copy)]
pub enum RuleName {
    Dead,
    Clash,
    Open,
    Pick,
    Match,
    Split,
}

/// A rule with the nodes of its branches: one node each, or the array that lists them.
#[derive(Drop)]
pub enum Form<N> {
    Dead(Side, u16),
    Clash(u16, u16),
    Open(Side, u16, N),
    Pick(Side, u16, Vec<u8>, N),
    Match(u16, u16, Vec<(u8, u8)>, N),
    Split(u8, N, N),
}

impl<N: Node> Form<N> {
    ghost use Rattle.std.specs.Prelude.{◌≡◌};
    ghost use Rattle.refutation.specs.Reading.{is_short};
    ghost use Rattle.refutation.specs.Forms.{form_data};

    /// Returns whether no list has more than 255 entries.
    pub fn is_short(&self) -> bool
        ensures { result ≡ is_short (form_data N.means self.now) }
    {
        match self {
            Form::Pick(_, _, children, list) => children.len() <= 255
                && count_items(list, 256) <= 255,
            Form::Match(_, _, pairs, list) => pairs.len() <= 255 && count_items(list, 256) <= 255,
            _ => true,
        }
    }
}

impl RuleName {
    ghost use Rattle.std.specs.Prelude.{◌≡◌, ◌≤◌};
    ghost use Rattle.refutation.specs.Reading.{key_count};

    /// Returns the number of keys of a rule with this name, the name included.
    pub fn key_count(self) -> usize
        ensures keys { result ≡ key_count self }
        ensures few { result ≤ 5 }
    {
        match self {
            RuleName::Dead | RuleName::Clash => 3,
            RuleName::Open | RuleName::Split => 4,
            RuleName::Pick | RuleName::Match => 5,
        }
    }
}
