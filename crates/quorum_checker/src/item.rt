//! One item of a state.

ghost use Rattle.std.specs.Prelude.{◌≡◌, ◌<◌, ◌≤◌, ◌^◌, length, map, MatchOption, IfSome};
ghost use Rattle.std.specs.FinSet.{contains};
ghost use Rattle.volume_model.specs.Common.{sat, dual_of};
ghost use Rattle.quorum_expr.specs.Common.{formula_of};
ghost use Rattle.quorum_checker.specs.Items.{shown, shown_as, IsMember, IsThreshold};
ghost use Rattle.quorum_checker.specs.FirstFault.{children_of, place};

use crate::weights::total;
use quorum_expr::{Expr, MemberSet, holds, holds_dual};
use std::alloc::Allocator;

/// A threshold over weighted children, all of them plain or all of them duals.
#[derive_where(Clone, Copy)]
pub(crate) struct Threshold<'e, A: Allocator> {
    /// The weight that the satisfied children must reach.
    pub(crate) asked: u128,
    /// The weight of all children.
    pub(crate) total: u128,
    pub(crate) of: &'e [(u8, Expr<A>)],
}

/// A borrowed expression, or its dual.
#[derive_where(Clone, Copy)]
pub struct Item<'e, A: Allocator> {
    pub(crate) expr: &'e Expr<A>,
    pub(crate) is_dual: bool,
}

impl<'e, A: Allocator> Item<'e, A> {
    /// Returns the expression itself.
    pub fn plain(expr: &'e Expr<A>) -> Item<'e, A>
        ensures { shown result ≡ formula_of expr.now }
    {
        Item {
            expr,
            is_dual: false,
        }
    }

    /// Returns the dual of the expression.
    pub fn dual(expr: &'e Expr<A>) -> Item<'e, A>
        ensures { shown result ≡ dual_of (formula_of expr.now) }
    {
        Item {
            expr,
            is_dual: true,
        }
    }

    /// Returns the child expressions; a member has none.
    pub(crate) fn children(self) -> &'e [(u8, Expr<A>)]
        ensures { map (λ c. shown_as self.entry.is_dual c.1) result.now ≡ children_of (shown self.entry) }
    {
        match self.expr {
            Expr::Member(_) => &[],
            Expr::KOf { of, .. } => of.as_slice(),
        }
    }

    /// Returns the child with a number.
    pub(crate) fn child(self, number: u8) -> Item<'e, A>
        requires { number < length (children_of (shown self)) }
        ensures { shown result ≡ place (children_of (shown self.entry)) number }
    {
        let children = self.children();
        Item {
            expr: &children[usize::from(number)].1,
            is_dual: self.is_dual,
        }
    }

    /// Returns the threshold, if the item isn't a member.
    pub(crate) fn threshold(self) -> Option<Threshold<'e, A>>
        ensures meaning { MatchOption result (IsMember (shown self.entry))
            (λ t. IsThreshold self.entry.is_dual (shown self.entry) t) }
        ensures small { IfSome result (λ t. (t.total ≤ 2 ^ 72) × (t.asked ≤ 2 ^ 73)) }
    {
        match self.expr {
            Expr::Member(_) => None,
            Expr::KOf { k, of } => {
                let k = u128::from(*k);
                let of = of.as_slice();
                let total = total(of);
                if self.is_dual {
                    let asked = (total + 1).saturating_sub(k);
                    Some(Threshold { asked, total, of })
                } else {
                    Some(Threshold {
                        asked: k,
                        total,
                        of,
                    })
                }
            }
        }
    }

    /// Returns whether a set of members satisfies the item.
    pub(crate) fn holds(self, members: MemberSet) -> bool
        ensures { result ≡ sat (shown self.entry) (contains members) }
    {
        if self.is_dual {
            holds_dual(self.expr, members)
        } else {
            holds(self.expr, members)
        }
    }
}
