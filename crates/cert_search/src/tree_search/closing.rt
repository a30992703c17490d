//! Finds the pairs of a left and a right subexpression that *close*: no two disjoint sets satisfy them. A pair closes
//! if one of the two can't be satisfied, if both are the same member, if enough pairs of children close, or if enough
//! children of one close with the other.

use crate::tree_search::grid::Grid;
use crate::tree_search::matching::{Mates, steps_of};
use crate::tree_search::order::ordered;
use crate::tree_search::parts::{Choice, Form, Part, Parts};
use crate::tree_search::spending::Search;
use refutation::Side;
use std::alloc::{AllocError, Allocator};

/// The steps of deciding a pair if one of the two is a member or both have only members as children.
const FLAT_STEPS: u64 = 4;

/// The rule that refutes a closing pair.
#[derive(Clone, Copy)]
pub enum Way {
    Dead(Side),
    Clash,
    Match,
    Pick(Side),
}

/// The subexpressions of both sides, and for each left choice a bit for each right choice that closes with it. Pairs
/// with a member need no bit: the members that the other subexpression requires decide them.
#[derive(Drop)]
pub struct Closing<B: Allocator> {
    lefts: Parts<B>,
    rights: Parts<B>,
    grid: Grid<B>,
}

/// Returns the least total weight of the pairs in a match of two choices.
pub fn wanted(of: &Choice, others: &Choice) -> usize {
    (of.needed().saturating_add(others.needed())).saturating_sub(1)
}

/// Returns the number of members.
fn count(members: u64) -> usize {
    members.count_ones() as usize
}

/// Returns the number of children that can't be satisfied, of a choice over members only.
fn dead(choice: &Choice, part: &Part) -> usize {
    choice.len().saturating_sub(count(part.members))
}

/// Returns the number of pairs in a match of two choices over distinct members, if no child's member is absent and
/// enough of the members are equal.
pub fn equal_members(one: &Part, of: &Choice, other: &Part, others: &Choice) -> Option<usize> {
    let are_there = dead(of, one) == 0 && dead(others, other) == 0;
    let wanted = wanted(of, others);
    let is_enough = wanted <= count(one.members & other.members);
    (of.is_flat && others.is_flat && are_there && is_enough).then_some(wanted)
}

/// Returns the weights of up to 64 subexpressions.
pub fn weights(parts: &[Part]) -> [u8; 64] {
    let mut weights = [0u8; 64];
    for (weight, part) in weights.iter_mut().zip(parts) {
        *weight = part.weight;
    }
    weights
}

impl<B: Allocator> Closing<B> {
    /// Returns the left subexpression with a number.
    pub fn left(&self, at: usize) -> Option<&Part> {
        self.lefts.at(at)
    }

    /// Returns the right subexpression with a number.
    pub fn right(&self, at: usize) -> Option<&Part> {
        self.rights.at(at)
    }

    /// Decides all pairs of choices, children before parents, as far as the budget goes. Returns `None` if the budget
    /// is too small for the table.
    pub fn new(
        search: &mut Search<B>,
        lefts: Parts<B>,
        rights: Parts<B>,
    ) -> Result<Option<Closing<B>>, AllocError>
    where
        B: Clone,
    {
        let (rows, columns) = (lefts.choices.len(), rights.choices.len());
        if !search.step(Grid::<B>::words(rows, columns) as u64) {
            return Ok(None);
        }
        let grid = Grid::new(search.arena.clone()?, rows, columns)?;
        let mut closing = Closing {
            lefts,
            rights,
            grid,
        };
        for row in (0..rows).rev() {
            closing.close_row(search, row);
        }
        Ok(Some(closing))
    }

    /// Returns the members that both sides name, in the order of splitting.
    pub fn members(&self, arena: &B) -> Result<Vec<u8, B>, AllocError>
    where
        B: Clone,
    {
        ordered(arena, self.lefts.all.as_slice(), self.rights.all.as_slice())
    }

    /// Returns the number of subexpressions on both sides.
    pub fn size(&self) -> usize {
        self.lefts.len().saturating_add(self.rights.len())
    }

    /// Decides the pairs of a left choice. The pair of the two whole expressions isn't needed, since they aren't
    /// children.
    fn close_row(&mut self, search: &mut Search<B>, row: usize) {
        for column in (0..self.rights.choices.len()).rev() {
            if (row, column) != (0, 0) && self.choices_close(search, row, column) {
                self.grid.put(row, column);
            }
        }
    }

    /// Returns whether a pair of choices closes, if its children's pairs are decided and the budget is enough.
    fn choices_close(&self, search: &mut Search<B>, row: usize, column: usize) -> bool {
        match (self.lefts.choice(row), self.rights.choice(column)) {
            (Some(one), Some(other)) => {
                search.step(self.steps(one, other)) && self.way(one, other).is_some()
            }
            _ => false,
        }
    }

    /// Returns a bound on the steps of deciding a pair.
    pub fn steps(&self, one: &Part, other: &Part) -> u64 {
        match (&one.form, &other.form) {
            (Form::KOf(of), Form::KOf(others)) if !of.is_flat || !others.is_flat => {
                let is_of_ones = of.is_of_ones() && others.is_of_ones();
                steps_of(of.len(), others.len(), is_of_ones).saturating_add(FLAT_STEPS)
            }
            _ => FLAT_STEPS,
        }
    }

    /// Returns whether a pair is known to close.
    pub fn closes(&self, one: &Part, other: &Part) -> bool {
        if !one.is_live || !other.is_live {
            return true;
        }
        match (&one.form, &other.form) {
            (Form::KOf(of), Form::KOf(others)) => {
                self.grid
                    .has(usize::from(of.number), usize::from(others.number))
            },
            (Form::Member(_), _) => one.members & other.needs != 0,
            (Form::KOf(_), Form::Member(_)) => one.needs & other.members != 0,
        }
    }

    /// Returns the rule that closes a pair, given which pairs of children close.
    pub fn way(&self, one: &Part, other: &Part) -> Option<Way> {
        if !one.is_live {
            return Some(Way::Dead(Side::Left));
        }
        if !other.is_live {
            return Some(Way::Dead(Side::Right));
        }
        if one.members & other.members == 0 {
            return None;
        }
        match (&one.form, &other.form) {
            (Form::Member(_), Form::Member(_)) => Some(Way::Clash),
            (Form::KOf(of), Form::Member(_)) => self.pick_left(one, of, other),
            (Form::Member(_), Form::KOf(others)) => self.pick_right(one, other, others),
            (Form::KOf(of), Form::KOf(others)) => self.two_choices(one, of, other, others),
        }
    }

    /// Returns the rule that closes a pair of choices.
    fn two_choices(&self, one: &Part, of: &Choice, other: &Part, others: &Choice) -> Option<Way> {
        if self.match_closes(one, of, other, others) {
            return Some(Way::Match);
        }
        if others.k == others.total {
            self.pick_right(one, other, others)
                .or_else(|| self.pick_left(one, of, other))
        } else {
            self.pick_left(one, of, other)
                .or_else(|| self.pick_right(one, other, others))
        }
    }

    /// Returns a pick of a left choice's children, if enough of them close with the right side.
    fn pick_left(&self, one: &Part, of: &Choice, other: &Part) -> Option<Way> {
        let weight = if of.is_flat {
            dead(of, one).saturating_add(count(one.members & other.needs))
        } else {
            self.left_weight_with(of, other)
        };
        (weight >= of.needed()).then_some(Way::Pick(Side::Left))
    }

    /// Returns a pick of a right choice's children, if enough of them close with the left side.
    fn pick_right(&self, one: &Part, other: &Part, others: &Choice) -> Option<Way> {
        let weight = if others.is_flat {
            dead(others, other).saturating_add(count(one.needs & other.members))
        } else {
            self.right_weight_with(one, others)
        };
        (weight >= others.needed()).then_some(Way::Pick(Side::Right))
    }

    /// Returns the weight of a left choice's children that close with the right side.
    fn left_weight_with(&self, of: &Choice, other: &Part) -> usize {
        let mut weight = 0usize;
        for child in self.lefts.children(of) {
            if self.closes(child, other) {
                weight = weight.saturating_add(usize::from(child.weight));
            }
        }
        weight
    }

    /// Returns the weight of a right choice's children that close with the left side.
    fn right_weight_with(&self, one: &Part, others: &Choice) -> usize {
        let mut weight = 0usize;
        for child in self.rights.children(others) {
            if self.closes(one, child) {
                weight = weight.saturating_add(usize::from(child.weight));
            }
        }
        weight
    }

    /// Returns whether the closing pairs of children weigh enough for a match of two choices. If all children are
    /// members, the closing pairs are those of equal members and those with a member that is absent.
    fn match_closes(&self, one: &Part, of: &Choice, other: &Part, others: &Choice) -> bool {
        if of.is_flat && others.is_flat {
            let pairs = count(one.members & other.members)
                .saturating_add(dead(of, one))
                .saturating_add(dead(others, other));
            let wanted = wanted(of, others);
            wanted <= pairs && wanted <= of.len() && wanted <= others.len()
        } else {
            self.mates(of, others).is_some()
        }
    }

    /// Returns a bit for each right subexpression that closes with a left one.
    fn edge(&self, one: &Part, others: &[Part]) -> u64 {
        let mut edge = 0u64;
        let mut bit = 1u64;
        for other in others {
            if self.closes(one, other) {
                edge |= bit;
            }
            bit = bit.wrapping_add(bit);
        }
        edge
    }

    /// Returns closing pairs of children that weigh enough for a match of two choices.
    pub fn mates(&self, of: &Choice, others: &Choice) -> Option<Mates> {
        let wanted = wanted(of, others);
        if wanted > usize::from(of.total.min(others.total)) {
            return None;
        }
        let (lefts, rights) = (self.lefts.children(of), self.rights.children(others));
        let mut edges = [0u64; 64];
        for (edge, child) in edges.iter_mut().zip(lefts) {
            *edge = self.edge(child, rights);
        }
        let edges = edges.get(..of.len())?;
        if of.is_of_ones() && others.is_of_ones() {
            return Mates::find(edges, wanted);
        }
        Mates::heaviest(edges, &weights(lefts), &weights(rights), wanted)
    }

    /// Returns the children of a left choice.
    pub fn lefts(&self, of: &Choice) -> &[Part] {
        self.lefts.children(of)
    }

    /// Returns the children of a right choice.
    pub fn rights(&self, others: &Choice) -> &[Part] {
        self.rights.children(others)
    }
}
