//! The subexpressions of an expression, numbered.

use crate::tree_search::lists::append;
use crate::tree_search::needs::known_part;
use crate::tree_search::spending::Search;
use quorum_expr::{Expr, MemberSet};
use std::alloc::{AllocError, Allocator};
use std::ops::Range;

/// The most subexpressions: as many as a valid expression may have.
const MOST: usize = 4096;

/// The initial capacity for subexpressions and for choices.
const ROOM: usize = 64;

const CHOICES: usize = 16;

/// The steps of listing a subexpression and of finding the members that it requires.
const PART_STEPS: u64 = 16;

/// A threshold whose children have consecutive numbers.
#[derive(Clone, Copy)]
pub struct Choice {
    /// The weight that the satisfied children must reach.
    pub k: u16,
    /// The weight of all children.
    pub total: u16,
    pub first: u16,
    pub count: u16,
    /// The choice's number among the choices.
    pub number: u16,
    /// Whether the children are members of weight 1, and those that aren't absent are distinct.
    pub is_flat: bool,
}

/// A member, or a choice.
#[derive(Clone, Copy)]
pub enum Form {
    Member(u8),
    KOf(Choice),
}

/// A subexpression.
#[derive(Clone, Copy)]
pub struct Part {
    pub form: Form,
    /// The subexpression's weight as a child.
    pub weight: u8,
    /// Whether all members that aren't absent satisfy it.
    pub is_live: bool,
    /// The members that it names and that aren't absent, a bit for each.
    pub members: u64,
    /// The members without which it isn't satisfied, a bit for each.
    pub needs: u64,
}

/// The subexpressions of an expression, itself first, parents before children. The children of one choice have
/// consecutive numbers.
#[derive(Drop)]
pub struct Parts<B: Allocator> {
    pub all: Vec<Part, B>,
    /// The numbers of the subexpressions that are choices.
    pub choices: Vec<usize, B>,
}

impl Choice {
    /// Returns the numbers of the choice's children.
    pub fn children(&self) -> Range<usize> {
        let first = usize::from(self.first);
        first..first + usize::from(self.count)
    }

    /// Returns the number of children.
    pub fn len(&self) -> usize {
        usize::from(self.count)
    }

    /// Returns the least weight that the others can't make up for: of children with this weight at least one must be
    /// satisfied.
    pub fn needed(&self) -> usize {
        (usize::from(self.total) + 1).saturating_sub(usize::from(self.k))
    }

    /// Returns whether each child has weight 1.
    pub fn is_of_ones(&self) -> bool {
        self.total == self.count
    }
}

/// Returns the weight of all children.
pub fn total<A: Allocator>(of: &[(u8, Expr<A>)]) -> usize {
    let mut total = 0usize;
    for (weight, _) in of {
        total = total.saturating_add(usize::from(*weight));
    }
    total
}

/// Returns a number as 16 bits. An expression has at most 65,536 subexpressions.
fn short(number: usize) -> u16 {
    u16::try_from(number).unwrap_or(u16::MAX)
}

/// Returns the part of a member. It is live if the member isn't absent.
fn member_part(member: u8, weight: u8, absent: MemberSet) -> Part {
    let bit = 1u64.checked_shl(u32::from(member)).unwrap_or(0);
    let is_live = !absent.contains(member);
    Part {
        form: Form::Member(member),
        weight,
        is_live,
        members: if is_live { bit } else { 0 },
        needs: if is_live { bit } else { u64::MAX },
    }
}

/// Returns choice `number`, whose children are not yet listed.
fn choice_part(k: u16, weight: u8, number: usize) -> Part {
    let choice = Choice {
        k,
        total: 0,
        first: 0,
        count: 0,
        number: short(number),
        is_flat: false,
    };
    Part {
        form: Form::KOf(choice),
        weight,
        is_live: false,
        members: 0,
        needs: u64::MAX,
    }
}

/// The list of the parts of an expression, under construction.
#[derive(Drop)]
struct Listing<'e, A: Allocator, B: Allocator> {
    parts: Parts<B>,
    /// The child expressions of each choice.
    children: Vec<&'e [(u8, Expr<A>)], B>,
    absent: MemberSet,
}

impl<'e, A: Allocator, B: Allocator> Listing<'e, A, B> {
    /// Adds a part.
    fn add(&mut self, weight: u8, expr: &'e Expr<A>) -> Result<(), AllocError> {
        let part = match expr {
            Expr::Member(member) => member_part(*member, weight, self.absent),
            Expr::KOf { k, of } => {
                let number = self.children.len();
                append(&mut self.parts.choices, self.parts.all.len())?;
                append(&mut self.children, of.as_slice())?;
                choice_part(*k, weight, number)
            }
        };
        append(&mut self.parts.all, part)
    }

    /// Adds the children of a choice at the end.
    fn add_children(&mut self, number: usize) -> Result<(), AllocError> {
        let children = self.children.get(number).copied().unwrap_or(&[]);
        let first = self.parts.all.len();
        let mut total = 0u16;
        for (weight, child) in children {
            total = total.saturating_add(u16::from(*weight));
            self.add(*weight, child)?;
        }
        let at = self.parts.choices.get(number).copied().unwrap_or(0);
        if let Some(
            Part {
                form: Form::KOf(choice),
                ..
            },
        ) = self.parts.all.get_mut(at)
        {
            choice.total = total;
            choice.first = short(first);
            choice.count = short(children.len());
        }
        Ok(())
    }
}

impl<B: Allocator> Parts<B> {
    /// Returns the part with a number.
    pub fn at(&self, number: usize) -> Option<&Part> {
        self.all.get(number)
    }

    /// Returns choice `number`.
    pub fn choice(&self, number: usize) -> Option<&Part> {
        self.all.get(*self.choices.get(number)?)
    }

    /// Returns the children of a choice.
    pub fn children(&self, choice: &Choice) -> &[Part] {
        self.all.get(choice.children()).unwrap_or(&[])
    }

    /// Returns the number of subexpressions.
    pub fn len(&self) -> usize {
        self.all.len()
    }

    /// Computes a choice's properties from its children.
    fn know(&mut self, at: usize) {
        let Some(
            Part {
                form: Form::KOf(choice),
                weight,
                ..
            },
        ) = self.all.get(at).copied()
        else {
            return;
        };
        let known = known_part(choice, weight, self.children(&choice));
        if let Some(part) = self.all.get_mut(at) {
            *part = known;
        }
    }

    /// Computes the properties of all choices, children before parents.
    fn know_all(&mut self) {
        for number in (0..self.choices.len()).rev() {
            let at = self.choices.get(number).copied().unwrap_or(0);
            self.know(at);
        }
    }
}

/// Returns the subexpressions of an expression from which these members are absent. Returns `None` if there are too
/// many, or the budget is too small.
pub fn parts_of<A: Allocator, B: Allocator + Clone>(
    search: &mut Search<B>,
    expr: &Expr<A>,
    absent: MemberSet,
) -> Result<Option<Parts<B>>, AllocError> {
    let mut listing = Listing {
        parts: Parts {
            all: Vec::with_capacity(search.arena.clone()?, ROOM)?,
            choices: Vec::with_capacity(search.arena.clone()?, CHOICES)?,
        },
        children: Vec::with_capacity(search.arena.clone()?, CHOICES)?,
        absent,
    };
    listing.add(1, expr)?;
    for number in 0..MOST + 1 {
        if number >= listing.children.len() {
            break;
        }
        let children = listing.children.get(number).map_or(0, |of| of.len());
        if !search.step((children as u64).saturating_mul(PART_STEPS)) {
            return Ok(None);
        }
        listing.add_children(number)?;
    }
    let Listing { mut parts, .. } = listing;
    if parts.len() > MOST {
        return Ok(None);
    }
    parts.know_all();
    Ok(Some(parts))
}
