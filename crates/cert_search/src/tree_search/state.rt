//! The states of a search: the items of both sides, and the members that are absent from each.

ghost use Rattle.std.specs.Prelude.{◌<◌};

use quorum_expr::{Expr, MEMBERS, MemberSet, holds};
use refutation::Side;
use std::alloc::{AllocError, Allocator};

/// The last items of a side.
#[derive(Drop)]
pub struct Row<'a, A: Allocator> {
    /// The number of items before these; the search doesn't change them.
    pub before: usize,
    pub items: &'a [&'a Expr<A>],
    /// The members that are absent from the side.
    pub absent: MemberSet,
}

/// The items of both sides.
#[derive(Drop)]
pub struct State<'a, A: Allocator> {
    pub left: Row<'a, A>,
    pub right: Row<'a, A>,
}

impl<'a, A: Allocator> Row<'a, A> {
    /// Returns the number of an item in the whole list of its side.
    pub fn number(&self, at: usize) -> Option<u16> {
        u16::try_from(self.before.saturating_add(at)).ok()
    }

    /// Returns a row of other items, with `before` items before them.
    pub fn with<'b>(&self, before: usize, items: &'b [&'b Expr<A>]) -> Row<'b, A>
    where
        'a: 'b,
    {
        Row {
            before,
            items,
            absent: self.absent,
        }
    }

    /// Returns the row after one item was replaced by one child. `items` is that child alone.
    pub fn narrowed<'b>(&self, items: &'b [&'b Expr<A>]) -> Row<'b, A>
    where
        'a: 'b,
    {
        let others = self.items.len().saturating_sub(1);
        self.with(self.before.saturating_add(others), items)
    }

    /// Returns the row with one more member absent.
    fn lacking(&self, member: u8) -> Row<'a, A>
        requires { member < 64 }
    {
        Row {
            before: self.before,
            items: self.items,
            absent: self.absent.with(member),
        }
    }

    /// Returns a copy of the row.
    fn copy(&self) -> Row<'a, A> {
        Row {
            before: self.before,
            items: self.items,
            absent: self.absent,
        }
    }

    /// Returns the items except one.
    fn rest<B: Allocator>(&self, alloc: B, at: usize) -> Result<Vec<&'a Expr<A>, B>, AllocError> {
        let mut rest = Vec::new(alloc);
        for (i, item) in self.items.iter().enumerate() {
            if i != at {
                rest.push(*item)?;
            }
        }
        Ok(rest)
    }

    /// Returns the items with one of them replaced: it is removed and the others are added at the end.
    pub fn replaced<B: Allocator>(
        &self,
        alloc: B,
        at: usize,
        children: &'a [(u8, Expr<A>)],
    ) -> Result<Vec<&'a Expr<A>, B>, AllocError> {
        let mut list = self.rest(alloc, at)?;
        for (_, child) in children {
            list.push(child)?;
        }
        Ok(list)
    }

    /// Returns the items with one of them replaced by one of its children, at the end.
    pub fn replaced_by_one<B: Allocator>(
        &self,
        alloc: B,
        at: usize,
        child: &'a Expr<A>,
    ) -> Result<Vec<&'a Expr<A>, B>, AllocError> {
        let mut list = self.rest(alloc, at)?;
        list.push(child)?;
        Ok(list)
    }

    /// Returns whether a set of members satisfies all items.
    pub fn hold(&self, members: MemberSet) -> bool {
        self.items.iter().all(|item| holds(*item, members))
    }

    /// Returns the first item that isn't satisfied by all members that aren't absent.
    pub fn first_dead(&self) -> Option<usize> {
        let present = self.absent.complement();
        self.items.iter().position(|item| !holds(*item, present))
    }

    /// Returns the members that are items.
    pub fn members(&self) -> MemberSet {
        let mut members = MemberSet::empty();
        for item in self.items {
            if let Expr::Member(member) = *item {
                if *member < MEMBERS {
                    members = members.with(*member);
                }
            }
        }
        members
    }

    /// Returns the place of the first item that is this member.
    pub fn place_of(&self, member: u8) -> Option<usize> {
        self.items.iter().position(|item| match *item {
            Expr::Member(own) => *own == member,
            Expr::KOf { .. } => false,
        })
    }
}

impl<'a, A: Allocator> State<'a, A> {
    /// Returns the state with these items, and with these members absent from the left side and from the right one.
    pub fn new(
        lefts: &'a [&'a Expr<A>],
        rights: &'a [&'a Expr<A>],
        absent: (MemberSet, MemberSet),
    ) -> State<'a, A> {
        State {
            left: Row {
                before: 0,
                items: lefts,
                absent: absent.0,
            },
            right: Row {
                before: 0,
                items: rights,
                absent: absent.1,
            },
        }
    }

    /// Returns the items of a side.
    pub fn row(&self, side: Side) -> Row<'a, A> {
        match side {
            Side::Left => self.left.copy(),
            Side::Right => self.right.copy(),
        }
    }

    /// Returns the state with other items on a side.
    pub fn changed<'b>(&self, side: Side, items: &'b [&'b Expr<A>]) -> State<'b, A>
    where
        'a: 'b,
    {
        match side {
            Side::Left => State {
                left: self.left.with(self.left.before, items),
                right: self.right.copy(),
            },
            Side::Right => State {
                left: self.left.copy(),
                right: self.right.with(self.right.before, items),
            },
        }
    }

    /// Returns the state with one more member absent from a side.
    pub fn lacking(&self, side: Side, member: u8) -> State<'a, A>
        requires { member < 64 }
    {
        match side {
            Side::Left => State {
                left: self.left.lacking(member),
                right: self.right.copy(),
            },
            Side::Right => State {
                left: self.left.copy(),
                right: self.right.lacking(member),
            },
        }
    }
}
