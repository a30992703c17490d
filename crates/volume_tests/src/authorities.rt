//! Tests of the authority.

use super::replies::Reply::{self, Count, Step, View, Yes};
use super::replies::reply_of;
use super::texts::{GROWING, checked};
use epochs::{Authority, Readiness};
use quorum_expr::MemberSet;
use std::alloc::Global;
use std::test::*;
use volume_model::Fault::{self, AllGrown, NoGroup, NotInPlan, Superseded};
use wire::Message;

/// One group. Member 0 reads and writes alone; member 1 is added by the child of the root.
const PLAN: &[u8] = b"{\"format\":1,\"lal\":10,\"groups\":[{\"configurations\":[\
{\"parent\":null,\"members\":[0],\"full\":[0],\"read\":0,\"write\":0,\"meets\":{\"rule\":\"clash\",\"left\":0,\"right\":0},\"step\":null},\
{\"parent\":0,\"members\":[0,1],\"full\":[0],\"read\":0,\"write\":0,\"meets\":{\"rule\":\"clash\",\"left\":0,\"right\":0},\"step\":{\"rule\":\"clash\",\"left\":0,\"right\":0}}]}]}";

/// One group. Member 0 reads and writes alone; in the child of the root it reads together with member 1.
const TWO_READ: &[u8] = b"{\"format\":1,\"lal\":10,\"groups\":[{\"configurations\":[\
{\"parent\":null,\"members\":[0],\"full\":[0],\"read\":0,\"write\":0,\"meets\":{\"rule\":\"clash\",\"left\":0,\"right\":0},\"step\":null},\
{\"parent\":0,\"members\":[0,1],\"full\":[0],\"read\":{\"k\":2,\"of\":\"all\"},\"write\":0,\
\"meets\":{\"rule\":\"pick\",\"side\":\"left\",\"item\":0,\"children\":[0],\
\"then\":[{\"rule\":\"clash\",\"left\":0,\"right\":0}]},\"step\":{\"rule\":\"dead\",\"side\":\"left\",\"item\":0}}]}]}";

/// A call of the authority.
#[derive(Clone, Copy)]
enum Asked {
    /// Advances a group to this child of its configuration.
    Advance(u8, u32),
    MayAdvance(u8, u32),
    /// Assigns the next volume epoch.
    Assign,
    MayAssign,
    /// Makes a View of the groups' places for the client of a volume epoch.
    Refresh(u32),
    MayRefresh(u32),
    /// Lets the next group join.
    Grow,
    MayGrow,
    /// Returns the number of groups that have joined.
    Joined,
}

/// A call, and the expected answer or refusal.
type Row = (Asked, Result<Reply, Fault>);

/// Makes the authority's message.
fn made(alloc: Global, authority: &mut Authority, asked: Asked) -> Result<Message, Fault> {
    match asked {
        Asked::Advance(group, configuration) => authority.advance(group, configuration),
        Asked::Assign => authority.assign(alloc),
        Asked::Refresh(volume) => authority.refresh(alloc, volume),
        _ => Err(Fault::NoMessage),
    }
}

fn answer(alloc: Global, authority: &mut Authority, asked: Asked) -> Result<Reply, Fault> {
    match asked {
        Asked::MayAdvance(group, configuration) => authority.admits_advance(group, configuration)?,
        Asked::MayAssign => authority.admits_assign()?,
        Asked::MayRefresh(volume) => authority.admits_refresh(volume)?,
        Asked::MayGrow => authority.admits_grow()?,
        Asked::Grow => authority.grow()?,
        Asked::Joined => return Ok(Count(usize::from(authority.joined()))),
        _ => return Ok(reply_of(&made(alloc, authority, asked)?)),
    }
    Ok(Yes)
}

/// Returns the index of the first row with another answer of a new volume's authority, `None` if there is none.
fn first_wrong(alloc: Global, text: &[u8], rows: &[Row]) -> Result<Option<usize>, Fault> {
    let mut authority = Authority::new(alloc, checked(alloc, text)?)?;
    for (place, (asked, expected)) in rows.iter().enumerate() {
        if answer(alloc, &mut authority, *asked) != *expected {
            return Ok(Some(place));
        }
    }
    Ok(None)
}

/// The group steps to the child, configuration 1 at membership epoch 2, and later Views have this place.
const STEPS_AND_VIEWS: &[Row] = &[
    (Asked::MayAdvance(1, 0), Err(NoGroup)),
    (Asked::MayAdvance(0, 1), Ok(Yes)),
    (Asked::MayAssign, Ok(Yes)),
    (Asked::MayRefresh(2), Err(Superseded)),
    (Asked::Advance(1, 0), Err(NoGroup)),
    (Asked::Advance(0, 0), Err(NotInPlan)),
    (Asked::Advance(0, 1), Ok(Step(0, 1, 2))),
    (Asked::Advance(0, 1), Err(NotInPlan)),
    (Asked::Assign, Ok(View(2, 1, 1, 2))),
    (Asked::Refresh(1), Err(Superseded)),
    (Asked::Refresh(2), Ok(View(2, 1, 1, 2))),
];

/// The second group joins.
const GROUPS_JOIN: &[Row] = &[
    (Asked::Joined, Ok(Count(1))),
    (Asked::MayAdvance(1, 0), Err(NoGroup)),
    (Asked::Refresh(1), Ok(View(1, 1, 0, 1))),
    (Asked::MayGrow, Ok(Yes)),
    (Asked::Grow, Ok(Yes)),
    (Asked::Joined, Ok(Count(2))),
    (Asked::MayAdvance(1, 0), Err(NotInPlan)),
    (Asked::Refresh(1), Ok(View(1, 2, 0, 1))),
    (Asked::Assign, Ok(View(2, 2, 0, 1))),
    (Asked::MayGrow, Err(AllGrown)),
    (Asked::Grow, Err(AllGrown)),
    (Asked::Joined, Ok(Count(2))),
];

/// The whole members, and whether they can read and write after the advance to the child.
const READINESS: &[(&[u8], bool, bool)] = &[
    (&[], false, false),
    (&[0], false, true),
    (&[1], false, false),
    (&[0, 1], true, true),
];

/// Returns the index of the first row of which a new volume's authority says otherwise, `None` if there is none.
fn wrong_readiness(alloc: Global) -> Result<Option<usize>, Fault> {
    let authority = Authority::new(alloc, checked(alloc, TWO_READ)?)?;
    for (place, (members, can_read, can_write)) in READINESS.iter().enumerate() {
        let mut whole = MemberSet::empty();
        for member in *members {
            whole = whole.with(*member & 63);
        }
        let expected = Readiness {
            can_read: *can_read,
            can_write: *can_write,
        };
        if authority.may_advance(0, 1, whole) != Ok(expected) {
            return Ok(Some(place));
        }
    }
    Ok(None)
}

/// Returns the refusal of an advance to this configuration.
fn refused(alloc: Global, group: u8, configuration: u32) -> Result<Fault, Fault> {
    let authority = Authority::new(alloc, checked(alloc, TWO_READ)?)?;
    match authority.may_advance(group, configuration, MemberSet::empty()) {
        Ok(_) => Ok(Fault::NoMessage),
        Err(fault) => Ok(fault),
    }
}

#[test]
fn authorities(rt: HostRuntime) {
    assert_eq!(rt; first_wrong(rt.alloc(), PLAN, STEPS_AND_VIEWS), Ok(None));
    assert_eq!(rt; first_wrong(rt.alloc(), GROWING, GROUPS_JOIN), Ok(None));
    assert_eq!(rt; wrong_readiness(rt.alloc()), Ok(None));
    assert_eq!(rt; refused(rt.alloc(), 1, 1), Ok(NoGroup));
    assert_eq!(rt; refused(rt.alloc(), 0, 0), Ok(NotInPlan));
}
