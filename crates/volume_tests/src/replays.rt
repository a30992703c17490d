//! Tests of runs: the writers' logs are compared record by record, the recoveries' lineages entry by entry.

use super::texts::{SIX, checked};
use super::writers::changes;
use lineage::Entry;
use std::alloc::Global;
use std::test::*;
use volume_model::Fault::{self, BadTransaction, NotJoined};
use world::{Event, Order, Outcome, run_orders};

/// A line of a run: one event, or one for each of several members or messages. A line is identified by its index, from
/// 0.
#[derive(Clone, Copy)]
enum Line {
    /// The authority assigns the next volume epoch.
    Assign,
    /// The next group joins.
    Grow,
    /// The authority makes a View for the client of a volume epoch.
    Refresh(u32),
    /// A writer issues a transaction with a change to block 0 of each of these groups.
    Issue(u32, &'static [u8]),
    /// These members of a group each take a message (from 1) of the first event of a line.
    Deliver(u8, &'static [u8], usize, u64),
    /// A client takes the first message of each event of a line.
    Take(u32, usize),
    /// A recovery cuts.
    Cut(u32),
    /// A recovery opens.
    Open(u32),
}

/// The members that receive a Write.
const FOUR: &[u8] = &[0, 1, 2, 3];

/// Three bytes reach four of six members. Two bytes more reach one, and recovery 2 reads three others.
const CUT_AT_3: &[Line] = &[
    Line::Issue(1, &[0, 0, 0]),
    Line::Deliver(0, FOUR, 0, 1),
    Line::Deliver(0, FOUR, 0, 2),
    Line::Deliver(0, FOUR, 0, 3),
    Line::Take(1, 3),
    Line::Issue(1, &[0, 0]),
    Line::Deliver(0, &[0], 5, 1),
    Line::Deliver(0, &[0], 5, 2),
    Line::Assign,
    Line::Take(2, 8),
    Line::Deliver(0, &[1, 2, 3], 9, 1),
    Line::Take(2, 10),
    Line::Cut(2),
];

/// The recovery is installed on four members, opens, and issues a record.
const OPENED: &[Line] = &[
    Line::Deliver(0, FOUR, 12, 1),
    Line::Take(2, 13),
    Line::Open(2),
    Line::Issue(2, &[0]),
];

/// The same bytes, but recovery 2 reads the member that the last two reached, and is installed there alone.
const CUT_AT_5: &[Line] = &[
    Line::Issue(1, &[0, 0, 0]),
    Line::Deliver(0, FOUR, 0, 1),
    Line::Deliver(0, FOUR, 0, 2),
    Line::Deliver(0, FOUR, 0, 3),
    Line::Take(1, 3),
    Line::Issue(1, &[0, 0]),
    Line::Deliver(0, &[0], 5, 1),
    Line::Deliver(0, &[0], 5, 2),
    Line::Assign,
    Line::Take(2, 8),
    Line::Deliver(0, &[0, 1, 2], 9, 1),
    Line::Take(2, 10),
    Line::Cut(2),
    Line::Deliver(0, &[0], 12, 1),
];

/// Recovery 3 reads three others.
const THIRD: &[Line] = &[
    Line::Assign,
    Line::Take(3, 14),
    Line::Deliver(0, &[1, 2, 3], 15, 1),
    Line::Take(3, 16),
    Line::Cut(3),
];

/// Recovery 3 is installed on member 1 alone, and recovery 4 reads members 0, 1 and 2.
const FOURTH_AFTER_INSTALL: &[Line] = &[
    Line::Deliver(0, &[1], 18, 1),
    Line::Assign,
    Line::Take(4, 20),
    Line::Deliver(0, &[0, 1, 2], 21, 1),
    Line::Take(4, 22),
    Line::Cut(4),
];

/// Recovery 3 is installed nowhere, and recovery 4 reads members 0, 1 and 2.
const FOURTH: &[Line] = &[
    Line::Assign,
    Line::Take(4, 19),
    Line::Deliver(0, &[0, 1, 2], 20, 1),
    Line::Take(4, 21),
    Line::Cut(4),
];

/// Two groups with a record each; one member holds the second group's record. Recovery 2 reads it, and is installed on
/// all members of the first group only. Recovery 3 reads other members of the second group.
const IN_ONE_OF_TWO_GROUPS: &[Line] = &[
    Line::Issue(1, &[0, 1]),
    Line::Deliver(0, FOUR, 0, 1),
    Line::Deliver(1, &[0], 0, 2),
    Line::Assign,
    Line::Take(2, 3),
    Line::Deliver(0, &[0, 1, 2], 4, 1),
    Line::Deliver(1, &[0, 1, 2], 4, 2),
    Line::Take(2, 5),
    Line::Take(2, 6),
    Line::Cut(2),
    Line::Deliver(0, &[0, 1, 2, 3, 4, 5], 9, 1),
    Line::Assign,
    Line::Take(3, 11),
    Line::Deliver(0, &[0, 1, 2], 12, 1),
    Line::Deliver(1, &[1, 2, 3], 12, 2),
    Line::Take(3, 13),
    Line::Take(3, 14),
    Line::Cut(3),
];

/// The second of two groups joins, and is written to before its install has counted, and after.
const A_GROUP_JOINS: &[Line] = &[
    Line::Issue(1, &[0]),
    Line::Issue(1, &[1]),
    Line::Grow,
    Line::Refresh(1),
    Line::Take(1, 3),
    Line::Issue(1, &[1]),
    Line::Deliver(1, FOUR, 4, 1),
    Line::Take(1, 6),
    Line::Issue(1, &[1]),
];

/// A group of six members, of which three read and four write.
const GROUP: &[u8] =
    b"{\"configurations\":[{\"parent\":null,\"members\":[0,1,2,3,4,5],\"full\":[0,1,2,3,4,5],\
\"read\":{\"k\":3,\"of\":\"all\"},\"write\":{\"k\":4,\"of\":\"all\"},\"meets\":{\"rule\":\"match\",\"left\":0,\"right\":0,\
\"pairs\":[[0,0],[1,1],[2,2],[3,3],[4,4],[5,5]],\"then\":[\
{\"rule\":\"clash\",\"left\":0,\"right\":0},{\"rule\":\"clash\",\"left\":0,\"right\":0},{\"rule\":\"clash\",\"left\":0,\"right\":0},\
{\"rule\":\"clash\",\"left\":0,\"right\":0},{\"rule\":\"clash\",\"left\":0,\"right\":0},{\"rule\":\"clash\",\"left\":0,\"right\":0}]},\"step\":null}]}";

/// The plan of a run.
#[derive(Clone, Copy)]
enum Volume {
    /// One group of six.
    OneGroup,
    /// Two groups of six, both at birth.
    TwoGroups,
    /// Two groups of six, of which the second joins later.
    OneOfTwo,
}

fn text(alloc: Global, volume: Volume) -> Result<Vec<u8>, Fault> {
    let head: &[u8] = match volume {
        Volume::OneGroup => return Ok(Vec::from_slice(alloc, SIX)?),
        Volume::TwoGroups => b"{\"format\":1,\"lal\":10,\"groups\":[",
        Volume::OneOfTwo => b"{\"format\":3,\"lal\":10,\"born\":1,\"groups\":[",
    };
    let mut text = Vec::from_slice(alloc, head)?;
    text.extend_from_slice(GROUP)?;
    text.extend_from_slice(b",")?;
    text.extend_from_slice(GROUP)?;
    text.extend_from_slice(b"]}")?;
    Ok(text)
}

/// Returns the index of the first event of a line, and the number of its events; no events for a line that isn't there
/// yet.
fn events_of(firsts: &[usize], line: usize) -> (usize, usize) {
    match (firsts.get(line), firsts.get(line.saturating_add(1))) {
        (Some(first), Some(next)) => (*first, next.saturating_sub(*first)),
        _ => (0, 0),
    }
}

/// Returns the index of an event as orders have it.
fn index(event: usize) -> u32 {
    u32::try_from(event).unwrap_or(u32::MAX)
}

/// Returns the event of a line that names no message.
fn event(alloc: Global, line: Line) -> Result<Event, Fault> {
    Ok(match line {
        Line::Grow => Event::Grow,
        Line::Refresh(volume) => Event::Refresh { volume },
        Line::Issue(volume, groups) => Event::Issue {
            volume,
            changes: changes(alloc, groups)?,
        },
        Line::Cut(volume) => Event::Cut { volume },
        Line::Open(volume) => Event::Open { volume },
        _ => Event::Assign,
    })
}

/// Appends the events of a line.
fn push(alloc: Global, orders: &mut Vec<Order>, firsts: &[usize], line: Line) -> Result<(), Fault> {
    match line {
        Line::Deliver(group, members, of, place) => {
            let (first, _) = events_of(firsts, of);
            for member in members {
                orders.push(Order::DeliverFrom {
                    group,
                    member: *member,
                    event: index(first),
                    place,
                })?;
            }
        }
        Line::Take(volume, of) => {
            let (first, count) = events_of(firsts, of);
            for event in first..first.saturating_add(count) {
                orders.push(Order::TakeFrom {
                    volume,
                    event: index(event),
                    place: 1,
                })?;
            }
        }
        other => orders.push(Order::Event(Box::new(alloc, event(alloc, other)?)?))?,
    }
    Ok(())
}

/// Returns the outcome of lines, given in parts, over a plan.
fn outcome(alloc: Global, volume: Volume, parts: &[&[Line]]) -> Result<Outcome, Fault> {
    let mut orders = Vec::new(alloc);
    let mut firsts = vec![in alloc; 0usize]?;
    for part in parts {
        for line in *part {
            push(alloc, &mut orders, firsts.as_slice(), *line)?;
            firsts.push(orders.len())?;
        }
    }
    let plan = checked(alloc, text(alloc, volume)?.as_slice())?;
    run_orders(alloc, &plan, orders)
}

/// Returns the refusals of a run, in order.
fn refusals(alloc: Global, outcome: &Outcome) -> Result<Vec<Fault>, Fault> {
    let mut refused = Vec::new(alloc);
    for result in &outcome.results {
        if let Err(fault) = result {
            refused.push(*fault)?;
        }
    }
    Ok(refused)
}

/// Returns the volume epoch of a record of a writer's log, and the LSNs before it in the volume, in its group and on
/// its block.
fn record(outcome: &Outcome, volume: u32, lsn: u64) -> Option<(u32, u64, u64, u64)> {
    let writer = outcome.writers.iter().find(|it| it.volume == volume)?;
    let record = writer.log.record_at(lsn)?.record();
    Some((
        record.volume_epoch,
        record.prev_volume,
        record.prev_group,
        record.prev_block,
    ))
}

/// Returns whether the lineage of a recovery has exactly these entries.
fn has_lineage(
    alloc: Global,
    outcome: &Outcome,
    volume: u32,
    entries: &[(u32, u64, u64)],
) -> Result<bool, Fault> {
    for find in &outcome.finds {
        if find.volume == volume {
            let own = find.found.lineage.entries(alloc)?;
            return Ok(
                own.len() == entries.len()
                    && own
                        .iter()
                        .zip(entries.iter())
                        .all(|(own, due)| is(own, *due)),
            );
        }
    }
    Ok(false)
}

/// Returns whether an entry has this volume epoch, cut and start.
fn is(entry: &Entry, due: (u32, u64, u64)) -> bool {
    entry.volume_epoch == due.0 && entry.cut == due.1 && entry.start == due.2
}

/// The record of a recovered writer links to the log found, in the volume, in its group and on its block.
fn recovered(alloc: Global) -> Result<(Vec<Fault>, Option<(u32, u64, u64, u64)>, bool), Fault> {
    let outcome = outcome(alloc, Volume::OneGroup, &[CUT_AT_3, OPENED])?;
    let lineage = has_lineage(alloc, &outcome, 2, &[(1, 0, 0), (2, 3, 13)])?;
    Ok((refusals(alloc, &outcome)?, record(&outcome, 2, 14), lineage))
}

#[test]
fn a_recovered_writer_goes_on_from_what_was_found(rt: HostRuntime) -> Result<(), Fault> {
    let (refused, record, lineage) = recovered(rt.alloc())?;
    assert!(rt; refused.is_empty() && lineage);
    assert_eq!(rt; record, Some((2, 3, 3, 3)));
    Ok(())
}

/// The parts of a run over a plan, one of its recoveries, and the expected lineage.
type LineageRow = (
    Volume,
    &'static [&'static [Line]],
    u32,
    &'static [(u32, u64, u64)],
);

const LINEAGES: &[LineageRow] = &[
    (
        Volume::OneGroup,
        &[CUT_AT_5, THIRD],
        2,
        &[(1, 0, 0), (2, 5, 15)],
    ),
    (
        Volume::OneGroup,
        &[CUT_AT_5, THIRD],
        3,
        &[(1, 0, 0), (3, 3, 13)],
    ),
    (
        Volume::OneGroup,
        &[CUT_AT_5, THIRD, FOURTH_AFTER_INSTALL],
        4,
        &[(1, 0, 0), (3, 3, 13), (4, 3, 23)],
    ),
    (
        Volume::OneGroup,
        &[CUT_AT_5, THIRD, FOURTH],
        4,
        &[(1, 0, 0), (2, 5, 15), (4, 5, 25)],
    ),
    (
        Volume::TwoGroups,
        &[IN_ONE_OF_TWO_GROUPS],
        2,
        &[(1, 0, 0), (2, 2, 12)],
    ),
    (
        Volume::TwoGroups,
        &[IN_ONE_OF_TWO_GROUPS],
        3,
        &[(1, 0, 0), (2, 2, 12), (3, 0, 22)],
    ),
];

/// Returns whether a run refuses nothing and the recovery has the lineage.
fn keeps_to(alloc: Global, row: &LineageRow) -> Result<bool, Fault> {
    let (volume, parts, recovery, entries) = *row;
    let outcome = outcome(alloc, volume, parts)?;
    Ok(refusals(alloc, &outcome)?.is_empty() && has_lineage(alloc, &outcome, recovery, entries)?)
}

#[test]
fn lineages(rt: HostRuntime) {
    for (place, row) in LINEAGES.iter().enumerate() {
        assert_eq!(rt; keeps_to(rt.alloc(), row), Ok(true), "{place}");
    }
}

/// The first record of a group that joined links to the volume's log, and to no record of its group.
#[test]
fn a_group_that_joined_begins_anew(rt: HostRuntime) -> Result<(), Fault> {
    let outcome = outcome(rt.alloc(), Volume::OneOfTwo, &[A_GROUP_JOINS])?;
    let refused = refusals(rt.alloc(), &outcome)?;
    assert!(rt; refused.as_slice() == [BadTransaction, NotJoined].as_slice());
    assert_eq!(rt; record(&outcome, 1, 2), Some((1, 1, 0, 0)));
    Ok(())
}
