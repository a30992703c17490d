//! Tests of writers.

use super::replies::Reply::{self, Count, Install, Point, Record, Yes};
use super::replies::reply_of;
use super::texts::{GROWING, SIX, checked};
use std::alloc::Global;
use std::test::*;
use volume_model::Fault::{
    self, BadTransaction, LimitReached, NoGroup, NoLogRecord, NotAddressed, NotInPlan, NotJoined,
};
use wire::{Ack, Label, Place, View};
use writer_core::{Change, Writer};

/// One group of seven members. Three of either six read, and four of each of both sixes write.
const BOTH_SIXES: &[u8] =
    b"{\"format\":1,\"lal\":10,\"groups\":[{\"configurations\":[{\"parent\":null,\"members\":[0,1,2,3,4,5,6],\"full\":[0,1,2,3,4,5,6],\
\"read\":{\"k\":1,\"of\":[{\"k\":3,\"of\":[0,1,2,3,4,5]},{\"k\":3,\"of\":[0,1,2,3,4,6]}]},\
\"write\":{\"k\":2,\"of\":[{\"k\":4,\"of\":[0,1,2,3,4,5]},{\"k\":4,\"of\":[0,1,2,3,4,6]}]},\
\"meets\":{\"rule\":\"open\",\"side\":\"right\",\"item\":0,\"then\":{\"rule\":\"pick\",\"side\":\"left\",\"item\":0,\"children\":[0,1],\"then\":[\
{\"rule\":\"match\",\"left\":0,\"right\":0,\"pairs\":[[0,0],[1,1],[2,2],[3,3],[4,4],[5,5]],\"then\":[\
{\"rule\":\"clash\",\"left\":0,\"right\":1},{\"rule\":\"clash\",\"left\":0,\"right\":1},{\"rule\":\"clash\",\"left\":0,\"right\":1},\
{\"rule\":\"clash\",\"left\":0,\"right\":1},{\"rule\":\"clash\",\"left\":0,\"right\":1},{\"rule\":\"clash\",\"left\":0,\"right\":1}]},\
{\"rule\":\"match\",\"left\":0,\"right\":1,\"pairs\":[[0,0],[1,1],[2,2],[3,3],[4,4],[5,5]],\"then\":[\
{\"rule\":\"clash\",\"left\":0,\"right\":1},{\"rule\":\"clash\",\"left\":0,\"right\":1},{\"rule\":\"clash\",\"left\":0,\"right\":1},\
{\"rule\":\"clash\",\"left\":0,\"right\":1},{\"rule\":\"clash\",\"left\":0,\"right\":1},{\"rule\":\"clash\",\"left\":0,\"right\":1}]}]}},\
\"step\":null}]}]}";

/// The root of six members, of which three read and four write, and a child that adds member 6: three of either six
/// read, and four of each of both sixes write.
const STEPS: &[u8] =
    b"{\"format\":1,\"lal\":10,\"groups\":[{\"configurations\":[{\"parent\":null,\"members\":[0,1,2,3,4,5],\"full\":[0,1,2,3,4,5],\"read\
\":{\"k\":3,\"of\":\"all\"},\"write\":{\"k\":4,\"of\":\"all\"},\"meets\":{\"rule\":\"match\",\"left\":0,\"right\":0,\"pairs\":[[0,\
0],[1,1],[2,2],[3,3],[4,4],[5,5]],\"then\":[{\"rule\":\"clash\",\"left\":0,\"right\":0},{\"rule\":\"clash\",\"left\":0,\"right\":0\
},{\"rule\":\"clash\",\"left\":0,\"right\":0},{\"rule\":\"clash\",\"left\":0,\"right\":0},{\"rule\":\"clash\",\"left\":0,\"right\"\
:0},{\"rule\":\"clash\",\"left\":0,\"right\":0}]},\"step\":null},{\"parent\":0,\"members\":[0,1,2,3,4,5,6],\"full\":[0,1,2,3,4,5,6\
],\"read\":{\"k\":1,\"of\":[{\"k\":3,\"of\":[0,1,2,3,4,5]},{\"k\":3,\"of\":[0,1,2,3,4,6]}]},\"write\":{\"k\":2,\"of\":[{\"k\":4,\"\
of\":[0,1,2,3,4,5]},{\"k\":4,\"of\":[0,1,2,3,4,6]}]},\"meets\":{\"rule\":\"open\",\"side\":\"right\",\"item\":0,\"then\":{\"rule\"\
:\"pick\",\"side\":\"left\",\"item\":0,\"children\":[0,1],\"then\":[{\"rule\":\"match\",\"left\":0,\"right\":0,\"pairs\":[[0,0],[1\
,1],[2,2],[3,3],[4,4],[5,5]],\"then\":[{\"rule\":\"clash\",\"left\":0,\"right\":1},{\"rule\":\"clash\",\"left\":0,\"right\":1},{\"\
rule\":\"clash\",\"left\":0,\"right\":1},{\"rule\":\"clash\",\"left\":0,\"right\":1},{\"rule\":\"clash\",\"left\":0,\"right\":1},{\
\"rule\":\"clash\",\"left\":0,\"right\":1}]},{\"rule\":\"match\",\"left\":0,\"right\":1,\"pairs\":[[0,0],[1,1],[2,2],[3,3],[4,4],[\
5,5]],\"then\":[{\"rule\":\"clash\",\"left\":0,\"right\":1},{\"rule\":\"clash\",\"left\":0,\"right\":1},{\"rule\":\"clash\",\"left\
\":0,\"right\":1},{\"rule\":\"clash\",\"left\":0,\"right\":1},{\"rule\":\"clash\",\"left\":0,\"right\":1},{\"rule\":\"clash\",\"le\
ft\":0,\"right\":1}]}]}},\"step\":{\"rule\":\"pick\",\"side\":\"left\",\"item\":0,\"children\":[0,1],\"then\":[{\"rule\":\"match\"\
,\"left\":0,\"right\":0,\"pairs\":[[0,0],[1,1],[2,2],[3,3],[4,4],[5,5]],\"then\":[{\"rule\":\"clash\",\"left\":0,\"right\":0},{\"r\
ule\":\"clash\",\"left\":0,\"right\":0},{\"rule\":\"clash\",\"left\":0,\"right\":0},{\"rule\":\"clash\",\"left\":0,\"right\":0},{\"\
rule\":\"clash\",\"left\":0,\"right\":0},{\"rule\":\"clash\",\"left\":0,\"right\":0}]},{\"rule\":\"match\",\"left\":0,\"right\":0,\
\"pairs\":[[0,0],[1,1],[2,2],[3,3],[4,4],[5,5]],\"then\":[{\"rule\":\"clash\",\"left\":0,\"right\":0},{\"rule\":\"clash\",\"left\"\
:0,\"right\":0},{\"rule\":\"clash\",\"left\":0,\"right\":0},{\"rule\":\"clash\",\"left\":0,\"right\":0},{\"rule\":\"clash\",\"left\
\":0,\"right\":0},{\"rule\":\"dead\",\"side\":\"left\",\"item\":0}]}]}},{\"parent\":1,\"members\":[0,1,2,3,4,6],\"full\":[0,1,2,3,\
4,6],\"read\":{\"k\":3,\"of\":\"all\"},\"write\":{\"k\":4,\"of\":\"all\"},\"meets\":{\"rule\":\"match\",\"left\":0,\"right\":0,\"p\
airs\":[[0,0],[1,1],[2,2],[3,3],[4,4],[5,5]],\"then\":[{\"rule\":\"clash\",\"left\":0,\"right\":0},{\"rule\":\"clash\",\"left\":0,\
\"right\":0},{\"rule\":\"clash\",\"left\":0,\"right\":0},{\"rule\":\"clash\",\"left\":0,\"right\":0},{\"rule\":\"clash\",\"left\":\
0,\"right\":0},{\"rule\":\"clash\",\"left\":0,\"right\":0}]},\"step\":{\"rule\":\"open\",\"side\":\"right\",\"item\":0,\"then\":{\"\
rule\":\"match\",\"left\":0,\"right\":1,\"pairs\":[[0,0],[1,1],[2,2],[3,3],[4,4],[5,5]],\"then\":[{\"rule\":\"clash\",\"left\":0,\"\
right\":1},{\"rule\":\"clash\",\"left\":0,\"right\":1},{\"rule\":\"clash\",\"left\":0,\"right\":1},{\"rule\":\"clash\",\"left\":0,\
\"right\":1},{\"rule\":\"clash\",\"left\":0,\"right\":1},{\"rule\":\"clash\",\"left\":0,\"right\":1}]}}},{\"parent\":1,\"members\"\
:[0,1,2,3,4,5],\"full\":[0,1,2,3,4,5],\"read\":{\"k\":3,\"of\":\"all\"},\"write\":{\"k\":4,\"of\":\"all\"},\"meets\":{\"rule\":\"m\
atch\",\"left\":0,\"right\":0,\"pairs\":[[0,0],[1,1],[2,2],[3,3],[4,4],[5,5]],\"then\":[{\"rule\":\"clash\",\"left\":0,\"right\":0\
},{\"rule\":\"clash\",\"left\":0,\"right\":0},{\"rule\":\"clash\",\"left\":0,\"right\":0},{\"rule\":\"clash\",\"left\":0,\"right\"\
:0},{\"rule\":\"clash\",\"left\":0,\"right\":0},{\"rule\":\"clash\",\"left\":0,\"right\":0}]},\"step\":{\"rule\":\"open\",\"side\"\
:\"right\",\"item\":0,\"then\":{\"rule\":\"match\",\"left\":0,\"right\":0,\"pairs\":[[0,0],[1,1],[2,2],[3,3],[4,4],[5,5]],\"then\"\
:[{\"rule\":\"clash\",\"left\":0,\"right\":1},{\"rule\":\"clash\",\"left\":0,\"right\":1},{\"rule\":\"clash\",\"left\":0,\"right\"\
:1},{\"rule\":\"clash\",\"left\":0,\"right\":1},{\"rule\":\"clash\",\"left\":0,\"right\":1},{\"rule\":\"clash\",\"left\":0,\"right\
\":1}]}}}]}]}";

/// Two groups of one member each, which reads and writes alone.
const TWO_GROUPS: &[u8] = b"{\"format\":1,\"lal\":10,\"groups\":[\
{\"configurations\":[{\"parent\":null,\"members\":[0],\"full\":[0],\"read\":{\"k\":1,\"of\":\"all\"},\"write\":{\"k\":1,\"of\":\"all\"},\
\"meets\":{\"rule\":\"match\",\"left\":0,\"right\":0,\"pairs\":[[0,0]],\"then\":[{\"rule\":\"clash\",\"left\":0,\"right\":0}]},\"step\":null}]},\
{\"configurations\":[{\"parent\":null,\"members\":[0],\"full\":[0],\"read\":{\"k\":1,\"of\":\"all\"},\"write\":{\"k\":1,\"of\":\"all\"},\
\"meets\":{\"rule\":\"match\",\"left\":0,\"right\":0,\"pairs\":[[0,0]],\"then\":[{\"rule\":\"clash\",\"left\":0,\"right\":0}]},\"step\":null}]}]}";

/// The plan of a table.
#[derive(Clone, Copy)]
enum Plan {
    Six,
    BothSixes,
    Steps,
    TwoGroups,
    Growing,
}

fn text(plan: Plan) -> &'static [u8] {
    match plan {
        Plan::Six => SIX,
        Plan::BothSixes => BOTH_SIXES,
        Plan::Steps => STEPS,
        Plan::TwoGroups => TWO_GROUPS,
        Plan::Growing => GROWING,
    }
}

/// An action of a writer, or a question about it.
#[derive(Clone, Copy)]
pub enum Input {
    /// Take the acknowledgement of a complete point by a member of group 0, at a membership epoch.
    Ack(u32, u8, u64),
    /// The same by a group's only member.
    AckOf(u8, u64),
    /// Whether it would take this member's acknowledgement of LSN 1.
    MayAck(u8),
    /// Take a View of the groups' places, of a volume epoch.
    View(u32, &'static [Place]),
    /// Whether it would take such a View.
    MayView(u32, &'static [Place]),
    /// Issue a transaction with a change to block 0 of each of these groups.
    Issue(&'static [u8]),
    /// Whether it may issue that.
    MayIssue(&'static [u8]),
    /// Send the record with an LSN again.
    Resend(u64),
    /// Request block 0 of a group.
    Read(u8),
    /// The point of a group.
    GroupPoint(u8),
    /// The complete point.
    Complete,
    /// The durable point.
    Durable,
    /// Whether the LSN is acknowledged.
    Acknowledged(u64),
    /// The number of records of its log.
    Log,
    /// The record at this index of its log.
    LogRecord(usize),
    /// Its volume epoch.
    Volume,
    /// The LSN after which its own records begin.
    Start,
}

/// An action or a question, and the expected answer or refusal.
pub type Row = (Input, Result<Reply, Fault>);

/// The place of a group at its root.
const ROOT: Place = Place {
    configuration: 0,
    epoch: 1,
};

/// The place of a group at the child of its root.
const CHILD: Place = Place {
    configuration: 1,
    epoch: 2,
};

/// Returns a change to block 0 of each of these groups.
pub fn changes(alloc: Global, groups: &[u8]) -> Result<Vec<Change>, Fault> {
    let mut changes = Vec::new(alloc);
    for group in groups {
        changes.push(Change::new(alloc, *group, 0, 0, b"a")?)?;
    }
    Ok(changes)
}

/// Returns a member's acknowledgement for the writer of volume epoch 1.
fn ack(group: u8, member: u32, from: u8, scl: u64) -> Ack {
    Ack {
        group,
        label: Label { volume: 1, member },
        from,
        scl,
    }
}

/// Returns a View of a volume epoch, from 1 on.
fn view(alloc: Global, volume: u32, places: &[Place]) -> Result<View, Fault> {
    let mut copies = Vec::new(alloc);
    copies.extend_from_slice(places)?;
    Ok(View {
        volume: volume.max(1),
        places: Box::new(alloc, copies)?,
    })
}

/// Takes a View. Returns the number of messages, or a single one in short.
fn viewed(alloc: Global, writer: &mut Writer, view: &View) -> Result<Reply, Fault> {
    let made = writer.view(alloc, view)?;
    Ok(match made.as_slice() {
        [install] => reply_of(install),
        _ => Count(made.len()),
    })
}

/// Returns the answer to a question about the log.
fn logged(writer: &Writer, input: Input) -> Result<Reply, Fault> {
    let log = writer.log();
    Ok(match input {
        Input::Log => Count(log.len()),
        Input::LogRecord(place) if place < log.len() => {
            let record = log.packet(place).record();
            Record(record.lsn, record.prev_volume)
        }
        Input::Resend(lsn) => reply_of(&writer.resend(lsn)?.write()?),
        _ => Reply::No,
    })
}

/// Returns the answer to a question.
fn shown(writer: &Writer, input: Input) -> Result<Reply, Fault> {
    Ok(match input {
        Input::Read(group) => reply_of(&writer.read(group, 0)?),
        Input::GroupPoint(group) => Point(writer.group_point(group)?),
        Input::Complete => Point(writer.complete_point()),
        Input::Durable => Point(writer.durable_point()),
        Input::Start => Point(writer.start()),
        Input::Volume => Point(u64::from(writer.volume())),
        Input::Acknowledged(lsn) if writer.acknowledged(lsn) => Yes,
        _ => return logged(writer, input),
    })
}

/// Returns the answer to an action or a question.
fn answer(alloc: Global, writer: &mut Writer, input: Input) -> Result<Reply, Fault> {
    match input {
        Input::Ack(member, from, scl) => writer.take_ack(&ack(0, member, from, scl))?,
        Input::AckOf(group, scl) => writer.take_ack(&ack(group, 1, 0, scl))?,
        Input::MayAck(from) => writer.admits_ack(&ack(0, 1, from, 1))?,
        Input::View(volume, places) => return viewed(alloc, writer, &view(alloc, volume, places)?),
        Input::MayView(volume, places) => writer.admits_view(&view(alloc, volume, places)?)?,
        Input::Issue(groups) => {
            let made = writer.issue(alloc, &changes(alloc, groups)?)?;
            return Ok(Count(made.len()));
        }
        Input::MayIssue(groups) => writer.admits(&changes(alloc, groups)?.clone()?)?,
        _ => return shown(writer, input),
    }
    Ok(Yes)
}

/// Returns the index of the first row with another answer of the writer, `None` if there is none.
pub fn broken_by(alloc: Global, writer: &mut Writer, rows: &[Row]) -> Option<usize> {
    for (place, (input, expected)) in rows.iter().enumerate() {
        if answer(alloc, writer, *input) != *expected {
            return Some(place);
        }
    }
    None
}

/// The same for the writer of a new volume over a plan.
fn first_wrong(alloc: Global, plan: Plan, rows: &[Row]) -> Result<Option<usize>, Fault> {
    let mut writer = Writer::first(alloc, checked(alloc, text(plan))?)?;
    Ok(broken_by(alloc, &mut writer, rows))
}

/// The group's point is the greatest complete point of a write quorum.
const THE_POINT_OF_SIX: &[Row] = &[
    (Input::Ack(1, 0, 5), Ok(Yes)),
    (Input::Ack(1, 1, 3), Ok(Yes)),
    (Input::Ack(1, 2, 4), Ok(Yes)),
    (Input::Ack(1, 3, 1), Ok(Yes)),
    (Input::Ack(1, 4, 0), Ok(Yes)),
    (Input::Ack(1, 5, 2), Ok(Yes)),
    (Input::GroupPoint(0), Ok(Point(2))),
    (Input::GroupPoint(1), Err(NoGroup)),
];

/// The group's point is the greatest complete point of write quorums of both sixes.
const THE_POINT_OF_BOTH_SIXES: &[Row] = &[
    (Input::Ack(1, 0, 5), Ok(Yes)),
    (Input::Ack(1, 1, 3), Ok(Yes)),
    (Input::Ack(1, 2, 4), Ok(Yes)),
    (Input::Ack(1, 3, 1), Ok(Yes)),
    (Input::Ack(1, 4, 0), Ok(Yes)),
    (Input::Ack(1, 5, 2), Ok(Yes)),
    (Input::Ack(1, 6, 4), Ok(Yes)),
    (Input::GroupPoint(0), Ok(Point(2))),
    (Input::Ack(1, 5, 3), Ok(Yes)),
    (Input::GroupPoint(0), Ok(Point(3))),
];

/// Transactions with too many changes, with as many as the LAL, and with one more; and the writer's points before the
/// records are acknowledged, and after.
const TRANSACTIONS: &[Row] = &[
    (Input::Issue(&[0; 33]), Err(BadTransaction)),
    (Input::Issue(&[0; 10]), Ok(Count(10))),
    (Input::Issue(&[0]), Err(LimitReached)),
    (Input::Volume, Ok(Point(1))),
    (Input::Start, Ok(Point(0))),
    (Input::Log, Ok(Count(10))),
    (Input::Acknowledged(10), Ok(Reply::No)),
    (Input::Ack(1, 0, 10), Ok(Yes)),
    (Input::Ack(1, 1, 10), Ok(Yes)),
    (Input::Ack(1, 2, 10), Ok(Yes)),
    (Input::Ack(1, 3, 10), Ok(Yes)),
    (Input::Complete, Ok(Point(10))),
    (Input::Durable, Ok(Point(10))),
    (Input::Acknowledged(10), Ok(Yes)),
    (Input::Resend(10), Ok(Record(10, 9))),
    (Input::Resend(11), Err(NoLogRecord)),
    (Input::Read(0), Ok(Point(10))),
    (Input::Read(1), Err(NoGroup)),
];

/// A write quorum of the child acknowledges after its View.
const A_WRITE_SET_OF_THE_CHILD: &[Row] = &[
    (Input::Issue(&[0]), Ok(Count(1))),
    (Input::View(1, &[CHILD]), Ok(Count(0))),
    (Input::Ack(1, 0, 1), Ok(Yes)),
    (Input::Ack(1, 1, 1), Ok(Yes)),
    (Input::Ack(1, 2, 1), Ok(Yes)),
    (Input::Ack(1, 3, 1), Ok(Yes)),
    (Input::Durable, Ok(Point(1))),
];

/// Only a write quorum of the root acknowledges after the child's View, which is too late.
const A_WRITE_SET_OF_THE_ROOT_LATE: &[Row] = &[
    (Input::Issue(&[0]), Ok(Count(1))),
    (Input::View(1, &[CHILD]), Ok(Count(0))),
    (Input::Ack(1, 0, 1), Ok(Yes)),
    (Input::Ack(1, 1, 1), Ok(Yes)),
    (Input::Ack(1, 2, 1), Ok(Yes)),
    (Input::Ack(1, 5, 1), Ok(Yes)),
    (Input::Durable, Ok(Point(0))),
];

/// The same before the View.
const A_WRITE_SET_OF_THE_ROOT_EARLY: &[Row] = &[
    (Input::Issue(&[0]), Ok(Count(1))),
    (Input::Ack(1, 0, 1), Ok(Yes)),
    (Input::Ack(1, 1, 1), Ok(Yes)),
    (Input::Ack(1, 2, 1), Ok(Yes)),
    (Input::Ack(1, 5, 1), Ok(Yes)),
    (Input::View(1, &[CHILD]), Ok(Count(0))),
    (Input::Durable, Ok(Point(1))),
];

/// An acknowledgement at a membership epoch that the writer doesn't know yet doesn't count.
const A_LATER_EPOCH: &[Row] = &[
    (Input::Issue(&[0]), Ok(Count(1))),
    (Input::Ack(2, 0, 1), Ok(Yes)),
    (Input::Ack(2, 1, 1), Ok(Yes)),
    (Input::Ack(2, 2, 1), Ok(Yes)),
    (Input::Ack(2, 3, 1), Ok(Yes)),
    (Input::View(1, &[CHILD]), Ok(Count(0))),
    (Input::Durable, Ok(Point(0))),
];

/// Views with a place that isn't in the plan, and of another volume epoch.
const VIEWS_OF_OTHERS: &[Row] = &[
    (Input::View(1, &[CHILD]), Err(NotInPlan)),
    (Input::View(2, &[CHILD]), Err(NotAddressed)),
];

/// The writer says what it would do before it does it.
const JUDGES: &[Row] = &[
    (Input::MayIssue(&[0; 33]), Err(BadTransaction)),
    (Input::MayIssue(&[0]), Ok(Yes)),
    (Input::MayAck(5), Ok(Yes)),
    (Input::MayAck(64), Err(NotAddressed)),
    (Input::MayView(1, &[CHILD]), Err(NotInPlan)),
];

/// The second group's only member holds nothing.
const NOTHING_OF_THE_SECOND: &[Row] = &[
    (Input::Issue(&[0, 1, 1]), Ok(Count(3))),
    (Input::Issue(&[0, 0, 1]), Ok(Count(3))),
    (Input::AckOf(0, 5), Ok(Yes)),
    (Input::AckOf(1, 0), Ok(Yes)),
    (Input::Read(0), Ok(Point(0))),
    (Input::Read(1), Ok(Point(0))),
];

/// The second group lacks one record of the first transaction.
const TOO_LITTLE_OF_THE_SECOND: &[Row] = &[
    (Input::Issue(&[0, 1, 1]), Ok(Count(3))),
    (Input::Issue(&[0, 0, 1]), Ok(Count(3))),
    (Input::AckOf(0, 5), Ok(Yes)),
    (Input::AckOf(1, 2), Ok(Yes)),
    (Input::Read(0), Ok(Point(0))),
    (Input::Read(1), Ok(Point(0))),
];

/// Both groups hold the first transaction.
const THE_FIRST_TRANSACTION: &[Row] = &[
    (Input::Issue(&[0, 1, 1]), Ok(Count(3))),
    (Input::Issue(&[0, 0, 1]), Ok(Count(3))),
    (Input::AckOf(0, 5), Ok(Yes)),
    (Input::AckOf(1, 3), Ok(Yes)),
    (Input::Read(0), Ok(Point(1))),
    (Input::Read(1), Ok(Point(3))),
];

/// The second group holds all, the first only the first transaction.
const TOO_LITTLE_OF_THE_FIRST: &[Row] = &[
    (Input::Issue(&[0, 1, 1]), Ok(Count(3))),
    (Input::Issue(&[0, 0, 1]), Ok(Count(3))),
    (Input::AckOf(0, 1), Ok(Yes)),
    (Input::AckOf(1, 6), Ok(Yes)),
    (Input::Read(0), Ok(Point(1))),
    (Input::Read(1), Ok(Point(3))),
];

/// Both groups hold all.
const BOTH_TRANSACTIONS: &[Row] = &[
    (Input::Issue(&[0, 1, 1]), Ok(Count(3))),
    (Input::Issue(&[0, 0, 1]), Ok(Count(3))),
    (Input::AckOf(0, 5), Ok(Yes)),
    (Input::AckOf(1, 6), Ok(Yes)),
    (Input::Read(0), Ok(Point(5))),
    (Input::Read(1), Ok(Point(6))),
];

/// A group that joins is installed before the writer writes to it.
const A_GROUP_JOINS: &[Row] = &[
    (Input::MayIssue(&[1]), Err(BadTransaction)),
    (Input::Read(1), Err(NoGroup)),
    (Input::View(1, &[ROOT, ROOT]), Ok(Install(1))),
    (Input::MayIssue(&[1]), Err(NotJoined)),
    (Input::MayIssue(&[0]), Ok(Yes)),
    (Input::View(1, &[ROOT]), Ok(Count(0))),
    (Input::AckOf(1, 0), Ok(Yes)),
    (Input::MayIssue(&[1]), Ok(Yes)),
    (Input::View(1, &[ROOT, ROOT]), Ok(Count(0))),
    (Input::Issue(&[1]), Ok(Count(1))),
    (Input::Durable, Ok(Point(0))),
    (Input::AckOf(1, 1), Ok(Yes)),
    (Input::Durable, Ok(Point(1))),
];

/// The name of each table, its plan, and its rows.
const TABLES: &[(&str, Plan, &[Row])] = &[
    ("the point of six", Plan::Six, THE_POINT_OF_SIX),
    (
        "the point of both sixes",
        Plan::BothSixes,
        THE_POINT_OF_BOTH_SIXES,
    ),
    ("transactions", Plan::Six, TRANSACTIONS),
    (
        "a write set of the child",
        Plan::Steps,
        A_WRITE_SET_OF_THE_CHILD,
    ),
    (
        "one of the root, late",
        Plan::Steps,
        A_WRITE_SET_OF_THE_ROOT_LATE,
    ),
    (
        "one of the root, early",
        Plan::Steps,
        A_WRITE_SET_OF_THE_ROOT_EARLY,
    ),
    ("a later epoch", Plan::Steps, A_LATER_EPOCH),
    ("views of others", Plan::Six, VIEWS_OF_OTHERS),
    ("judges", Plan::Six, JUDGES),
    (
        "nothing of the second",
        Plan::TwoGroups,
        NOTHING_OF_THE_SECOND,
    ),
    (
        "too little of the second",
        Plan::TwoGroups,
        TOO_LITTLE_OF_THE_SECOND,
    ),
    (
        "the first transaction",
        Plan::TwoGroups,
        THE_FIRST_TRANSACTION,
    ),
    (
        "too little of the first",
        Plan::TwoGroups,
        TOO_LITTLE_OF_THE_FIRST,
    ),
    ("both transactions", Plan::TwoGroups, BOTH_TRANSACTIONS),
    ("a group joins", Plan::Growing, A_GROUP_JOINS),
];

#[test]
fn writers(rt: HostRuntime) {
    for (what, plan, rows) in TABLES {
        assert_eq!(rt; first_wrong(rt.alloc(), *plan, rows), Ok(None), "{what}");
    }
}
