//! Tests of recoveries.

use super::packets::{Line, chained, packet, shared};
use super::replies::Reply::{self, Count, Found, Record, Yes};
use super::texts::{SIX, checked};
use super::writers;
use lineage::Lineage;
use recovery::{Recovery, cut_of, is_growing};
use redo_record::RecordSet;
use std::alloc::Global;
use std::test::*;
use volume_model::Fault::{self, AlreadyDone, NoLogRecord, NotAddressed, NotReady};
use wire::{Ack, Label, Message, Place, Report, View};

/// Three groups of member 0 alone. In the second, member 1 is added by the child of the root.
const THREE: &[u8] = br#"{"format":1,"lal":10,"groups":[
{"configurations":[
{"parent":null,"members":[0],"full":[0],"read":0,"write":0,"meets":{"rule":"clash","left":0,"right":0},"step":null}]},
{"configurations":[
{"parent":null,"members":[0],"full":[0],"read":0,"write":0,"meets":{"rule":"clash","left":0,"right":0},"step":null},
{"parent":0,"members":[0,1],"full":[0],"read":0,"write":0,"meets":{"rule":"clash","left":0,"right":0},"step":{"rule":"clash","left":0,"right":0}}]},
{"configurations":[
{"parent":null,"members":[0],"full":[0],"read":0,"write":0,"meets":{"rule":"clash","left":0,"right":0},"step":null}]}]}"#;

/// The place of a group at its root.
const ROOT: Place = Place {
    configuration: 0,
    epoch: 1,
};

/// The place of the second group once member 1 was added.
const CHILD: Place = Place {
    configuration: 1,
    epoch: 2,
};

/// The label of volume epoch 2.
const LABEL: Label = Label {
    volume: 2,
    member: 1,
};

/// A log of volume epoch 1, whose records form one chain.
#[derive(Clone, Copy)]
enum Log {
    /// Of one group. 3 and 5 are consistency points.
    Short,
    /// Of one group. 900 and 1000 are consistency points.
    Long,
    /// The records up to 257 are the first group's, those from then on the second's. 857 is a consistency point.
    OfTwo,
}

/// Returns the record with an LSN.
fn line(log: Log, lsn: u64) -> Line {
    let line = chained(lsn);
    match log {
        Log::Short => Line {
            point: lsn == 3 || lsn == 5,
            ..line
        },
        Log::Long => Line {
            point: lsn == 900 || lsn == 1000,
            ..line
        },
        Log::OfTwo => {
            let before = if lsn == 258 { 0 } else { line.prev_group };
            Line {
                group: u8::from(lsn > 257),
                prev_group: before,
                prev_block: before,
                point: lsn == 857,
                ..line
            }
        }
    }
}

/// Returns the records of a log from one LSN up to another.
fn records(alloc: Global, log: Log, first: u64, last: u64) -> Result<RecordSet, Fault> {
    let mut records = RecordSet::new(alloc);
    for lsn in first..=last {
        records.insert(packet(alloc, line(log, lsn))?)?;
    }
    Ok(records)
}

/// Returns the cut of a log, `None` if its LSNs don't grow.
fn cut(alloc: Global, log: Log, last: u64) -> Result<Option<u64>, Fault> {
    let mut records: Vec<redo_record::Record> = Vec::new(alloc);
    for lsn in 1..=last {
        let shared = packet(alloc, line(log, lsn))?;
        records.push(*shared.record())?;
    }
    if !is_growing(records.as_slice()) {
        return Ok(None);
    }
    Ok(Some(cut_of(alloc, records.as_slice())?))
}

#[test]
fn cut_of_a_long_log(rt: HostRuntime) {
    assert_eq!(rt; cut(rt.alloc(), Log::Long, 1007), Ok(Some(1000)));
}

/// An action of a recovery, or a question about it.
#[derive(Clone, Copy)]
enum Input {
    /// Take a member's report that it holds the records of a log from one LSN up to another.
    Report(u8, u8, Log, u64, u64),
    /// Whether it would take the report of member 0 of a group.
    MayReport(u8),
    /// Take one more View of the groups' places.
    View(&'static [Place]),
    MayView(&'static [Place]),
    /// Take a member's acknowledgement of complete point 3.
    Ack(u8),
    MayAck(u8),
    /// Cut the log.
    Cut,
    MayCut,
    /// Whether it can become a writer.
    MayOpen,
    /// The result of its cut.
    Find,
}

/// An action or a question, and the expected answer or refusal.
type Row = (Input, Result<Reply, Fault>);

fn view(alloc: Global, places: &[Place]) -> Result<View, Fault> {
    let mut copies = Vec::new(alloc);
    copies.extend_from_slice(places)?;
    Ok(View {
        volume: 2,
        places: Box::new(alloc, copies)?,
    })
}

fn report(alloc: Global, group: u8, from: u8, records: RecordSet) -> Result<Report, Fault> {
    Ok(Report {
        group,
        label: LABEL,
        from,
        contents: shared(alloc, Lineage::birth(alloc)?, records)?,
    })
}

/// Returns a member's acknowledgement of complete point 3.
fn ack(from: u8) -> Ack {
    Ack {
        group: 0,
        label: LABEL,
        from,
        scl: 3,
    }
}

/// Returns the result of the recovery's cut.
fn found(recovery: &Recovery) -> Reply {
    match recovery.found() {
        Some(found) => Found(found.cut, found.lineage.last_start(), found.log.len()),
        None => Reply::No,
    }
}

/// Returns whether the recovery would take the message.
fn judged(alloc: Global, recovery: &Recovery, input: Input) -> Result<Reply, Fault> {
    match input {
        Input::MayReport(group) => {
            let records = records(alloc, Log::Short, 1, 4)?;
            recovery.admits_report(&report(alloc, group, 0, records)?)?
        }
        Input::MayView(places) => recovery.admits_view(&view(alloc, places)?)?,
        Input::MayAck(from) => recovery.admits_ack(&ack(from))?,
        Input::MayCut => recovery.admits_cut(alloc)?,
        Input::MayOpen => recovery.admits_open()?,
        _ => return Ok(found(recovery)),
    }
    Ok(Yes)
}

/// Returns the answer to an action or a question.
fn answer(alloc: Global, recovery: &mut Recovery, input: Input) -> Result<Reply, Fault> {
    match input {
        Input::Report(group, from, log, first, last) => {
            let records = records(alloc, log, first, last)?;
            recovery.take_report(&report(alloc, group, from, records)?)?;
            Ok(Yes)
        }
        Input::View(places) => Ok(Count(recovery.view(alloc, &view(alloc, places)?)?.len())),
        Input::Ack(from) => {
            recovery.take_ack(&ack(from))?;
            Ok(Yes)
        }
        Input::Cut => Ok(Count(recovery.cut(alloc)?.len())),
        _ => judged(alloc, recovery, input),
    }
}

/// Returns the index of the first row with another answer of the recovery, `None` if there is none.
fn broken_by(alloc: Global, recovery: &mut Recovery, rows: &[Row]) -> Option<usize> {
    for (place, (input, expected)) in rows.iter().enumerate() {
        if answer(alloc, recovery, *input) != *expected {
            return Some(place);
        }
    }
    None
}

/// Returns a recovery of volume epoch 2, and the number of messages that its birth made.
fn born(alloc: Global, text: &[u8], places: &[Place]) -> Result<(Recovery, usize), Fault> {
    let first = Message::View(view(alloc, places)?);
    let (recovery, fences) = Recovery::new(alloc, checked(alloc, text)?, &first)?;
    Ok((recovery, fences.len()))
}

/// Returns the number of messages that the birth of a recovery of the plan of six makes, and the index of the first row
/// with another answer.
fn first_wrong(alloc: Global, rows: &[Row]) -> Result<(usize, Option<usize>), Fault> {
    let (mut recovery, fences) = born(alloc, SIX, &[ROOT])?;
    Ok((fences, broken_by(alloc, &mut recovery, rows)))
}

/// Three members hold the records up to 4.
const A_CUT_AT_3: &[Row] = &[
    (Input::Report(0, 0, Log::Short, 1, 4), Ok(Yes)),
    (Input::Report(0, 1, Log::Short, 1, 4), Ok(Yes)),
    (Input::Report(0, 2, Log::Short, 1, 4), Ok(Yes)),
    (Input::Cut, Ok(Count(1))),
    (Input::Find, Ok(Found(3, 13, 3))),
];

/// Three members hold the records up to 5.
const A_CUT_AT_5: &[Row] = &[
    (Input::Report(0, 0, Log::Short, 1, 5), Ok(Yes)),
    (Input::Report(0, 1, Log::Short, 1, 5), Ok(Yes)),
    (Input::Report(0, 2, Log::Short, 1, 5), Ok(Yes)),
    (Input::Cut, Ok(Count(1))),
    (Input::Find, Ok(Found(5, 15, 5))),
];

/// One report is too few.
const READING: &[Row] = &[
    (Input::View(&[ROOT]), Ok(Count(0))),
    (Input::Find, Ok(Reply::No)),
    (Input::Report(0, 0, Log::Short, 1, 4), Ok(Yes)),
    (Input::MayCut, Err(NotReady)),
    (Input::Cut, Err(NotReady)),
];

/// The recovery says what it would do before it does it.
const JUDGES: &[Row] = &[
    (Input::MayReport(0), Ok(Yes)),
    (Input::MayReport(1), Err(NotAddressed)),
    (Input::MayView(&[ROOT]), Ok(Yes)),
    (Input::MayAck(0), Ok(Yes)),
    (Input::MayAck(64), Err(NotAddressed)),
    (Input::MayOpen, Err(NotReady)),
];

const TABLES: &[(&str, &[Row])] = &[
    ("a cut at 3", A_CUT_AT_3),
    ("a cut at 5", A_CUT_AT_5),
    ("reading", READING),
    ("judges", JUDGES),
];

/// The birth of a recovery makes a Fence for the only group.
#[test]
fn recoveries(rt: HostRuntime) {
    for (what, rows) in TABLES {
        assert_eq!(rt; first_wrong(rt.alloc(), rows), Ok((1, None)), "{what}");
    }
}

/// Returns whether a recovery would be born by its first View, and by an acknowledgement.
fn births(alloc: Global) -> Result<[Result<(), Fault>; 2], Fault> {
    let plan = checked(alloc, SIX)?;
    let first = Message::View(view(alloc, &[ROOT])?);
    Ok([
        Recovery::admits_birth(&plan, &first),
        Recovery::admits_birth(&plan, &Message::Ack(ack(0))),
    ])
}

#[test]
fn births_by_a_view_alone(rt: HostRuntime) {
    assert_eq!(rt; births(rt.alloc()), Ok([Ok(()), Err(NotAddressed)]));
}

/// Four members acknowledge the install. The recovery doesn't cut again.
const INSTALLED: &[Row] = &[
    (Input::Cut, Err(AlreadyDone)),
    (Input::Ack(0), Ok(Yes)),
    (Input::Ack(1), Ok(Yes)),
    (Input::Ack(2), Ok(Yes)),
    (Input::Ack(3), Ok(Yes)),
];

/// The writer's first LSN is above the start, and links to the last record found.
const OPENED: &[writers::Row] = &[
    (writers::Input::Issue(&[0]), Ok(Count(1))),
    (writers::Input::Log, Ok(Count(4))),
    (writers::Input::LogRecord(3), Ok(Record(14, 3))),
    (writers::Input::Resend(14), Ok(Record(14, 3))),
    (writers::Input::Resend(4), Err(NoLogRecord)),
];

/// The indexes of rows with another answer: of a recovery that has cut at 3, of the same after it was refused to open,
/// and of the writer that it becomes; and the refusal.
type Broken = ([Option<usize>; 3], Fault);

/// Opens a recovery too early, and again once four members have acknowledged its install.
fn opening(alloc: Global) -> Result<Broken, Fault> {
    let (mut recovery, _) = born(alloc, SIX, &[ROOT])?;
    let cut = broken_by(alloc, &mut recovery, A_CUT_AT_3);
    let (refusal, mut recovery) = match recovery.open() {
        Ok(_) => return Err(Fault::NotOpen),
        Err(refused) => refused,
    };
    let installed = broken_by(alloc, &mut recovery, INSTALLED);
    let Ok(mut writer) = recovery.open() else {
        return Err(Fault::NotOpen);
    };
    let opened = writers::broken_by(alloc, &mut writer, OPENED);
    Ok(([cut, installed, opened], refusal))
}

#[test]
fn opens_once_installed(rt: HostRuntime) {
    assert_eq!(rt; opening(rt.alloc()), Ok(([None, None, None], NotReady)));
}

/// An Install: its group, the membership epoch of its label, the piece's number, the number of pieces, and the number
/// of records.
type Installed = (u8, u32, u16, u16, usize);

/// Returns whether the message is such an Install.
fn is_install(message: &Message, expected: Installed) -> bool {
    let Message::Install(install) = message else {
        return false;
    };
    let label = install.label.member;
    let records = install.contents.records.len();
    (install.group, label, install.piece, install.of, records) == expected
}

/// Returns whether the messages are these Installs, in order.
fn are_installs(messages: &[Message], expected: &[Installed]) -> bool {
    for (message, install) in messages.iter().zip(expected) {
        if !is_install(message, *install) {
            return false;
        }
    }
    messages.len() == expected.len()
}

/// The reports of the plan's three groups. The last group has no record.
const OF_THREE_GROUPS: &[Row] = &[
    (Input::Report(0, 0, Log::OfTwo, 1, 257), Ok(Yes)),
    (Input::Report(1, 0, Log::OfTwo, 258, 857), Ok(Yes)),
    (Input::Report(2, 0, Log::OfTwo, 858, 857), Ok(Yes)),
];

/// The Installs of the groups at their roots.
const AT_THE_ROOTS: &[Installed] = &[
    (0, 1, 0, 2, 256),
    (0, 1, 1, 2, 1),
    (1, 1, 0, 3, 256),
    (1, 1, 1, 3, 256),
    (1, 1, 2, 3, 88),
    (2, 1, 0, 1, 0),
];

/// The Installs of the second group after it has moved.
const AT_THE_CHILD: &[Installed] = &[(1, 2, 0, 3, 256), (1, 2, 1, 3, 256), (1, 2, 2, 3, 88)];

/// Returns the index of the first report that isn't taken, and whether the Installs are right, for all groups and then
/// for the second again.
fn in_pieces(alloc: Global) -> Result<(Option<usize>, bool, bool), Fault> {
    let (mut recovery, _) = born(alloc, THREE, &[ROOT, ROOT, ROOT])?;
    let read = broken_by(alloc, &mut recovery, OF_THREE_GROUPS);
    let installs = recovery.cut(alloc)?;
    let again = recovery.view(alloc, &view(alloc, &[ROOT, CHILD, ROOT])?)?;
    Ok((
        read,
        are_installs(&installs, AT_THE_ROOTS),
        are_installs(&again, AT_THE_CHILD),
    ))
}

/// The log found is installed in order of group, then piece, and again in a group that has moved.
#[test]
fn installs_in_pieces(rt: HostRuntime) {
    assert_eq!(rt; in_pieces(rt.alloc()), Ok((None, true, true)));
}
