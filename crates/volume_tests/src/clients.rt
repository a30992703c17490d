//! Tests of a client from before its first View on: unborn, a recovery, and the writer that it becomes.

use super::packets::shared;
use super::replies::Reply::{self, Count, Recovers, Writes, Yes};
use super::texts::{SIX, checked};
use super::writers::changes;
use epochs::Authority;
use lineage::Lineage;
use redo_record::RecordSet;
use std::alloc::Global;
use std::test::*;
use volume_model::Fault::{
    self, AlreadyDone, NoActor, NotAddressed, NotOpen, NotReady, Superseded,
};
use wire::{Ack, Label, Message, Place, Report, View};
use world::{AuthorityAction, Client, ClientAction, ClientState, Event};

/// The label of volume epoch 2.
const LABEL: Label = Label {
    volume: 2,
    member: 1,
};

/// An action of a client, or a question about it.
#[derive(Clone, Copy)]
enum Input {
    /// Take a View of volume epoch 2 with the group at its root.
    View,
    /// Take a member's report that it holds no record.
    Report(u8),
    /// Take a member's acknowledgement of complete point 0.
    Ack(u8),
    /// Cut the log.
    Cut,
    /// Issue a transaction with a change to block 0 of each of these groups.
    Issue(&'static [u8]),
    /// Send the record with this LSN again.
    Resend(u64),
    /// Request block 0 of group 0.
    Read,
    /// Become a writer.
    Open,
    /// Whether it can become a writer.
    MayOpen,
    /// Its stage.
    State,
    /// Its volume epoch.
    Volume,
    /// The number of groups of the volume.
    Groups,
}

/// An action or a question, and the expected answer or refusal.
type Row = (Input, Result<Reply, Fault>);

fn message(alloc: Global, input: Input) -> Result<Message, Fault> {
    let root = Place {
        configuration: 0,
        epoch: 1,
    };
    Ok(match input {
        Input::View => Message::View(View {
            volume: 2,
            places: Box::new(alloc, vec![in alloc; root]?)?,
        }),
        Input::Report(from) => Message::Report(Report {
            group: 0,
            label: LABEL,
            from,
            contents: shared(alloc, Lineage::birth(alloc)?, RecordSet::new(alloc))?,
        }),
        Input::Ack(from) => Message::Ack(Ack {
            group: 0,
            label: LABEL,
            from,
            scl: 0,
        }),
        _ => return Err(Fault::NoMessage),
    })
}

/// Returns the number of messages of an action, or its refusal; `NoMemory` if `admits` and `act` don't agree.
fn made(
    alloc: Global,
    client: &mut Client,
    action: ClientAction<'_>,
    found: Option<&Message>,
) -> Result<Reply, Fault> {
    let judged = client.admits(alloc, action, found);
    let answer = client.act(alloc, action, found);
    match (judged, answer) {
        (Ok(()), Ok(made)) => Ok(Count(made.len())),
        (Err(fault), Err(_)) => Err(fault),
        _ => Err(Fault::NoMemory),
    }
}

/// Returns the answer to a question.
fn shown(client: &Client, input: Input) -> Reply {
    match input {
        Input::Volume => Count(client.volume() as usize),
        Input::Groups => Count(usize::from(client.groups())),
        _ => match client.state() {
            ClientState::Unborn => Reply::No,
            ClientState::Recovery(_) => Recovers,
            ClientState::Writer(_) => Writes,
        },
    }
}

/// Returns the answer to an action or a question.
fn answer(alloc: Global, client: &mut Client, input: Input) -> Result<Reply, Fault> {
    match input {
        Input::View | Input::Report(_) | Input::Ack(_) => {
            let found = message(alloc, input)?;
            made(
                alloc,
                client,
                ClientAction::Take { message: 1 },
                Some(&found),
            )
        }
        Input::Cut => made(alloc, client, ClientAction::Cut, None),
        Input::Issue(groups) => {
            let changes = changes(alloc, groups)?;
            made(alloc, client, ClientAction::Issue(&changes), None)
        }
        Input::Resend(lsn) => made(alloc, client, ClientAction::Resend { lsn }, None),
        Input::Read => {
            let action = ClientAction::Read { group: 0, block: 0 };
            made(alloc, client, action, None)
        }
        Input::Open => match client.act(alloc, ClientAction::Open, None) {
            Ok(_) => Ok(Yes),
            Err(fault) => Err(fault),
        },
        Input::MayOpen => match client.admits(alloc, ClientAction::Open, None) {
            Ok(()) => Ok(Yes),
            Err(fault) => Err(fault),
        },
        _ => Ok(shown(client, input)),
    }
}

/// Returns the index of the first row with another answer, `None` if there is none. `first` selects the first writer,
/// else the client is the unborn one of volume epoch 2.
fn first_wrong(alloc: Global, first: bool, rows: &[Row]) -> Result<Option<usize>, Fault> {
    let plan = checked(alloc, SIX)?;
    let mut client = if first {
        Client::first(alloc, plan)?
    } else {
        Client::unborn(plan, 2)
    };
    for (place, (input, expected)) in rows.iter().enumerate() {
        if answer(alloc, &mut client, *input) != *expected {
            return Ok(Some(place));
        }
    }
    Ok(None)
}

/// A client is unborn before its first View, and a recovery from then on.
const BEGINS_BY_A_VIEW: &[Row] = &[
    (Input::Volume, Ok(Count(2))),
    (Input::Groups, Ok(Count(1))),
    (Input::Ack(0), Err(NoActor)),
    (Input::Cut, Err(NoActor)),
    (Input::MayOpen, Err(NoActor)),
    (Input::View, Ok(Count(1))),
    (Input::State, Ok(Recovers)),
    (Input::Volume, Ok(Count(2))),
    (Input::Groups, Ok(Count(1))),
];

/// A recovery that installs refuses messages for others, and the actions of writers.
const A_RECOVERY_REFUSES: &[Row] = &[
    (Input::View, Ok(Count(1))),
    (Input::Report(0), Ok(Count(0))),
    (Input::Report(1), Ok(Count(0))),
    (Input::Report(2), Ok(Count(0))),
    (Input::Cut, Ok(Count(1))),
    (Input::Ack(64), Err(NotAddressed)),
    (Input::Ack(0), Ok(Count(0))),
    (Input::Resend(1), Err(NotOpen)),
];

/// The client becomes a writer once four members have acknowledged its install.
const READS_CUTS_AND_OPENS: &[Row] = &[
    (Input::View, Ok(Count(1))),
    (Input::Report(0), Ok(Count(0))),
    (Input::Report(1), Ok(Count(0))),
    (Input::Report(2), Ok(Count(0))),
    (Input::Cut, Ok(Count(1))),
    (Input::MayOpen, Err(NotReady)),
    (Input::Open, Err(NotReady)),
    (Input::Ack(0), Ok(Count(0))),
    (Input::Ack(1), Ok(Count(0))),
    (Input::Ack(2), Ok(Count(0))),
    (Input::Ack(3), Ok(Count(0))),
    (Input::MayOpen, Ok(Yes)),
    (Input::Open, Ok(Yes)),
    (Input::Open, Err(AlreadyDone)),
    (Input::Issue(&[0, 0]), Ok(Count(2))),
];

/// The first writer takes no View of another volume epoch, and doesn't open again.
const THE_FIRST_IS_OPEN: &[Row] = &[
    (Input::View, Err(NotAddressed)),
    (Input::State, Ok(Writes)),
    (Input::MayOpen, Err(AlreadyDone)),
    (Input::Cut, Err(AlreadyDone)),
    (Input::Issue(&[0]), Ok(Count(1))),
    (Input::Resend(1), Ok(Count(1))),
    (Input::Read, Ok(Count(1))),
];

/// The name of each table, whether its client is the first writer, and its rows.
const TABLES: &[(&str, bool, &[Row])] = &[
    ("begins by a view", false, BEGINS_BY_A_VIEW),
    ("a recovery refuses", false, A_RECOVERY_REFUSES),
    ("reads, cuts and opens", false, READS_CUTS_AND_OPENS),
    ("the first is open", true, THE_FIRST_IS_OPEN),
];

#[test]
fn clients(rt: HostRuntime) {
    for (what, first, rows) in TABLES {
        assert_eq!(rt; first_wrong(rt.alloc(), *first, rows), Ok(None), "{what}");
    }
}

/// Returns the volume epoch and the number of changes of a copied Issue.
fn copied_issue(alloc: Global) -> Result<(u32, usize), Fault> {
    let issue = Event::Issue {
        volume: 3,
        changes: changes(alloc, &[0, 0])?,
    };
    match issue.clone()? {
        Event::Issue { volume, changes } => Ok((volume, changes.len())),
        _ => Err(Fault::NoMessage),
    }
}

/// Returns the fields of a copied Offer.
fn copied_offer() -> Result<(u8, u8, u64), Fault> {
    let offer = Event::Offer {
        group: 1,
        member: 2,
        lsn: 3,
    };
    match offer.clone()? {
        Event::Offer { group, member, lsn } => Ok((group, member, lsn)),
        _ => Err(Fault::NoMessage),
    }
}

#[test]
fn events_are_copied(rt: HostRuntime) {
    assert_eq!(rt; copied_issue(rt.alloc()), Ok((3, 2)));
    assert_eq!(rt; copied_offer(), Ok((1, 2, 3)));
}

/// Returns what the authority admits and does.
fn authority_acts(
    alloc: Global,
) -> Result<(Result<(), Fault>, u32, [Result<(), Fault>; 2]), Fault> {
    let mut authority = Authority::new(alloc, checked(alloc, SIX)?)?;
    let assign = AuthorityAction::Assign;
    let admitted = assign.admitted_by(&authority);
    assign.done_by(alloc, &mut authority)?;
    let late = AuthorityAction::Refresh { volume: 1 };
    let judged = late.admitted_by(&authority);
    let done = match late.done_by(alloc, &mut authority) {
        Ok(_) => Ok(()),
        Err(fault) => Err(fault),
    };
    Ok((admitted, authority.last_volume(), [judged, done]))
}

/// The authority assigns volume epoch 2, and refuses a Refresh of an earlier one.
#[test]
fn the_authority_acts(rt: HostRuntime) {
    assert_eq!(rt;
        authority_acts(rt.alloc()),
        Ok((Ok(()), 2, [Err(Superseded), Err(Superseded)]))
    );
}
