//! What is drawn of each line of a run.

use crate::act::{Act, Sent, event_act};
use crate::actor::Actor;
use std::alloc::{AllocError, Global};
use volume_model::Fault;
use world::{Event, Order, Outcome, RecoveryOutcome};

/// What is drawn of a line.
#[derive(Clone, Copy)]
pub(crate) struct Row {
    /// The line's number, from 1.
    pub line: u32,
    /// Its actor.
    pub actor: Actor,
    /// What it does.
    pub act: Act,
    /// Why it was refused, if it was.
    pub refused: Option<Fault>,
    /// Whether a writer's durable point may have grown.
    pub may_commit: bool,
    /// The writer's new durable point, if it has grown.
    pub durable: Option<u64>,
}

/// What is known of a client while the lines are read.
#[derive(Clone, Copy)]
struct ClientState {
    volume: u32,
    /// Whether it has cut, or is the first writer.
    has_cut: bool,
    /// Whether it is a writer.
    is_open: bool,
    /// The LSN of its next record.
    next_lsn: u64,
}

/// What is known of a run while its lines are read.
#[derive(Drop)]
struct RunState {
    /// The messages that were made.
    sent: Vec<Sent>,
    /// For each event the number of messages that were made before it, and how many it made.
    made: Vec<(usize, u32)>,
    clients: Vec<ClientState>,
}

impl RunState {
    /// Returns the place of a client, which is added if it is new.
    fn client(&mut self, volume: u32) -> Result<usize, AllocError> {
        let known = self
            .clients
            .iter()
            .position(|client| client.volume == volume);
        if let Some(place) = known {
            return Ok(place);
        }
        let place = self.clients.len();
        self.clients.push(ClientState {
            volume,
            has_cut: volume == 1,
            is_open: volume == 1,
            next_lsn: 1,
        })?;
        Ok(place)
    }

    /// Returns the number of the message at a place (from 1) among those of an event, 0 if there is none.
    fn number_of(&self, event: u32, place: u64) -> u64 {
        match self.made.get(event as usize) {
            Some((first, made)) if 1 <= place && place <= u64::from(*made) => {
                (*first as u64).saturating_add(place)
            }
            _ => 0,
        }
    }

    /// Returns the event of an order.
    fn event_of(&self, order: &Order) -> Result<Event, AllocError> {
        match order {
            Order::Event(event) => {
                let event: &Event = event;
                event.clone()
            }
            Order::DeliverFrom {
                group,
                member,
                event,
                place,
            } => Ok(Event::Deliver {
                group: *group,
                member: *member,
                message: self.number_of(*event, *place),
            }),
            Order::TakeFrom {
                volume,
                event,
                place,
            } => Ok(Event::Take {
                volume: *volume,
                message: self.number_of(*event, *place),
            }),
        }
    }

    /// Returns the message with a number, if it was made.
    fn message(&self, number: u64) -> Option<Sent> {
        let index = number.checked_sub(1)?;
        self.sent.get(index as usize).copied()
    }

    /// Adds the messages that an act has made.
    fn add_made(
        &mut self,
        from: Actor,
        act: Act,
        has_cut: bool,
        made: u32,
    ) -> Result<(), AllocError> {
        let (kind, first) = act.makes(has_cut);
        self.made.push((self.sent.len(), made))?;
        let mut lsn = first;
        for number in 0..made {
            let place = u64::from(number) + 1;
            let made = u64::from(made);
            self.sent.push(Sent {
                from,
                kind,
                lsn,
                place,
                made,
            })?;
            lsn = if lsn > 0 { lsn.saturating_add(1) } else { 0 };
        }
        Ok(())
    }
}

/// Returns the cut and the start of a client's recovery.
fn cut_of(finds: &[RecoveryOutcome], volume: u32) -> Option<(u64, u64)> {
    let find = finds.iter().find(|find| find.volume == volume)?;
    Some((find.found.cut, find.found.lineage.last_start()))
}

/// Returns an act that wasn't refused with what depends on the client, and advances the client.
fn advanced(client: &mut ClientState, act: Act, finds: &[RecoveryOutcome]) -> Act {
    match act {
        Act::Issue(_, count) => {
            let first = client.next_lsn;
            client.next_lsn = first.saturating_add(count as u64);
            Act::Issue(first, count)
        }
        Act::Cut(_) => {
            let found = cut_of(finds, client.volume);
            if let Some((_, start)) = found {
                client.next_lsn = start.saturating_add(1);
            }
            client.has_cut = true;
            Act::Cut(found)
        }
        Act::Open => {
            client.is_open = true;
            act
        }
        _ => act,
    }
}

/// Adds what is drawn of a line, and the messages that it made.
fn add_row(
    rows: &mut Vec<Row>,
    state: &mut RunState,
    line: u32,
    event: &Event,
    answer: Result<u32, Fault>,
    finds: &[RecoveryOutcome],
) -> Result<(), AllocError> {
    let (actor, plain, message) = event_act(event);
    let mut act = match plain {
        Act::Takes(_) => Act::Takes(state.message(message)),
        _ => plain,
    };
    let (mut has_cut, mut is_open) = (false, false);
    if let Actor::Client(volume) = actor
        && answer.is_ok()
    {
        let place = state.client(volume)?;
        if let Some(client) = state.clients.get_mut(place) {
            act = advanced(client, act, finds);
            has_cut = client.has_cut;
            is_open = client.is_open;
        }
    }
    let (made, refused) = match answer {
        Ok(made) => (made, None),
        Err(fault) => (0, Some(fault)),
    };
    state.add_made(actor, act, has_cut, made)?;
    let may_commit = is_open && matches!(act, Act::Takes(_) | Act::Open);
    rows.push(Row {
        line,
        actor,
        act,
        refused,
        may_commit,
        durable: None,
    })?;
    Ok(())
}

/// Returns what is drawn of each line with an event, and these events. `lines` has the lines' numbers.
pub(crate) fn rows_of(
    alloc: Global,
    lines: &[u32],
    orders: &[Order],
    outcome: &Outcome,
) -> Result<(Vec<Row>, Vec<Event>), AllocError> {
    let mut state = RunState {
        sent: Vec::new(alloc),
        made: Vec::new(alloc),
        clients: Vec::new(alloc),
    };
    let mut rows = Vec::new(alloc);
    let mut events = Vec::new(alloc);
    for (at, order) in orders.iter().enumerate() {
        let line = lines.get(at).copied().unwrap_or(0);
        if let Some(answer) = outcome.results.get(at) {
            let finds = outcome.finds.as_slice();
            let event = state.event_of(order)?;
            add_row(&mut rows, &mut state, line, &event, *answer, finds)?;
            events.push(event)?;
        }
    }
    Ok((rows, events))
}
