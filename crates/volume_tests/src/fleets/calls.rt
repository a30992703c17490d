//! Tables of calls of a fleet.

use super::looks::{Look, Seen};
use node_fleet::{Fleet, FleetSite, Pass, Receipt};
use segment_core::NodeAction;
use std::alloc::{AllocError, Global};
use std::sync::Wait;
use volume_model::Fault;
use world::{AuthorityAction, ClientAction};
use writer_core::Change;

/// A call for group 0.
#[derive(Clone, Copy)]
pub enum Call {
    /// Deliver a message to a member.
    Deliver(u8, u64),
    /// Deliver the messages from the first to the last to a member.
    DeliverAll(u8, u64, u64),
    /// Post a letter with a message to a member's mailbox.
    Post(u8, u64),
    /// Post the closing letter to a member's mailbox.
    Close(u8),
    /// Collect a member's oldest letter and deliver its message, 0 for the closing letter, to the member.
    Collect(u8),
    /// Perform a member's action.
    Node(u8, NodeAction),
    /// Perform an action of the authority.
    Authority(AuthorityAction),
    /// Issue these bytes, one a record, from the first byte of block 0 on.
    Issue(u32, &'static str),
    /// Let a client take a message.
    Take(u32, u64),
    /// Let a client cut.
    Cut(u32),
    /// Let a client request block 0.
    Read(u32),
    /// Read the board.
    Board,
}

/// The number of messages of a call and its durable point, or its refusal.
pub type CallResult = Result<(usize, u64), Fault>;

/// A call and its expected result.
pub type Step = (Call, CallResult);

/// Returns a change for each byte, from the first byte of block 0 on.
fn changes(alloc: Global, bytes: &str) -> Result<Vec<Change>, AllocError> {
    let mut changes = Vec::new(alloc);
    for (offset, byte) in bytes.bytes().enumerate() {
        let offset = u16::try_from(offset).unwrap_or(0);
        changes.push(Change::new(alloc, 0, 0, offset, &[byte])?)?;
    }
    Ok(changes)
}

/// Returns the message of a member's oldest letter, 0 if it is the closing letter. Blocks while there is no letter.
fn collected<'a, L: FleetSite, R: Wait>(
    rt: &R,
    fleet: &Fleet<'a, L>,
    pass: &mut Pass<'a, L>,
    member: u8,
) -> u64 {
    if !fleet.names(0, member) {
        return 0;
    }
    fleet.collect(rt, pass, 0, member).unwrap_or(0)
}

/// Posts a letter to a member; `None` is the closing letter.
fn post<'a, L: FleetSite, R: Wait>(
    rt: &R,
    fleet: &Fleet<'a, L>,
    pass: &mut Pass<'a, L>,
    member: u8,
    letter: Option<u64>,
) -> Result<Receipt, Fault> {
    if !fleet.names(0, member) {
        return Err(Fault::NoActor);
    }
    match letter {
        Some(message) => fleet.post(rt, pass, 0, member, message),
        None => fleet.close_mailbox(rt, pass, 0, member),
    }
    Ok(NO_STEP)
}

/// The receipt of a call that makes no step.
const NO_STEP: Receipt = Receipt {
    number: 0,
    first_message: 0,
    made: 0,
    durable: 0,
};

impl Call {
    /// Makes the call with a pass.
    fn made<'a, L: FleetSite, R: Wait>(
        self,
        rt: &R,
        alloc: Global,
        fleet: &Fleet<'a, L>,
        pass: &mut Pass<'a, L>,
        look: &Look,
    ) -> Result<Receipt, Fault> {
        match self {
            Call::Deliver(member, message) => fleet.deliver(rt, pass, 0, member, message, look),
            Call::DeliverAll(member, first, last) => {
                let mut receipt = NO_STEP;
                for message in first..=last {
                    receipt = fleet.deliver(rt, pass, 0, member, message, look)?;
                }
                Ok(receipt)
            }
            Call::Post(member, message) => post(rt, fleet, pass, member, Some(message)),
            Call::Close(member) => post(rt, fleet, pass, member, None),
            Call::Collect(member) => {
                let message = collected(rt, fleet, pass, member);
                fleet.deliver(rt, pass, 0, member, message, look)
            }
            Call::Node(member, action) => fleet.node_step(rt, pass, 0, member, action),
            Call::Authority(action) => fleet.advance(rt, pass, action),
            Call::Issue(volume, bytes) => fleet.issue(rt, pass, volume, changes(alloc, bytes)?),
            Call::Take(volume, message) => {
                fleet.client_step(rt, pass, volume, ClientAction::Take { message })
            }
            Call::Cut(volume) => fleet.client_step(rt, pass, volume, ClientAction::Cut),
            Call::Read(volume) => {
                let action = ClientAction::Read { group: 0, block: 0 };
                fleet.client_step(rt, pass, volume, action)
            }
            Call::Board => Ok(Receipt {
                number: 0,
                first_message: 0,
                made: 0,
                durable: fleet.durable(pass),
            }),
        }
    }
}

/// Returns the result of a call.
fn result_of(made: &Result<Receipt, Fault>) -> CallResult {
    match made {
        Ok(receipt) => Ok((receipt.made, receipt.durable)),
        Err(fault) => Err(*fault),
    }
}

/// Returns whether the gate was called exactly once by a delivery, with all messages of the step, and by no other call.
/// A refused delivery calls it only if the journal is full.
fn is_lent(call: Call, made: &Result<Receipt, Fault>, before: Seen, after: Seen) -> bool {
    let calls = after.calls.saturating_sub(before.calls);
    let messages = after.messages.saturating_sub(before.messages);
    match (call, made) {
        (Call::Deliver(..) | Call::Collect(_), Ok(receipt)) => {
            calls == 1 && messages == receipt.made as u64
        }
        (Call::DeliverAll(_, first, last), Ok(receipt)) => {
            calls == last.saturating_add(1).saturating_sub(first)
                && messages == calls.saturating_mul(receipt.made as u64)
        }
        (Call::Deliver(..), Err(Fault::JournalFull)) => calls <= 1,
        _ => calls == 0 && messages == 0,
    }
}

/// Makes the calls, with the passes in turn. Returns the index of the first wrong one: its result isn't the expected
/// one, its gate saw other messages than the step's, or its number isn't above the earlier ones.
pub fn first_wrong<'a, L: FleetSite, R: Wait>(
    rt: &R,
    alloc: Global,
    fleet: &Fleet<'a, L>,
    passes: &mut [Pass<'a, L>],
    steps: &[Step],
    look: &Look,
) -> Option<usize> {
    let count = passes.len();
    if count == 0 {
        return None;
    }
    let mut last = 0;
    for (i, (call, expected)) in steps.iter().enumerate() {
        let before = look.seen();
        let made = call.made(rt, alloc, fleet, &mut passes[i % count], look);
        if result_of(&made) != *expected || !is_lent(*call, &made, before, look.seen()) {
            return Some(i);
        }
        let number = match made {
            Ok(receipt) => receipt.number,
            Err(_) => 0,
        };
        if number != 0 && number <= last {
            return Some(i);
        }
        last = last.max(number);
    }
    None
}
