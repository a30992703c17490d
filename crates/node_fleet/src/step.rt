//! The parts that all steps under both locks have in common.

ghost use Rattle.std.specs.Prelude.{false, is_err, length, ◌<◌, ◌≡◌, Err, IfErr, IfOk, MatchResult, OnOk, Some};
ghost use Rattle.volume_model.specs.Common.{after, step, makes, actor_of, Agree, world_at, Exact};
ghost use Rattle.wire.specs.Common.{listed, messages_of};
ghost use Rattle.world.specs.Events.{event_of};
ghost use Rattle.journal.specs.PassSteps.{durable_in};
ghost use Rattle.journal.specs.Passes.{cursor_number, journal_of, marked, notes_of, seat_of, seen_at, steps_of, world_of, HasNoteRoom, SeesAll};
ghost use Rattle.node_fleet.specs.declared.halt.Halt.TheVariants.{Refused, StaleCursor};
ghost use Rattle.node_fleet.specs.RecordsAttempt.{AddsNote, Enters, IsExact, PassRecords};
ghost use Rattle.node_fleet.specs.Ready.{IsEarly, IsReadyToStep, IsStale};

use crate::halt::Halt;
use journal::{ActorCursor, Log, Pass, Receipt, Site};
use std::sync::Wait;
use volume_model::Fault;
use wire::Messages;
use world::Event;

/// Compares an actor's cursor with the journal, and reserves room for a step and a note. The pass must be at the end of
/// the journal.
#[inline(always)]
pub(crate) fn reserve_step<'a, L: Site>(
    log: &mut Log<'a, L>,
    pass: &mut Pass<'a, L>,
    cursor: &mut ActorCursor<L>,
) -> Result<(), Halt>
    requires settled { SeesAll pass.old log.old }
    ensures log { journal_of log.new ≡ journal_of log.old }
    ensures steps { steps_of pass.new ≡ steps_of pass.old }
    ensures notes { notes_of pass.new ≡ notes_of pass.old }
    ensures seat { seat_of pass.new ≡ seat_of pass.old }
    ensures cursor { (marked cursor.new ≡ marked cursor.old) × (cursor_number cursor.new ≡ cursor_number cursor.old)
        × (seen_at cursor.new ≡ seen_at cursor.old) }
    ensures ready { IfOk result (λ _. IsReadyToStep cursor.new log.new pass.new) }
    ensures agree { IfOk result (λ _. Agree (marked cursor.old) (world_at L.plan (seen_at cursor.old))
        (world_of log.new)) }
    ensures early { IfErr result (λ halt. IsEarly halt) }
    ensures stale { result ≡ Err StaleCursor → IsStale cursor.old log.old }
{
    if !log.compare(cursor) {
        return Err(Halt::StaleCursor);
    }
    pass.reserve()?;
    Ok(())
}

/// Notes a refusal, except `NoMemory` and `NoMessage`. Out of line, since refusals are rare.
#[inline(never)]
pub fn refused<'a, L: Site>(
    log: &Log<'a, L>,
    pass: &mut Pass<'a, L>,
    event: Event,
    fault: Fault,
) -> Halt
    requires settled { SeesAll pass.old log.now }
    requires exact { Exact L.plan L.slots (length L.cells) (journal_of log.now) (event_of event) fault }
    requires room { HasNoteRoom pass.old }
    ensures halt { result ≡ Refused fault }
    ensures steps { steps_of pass.new ≡ steps_of pass.old }
    ensures note { AddsNote (event_of event) fault (steps_of pass.old) (notes_of pass.old) (notes_of pass.new) }
    ensures seat { seat_of pass.new ≡ seat_of pass.old }
{
    match fault {
        Fault::NoMemory | Fault::NoMessage => {}
        _ => log.refuse(pass, event, fault),
    }
    Halt::Refused(fault)
}

/// Enters the step of an actor that has acted, or notes its refusal.
#[inline(always)]
pub(crate) fn commit_or_note<'a, L: Site, R: Wait>(
    rt: &R,
    log: &mut Log<'a, L>,
    cursor: &mut ActorCursor<L>,
    pass: &mut Pass<'a, L>,
    event: Event,
    attempt: Result<Messages, Fault>,
    durable: u64,
) -> Result<Receipt, Halt>
    requires who { actor_of (event_of event) ≡ marked cursor.old }
    requires ready { IsReadyToStep cursor.old log.old pass.old }
    requires goes { IfOk attempt (λ made. makes (step L.plan (world_of log.old) (event_of event))
        ≡ Some (messages_of (listed made))) }
    requires durable { OnOk attempt (durable ≡ durable_in (after L.plan (world_of log.old) (event_of event))
        (event_of event)) }
    requires cell { OnOk attempt (length (journal_of log.old) < length L.cells) }
    requires exact { IfErr attempt (λ fault. Exact L.plan L.slots (length L.cells) (journal_of log.old) (event_of event)
        fault) }
    ensures recorded { PassRecords (event_of event) result pass.old pass.new }
    ensures exact { IsExact L.plan L.slots (length L.cells) (journal_of log.old) (event_of event) result }
    ensures entered { Enters (event_of event) (journal_of log.old) (journal_of log.new) result }
    ensures seat { seat_of pass.new ≡ seat_of pass.old }
    ensures cursor { marked cursor.new ≡ marked cursor.old }
    ensures seen { MatchResult attempt (λ _. world_at L.plan (seen_at cursor.new) ≡ after L.plan (world_of log.old)
        (event_of event)) (λ _. seen_at cursor.new ≡ seen_at cursor.old) }
    ensures moved { OnOk result (seen_at cursor.new ≡ journal_of log.new) }
    ensures halt { MatchResult attempt (λ _. is_err result ≡ false) (λ fault. result ≡ Err (Refused fault)) }
{
    match attempt {
        Ok(made) => Ok(log.enter(rt, cursor, pass, event, made, durable)),
        Err(fault) => Err(refused(log, pass, event, fault)),
    }
}
