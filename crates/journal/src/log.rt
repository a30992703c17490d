//! The journal, behind its lock.

ghost use Rattle.std.specs.Prelude.{◌≡◌, ◌+◌, ◌<◌, ◌≤◌, ℕ, length, map, Some, vec_capacity, vec_len, ◌++◌, [], ◌∷◌, ◌^◌, slice_get, None, All, IsSome, IfSome, IfNone, IfOk, MatchBool, take};
ghost use Rattle.std.proofs.Props.{props};
ghost use Rattle.volume_model.specs.Common.{Actor, groups_joined, world_at, last_of, IsRun, numbered, after, opening, step, actor_of, Agree, makes, before, events, Exact, IsNoted, IsRefused};
ghost use Rattle.world.specs.Events.{event_of, events_of};
ghost use Rattle.journal.specs.Joined.{joined_after};
ghost use Rattle.journal.specs.Entries.{entries_of};
ghost use Rattle.journal.specs.Fronts.{front_book, front_log, log_of};
ghost use Rattle.journal.specs.LastEntries.{last_in, last_known};
ghost use Rattle.journal.specs.Tokens.{ids_of, shown};

use crate::actor_name::ActorName;
use crate::cursor::ActorCursor;
use crate::entry::{Entry, Receipt};
use crate::history::{History, LogPrefix};
use crate::last_entries::LastEntries;
use crate::message_ref::MessageRef;
use crate::pass::{Pass, PassStep};
use crate::row::{Row, Site};
use board::BoardSeat;
use std::alloc::{AllocError, Global};
use std::marker::PhantomData;
use std::mem;
use std::sync::Wait;
use std::sync::ledger::{Book, Share};
use volume_model::Fault;
use wire::Messages;
use world::Event;

/// The journal: the unwritten cells, the entries, the number of messages before each, the number of each actor's last
/// entry, and the number of groups that have joined. Its lists have room for all cells from the start.
#[derive(Drop)]
pub struct Log<'a, L: Site> {
    rest: &'a mut [Option<Entry>],
    entries: Vec<&'a Entry>,
    firsts: Vec<u64>,
    messages: u64,
    lasts: LastEntries,
    joined: u64,
    book: Book<L>,
    history: History<L>,
    ghost same: { shown entries.items ≡ log_of history.opened } by { Prim.hlevel props },
    ghost cells: { vec_len entries + length rest.now ≡ length L.cells },
    ghost wide: { (length L.cells ≤ vec_capacity entries) × (length L.cells ≤ vec_capacity firsts) },
    ghost run: { IsRun L.plan (entries_of (shown entries.items)) } by { Prim.hlevel props },
    ghost firsts_are: { firsts.items ≡ map (λ e. e.first) (shown entries.items) },
    ghost messages_are: { messages ≡ length (world_at L.plan (entries_of (shown entries.items))).messages },
    ghost newest: { (actor : Actor) → last_known lasts actor
        ≡ last_of actor (entries_of (shown entries.items)) } by { Prim.hlevel props },
    ghost joined_are: { joined ≡ groups_joined (world_at L.plan (entries_of (shown entries.items))).authority },
    ghost counted: { book.total ≡ vec_len entries },
}

// Writes an entry into the first of these cells, and returns it.
#[inline(always)]
fn write<'a>(rest: &mut &'a mut [Option<Entry>], entry: Entry) -> &'a Entry
    requires { 0 < length rest.old.now }
    ensures value { result.now ≡ entry }
    ensures rest { length rest.new.now + 1 ≡ length rest.old.now }
{
    let Some(cell) = rest.split_off_first_mut() else {
        unreachable!()
    };
    // A cell can hold an entry of an earlier journal over the same row.
    if cell.is_some() {
        *cell = None;
    }
    mem::forget(mem::replace(cell, Some(entry)));
    let Some(written) = cell else { unreachable!() };
    written
}

// Returns the number of messages after `more` were made. Blocks forever if it passes 2^64, which can't happen.
fn total<R: Wait>(rt: &R, messages: u64, more: usize) -> u64
    ensures { result ≡ messages + more }
{
    match messages.checked_add(more as u64) {
        Some(all) => all,
        None => {
            for _ in rt.forever() {}
            unreachable!()
        }
    }
}

// Returns the number of groups that have joined after an event. Blocks forever if it passes 2^64.
fn joined_after<R: Wait>(rt: &R, joined: u64, event: &Event) -> u64
    ensures { result ≡ joined_after joined (event_of event.now) }
{
    match event {
        Event::Grow => total(rt, joined, 1),
        _ => joined,
    }
}

// Returns the place `step` places after the first or before the second of two.
fn probe(low: usize, high: usize, step: usize, ahead: bool) -> usize
    requires { (0 < step) × (low + step < high) }
    ensures { (low < result) × (result < high) }
{
    if ahead { low + step } else { high - step }
}

impl<'a, L: Site> Log<'a, L> {
    ghost use Rattle.volume_model.specs.Actor.Actor.{Client, Node};
    ghost use Rattle.wire.specs.Common.{messages_of, listed};
    ghost use Rattle.world.specs.Slots.{members};
    ghost use Rattle.board.specs.Seats as board;
    ghost use Rattle.board.specs.Seats.{IsSeatIn};
    ghost use Rattle.journal.specs.Actors.{seen_who};
    ghost use Rattle.journal.specs.Entries.{entry_of};
    ghost use Rattle.journal.specs.PassSteps.{durable_in, made, IsElse, NamesEarlier, Stands};
    ghost use Rattle.journal.specs.Passes.{journal_of, kept_in, message_ref_message, message_ref_number, cursor_number, marked, notes_of, seat_of, seen_at, steps_of, world_of, AddsRefusal, AddsStep, HasNoteRoom, HasPlace, HasStepRoom, SeesAll};

    /// Makes an empty journal over a row of cells, for `slots` client slots and the nodes of `groups` groups, of which
    /// `born` exist at birth.
    ///
    /// # Errors
    /// `AllocError` if memory runs out.
    pub fn new(
        alloc: Global,
        row: &'a mut Row,
        slots: u32,
        groups: u8,
        born: u64,
        book: Book<L>,
        history: History<L>,
    ) -> Result<Log<'a, L>, AllocError>
        requires cells { ids_of row.old ≡ L.cells }
        requires history { log_of history.opened ≡ [] }
        requires book { book.total ≡ 0 }
        requires born { born ≡ L.plan.born }
        ensures empty { IfOk result (λ log. journal_of log ≡ []) }
        ensures clients { IfOk result (λ log. (volume : ℕ) → volume ≤ slots → HasPlace log (Client volume)) }
        ensures nodes { IfOk result (λ log. (group member : ℕ) → group < groups → member < members → HasPlace log
            (Node group member)) }
    {
        let lasts = LastEntries::new(alloc, slots, groups)?;
        Ok(Log {
            entries: Vec::with_capacity(alloc, row.cells.len())?,
            firsts: Vec::with_capacity(alloc, row.cells.len())?,
            rest: row.cells.as_mut_slice(),
            messages: 0,
            lasts,
            joined: born,
            book,
            history,
        })
    }

    /// Returns whether the cursor is at the actor's last entry here. If so, the actor's state is the one that the
    /// journal's run gives it. Always true for an actor that the journal has a place for.
    #[inline(always)]
    pub fn compare(&mut self, cursor: &mut ActorCursor<L>) -> bool
        ensures log { (self.new.entries ≡ self.old.entries) × (self.new.firsts ≡ self.old.firsts)
            × (self.new.lasts ≡ self.old.lasts) }
        ensures cursor { (marked cursor.new ≡ marked cursor.old) × (cursor_number cursor.new ≡ cursor_number cursor.old)
            × (seen_at cursor.new ≡ seen_at cursor.old) }
        ensures agree { MatchBool result (Agree (marked cursor.old) (world_at L.plan (seen_at cursor.old))
            (world_of self.old)) (Unit {0}) }
        ensures last { MatchBool result ((cursor_number cursor.old ≡ last_of (marked cursor.old) (journal_of self.old))
            × HasPlace self.old (marked cursor.old)) (HasPlace self.old (marked cursor.old) → cursor_number cursor.old
            ≡ last_of (marked cursor.old) (journal_of self.old) → ⊥) }
        ensures seen { MatchBool result (take (cursor_number cursor.old) (journal_of self.old) ≡ seen_at cursor.old)
            (Unit {0}) }
    {
        if self.lasts.get(cursor.who) != Some(cursor.number) {
            return false;
        }
        let Log { history, .. } = self;
        history.opened.compare(&mut cursor.seen);
        true
    }

    /// Returns whether the journal has a place for the actor. If not, the actor has made no step.
    pub fn has_place(&self, who: ActorName) -> bool
        ensures { MatchBool result (HasPlace self.now (seen_who who)) (Agree (seen_who who) (opening L.plan)
            (world_of self.now)) }
    {
        self.lasts.get(who).is_some()
    }

    /// Brings the pass up to the end of the journal.
    #[inline(always)]
    pub fn catch_up(&mut self, pass: &mut Pass<'a, L>)
        ensures log { (self.new.entries ≡ self.old.entries) × (self.new.firsts ≡ self.old.firsts)
            × (self.new.lasts ≡ self.old.lasts) }
        ensures seen { SeesAll pass.new self.new }
        ensures pass { (pass.new.steps ≡ pass.old.steps) × (pass.new.notes ≡ pass.old.notes)
            × (seat_of pass.new ≡ seat_of pass.old) }
    {
        let Log { history, .. } = self;
        history.opened.meet(&mut pass.seen);
    }

    /// Returns whether every cell of the row is written.
    pub fn is_full(&self) -> bool
        ensures { MatchBool result (length (journal_of self.now) ≡ length L.cells) (length (journal_of self.now)
            < length L.cells) }
    {
        self.rest.is_empty()
    }

    /// Returns the number of entries.
    pub fn len(&self) -> usize
        ensures { result ≡ length (journal_of self.now) }
    {
        self.entries.len()
    }

    /// Returns the number of groups that have joined.
    pub fn joined(&self) -> u64
        ensures { result ≡ groups_joined (world_of self.now).authority }
    {
        self.joined
    }

    // Appends an entry. Returns the prefix that ends with it.
    #[inline(always)]
    fn append<R: Wait>(&mut self, rt: &R, entry: Entry, pass: &mut Pass<'a, L>) -> LogPrefix
        requires cell { 0 < length self.old.rest.now }
        requires settled { SeesAll pass.old self.old }
        requires who { IsSome (last_in self.old.lasts (actor_of (event_of entry.event))) }
        requires goes { makes (step L.plan (world_of self.old) (event_of entry.event))
            ≡ Some (messages_of (listed entry.made)) }
        requires first { entry.first ≡ self.old.messages }
        requires place { entry.cell ≡ vec_len self.old.entries }
        requires durable { entry.durable ≡ durable_in (after L.plan (world_of self.old) (event_of entry.event))
            (event_of entry.event) }
        requires room { HasStepRoom pass.old }
        ensures entries { kept_in self.new ≡ kept_in self.old ++ entry ∷ [] }
        ensures seen { SeesAll pass.new self.new }
        ensures steps { steps_of pass.new ≡ steps_of pass.old ++ made (length (kept_in self.old)) (entry_of entry)
            entry.durable ∷ [] }
        ensures notes { (notes_of pass.new ≡ notes_of pass.old) × (seat_of pass.new ≡ seat_of pass.old) }
        ensures front { (front_log result ≡ kept_in self.new) × (front_book result ≡ L.history) }
    {
        let Log {
            rest,
            entries,
            firsts,
            messages,
            lasts,
            joined,
            book,
            history,
        } = self;
        let Pass {
            share,
            steps,
            notes: _,
            near: _,
            seen,
            seat: _,
        } = pass;
        let cell = entries.len();
        let who = ActorName::of(&entry.event);
        let grown = joined_after(rt, *joined, &entry.event);
        let count = entry.made.len();
        let entry = write(rest, entry);
        history.opened.add(entry);
        *seen = history.opened.front();
        let whole = history.opened.front();
        book.add(share, 1);
        steps.push_reserved(PassStep {
            entry,
            site: PhantomData,
        });
        lasts.set(who, cell + 1);
        *joined = grown;
        firsts.push_reserved(*messages);
        *messages = total(rt, *messages, count);
        entries.push_reserved(entry);
        whole
    }

    /// Enters the step of an actor whose lock the caller holds. Returns its receipt.
    #[inline(always)]
    pub fn enter<R: Wait>(
        &mut self,
        rt: &R,
        cursor: &mut ActorCursor<L>,
        pass: &mut Pass<'a, L>,
        event: Event,
        made: Messages,
        durable: u64,
    ) -> Receipt
        requires settled { SeesAll pass.old self.old }
        requires who { actor_of (event_of event) ≡ marked cursor.old }
        requires there { HasPlace self.old (marked cursor.old) }
        requires goes { makes (step L.plan (world_of self.old) (event_of event)) ≡ Some (messages_of (listed made)) }
        requires durable { durable ≡ durable_in (after L.plan (world_of self.old) (event_of event)) (event_of event) }
        requires cell { length (journal_of self.old) < length L.cells }
        requires room { HasStepRoom pass.old }
        ensures step { AddsStep (event_of event) result (steps_of pass.old) (steps_of pass.new) }
        ensures notes { (notes_of pass.new ≡ notes_of pass.old) × (seat_of pass.new ≡ seat_of pass.old) }
        ensures receipt { (result.number ≡ length (journal_of self.new)) × (result.durable ≡ durable) }
        ensures entry { journal_of self.new ≡ journal_of self.old ++ record {
          event = event_of event;
          made = messages_of
              (listed made);
          first = length (world_of self.old).messages;
        } ∷ [] }
        ensures world { world_of self.new ≡ after L.plan (world_of self.old) (event_of event) }
        ensures cursor { (marked cursor.new ≡ marked cursor.old) × (seen_at cursor.new ≡ journal_of self.new) }
        ensures seen { SeesAll pass.new self.new }
    {
        let cell = self.entries.len();
        let first = self.messages;
        let count = made.len();
        let entry = Entry {
            event,
            made,
            first,
            cell,
            durable,
        };
        let seen = self.append(rt, entry, pass);
        cursor.advance(seen, self.entries.len());
        Receipt {
            number: cell + 1,
            first_message: total(rt, first, 1),
            made: count,
            durable,
        }
    }

    // Returns the entry at a place.
    fn entry(&self, cell: usize) -> &'a Entry
        requires { cell < vec_len self.now.entries }
        ensures { slice_get (kept_in self.now) cell ≡ Some result.now }
    {
        self.entries[cell]
    }

    /// Returns a copy of the events, in order.
    ///
    /// # Errors
    /// `AllocError` if memory runs out.
    pub fn events(&self, alloc: Global) -> Result<Vec<Event>, AllocError>
        ensures { IfOk result (λ made. events_of made.items ≡ events (journal_of self.now)) }
    {
        let mut made = Vec::with_capacity(alloc, self.entries.len())?;
        for cell in 0..self.entries.len() {
            made.push(self.entry(cell).event.clone()?)?;
        }
        Ok(made)
    }

    // Finds the entry that made a message by galloping search between two places, from the first or from the last one.
    fn between(&self, first: usize, end: usize, ahead: bool, number: u64) -> usize
        requires within { (first < end) × (end ≤ vec_len self.now.entries) }
        requires made { (before L.plan (journal_of self.now) first < number)
            × (number ≤ before L.plan (journal_of self.now) end) }
        ensures { (result < vec_len self.now.entries) × (before L.plan (journal_of self.now) result < number)
            × (number ≤ before L.plan (journal_of self.now) (result + 1)) }
    {
        let mut low = first;
        let mut high = end;
        let mut back = 1;
        while low + 1 < high {
            let step = ((high - low) / 2).min(back);
            let middle = probe(low, high, step, ahead);
            back = 2 * step;
            if self.firsts[middle] < number {
                low = middle;
            } else {
                high = middle;
            }
        }
        low
    }

    // Narrows the search for the entry that made a message: returns the given place and the next, or the next and the
    // end.
    #[inline(always)]
    fn behind(&self, near: usize, end: usize, number: u64) -> (usize, usize)
        requires within { (near < end) × (end ≤ vec_len self.now.entries) }
        requires made { (before L.plan (journal_of self.now) near < number)
            × (number ≤ before L.plan (journal_of self.now) end) }
        ensures within { (result.0 < result.1) × (result.1 ≤ vec_len self.now.entries) }
        ensures made { (before L.plan (journal_of self.now) result.0 < number)
            × (number ≤ before L.plan (journal_of self.now) result.1) }
    {
        let next = near + 1;
        if next >= end {
            return (near, end);
        }
        if self.firsts[next] < number {
            return (next, end);
        }
        (near, next)
    }

    // Finds the entry that made a message: searches from `near` on if it isn't before that, else backwards from the
    // end.
    #[inline(always)]
    fn maker(&self, near: usize, number: u64) -> usize
        requires { (0 < number) × (number ≤ self.now.messages) }
        ensures { (result < vec_len self.now.entries) × (before L.plan (journal_of self.now) result < number)
            × (number ≤ before L.plan (journal_of self.now) (result + 1)) }
    {
        let end = self.firsts.len();
        if near < end {
            if self.firsts[near] < number {
                let (first, last) = self.behind(near, end, number);
                return self.between(first, last, true, number);
            }
        }
        self.between(0, end, false, number)
    }

    /// Shows that a message that was looked up before still has its number.
    #[inline(always)]
    pub fn has(&mut self, message_ref: &mut MessageRef<'a, L>)
        ensures log { journal_of self.new ≡ journal_of self.old }
        ensures message_ref { (message_ref_number message_ref.new ≡ message_ref_number message_ref.old)
            × (message_ref_message message_ref.new ≡ message_ref_message message_ref.old) }
        ensures is { numbered (world_of self.old).messages (message_ref_number message_ref.old) ≡ message_ref_message
            message_ref.old }
    {
        let Log { history, .. } = self;
        history.opened.compare(&mut message_ref.seen);
    }

    /// Looks a message up by its number, and brings the pass up to the end of the journal. Returns `None` if no step
    /// has made it. The search begins at the last message that was looked up.
    #[inline(always)]
    pub fn seek(&mut self, pass: &mut Pass<'a, L>, number: u64) -> Option<MessageRef<'a, L>>
        ensures log { (self.new.entries ≡ self.old.entries) × (self.new.firsts ≡ self.old.firsts)
            × (self.new.lasts ≡ self.old.lasts) }
        ensures seen { SeesAll pass.new self.new }
        ensures pass { (pass.new.steps ≡ pass.old.steps) × (pass.new.notes ≡ pass.old.notes)
            × (seat_of pass.new ≡ seat_of pass.old) }
        ensures some { IfSome result (λ l. message_ref_number l ≡ number) }
        ensures is { IfSome result (λ l. numbered (world_of self.old).messages number ≡ message_ref_message l) }
        ensures none { IfNone result (numbered (world_of self.old).messages number ≡ None) }
        ensures own { IfNone result (All (IsElse number) (steps_of pass.old)) }
    {
        self.catch_up(pass);
        if number == 0 || number > self.messages {
            pass.stay(self.entries.len());
            return None;
        }
        let cell = self.maker(pass.near, number);
        pass.stay(cell);
        let entry = self.entry(cell);
        let Log { history, .. } = self;
        let seen = history.opened.front();
        Some(MessageRef {
            number,
            cell,
            index: (number - 1 - entry.first) as usize,
            entry,
            seen,
            site: PhantomData,
        })
    }

    /// Notes the model's refusal of an event in the pass, with the journal's length.
    pub fn refuse(&self, pass: &mut Pass<'a, L>, event: Event, fault: Fault)
        requires settled { SeesAll pass.old self.now }
        requires noted { IsNoted fault }
        requires exact { Exact L.plan L.slots (length L.cells) (journal_of self.now) (event_of event) fault }
        requires room { HasNoteRoom pass.old }
        ensures same { (steps_of pass.new ≡ steps_of pass.old) × (seat_of pass.new ≡ seat_of pass.old) }
        ensures note { AddsRefusal (event_of event) fault (steps_of pass.old) (notes_of pass.old) (notes_of pass.new) }
    {
        pass.note(event, fault, self.entries.len());
    }

    /// Takes a pass back. Each of its steps is in the journal, and each of its notes is true of it. Returns its share
    /// of the count of steps, and its seat on the board. Allocates nothing.
    pub fn take_back(&mut self, mut pass: Pass<'a, L>) -> (Share<L>, BoardSeat)
        ensures log { self.new.entries ≡ self.old.entries }
        ensures stands { All (Stands L.plan (journal_of self.old)) (steps_of pass.entry) }
        ensures refused { All (IsRefused L.plan L.slots (length L.cells) (journal_of self.old)) (notes_of pass.entry) }
        ensures part { (result.0.parts ≡ 1) × (result.0.amount ≡ length (steps_of pass.entry)) }
        ensures seat { IsSeatIn L.board result.1 × (board.steps_of result.1 ≡ seat_of pass.entry) }
    {
        self.catch_up(&mut pass);
        let Pass { share, seat, .. } = pass;
        (share, seat)
    }

    /// Shows that the journal has as many steps as all passes had together.
    pub fn audit(&mut self, whole: &mut Share<L>)
        requires { whole.old.parts ≡ L.parts }
        ensures log { self.new.entries ≡ self.old.entries }
        ensures count { whole.old.amount ≡ length (journal_of self.old) }
    {
        self.book.audit(whole);
    }

    /// Shows that the journal is a run of the model, and that each step comes after the one that made the message it
    /// names.
    pub fn replays(&self)
        ensures run { IsRun L.plan (journal_of self.now) }
        ensures before { NamesEarlier L.plan (journal_of self.now) }
    {
        let _ = &self.entries;
    }
}
