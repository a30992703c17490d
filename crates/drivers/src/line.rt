//! Reads a line of a script.

ghost use Rattle.std.specs.Prelude.{◌≡◌, [], IfOk, length, option_map};
ghost use Rattle.world.specs.Events.{event_of};
ghost use Rattle.drivers.specs.Grammar.{action_of, is_silent, read_verb, verb_in, wait_in};
ghost use Rattle.drivers.specs.Reads.{ReadsBy};
ghost use Rattle.drivers.specs.Parts.{parts_left};
ghost use Rattle.drivers.specs.Seen.{Asked, Seen, seen, seen_action};

use crate::changes::issue;
use crate::names::{deliver, take};
use crate::numbers::{
    advance, assign, cut, grow, hydrate, offer, open, read, refresh, resend, restart,
};
use crate::parts::Parts;
use std::alloc::{AllocError, Global};
use volume_model::Fault;
use world::{Event, Order};

/// The first word of a line.
#[derive(Clone, Copy)]
pub enum Verb {
    Assign,
    Advance,
    Refresh,
    Grow,
    Issue,
    Take,
    Cut,
    Open,
    Resend,
    Read,
    Deliver,
    Hydrate,
    Restart,
    Offer,
    Wait,
}

/// The action of a line.
#[derive(Drop)]
pub enum Line {
    /// Nothing: the line is empty or a comment.
    Empty,
    /// The lines before it end before those after it begin. It does nothing in `run`, which takes the lines one by one.
    Wait,
    /// An order.
    Order(Order),
}

#[inline(always)]
fn verb_of(word: &str) -> Option<Verb>
    ensures { result ≡ verb_in word.now }
{
    match word {
        "assign" => Some(Verb::Assign),
        "advance" => Some(Verb::Advance),
        "refresh" => Some(Verb::Refresh),
        "grow" => Some(Verb::Grow),
        "issue" => Some(Verb::Issue),
        "take" => Some(Verb::Take),
        "cut" => Some(Verb::Cut),
        "open" => Some(Verb::Open),
        "resend" => Some(Verb::Resend),
        "read" => Some(Verb::Read),
        "deliver" => Some(Verb::Deliver),
        "hydrate" => Some(Verb::Hydrate),
        "restart" => Some(Verb::Restart),
        "offer" => Some(Verb::Offer),
        "wait" => Some(Verb::Wait),
        _ => None,
    }
}

/// Returns the verb with these bytes.
#[inline(always)]
fn verb_by(word: &[u8]) -> Option<Verb>
    ensures { result ≡ verb_in word.now }
{
    match str::from_utf8(word) {
        Ok(word) => verb_of(word),
        Err(_) => None,
    }
}

/// Returns whether a line does nothing.
fn is_silent(line: &[u8]) -> bool
    ensures { result ≡ is_silent line.now }
{
    line.is_empty() || line[0] == b'#'
}

/// Reads a line; `Malformed` if it isn't in the grammar. `events` has the index of each earlier line's event.
#[inline(always)]
pub fn line_of(alloc: Global, text: &[u8], events: &[Option<u32>]) -> Result<Line, Fault>
    ensures { ReadsBy seen (option_map (seen_action events.now) (action_of (length events.now) text.now)) result }
{
    if is_silent(text) {
        return Ok(Line::Empty);
    }
    let mut words = Parts::new(text, b' ');
    let Some(verb) = words.take_first() else {
        return Err(Fault::Malformed);
    };
    let Some(verb) = verb_by(verb) else {
        return Err(Fault::Malformed);
    };
    read_verb(alloc, verb, words, events)
}

/// Reads the words after a verb.
#[inline(always)]
fn read_verb(alloc: Global, verb: Verb, words: Parts, events: &[Option<u32>]) -> Result<Line, Fault>
    requires { words.separator ≡ 32 }
    ensures { ReadsBy seen (option_map (seen_action events.now) (read_verb (length events.now) verb
        (parts_left words.entry))) result }
{
    match verb {
        Verb::Assign => Ok(line_by(alloc, assign(words)?)?),
        Verb::Advance => Ok(line_by(alloc, advance(words)?)?),
        Verb::Refresh => Ok(line_by(alloc, refresh(words)?)?),
        Verb::Grow => Ok(line_by(alloc, grow(words)?)?),
        Verb::Issue => Ok(line_by(alloc, issue(alloc, words)?)?),
        Verb::Take => Ok(Line::Order(take(alloc, words, events)?)),
        Verb::Cut => Ok(line_by(alloc, cut(words)?)?),
        Verb::Open => Ok(line_by(alloc, open(words)?)?),
        Verb::Resend => Ok(line_by(alloc, resend(words)?)?),
        Verb::Read => Ok(line_by(alloc, read(words)?)?),
        Verb::Deliver => Ok(Line::Order(deliver(alloc, words, events)?)),
        Verb::Hydrate => Ok(line_by(alloc, hydrate(words)?)?),
        Verb::Restart => Ok(line_by(alloc, restart(words)?)?),
        Verb::Offer => Ok(line_by(alloc, offer(words)?)?),
        Verb::Wait => wait(words),
    }
}

/// Returns the line of an event.
#[inline(always)]
fn line_by(alloc: Global, event: Event) -> Result<Line, AllocError>
    ensures { IfOk result (λ line. seen line ≡ Seen.Asks (Asked.Fixed (event_of event))) }
{
    Ok(Line::Order(Order::Event(Box::new(alloc, event)?)))
}

/// Reads `wait`.
fn wait(words: Parts) -> Result<Line, Fault>
    ensures { ReadsBy seen (option_map (seen_action []) (wait_in (parts_left words.entry))) result }
{
    if words.is_empty() {
        Ok(Line::Wait)
    } else {
        Err(Fault::Malformed)
    }
}
