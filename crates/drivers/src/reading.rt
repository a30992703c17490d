//! Reads the lines of a script: at most one event a line.

ghost use Rattle.std.specs.Prelude.{◌≡◌, ◌<◌, ◌↔◌, IfOk, IsTrue, OnOk, length, vec_len};
ghost use Rattle.std.specs.Str.{IsUtf8};
ghost use Rattle.drivers.specs.Seen.{Seen, asked_by, seen};
ghost use Rattle.drivers.specs.Named.{AddsFirst, IsFirstLine};
ghost use Rattle.drivers.specs.Script.{AddsLine, ReadsScript, kept_in, stop_at, with_line};

use crate::line::{Line, line_of};
use crate::named::named_order;
use crate::seeking::{count_of, first_place};
use std::alloc::{AllocError, Global};
use volume_model::Fault;
use world::Order;

/// The most bytes of a script.
const SCRIPT_BYTES: usize = 16_777_216;

/// The most lines of a script.
const SCRIPT_LINES: usize = 100_000;

/// A line that does something. There may be many.
#[derive(Clone, Copy)]
pub struct Step {
    /// The line's number, from 1.
    pub line: u32,
    /// Whether it has an event. A `wait` has none.
    pub has_event: bool,
}

const _: () = prove!(size_of::<Step>() <= 8);

/// A script: its lines and its orders.
#[derive(Drop)]
pub struct Script {
    /// The lines that do something, in order.
    pub steps: Vec<Step>,
    /// The orders of the lines that have one, in order.
    pub orders: Vec<Order>,
}

/// Why a script can't be run.
#[derive(Clone, Copy, Debug, PartialEq, Eq)]
pub enum ScriptFault {
    /// The line with this number, from 1, is bad.
    Line(usize),
    /// Memory ran out.
    NoMemory,
}

impl From<AllocError> for ScriptFault {
    ghost use Rattle.drivers.specs.declared.reading.ScriptFault.TheVariants.{NoMemory};

    ghost from_gives = { λ _ e. e ≡ NoMemory };

    fn from(_e: AllocError) -> Self {
        ScriptFault::NoMemory
    }
}

/// Returns the index of the next event. Reports an index that doesn't fit an order as out of memory.
fn index_of(events: usize) -> Result<u32, AllocError>
    ensures { IfOk result (λ index. index ≡ events) }
{
    if events > u32::MAX as usize {
        return Err(AllocError);
    }
    Ok(events as u32)
}

/// Adds a line with an event. `events` has the index of each earlier line's event.
#[inline(always)]
fn keep_order(
    script: &mut Script,
    events: &mut Vec<Option<u32>>,
    order: Order,
) -> Result<(), AllocError>
    requires { vec_len events.old < SCRIPT_LINES }
    ensures { OnOk result (kept_in script.new events.new.items ≡ with_line (kept_in script.old events.old.items)
        (Seen.Asks (asked_by order))) }
{
    let line = events.len() as u32 + 1;
    events.push(Some(index_of(script.orders.len())?))?;
    script.orders.push(order)?;
    script.steps.push(Step {
        line,
        has_event: true,
    })?;
    Ok(())
}

/// Adds a line. `events` has the index of each earlier line's event.
fn keep(script: &mut Script, events: &mut Vec<Option<u32>>, line: Line) -> Result<(), AllocError>
    requires { vec_len events.old < SCRIPT_LINES }
    ensures { OnOk result (kept_in script.new events.new.items ≡ with_line (kept_in script.old events.old.items)
        (seen line)) }
{
    match line {
        Line::Empty => events.push(None)?,
        Line::Wait => {
            let line = events.len() as u32 + 1;
            events.push(None)?;
            script.steps.push(Step {
                line,
                has_event: false,
            })?;
        }
        Line::Order(order) => keep_order(script, events, order)?,
    }
    Ok(())
}

fn is_utf8(bytes: &[u8]) -> bool
    ensures { IsTrue result ↔ IsUtf8 bytes.now }
{
    str::from_utf8(bytes).is_ok()
}

/// Adds a line. Out of line, since most lines take the fast path.
#[inline(never)]
fn add_line(
    alloc: Global,
    script: &mut Script,
    events: &mut Vec<Option<u32>>,
    line: &[u8],
) -> Result<(), Fault>
    requires { vec_len events.old < SCRIPT_LINES }
    ensures { AddsLine line.now (kept_in script.old events.old.items) result (kept_in script.new events.new.items) }
{
    if !is_utf8(line) {
        return Err(Fault::Malformed);
    }
    match line_of(alloc, line, events.as_slice()) {
        Ok(line) => {
            keep(script, events, line)?;
            Ok(())
        }
        Err(fault) => Err(fault),
    }
}

/// Returns the first line of a text without its newline, and the text after it.
pub fn first_line(text: &[u8]) -> (&[u8], &[u8])
    ensures { 0 < length text.now → IsFirstLine text.now result.0.now result.1.now }
{
    match first_place(text, b'\n') {
        Some(end) => (&text[..end], &text[end + 1..]),
        None => (text, &[]),
    }
}

/// Adds the first line of a text. Returns the text after it.
#[inline(always)]
fn add_first<'a>(
    alloc: Global,
    script: &mut Script,
    events: &mut Vec<Option<u32>>,
    text: &'a [u8],
) -> Result<&'a [u8], Fault>
    requires some { 0 < length text.now }
    requires few { vec_len events.old < SCRIPT_LINES }
    ensures { AddsFirst text.now (kept_in script.old events.old.items) result (kept_in script.new events.new.items) }
{
    if let Some((order, after)) = named_order(text, events.as_slice()) {
        keep_order(script, events, order)?;
        return Ok(after);
    }
    let (line, after) = first_line(text);
    match add_line(alloc, script, events, line) {
        Ok(()) => Ok(after),
        Err(fault) => Err(fault),
    }
}

/// Returns why a script can't be run if the line with this number was refused.
fn stop_at(fault: Fault, line: usize) -> ScriptFault
    ensures { result ≡ stop_at fault line }
{
    match fault {
        Fault::NoMemory => ScriptFault::NoMemory,
        _ => ScriptFault::Line(line),
    }
}

/// Reads a script: at most 100,000 lines in 16,777,216 bytes, each of them UTF-8.
///
/// # Errors
/// The number of the first bad line; or `NoMemory` if memory runs out, possibly before a bad line.
pub fn read_script(alloc: Global, text: &[u8]) -> Result<Script, ScriptFault>
    ensures { ReadsScript text.now result }
{
    // One more than there are newlines, and at most as many as a script may have.
    let lines = (count_of(text, b'\n') + 1).min(SCRIPT_LINES);
    let mut script = Script {
        steps: Vec::with_capacity(alloc, lines)?,
        orders: Vec::with_capacity(alloc, lines)?,
    };
    let mut events = Vec::with_capacity(alloc, lines)?;
    let mut room = SCRIPT_BYTES;
    let mut rest = text;
    while !rest.is_empty() {
        let number = events.len() + 1;
        if number > SCRIPT_LINES {
            return Err(ScriptFault::Line(number));
        }
        let after = match add_first(alloc, &mut script, &mut events, rest) {
            Ok(after) => after,
            Err(fault) => return Err(stop_at(fault, number)),
        };
        let bytes = rest.len() - after.len();
        if bytes > room {
            return Err(ScriptFault::Line(number));
        }
        room -= bytes;
        rest = after;
    }
    Ok(script)
}
