//! Calls of any handle.

ghost use Rattle.std.specs.Prelude.{◌≡◌, ◌≢◌, None, Some, take, length};
ghost use Rattle.volume_c.specs.Given.{Hands};

use crate::actor::Held;
use crate::buffer::copy_out;
use crate::handle::Handle;
use crate::names::name;
use crate::status::WRONG_HANDLE;
use std::alloc::Global;

/// Hands out the next message of what is held.
fn hand_out(alloc: Global, held: &mut Held, out: &mut [u8], needed: &mut usize) -> u8
    ensures { Hands result (Some held.old) (Some held.new) needed.new out.old out.new }
{
    held.outbox.hand_out(alloc, out, needed)
}

/// Writes the next message that the actor made to `out`, and drops it. Each message is handed out once, in the order
/// in which the actor made them. Send it to the nodes of its group, or to the client of its label, as its kind says.
///
/// `needed` is the message's length. Returns 92 where `out` is shorter, and the message stays; 93 where there is none.
#[unsafe(no_mangle)]
pub extern "C" fn volume_next_message(
    alloc: Global,
    handle: &mut Handle,
    out: &mut [u8],
    needed: &mut usize,
) -> u8
    ensures { Hands result handle.old.seal.held handle.new.seal.held needed.new out.old out.new }
{
    *needed = 0;
    let Some(mut held) = handle.take(alloc) else {
        return WRONG_HANDLE;
    };
    let status = hand_out(alloc, &mut held, out, needed);
    handle.put(held);
    status
}

/// Writes the name of a number that a call returned, as docs/FAULTS.md has it, to `out`; nothing for other numbers.
/// `needed` is the name's length; returns 92 where `out` is shorter.
#[unsafe(no_mangle)]
pub extern "C" fn volume_fault_name(number: u8, out: &mut [u8], needed: &mut usize) -> u8
    ensures { result ≢ 0 → out.new ≡ out.old }
{
    copy_out(name(number).as_bytes(), out, needed)
}

/// Frees what the handle holds, and leaves it empty. Does nothing to an empty handle.
#[unsafe(no_mangle)]
pub extern "C" fn volume_close(alloc: Global, handle: &mut Handle)
    ensures { handle.new.seal.held ≡ None }
{
    let _ = handle.take(alloc);
}
