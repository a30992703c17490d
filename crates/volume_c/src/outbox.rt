//! The messages that an actor made, until the engine takes them.

use crate::status::{NO_MORE, TOO_SMALL};
use message_bytes::encode_to_slice;
use std::alloc::Global;
use std::mem::replace;
use wire::{Message, Messages};

/// The messages of an actor's last step, of which the first `next` were taken.
#[derive(Drop)]
pub struct Outbox {
    messages: Messages,
    next: usize,
    /// The bytes of the last message that has lists. The next one is encoded into the same memory.
    bytes: Vec<u8>,
}

/// Frees a list of messages. Out of line, so that a call that hands out a message saves fewer registers.
#[inline(never)]
fn free_list(list: Vec<Message>) {
    let _ = list;
}

impl Outbox {
    ghost use Rattle.std.specs.Prelude.{◌≡◌, ◌≢◌, ◌<◌, [], true, drop, length, take};
    ghost use Rattle.wire.specs.Common.{listed};
    ghost use Rattle.volume_c.specs.Outbox.{left_in, WritesFirst};

    /// Returns an outbox of these messages.
    pub fn of(alloc: Global, messages: Messages) -> Outbox
        ensures { left_in result ≡ listed messages }
    {
        Outbox {
            messages,
            next: 0,
            bytes: Vec::new(alloc),
        }
    }

    /// Replaces the messages.
    #[inline(always)]
    pub fn fill(&mut self, messages: Messages)
        ensures { left_in self.new ≡ listed messages }
    {
        self.messages = messages;
        self.next = 0;
    }

    /// Returns whether all messages were taken.
    pub fn is_empty(&self) -> bool
        ensures { result ≡ true → left_in self.now ≡ [] }
    {
        if self.next >= self.messages.len() {
            return true;
        }
        false
    }

    /// Writes the bytes of the first message that wasn't taken to `out`. Returns a status, and sets `needed` to the
    /// number of bytes if there is such a message.
    fn write_first(&mut self, alloc: Global, out: &mut [u8], needed: &mut usize) -> u8
        requires { self.old.next < length (listed self.old.messages) }
        ensures first { result ≡ 0 → WritesFirst (left_in self.old) (take needed.new out.new) }
        ensures same { (self.new.messages ≡ self.old.messages) × (self.new.next ≡ self.old.next) }
        ensures unchanged { result ≢ 0 → out.new ≡ out.old }
    {
        let message = self.messages.at(self.next);
        let fits = match encode_to_slice(alloc, &mut self.bytes, out, needed, message) {
            Ok(fits) => fits,
            Err(fault) => return fault.number(),
        };
        if fits { 0 } else { TOO_SMALL }
    }

    /// Frees the messages, of which the last was taken.
    fn free(&mut self)
        ensures { left_in self.new ≡ [] }
    {
        self.next = 0;
        if let Messages::Many(list) = replace(&mut self.messages, Messages::Empty) {
            free_list(list);
        }
    }

    /// Drops the first message that wasn't taken, of `count` messages. The memory of all is freed with the last one.
    fn pass(&mut self, count: usize)
        requires count { count ≡ length (listed self.old.messages) }
        requires some { self.old.next < count }
        ensures { left_in self.new ≡ drop 1 (left_in self.old) }
    {
        if count - self.next > 1 {
            self.next += 1;
            return;
        }
        self.free();
    }

    /// Hands out the first message that wasn't taken: writes its bytes to `out` and drops it. Returns a status, and
    /// sets `needed` to the number of bytes if there is such a message.
    pub fn hand_out(&mut self, alloc: Global, out: &mut [u8], needed: &mut usize) -> u8
        ensures first { result ≡ 0 → WritesFirst (left_in self.old) (take needed.new out.new) }
        ensures passed { result ≡ 0 → left_in self.new ≡ drop 1 (left_in self.old) }
        ensures left { result ≢ 0 → left_in self.new ≡ left_in self.old }
        ensures unchanged { result ≢ 0 → out.new ≡ out.old }
    {
        let count = self.messages.len();
        if self.next >= count {
            return NO_MORE;
        }
        let status = self.write_first(alloc, out, needed);
        if status != 0 {
            return status;
        }
        self.pass(count);
        0
    }
}
