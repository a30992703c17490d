//! A gate that records the answers of nodes.

use node_fleet::StepGate;
use std::sync::atomic::{AtomicBool, AtomicU64, Ordering};
use wire::{Message, Messages};

/// What a gate has seen.
#[derive(Clone, Copy)]
pub struct Seen {
    /// The number of calls.
    pub calls: u64,
    /// The number of messages of all calls.
    pub messages: u64,
    /// The member and the complete point of the last acknowledgement that was the only answer.
    pub ack: (u64, u64),
    /// Whether the last page that was the only answer begins with these bytes: `abc` and a 0.
    pub page: bool,
}

/// A gate that records what it sees.
#[derive(Drop)]
pub struct Look {
    page: AtomicBool,
    calls: AtomicU64,
    messages: AtomicU64,
    from: AtomicU64,
    scl: AtomicU64,
}

impl Look {
    /// Makes a gate that has seen nothing.
    pub fn new() -> Look {
        Look {
            page: AtomicBool::new(false),
            calls: AtomicU64::new(0),
            messages: AtomicU64::new(0),
            from: AtomicU64::new(0),
            scl: AtomicU64::new(0),
        }
    }

    /// Returns what it has seen so far.
    pub fn seen(&self) -> Seen {
        Seen {
            calls: self.calls.load(Ordering::SeqCst),
            messages: self.messages.load(Ordering::SeqCst),
            ack: (
                self.from.load(Ordering::SeqCst),
                self.scl.load(Ordering::SeqCst),
            ),
            page: self.page.load(Ordering::SeqCst),
        }
    }
}

impl StepGate for Look {
    fn prepared(&self, answers: &Messages) {
        self.calls.fetch_add(1, Ordering::SeqCst);
        self.messages
            .fetch_add(answers.len() as u64, Ordering::SeqCst);
        match answers {
            Messages::One(Message::Page(page)) => {
                let begins = page.image.bytes.as_slice().starts_with(b"abc\0");
                self.page.store(begins, Ordering::SeqCst);
            }
            Messages::One(Message::Ack(ack)) => {
                self.from.store(u64::from(ack.from), Ordering::SeqCst);
                self.scl.store(ack.scl, Ordering::SeqCst);
            }
            _ => {}
        }
    }
}
