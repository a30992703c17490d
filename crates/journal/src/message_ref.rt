//! References to messages of the journal.

ghost use Rattle.std.specs.Prelude.{◌≡◌, ◌+◌, ◌<◌, length, slice_get, Some};
ghost use Rattle.std.proofs.Props.{props};
ghost use Rattle.std.specs.Coded.{Coded-set};
ghost use Rattle.atomic_table.specs.Seated.{table_id_coded};
ghost use Rattle.journal.specs.Fronts.{front_book, front_log};
ghost use Rattle.wire.specs.Common.{listed, message_of};

use crate::entry::Entry;
use crate::history::LogPrefix;
use crate::row::Site;
use std::marker::PhantomData;
use wire::Message;

/// A reference to a message of the journal: its entry, and its place among the entry's messages.
#[derive(Drop)]
pub struct MessageRef<'a, L: Site> {
    pub(crate) number: u64,
    pub(crate) cell: usize,
    pub(crate) index: usize,
    pub(crate) entry: &'a Entry,
    pub(crate) seen: LogPrefix,
    pub(crate) site: PhantomData<L>,
    ghost history: { front_book seen ≡ L.history } by { Coded-set table_id_coded (front_book seen) L.history },
    ghost is: { slice_get (front_log seen) cell ≡ Some entry.now } by { Prim.hlevel props },
    ghost inside: { index < length (listed entry.now.made) },
    ghost number_is: { number ≡ entry.now.first + index + 1 },
}

impl<'a, L: Site> MessageRef<'a, L> {
    ghost use Rattle.journal.specs.Passes.{message_ref_message, message_ref_number};

    /// Returns the message's number. Messages are numbered from 1 in the order in which they were made.
    pub fn number(&self) -> u64
        ensures { result ≡ message_ref_number self.now }
    {
        self.number
    }

    /// Returns the message.
    pub fn message(&self) -> &'a Message
        ensures { message_ref_message self.now ≡ Some (message_of result.now) }
    {
        let entry = self.entry;
        entry.made.at(self.index)
    }
}
