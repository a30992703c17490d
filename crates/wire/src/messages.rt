//! The messages that one step made.

ghost use Rattle.std.specs.Prelude.{◌≡◌, ◌+◌, ◌++◌, ◌<◌, ◌≤◌, length, slice_get, Some, vec_capacity, vec_len};
ghost use Rattle.wire.specs.Listed.{listed};

use crate::message::Message;

/// The messages of one step, in order. No message and one message need no list.
#[derive(Drop)]
pub enum Messages {
    /// No message.
    Empty,
    /// One message.
    One(Message),
    /// A list of messages.
    Many(Vec<Message>),
}

impl Messages {
    /// Returns the messages of a list.
    pub fn of(list: Vec<Message>) -> Messages
        ensures { listed result ≡ list.items }
    {
        if list.len() > 1 {
            return Messages::Many(list);
        }
        let mut list = list;
        match list.pop() {
            Some(message) => Messages::One(message),
            None => Messages::Empty,
        }
    }

    /// Returns the number of messages.
    pub fn len(&self) -> usize
        ensures { result ≡ length (listed self.now) }
    {
        match self {
            Messages::Empty => 0,
            Messages::One(_) => 1,
            Messages::Many(list) => list.len(),
        }
    }

    /// Returns the message at an index.
    pub fn at(&self, index: usize) -> &Message
        requires { index < length (listed self.now) }
        ensures { slice_get (listed self.now) index ≡ Some result.now }
    {
        match self {
            Messages::Empty => unreachable!(),
            Messages::One(message) => message,
            Messages::Many(list) => &list[index],
        }
    }

    /// Appends the messages to a list that has room for them.
    #[inline(always)]
    pub fn append_to(self, messages: &mut Vec<Message>)
        requires { vec_len messages.old + length (listed self) ≤ vec_capacity messages.old }
        ensures { messages.new.items ≡ messages.old.items ++ listed self }
    {
        match self {
            Messages::Empty => {}
            Messages::One(message) => messages.push_reserved(message),
            Messages::Many(mut list) => messages.append(&mut list).unwrap(),
        }
    }
}
