//! The text of a script under construction, and the messages that it may name.

use std::alloc::{AllocError, Global};

/// The receiver of a message.
#[derive(Clone, Copy)]
pub enum Receiver {
    /// The nodes of a group.
    Nodes(u8),
    /// The client of a volume epoch.
    Client(u32),
}

/// A line, and the place of a message among those that it may have made, from 1.
pub type Named = (u64, u64);

/// A message that a line may have made.
#[derive(Clone, Copy)]
pub struct Message {
    pub named: Named,
    pub to: Receiver,
}

/// A message to deliver to a node.
#[derive(Clone, Copy, PartialEq, Eq)]
pub struct Delivery {
    pub named: Named,
    pub group: u8,
    pub member: u8,
}

impl Delivery {
    /// Returns the delivery of a message to a group's member.
    pub fn new(named: Named, group: u8, member: u8) -> Delivery {
        Delivery {
            named,
            group,
            member,
        }
    }
}

/// A line that issues a transaction.
#[derive(Clone, Copy)]
pub struct Issue {
    pub line: u64,
    pub client: u32,
    pub changes: u64,
}

/// A script, and the messages that its lines may have made. Once memory runs out, what is written is of no use.
#[derive(Drop)]
pub struct Written {
    pub text: String,
    /// Whether memory ran out.
    pub failed: bool,
    /// The number of lines.
    pub lines: u64,
    /// The transactions that it issues.
    pub issues: Vec<Issue>,
    pub messages: Vec<Message>,
    /// The lines that delivered a message to a node, and these deliveries.
    deliveries: Vec<(u64, Delivery)>,
}

/// Adds an item to a list. Notes if memory ran out.
pub fn keep<T: Copy>(failed: &mut bool, list: &mut Vec<T>, item: T) {
    if list.push(item).is_err() {
        *failed = true;
    }
}

impl Written {
    /// Returns an empty script.
    pub fn new(alloc: Global) -> Written {
        Written {
            text: String::new(alloc),
            failed: false,
            lines: 0,
            issues: Vec::new(alloc),
            messages: Vec::new(alloc),
            deliveries: Vec::new(alloc),
        }
    }

    /// Returns the script, or that memory ran out.
    pub fn finished(self) -> Result<Written, AllocError> {
        match self.failed {
            true => Err(AllocError),
            false => Ok(self),
        }
    }

    /// Adds a piece of a line.
    pub fn add(&mut self, piece: &str) {
        if self.text.push_str(piece).is_err() {
            self.failed = true;
        }
    }

    /// Adds a number in decimal digits.
    pub fn add_number(&mut self, number: u64) {
        if write!(self.text, "{number}").is_err() {
            self.failed = true;
        }
    }

    /// Adds a byte as two hexadecimal digits.
    pub fn add_byte(&mut self, byte: u8) {
        if write!(self.text, "{byte:02x}").is_err() {
            self.failed = true;
        }
    }

    /// Ends the last line of the text. Returns its number.
    pub fn end(&mut self) -> u64 {
        self.add("\n");
        self.lines = self.lines.saturating_add(1);
        self.lines
    }

    /// Begins a line with a word and numbers.
    pub fn begin(&mut self, word: &str, numbers: &[u64]) {
        self.add(word);
        for number in numbers.iter() {
            self.add(" ");
            self.add_number(*number);
        }
    }

    /// Adds a line of a word and numbers. Returns its number.
    pub fn put(&mut self, word: &str, numbers: &[u64]) -> u64 {
        self.begin(word, numbers);
        self.end()
    }

    /// Ends a line that names a message. Returns its number.
    fn end_with(&mut self, (line, place): Named) -> u64 {
        self.add(" ");
        self.add_number(line);
        self.add(".");
        self.add_number(place);
        self.end()
    }

    /// Notes a message that a line may have made.
    pub fn note(&mut self, line: u64, place: u64, to: Receiver) {
        let named = (line, place);
        keep(&mut self.failed, &mut self.messages, Message { named, to });
    }

    /// Notes a transaction that a line issues.
    pub fn note_issue(&mut self, line: u64, client: u32, changes: u64) {
        let issue = Issue {
            line,
            client,
            changes,
        };
        keep(&mut self.failed, &mut self.issues, issue);
    }

    /// Notes a message for each of this many groups.
    pub fn note_each(&mut self, line: u64, groups: u8) {
        for group in 0..groups {
            let place = u64::from(group).saturating_add(1);
            self.note(line, place, Receiver::Nodes(group));
        }
    }

    /// Delivers a message to a node, and notes its answer for this receiver.
    pub fn deliver(&mut self, delivery: Delivery, answer: Receiver) -> u64 {
        let node = [u64::from(delivery.group), u64::from(delivery.member)];
        self.begin("deliver", &node);
        let line = self.end_with(delivery.named);
        self.note(line, 1, answer);
        keep(&mut self.failed, &mut self.deliveries, (line, delivery));
        line
    }

    /// Returns the line that first delivered a message to a node.
    pub fn first_delivery(&self, delivery: Delivery) -> Option<u64> {
        let (line, _) = self.deliveries.iter().find(|(_, d)| *d == delivery)?;
        Some(*line)
    }

    /// Lets a client take a message.
    pub fn take(&mut self, client: u32, line: u64, place: u64) -> u64 {
        self.begin("take", &[u64::from(client)]);
        self.end_with((line, place))
    }

    /// Adds a line with a word and a client.
    pub fn of_client(&mut self, word: &str, client: u32) -> u64 {
        self.put(word, &[u64::from(client)])
    }

    /// Adds a line with a word, a group and a member.
    pub fn of_node(&mut self, word: &str, group: u8, member: u8) -> u64 {
        self.put(word, &[u64::from(group), u64::from(member)])
    }
}
