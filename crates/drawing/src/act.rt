//! What the lines of a script do, and the messages that they make.

use crate::actor::Actor;
use std::alloc::AllocError;
use world::Event;

/// A kind of message.
#[derive(Clone, Copy, Debug)]
pub(crate) enum Kind {
    View,
    StepTo,
    Fence,
    Report,
    Install,
    Write,
    Gossip,
    Ack,
    CopyAsk,
    CopyReport,
    PageAsk,
    Page,
}

impl Kind {
    /// Returns the class of the arrows of such messages.
    pub fn class(self) -> &'static str {
        match self {
            Kind::Write | Kind::Gossip | Kind::Ack => "log",
            Kind::Fence | Kind::Report | Kind::Install => "recovery",
            Kind::View | Kind::StepTo | Kind::CopyAsk | Kind::CopyReport => "step",
            Kind::PageAsk | Kind::Page => "page",
        }
    }

    /// Returns the kind of the messages that the receiver of such a message makes. `has_cut` says whether it is a
    /// client that knows its log.
    fn answer(self, has_cut: bool) -> Kind {
        match self {
            Kind::View if has_cut => Kind::Install,
            Kind::View => Kind::Fence,
            Kind::Fence => Kind::Report,
            Kind::StepTo => Kind::CopyAsk,
            Kind::CopyAsk => Kind::CopyReport,
            Kind::PageAsk => Kind::Page,
            _ => Kind::Ack,
        }
    }
}

/// A message that was made.
#[derive(Clone, Copy)]
pub(crate) struct Sent {
    /// Its maker.
    pub from: Actor,
    /// Its kind.
    pub kind: Kind,
    /// The LSN of its record, 0 if it has none.
    pub lsn: u64,
    /// Its place among the messages that the same line made, from 1.
    pub place: u64,
    /// The number of those messages.
    pub made: u64,
}

/// What a line of a script does.
#[derive(Clone, Copy)]
pub(crate) enum Act {
    /// Delivers a message, if it was made.
    Takes(Option<Sent>),
    /// Assigns a volume epoch.
    Assign,
    /// Advances a group to a configuration.
    Advance(u8, u32),
    /// Makes a View for a client.
    Refresh(u32),
    /// Lets a group join.
    Grow,
    /// Makes the records of this many changes, from an LSN on.
    Issue(u64, usize),
    /// Finds the log: its cut and the start, if it was found.
    Cut(Option<(u64, u64)>),
    /// Turns a recovery into a writer.
    Open,
    /// Sends the record with an LSN again.
    Resend(u64),
    /// Requests a block of a group.
    Read(u8, u32),
    /// Makes a node whole.
    Hydrate,
    /// Restarts a node.
    Restart,
    /// Offers the record with an LSN to the others of the group.
    Offer(u64),
}

impl Act {
    /// Returns the kind and the first LSN (0: none) of the messages that the act makes.
    pub fn makes(self, has_cut: bool) -> (Kind, u64) {
        match self {
            Act::Assign | Act::Refresh(_) => (Kind::View, 0),
            Act::Advance(..) => (Kind::StepTo, 0),
            Act::Issue(first, _) => (Kind::Write, first),
            Act::Resend(lsn) => (Kind::Write, lsn),
            Act::Offer(lsn) => (Kind::Gossip, lsn),
            Act::Read(..) => (Kind::PageAsk, 0),
            Act::Cut(_) => (Kind::Install, 0),
            Act::Takes(Some(sent)) => (sent.kind.answer(has_cut), 0),
            _ => (Kind::Ack, 0),
        }
    }

    /// Returns the class of what is drawn of the act.
    pub fn class(self) -> &'static str {
        match self {
            Act::Takes(Some(sent)) => sent.kind.class(),
            Act::Issue(..) | Act::Resend(_) | Act::Offer(_) => "log",
            Act::Cut(_) | Act::Open => "recovery",
            Act::Read(..) => "page",
            _ => "step",
        }
    }
}

/// Returns the actor of an event, what it does, and the number of the message that it names, 0 if it names none. What
/// depends on the run is missing.
pub(crate) fn event_act(event: &Event) -> (Actor, Act, u64) {
    let takes = Act::Takes(None);
    let (actor, act) = match event {
        Event::Assign => (Actor::Authority, Act::Assign),
        Event::Advance {
            group,
            configuration,
        } => (Actor::Authority, Act::Advance(*group, *configuration)),
        Event::Refresh { volume } => (Actor::Authority, Act::Refresh(*volume)),
        Event::Grow => (Actor::Authority, Act::Grow),
        Event::Issue { volume, changes } => (Actor::Client(*volume), Act::Issue(0, changes.len())),
        Event::Cut { volume } => (Actor::Client(*volume), Act::Cut(None)),
        Event::Open { volume } => (Actor::Client(*volume), Act::Open),
        Event::Resend { volume, lsn } => (Actor::Client(*volume), Act::Resend(*lsn)),
        Event::Read {
            volume,
            group,
            block,
        } => (Actor::Client(*volume), Act::Read(*group, *block)),
        Event::Hydrate { group, member } => (Actor::Node(*group, *member), Act::Hydrate),
        Event::Restart { group, member } => (Actor::Node(*group, *member), Act::Restart),
        Event::Offer { group, member, lsn } => (Actor::Node(*group, *member), Act::Offer(*lsn)),
        Event::Take { volume, message } => return (Actor::Client(*volume), takes, *message),
        Event::Deliver {
            group,
            member,
            message,
        } => return (Actor::Node(*group, *member), takes, *message),
    };
    (actor, act, 0)
}

/// Appends a message in words.
fn add_sent(svg: &mut String, sent: Sent) -> Result<(), AllocError> {
    let (kind, lsn, place, made) = (sent.kind, sent.lsn, sent.place, sent.made);
    if lsn > 0 {
        write!(svg, "{kind:?} {lsn}")
    } else if made > 1 {
        write!(svg, "{kind:?} {place} of {made}")
    } else {
        write!(svg, "{kind:?}")
    }
}

/// Appends an act in words.
pub(crate) fn add_act(svg: &mut String, act: Act) -> Result<(), AllocError> {
    match act {
        Act::Takes(Some(sent)) => add_sent(svg, sent),
        Act::Takes(None) => svg.push_str("no message"),
        Act::Assign => svg.push_str("assign"),
        Act::Advance(group, number) => write!(
            svg,
            "advance group {group} to configuration {number}"
        ),
        Act::Refresh(volume) => write!(svg, "refresh {volume}"),
        Act::Grow => svg.push_str("grow"),
        Act::Issue(0, _) => svg.push_str("issue"),
        Act::Issue(first, 0..=1) => write!(svg, "issue LSN {first}"),
        Act::Issue(first, count) => {
            let last = first.saturating_add(count as u64).saturating_sub(1);
            write!(svg, "issue LSN {first} to {last}")
        }
        Act::Cut(Some((cut, start))) => write!(svg, "cut {cut}, start {start}"),
        Act::Cut(None) => svg.push_str("cut"),
        Act::Open => svg.push_str("open"),
        Act::Resend(lsn) => write!(svg, "resend LSN {lsn}"),
        Act::Read(group, block) => write!(svg, "read block {block} of group {group}"),
        Act::Hydrate => svg.push_str("hydrate"),
        Act::Restart => svg.push_str("restart"),
        Act::Offer(lsn) => write!(svg, "offer LSN {lsn}"),
    }
}
