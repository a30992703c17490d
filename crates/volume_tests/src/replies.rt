//! Answers of the authority and of clients.

use wire::Message;

/// An answer of the authority or a client, in short.
#[derive(Clone, Copy, PartialEq, Eq)]
pub enum Reply {
    /// It is so, or the call may be made or was made.
    Yes,
    /// It isn't so.
    No,
    /// The number of messages or of what was asked for.
    Count(usize),
    /// An LSN.
    Point(u64),
    /// A step of a group: its configuration and the membership epoch.
    Step(u8, u8, u32),
    /// A View: its volume epoch, the number of its groups, and the configuration and the membership epoch of the first.
    View(u32, usize, u8, u32),
    /// A single Install of a group.
    Install(u8),
    /// A record of a log: its LSN, and the one before it in the volume.
    Record(u64, u64),
    /// The result of a cut: the cut, the start, and the number of records.
    Found(u64, u64, usize),
    /// The client is a recovery.
    Recovers,
    /// The client is a writer.
    Writes,
}

/// Returns a message in short: a step, a View, an Install, the record of a Write, or the point of a PageAsk.
pub fn reply_of(message: &Message) -> Reply {
    match message {
        Message::StepTo(step) => {
            Reply::Step(step.group, step.place.configuration, step.place.epoch)
        }
        Message::View(view) => match view.places.as_slice() {
            [first, ..] => Reply::View(
                view.volume,
                view.places.len(),
                first.configuration,
                first.epoch,
            ),
            [] => Reply::No,
        },
        Message::Install(install) => Reply::Install(install.group),
        Message::Write(write) => Reply::Record(
            write.packet.lsn(),
            write.packet.record().prev_volume,
        ),
        Message::PageAsk(ask) => Reply::Point(ask.point),
        _ => Reply::No,
    }
}
