//! Laws of the messages that a node logs, and of dropped answers.

ghost use Rattle.volume_c.specs.Replay.{LastAckSuffices, ReplayReaches};

/// Proves that a segment that is resumed from a snapshot takes each message that was logged since, and reaches the
/// state of the segment that logged them. Refused messages aren't logged, and the messages of a frame are taken like
/// single ones.
pub fn replay_reaches()
    ensures { ReplayReaches }
{}

/// Proves that the last of several acknowledgements of one segment with one label has the same effect on a client as
/// all of them, if no earlier one has a greater complete point. So the answers of `volume_segment_take_frame` have the
/// same effect as the answers to the single messages.
pub fn last_ack_suffices()
    ensures { LastAckSuffices }
{}
