//! Checks which client a message is for.

ghost use Rattle.std.specs.Prelude.{◌≡◌, true, false, MatchResult};
ghost use Rattle.volume_model.specs.declared.fault.Fault.TheVariants.{NotAddressed};
ghost use Rattle.volume_model.specs.Common.{is_for};
ghost use Rattle.wire.specs.Common.{message_of};

use volume_model::Fault;
use wire::Message;

/// Checks that a message is for the client of a volume epoch, which has `groups` groups: a View of its volume epoch, or
/// a report, an acknowledgement or a page for it. `NotAddressed` if it isn't.
pub fn addressed(volume: u32, groups: u8, message: &Message) -> Result<(), Fault>
    ensures { MatchResult result (λ _. is_for volume groups (message_of message.now) ≡ true)
        (λ fault. (is_for volume groups (message_of message.now) ≡ false) × (fault ≡ NotAddressed)) }
{
    let is_for = match message {
        Message::View(view) => view.volume == volume,
        Message::Report(report) => report.is_to(volume, groups),
        Message::Ack(ack) => ack.is_to(volume, groups),
        Message::Page(page) => page.is_to(volume, groups),
        _ => false,
    };
    if is_for {
        Ok(())
    } else {
        Err(Fault::NotAddressed)
    }
}
