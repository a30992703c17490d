//! Decodes the fields of each kind of message.

ghost use Rattle.std.specs.Prelude.{◌≤◌, IfOk};
ghost use Rattle.volume_model.specs.Common.{Gives};
ghost use Rattle.wire.specs.Common.{message_of};
ghost use Rattle.message_bytes.specs.Reading.{volume_at, view_at, step_at, fence_at, report_at, install_at, write_at, gossip_at, ack_at, copy_ask_at, copy_report_at, page_ask_at, page_at};

use crate::contents::{packet_of, read_contents};
use crate::numbers::{read_image, u8_at, u16_at, u32_at, u64_at};
use crate::places::{labelled, read_place, read_places};
use std::alloc::Global;
use std::sync::Arc;
use volume_model::Fault;
use wire::{
    Ack, CopyAsk, CopyPart, CopyReport, Fence, Gossip, Image, Install, Message, Page, PageAsk,
    Report, StepTo, View, Write,
};

#[tactic(auto, unfolding(crate::specs::Reading::volume_at))]
fn read_volume(bytes: &[u8]) -> Result<(u32, &[u8]), Fault>
    ensures reads { Gives (λ x. (x.0, x.1.now)) result (volume_at bytes.now) }
    ensures assigned { IfOk result (λ x. 1 ≤ x.0) }
{
    let (volume, rest) = u32_at(bytes)?;
    if volume == 0 {
        return Err(Fault::BadField);
    }
    Ok((volume, rest))
}

/// Reads a `View` from the bytes after a message's kind. Returns it with the bytes left.
#[tactic(auto, unfolding(crate::specs::Reading::view_at))]
pub fn view_of(alloc: Global, bytes: &[u8]) -> Result<(Message, &[u8]), Fault>
    ensures { Gives (λ x. (message_of x.0, x.1.now)) result (view_at bytes.now) }
{
    let (volume, rest) = read_volume(bytes)?;
    let (count, rest) = u32_at(rest)?;
    let (places, rest) = read_places(alloc, count, rest)?;
    let view = View {
        volume,
        places: Box::new(alloc, places)?,
    };
    Ok((Message::View(view), rest))
}

/// Reads a `StepTo` from the bytes after a message's kind. Returns it with the bytes left.
#[tactic(auto, unfolding(crate::specs::Reading::step_at))]
pub fn step_of(bytes: &[u8]) -> Result<(Message, &[u8]), Fault>
    ensures { Gives (λ x. (message_of x.0, x.1.now)) result (step_at bytes.now) }
{
    let (group, rest) = u8_at(bytes)?;
    let (place, rest) = read_place(rest)?;
    Ok((Message::StepTo(StepTo { group, place }), rest))
}

/// Reads a `Fence` from the bytes after a message's kind. Returns it with the bytes left.
#[tactic(auto, unfolding(crate::specs::Reading::fence_at))]
pub fn fence_of(bytes: &[u8]) -> Result<(Message, &[u8]), Fault>
    ensures { Gives (λ x. (message_of x.0, x.1.now)) result (fence_at bytes.now) }
{
    let (group, label, rest) = labelled(bytes)?;
    Ok((Message::Fence(Fence { group, label }), rest))
}

/// Reads a `Report` from the bytes after a message's kind. Returns it with the bytes left.
#[tactic(auto, unfolding(crate::specs::Reading::report_at))]
pub fn report_of(alloc: Global, bytes: &[u8]) -> Result<(Message, &[u8]), Fault>
    ensures { Gives (λ x. (message_of x.0, x.1.now)) result (report_at bytes.now) }
{
    let (group, label, rest) = labelled(bytes)?;
    let (from, rest) = u8_at(rest)?;
    let (contents, rest) = read_contents(alloc, rest)?;
    let report = Report {
        group,
        label,
        from,
        contents: Arc::new(alloc, contents)?,
    };
    Ok((Message::Report(report), rest))
}

/// Reads an `Install` from the bytes after a message's kind. Returns it with the bytes left.
#[tactic(auto, unfolding(crate::specs::Reading::install_at))]
pub fn install_of(alloc: Global, bytes: &[u8]) -> Result<(Message, &[u8]), Fault>
    ensures { Gives (λ x. (message_of x.0, x.1.now)) result (install_at bytes.now) }
{
    let (group, label, rest) = labelled(bytes)?;
    let (piece, rest) = u16_at(rest)?;
    let (of, rest) = u16_at(rest)?;
    let (contents, rest) = read_contents(alloc, rest)?;
    let install = Install {
        group,
        label,
        piece,
        of,
        contents: Box::new(alloc, contents)?,
    };
    Ok((Message::Install(install), rest))
}

/// Reads a `Write` from the bytes after a message's kind. Returns it with the bytes left.
#[tactic(auto, unfolding(crate::specs::Reading::write_at))]
pub fn write_of(alloc: Global, bytes: &[u8]) -> Result<(Message, &[u8]), Fault>
    ensures { Gives (λ x. (message_of x.0, x.1.now)) result (write_at bytes.now) }
{
    let (group, label, rest) = labelled(bytes)?;
    let (packet, rest) = packet_of(alloc, rest)?;
    let write = Write {
        group,
        label,
        packet,
    };
    Ok((Message::Write(write), rest))
}

/// Reads a `Gossip` from the bytes after a message's kind. Returns it with the bytes left.
#[tactic(auto, unfolding(crate::specs::Reading::gossip_at))]
pub fn gossip_of(alloc: Global, bytes: &[u8]) -> Result<(Message, &[u8]), Fault>
    ensures { Gives (λ x. (message_of x.0, x.1.now)) result (gossip_at bytes.now) }
{
    let (group, label, rest) = labelled(bytes)?;
    let (packet, rest) = packet_of(alloc, rest)?;
    let gossip = Gossip {
        group,
        label,
        packet,
    };
    Ok((Message::Gossip(gossip), rest))
}

/// Reads an `Ack` from the bytes after a message's kind. Returns it with the bytes left.
#[tactic(auto, unfolding(crate::specs::Reading::ack_at))]
pub fn ack_of(bytes: &[u8]) -> Result<(Message, &[u8]), Fault>
    ensures { Gives (λ x. (message_of x.0, x.1.now)) result (ack_at bytes.now) }
{
    let (group, label, rest) = labelled(bytes)?;
    let (from, rest) = u8_at(rest)?;
    let (scl, rest) = u64_at(rest)?;
    let ack = Ack {
        group,
        label,
        from,
        scl,
    };
    Ok((Message::Ack(ack), rest))
}

/// Reads a `CopyAsk` from the bytes after a message's kind. Returns it with the bytes left.
#[tactic(auto, unfolding(crate::specs::Reading::copy_ask_at))]
pub fn copy_ask_of(bytes: &[u8]) -> Result<(Message, &[u8]), Fault>
    ensures { Gives (λ x. (message_of x.0, x.1.now)) result (copy_ask_at bytes.now) }
{
    let (group, rest) = u8_at(bytes)?;
    let (epoch, rest) = u32_at(rest)?;
    Ok((Message::CopyAsk(CopyAsk { group, epoch }), rest))
}

/// Reads a `CopyReport` from the bytes after a message's kind. Returns it with the bytes left.
#[tactic(auto, unfolding(crate::specs::Reading::copy_report_at))]
pub fn copy_report_of(alloc: Global, bytes: &[u8]) -> Result<(Message, &[u8]), Fault>
    ensures { Gives (λ x. (message_of x.0, x.1.now)) result (copy_report_at bytes.now) }
{
    let (group, rest) = u8_at(bytes)?;
    let (epoch, rest) = u32_at(rest)?;
    let (from, rest) = u8_at(rest)?;
    let (series, rest) = u64_at(rest)?;
    let (piece, rest) = u16_at(rest)?;
    let (of, rest) = u16_at(rest)?;
    let (contents, rest) = read_contents(alloc, rest)?;
    let part = CopyPart { series, contents };
    let report = CopyReport {
        group,
        from,
        piece,
        of,
        epoch,
        part: Box::new(alloc, part)?,
    };
    Ok((Message::CopyReport(report), rest))
}

/// Reads a `PageAsk` from the bytes after a message's kind. Returns it with the bytes left.
#[tactic(auto, unfolding(crate::specs::Reading::page_ask_at))]
pub fn page_ask_of(bytes: &[u8]) -> Result<(Message, &[u8]), Fault>
    ensures { Gives (λ x. (message_of x.0, x.1.now)) result (page_ask_at bytes.now) }
{
    let (group, label, rest) = labelled(bytes)?;
    let (block, rest) = u32_at(rest)?;
    let (point, rest) = u64_at(rest)?;
    let ask = PageAsk {
        group,
        label,
        block,
        point,
    };
    Ok((Message::PageAsk(ask), rest))
}

/// Reads a `Page` from the bytes after a message's kind. Returns it with the bytes left.
#[tactic(auto, unfolding(crate::specs::Reading::page_at))]
pub fn page_of(alloc: Global, bytes: &[u8]) -> Result<(Message, &[u8]), Fault>
    ensures { Gives (λ x. (message_of x.0, x.1.now)) result (page_at bytes.now) }
{
    let (group, label, rest) = labelled(bytes)?;
    let (from, rest) = u8_at(rest)?;
    let (block, rest) = u32_at(rest)?;
    let (point, rest) = u64_at(rest)?;
    let (bytes, rest) = read_image(rest)?;
    let image = Image {
        block,
        point,
        bytes,
    };
    let page = Page {
        group,
        from,
        label,
        image: Box::new(alloc, image)?,
    };
    Ok((Message::Page(page), rest))
}
