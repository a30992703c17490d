//! Writes the messages without lists to a slice.

ghost use Rattle.std.specs.Prelude.{◌≡◌, ◌<◌, ◌≤◌, ◌^◌, ◌+◌, [], ◌∷◌, ◌++◌, length, take};
ghost use Rattle.redo_record.specs.Common.{shared_redo, spelled};
ghost use Rattle.wire.specs.Common.{label_of, message_of};
ghost use Rattle.message_bytes.specs.Spelling.{fixed_size, labelled_spelled, message_spelled, IsReadBack};

use crate::decoding::VERSION;
use crate::slices::{
    record_len, write_labelled, write_place, write_record, write_u8, write_u32, write_u64,
};
use crate::writing::put_at;
use redo_record::SharedRecord;
use wire::{Ack, CopyAsk, Fence, Gossip, Label, Message, Page, PageAsk, StepTo, Write};

/// The bytes of an encoded message before a record: the version, the kind, the group and the label.
const HEAD_BYTES: usize = 11;

/// Returns the number of bytes of a message without lists, and 0 for a message with lists.
pub fn fixed_len(message: &Message) -> usize
    ensures { result ≡ fixed_size (message_of message.now) }
{
    match message {
        Message::View(_) => 0,
        Message::StepTo(_) => 8,
        Message::Fence(_) => HEAD_BYTES,
        Message::Report(_) => 0,
        Message::Install(_) => 0,
        Message::Write(write) => HEAD_BYTES + record_len(&write.packet),
        Message::Gossip(gossip) => HEAD_BYTES + record_len(&gossip.packet),
        Message::Ack(_) => 20,
        Message::CopyAsk(_) => 7,
        Message::CopyReport(_) => 0,
        Message::PageAsk(_) => 23,
        Message::Page(_) => 536,
    }
}

/// Writes the version and a kind to the front of a slice.
fn write_kind(out: &mut [u8], kind: u8) -> usize
    requires { 2 ≤ length out.old }
    ensures text { take result out.new ≡ 1 ∷ kind ∷ [] }
    ensures end { result ≡ 2 }
{
    let at = write_u8(out, 0, VERSION);
    write_u8(out, at, kind)
}

/// Writes the version, a kind, a group and a label.
fn write_head(out: &mut [u8], kind: u8, group: u8, label: Label) -> usize
    requires { 11 ≤ length out.old }
    ensures text { take result out.new ≡ 1 ∷ kind ∷ labelled_spelled group (label_of label) }
    ensures end { result ≡ 11 }
    ensures volume { label.volume < 2 ^ 32 }
    ensures member { label.member < 2 ^ 32 }
{
    let at = write_kind(out, kind);
    write_labelled(out, at, group, label)
}

fn write_step(out: &mut [u8], step: &StepTo) -> usize
    requires { 8 ≤ length out.old }
    ensures text { take result out.new ≡ message_spelled (message_of (Message.StepTo step.now)) }
    ensures end { result ≡ 8 }
    ensures reads { IsReadBack (message_of (Message.StepTo step.now)) }
{
    let at = write_kind(out, 2);
    let at = write_u8(out, at, step.group);
    write_place(out, at, step.place)
}

fn write_fence(out: &mut [u8], fence: &Fence) -> usize
    requires { 11 ≤ length out.old }
    ensures text { take result out.new ≡ message_spelled (message_of (Message.Fence fence.now)) }
    ensures end { result ≡ 11 }
    ensures reads { IsReadBack (message_of (Message.Fence fence.now)) }
{
    write_head(out, 3, fence.group, fence.label)
}

fn write_write(out: &mut [u8], write: &Write) -> usize
    requires { 11 + length (spelled (shared_redo write.now.packet)) ≤ length out.old }
    ensures text { take result out.new ≡ message_spelled (message_of (Message.Write write.now)) }
    ensures end { result ≡ 11 + length (spelled (shared_redo write.now.packet)) }
    ensures reads { IsReadBack (message_of (Message.Write write.now)) }
{
    let at = write_head(out, 6, write.group, write.label);
    write_record(out, at, &write.packet)
}

fn write_gossip(out: &mut [u8], gossip: &Gossip) -> usize
    requires { 11 + length (spelled (shared_redo gossip.now.packet)) ≤ length out.old }
    ensures text { take result out.new ≡ message_spelled (message_of (Message.Gossip gossip.now)) }
    ensures end { result ≡ 11 + length (spelled (shared_redo gossip.now.packet)) }
    ensures reads { IsReadBack (message_of (Message.Gossip gossip.now)) }
{
    let at = write_head(out, 7, gossip.group, gossip.label);
    write_record(out, at, &gossip.packet)
}

fn write_ack(out: &mut [u8], ack: &Ack) -> usize
    requires { 20 ≤ length out.old }
    ensures text { take result out.new ≡ message_spelled (message_of (Message.Ack ack.now)) }
    ensures end { result ≡ 20 }
    ensures reads { IsReadBack (message_of (Message.Ack ack.now)) }
{
    let at = write_head(out, 8, ack.group, ack.label);
    let at = write_u8(out, at, ack.from);
    write_u64(out, at, ack.scl)
}

fn write_copy_ask(out: &mut [u8], ask: &CopyAsk) -> usize
    requires { 7 ≤ length out.old }
    ensures text { take result out.new ≡ message_spelled (message_of (Message.CopyAsk ask.now)) }
    ensures end { result ≡ 7 }
    ensures reads { IsReadBack (message_of (Message.CopyAsk ask.now)) }
{
    let at = write_kind(out, 9);
    let at = write_u8(out, at, ask.group);
    write_u32(out, at, ask.epoch)
}

fn write_page_ask(out: &mut [u8], ask: &PageAsk) -> usize
    requires { 23 ≤ length out.old }
    ensures text { take result out.new ≡ message_spelled (message_of (Message.PageAsk ask.now)) }
    ensures end { result ≡ 23 }
    ensures reads { IsReadBack (message_of (Message.PageAsk ask.now)) }
{
    let at = write_head(out, 11, ask.group, ask.label);
    let at = write_u32(out, at, ask.block);
    write_u64(out, at, ask.point)
}

/// Writes the bytes of a page.
fn write_image(out: &mut [u8], at: usize, bytes: &[u8; 512]) -> usize
    requires { at + 512 ≤ length out.old }
    ensures text { take result out.new ≡ take at out.old ++ bytes.now }
    ensures end { result ≡ at + 512 }
    ensures full { length bytes.now ≡ 512 }
{
    put_at(out, at, bytes);
    at + 512
}

fn write_page(out: &mut [u8], page: &Page) -> usize
    requires { 536 ≤ length out.old }
    ensures text { take result out.new ≡ message_spelled (message_of (Message.Page page.now)) }
    ensures end { result ≡ 536 }
    ensures reads { IsReadBack (message_of (Message.Page page.now)) }
{
    let image = &*page.image;
    let at = write_head(out, 12, page.group, page.label);
    let at = write_u8(out, at, page.from);
    let at = write_u32(out, at, image.block);
    let at = write_u64(out, at, image.point);
    write_image(out, at, &image.bytes)
}

/// Writes a message without lists to the front of a slice, and returns the number of its bytes.
pub fn write_fixed(out: &mut [u8], message: &Message) -> usize
    requires fixed { 0 < fixed_size (message_of message.now) }
    requires room { fixed_size (message_of message.now) ≤ length out.old }
    ensures text { take result out.new ≡ message_spelled (message_of message.now) }
    ensures end { result ≡ fixed_size (message_of message.now) }
    ensures reads { IsReadBack (message_of message.now) }
{
    match message {
        Message::StepTo(step) => write_step(out, step),
        Message::Fence(fence) => write_fence(out, fence),
        Message::Write(write) => write_write(out, write),
        Message::Gossip(gossip) => write_gossip(out, gossip),
        Message::Ack(ack) => write_ack(out, ack),
        Message::CopyAsk(ask) => write_copy_ask(out, ask),
        Message::PageAsk(ask) => write_page_ask(out, ask),
        Message::Page(page) => write_page(out, page),
        Message::View(_) | Message::Report(_) | Message::Install(_) | Message::CopyReport(_) => {
            unreachable!()
        }
    }
}
