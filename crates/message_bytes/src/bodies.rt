//! Encodes the fields of the kinds of messages that have lists.

ghost use Rattle.std.specs.Prelude.{◌≡◌, ◌<◌, ◌^◌, ◌++◌, map, OnOk};
ghost use Rattle.wire.specs.Common.{label_of, place_of, message_of, piece_in};
ghost use Rattle.message_bytes.specs.Spelling.{labelled_spelled, place_spelled, places_spelled, piece_spelled, body_spelled, ArePlaces, IsReadBack};

use crate::writing::{count_of, put_contents, put_u16, put_u32, put_u64};
use std::alloc::{AllocError, Global};
use volume_model::Fault;
use wire::{CopyReport, Install, Label, Message, Place, Report, View};

fn put_labelled(out: &mut Vec<u8>, group: u8, label: Label) -> Result<(), AllocError>
    ensures text { OnOk result (out.new.items ≡ out.old.items ++ labelled_spelled group (label_of label)) }
    ensures volume { label.volume < 2 ^ 32 }
    ensures member { label.member < 2 ^ 32 }
{
    out.push(group)?;
    put_u32(out, label.volume)?;
    put_u32(out, label.member)?;
    Ok(())
}

/// Appends a configuration and its membership epoch.
pub fn put_place(out: &mut Vec<u8>, place: Place) -> Result<(), AllocError>
    ensures text { OnOk result (out.new.items ≡ out.old.items ++ place_spelled (place_of place)) }
    ensures fits { place.epoch < 2 ^ 32 }
{
    out.push(place.configuration)?;
    put_u32(out, place.epoch)
}

fn put_places(out: &mut Vec<u8>, places: &[Place]) -> Result<(), AllocError>
    ensures text { OnOk result (out.new.items ≡ out.old.items ++ places_spelled (map place_of places.now)) }
    ensures fits { OnOk result (ArePlaces (map place_of places.now)) }
{
    for place in places {
        put_place(out, *place)?;
    }
    Ok(())
}

/// Appends the number of a piece, and the number of pieces.
fn put_piece(out: &mut Vec<u8>, piece: u16, of: u16) -> Result<(), AllocError>
    ensures text { OnOk result (out.new.items ≡ out.old.items ++ piece_spelled (piece_in piece of)) }
    ensures number { piece < 2 ^ 16 }
    ensures count { of < 2 ^ 16 }
{
    put_u16(out, piece)?;
    put_u16(out, of)?;
    Ok(())
}

/// Appends the fields of a `View`.
pub fn put_view(out: &mut Vec<u8>, view: &View) -> Result<(), Fault>
    ensures text { OnOk result (out.new.items ≡ out.old.items ++ body_spelled (message_of (Message.View view.now))) }
    ensures reads { OnOk result (IsReadBack (message_of (Message.View view.now))) }
{
    let count = count_of(view.places.len())?;
    put_u32(out, view.volume)?;
    put_u32(out, count)?;
    put_places(out, &view.places)?;
    Ok(())
}

/// Appends the fields of a `Report`.
pub fn put_report(alloc: Global, out: &mut Vec<u8>, report: &Report) -> Result<(), Fault>
    ensures text { OnOk result (out.new.items ≡ out.old.items ++ body_spelled
        (message_of (Message.Report report.now))) }
    ensures reads { OnOk result (IsReadBack (message_of (Message.Report report.now))) }
{
    put_labelled(out, report.group, report.label)?;
    out.push(report.from)?;
    put_contents(alloc, out, &report.contents)?;
    Ok(())
}

/// Appends the fields of an `Install`.
pub fn put_install(alloc: Global, out: &mut Vec<u8>, install: &Install) -> Result<(), Fault>
    ensures text { OnOk result (out.new.items ≡ out.old.items ++ body_spelled
        (message_of (Message.Install install.now))) }
    ensures reads { OnOk result (IsReadBack (message_of (Message.Install install.now))) }
{
    put_labelled(out, install.group, install.label)?;
    put_piece(out, install.piece, install.of)?;
    put_contents(alloc, out, &install.contents)?;
    Ok(())
}

/// Appends the fields of a `CopyReport`.
pub fn put_copy_report(alloc: Global, out: &mut Vec<u8>, report: &CopyReport) -> Result<(), Fault>
    ensures text { OnOk result (out.new.items ≡ out.old.items ++ body_spelled
        (message_of (Message.CopyReport report.now))) }
    ensures reads { OnOk result (IsReadBack (message_of (Message.CopyReport report.now))) }
{
    out.push(report.group)?;
    put_u32(out, report.epoch)?;
    out.push(report.from)?;
    put_u64(out, report.part.series)?;
    put_piece(out, report.piece, report.of)?;
    put_contents(alloc, out, &report.part.contents)?;
    Ok(())
}
