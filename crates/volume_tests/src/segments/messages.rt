//! The messages that nodes receive.

use super::inputs::{Held, Input, Part, Sent};
use crate::packets::{Line, chain, chained, packet, recovered};
use lineage::Lineage;
use redo_record::{RecordSet, SharedRecord};
use std::alloc::Global;
use std::sync::Arc;
use volume_model::Fault;
use wire::{
    Ack, Contents, CopyAsk, CopyPart, CopyReport, Fence, Gossip, Image, Install, Label, Message,
    Page, PageAsk, Place, Report, StepTo, View, Write,
};

/// The label of volume epoch 1 at membership epoch 1.
const LABEL: Label = Label {
    volume: 1,
    member: 1,
};

/// Block 0 before any record.
const NO_IMAGE: Image = Image {
    block: 0,
    point: 0,
    bytes: [0; 512],
};

/// Returns the fields of a record.
fn line(sent: Sent) -> Line {
    match sent {
        Sent::Ours(lsn) => chained(lsn),
        Sent::Others(lsn) => Line {
            group: 1,
            ..chained(lsn)
        },
        Sent::After(lsn, before) => Line {
            prev_volume: before,
            prev_group: before,
            prev_block: 0,
            ..chained(lsn)
        },
        Sent::Byte(lsn, block, offset, byte) => Line {
            prev_block: 0,
            block,
            offset,
            byte,
            ..chained(lsn)
        },
    }
}

/// Returns the shared record.
fn sent(alloc: Global, sent: Sent) -> Result<SharedRecord, Fault> {
    packet(alloc, line(sent))
}

/// Returns contents that come in one piece.
fn held(alloc: Global, held: Held) -> Result<Contents, Fault> {
    let mut records = RecordSet::new(alloc);
    let Held::First(group) = held else {
        let lineage = Lineage::empty(alloc);
        return Ok(Contents { lineage, records });
    };
    records.insert(packet(
        alloc,
        Line {
            group,
            ..chained(1)
        },
    )?)?;
    let lineage = Lineage::birth(alloc)?;
    Ok(Contents { lineage, records })
}

/// Returns the part of a member's first copy in one piece.
fn first_copy(alloc: Global, whole: Held) -> Result<CopyPart, Fault> {
    Ok(CopyPart {
        series: 1,
        contents: held(alloc, whole)?,
    })
}

/// Returns a piece's number, the number of pieces, and its contents with the lineage of the recovery of a volume epoch
/// that cut at 600.
fn part(alloc: Global, volume: u32, part: Part) -> Result<(u16, u16, Contents), Fault> {
    let (piece, of, first, last) = match part {
        Part::Of(piece, of, first, last) => (piece, of, first, last),
        Part::One(piece, of) => (piece, of, u64::from(piece) + 1, u64::from(piece) + 1),
    };
    let records = chain(alloc, first, last)?;
    let lineage = recovered(alloc, volume, 600)?;
    Ok((piece, of, Contents { lineage, records }))
}

/// Returns the Install of a piece.
fn install_piece(alloc: Global, label: Label, input: Part) -> Result<Message, Fault> {
    let (piece, of, contents) = part(alloc, label.volume, input)?;
    Ok(Message::Install(Install {
        group: 0,
        label,
        piece,
        of,
        contents: Box::new(alloc, contents)?,
    }))
}

/// Returns the CopyReport of a piece.
fn copy_piece(
    alloc: Global,
    epoch: u32,
    from: u8,
    series: u64,
    input: Part,
) -> Result<Message, Fault> {
    let (piece, of, contents) = part(alloc, 1, input)?;
    Ok(Message::CopyReport(CopyReport {
        group: 0,
        epoch,
        from,
        piece,
        of,
        part: Box::new(alloc, CopyPart { series, contents })?,
    }))
}

/// Returns the messages for clients.
fn for_clients(alloc: Global, input: Input) -> Result<Message, Fault> {
    Ok(match input {
        Input::View => Message::View(View {
            volume: 1,
            places: Box::new(alloc, Vec::new(alloc))?,
        }),
        Input::Report => Message::Report(Report {
            group: 0,
            label: LABEL,
            from: 1,
            contents: Arc::new(alloc, held(alloc, Held::First(0))?)?,
        }),
        Input::Ack => Message::Ack(Ack {
            group: 0,
            label: LABEL,
            from: 1,
            scl: 1,
        }),
        Input::Page => Message::Page(Page {
            group: 0,
            label: LABEL,
            from: 1,
            image: Box::new(alloc, NO_IMAGE)?,
        }),
        _ => return Err(Fault::NoMessage),
    })
}

/// Returns the messages without contents, and those for clients.
fn plain(alloc: Global, input: Input) -> Result<Message, Fault> {
    Ok(match input {
        Input::Fence(group, volume, member) => Message::Fence(Fence {
            group,
            label: Label { volume, member },
        }),
        Input::Step(group, configuration, epoch) => Message::StepTo(StepTo {
            group,
            place: Place {
                configuration,
                epoch,
            },
        }),
        Input::CopyAsk(group, epoch) => Message::CopyAsk(CopyAsk { group, epoch }),
        Input::PageAsk(group, volume, member, point) => Message::PageAsk(PageAsk {
            group,
            label: Label { volume, member },
            block: 0,
            point,
        }),
        _ => return for_clients(alloc, input),
    })
}

/// Returns the message that a node receives, `NoMessage` if the input isn't a message.
pub fn message(alloc: Global, input: Input) -> Result<Message, Fault> {
    Ok(match input {
        Input::Install(group, volume, member, whole) => Message::Install(Install {
            group,
            label: Label { volume, member },
            piece: 0,
            of: 1,
            contents: Box::new(alloc, held(alloc, whole)?)?,
        }),
        Input::InstallPiece(volume, member, part) => {
            return install_piece(alloc, Label { volume, member }, part);
        }
        Input::Write(group, volume, member, record) => Message::Write(Write {
            group,
            label: Label { volume, member },
            packet: sent(alloc, record)?,
        }),
        Input::Gossip(group, volume, member, record) => Message::Gossip(Gossip {
            group,
            label: Label { volume, member },
            packet: sent(alloc, record)?,
        }),
        Input::CopyOf(group, epoch, from, whole) => Message::CopyReport(CopyReport {
            group,
            epoch,
            from,
            piece: 0,
            of: 1,
            part: Box::new(alloc, first_copy(alloc, whole)?)?,
        }),
        Input::CopyPiece(epoch, from, series, part) => {
            return copy_piece(alloc, epoch, from, series, part);
        }
        _ => return plain(alloc, input),
    })
}
