//! Messages between actors.
#![tactic(auto)]

mod carried;
mod contents;
mod label;
mod list;
mod message;
mod messages;
mod view;

pub use carried::Carried;
pub use contents::{Contents, MOST_PIECES};
pub use label::{Label, Place};
pub use list::only;
pub use message::{
    Ack, CopyAsk, CopyPart, CopyReport, Fence, Gossip, Image, Install, Message, Page, PageAsk,
    Report, StepTo, Write,
};
pub use messages::Messages;
pub use view::View;
