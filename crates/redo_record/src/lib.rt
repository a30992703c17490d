//! Redo records: their values, their bytes, and their order.
#![tactic(auto)]

mod comparing;
mod decoding;
mod encoding;
mod group;
mod head;
mod inserting;
mod joining;
mod packet;
mod payload;
mod record;
mod record_buffer;
mod record_set;
mod records;
mod run;
mod run_place;
mod run_search;
mod shared_list;
mod shared_record;

pub use decoding::decode;
pub use encoding::encode;
pub use head::LAST_LSN;
pub use packet::Packet;
pub use payload::{FEW_BYTES, MOST_BYTES, Payload};
pub use record::Record;
pub use record_set::RecordSet;
pub use records::Records;
pub use run::{MOST_IN_PIECE, Run};
pub use run_place::RunPlace;
pub use shared_record::SharedRecord;
