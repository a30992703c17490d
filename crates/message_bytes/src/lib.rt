//! Messages as bytes, for an engine's own transport.
//!
//! A message is a version byte, a kind byte and its fields, big-endian and without gaps; docs/WIRE.md has the layout.
//! The encoding is canonical: [`decode`] accepts exactly the bytes that [`encode`] returns.
#![tactic(auto)]

mod bodies;
mod contents;
mod decoding;
mod encoding;
mod fixed;
mod numbers;
mod places;
mod reading;
mod slices;
mod writing;

pub use bodies::put_place;
pub use contents::read_contents;
pub use decoding::decode;
pub use encoding::{encode, encode_into, encode_to_slice};
pub use numbers::{u8_at, u32_at, u64_at};
pub use places::read_place;
pub use writing::{put_at, put_contents_head, put_u32, put_u64, write_records};
