//! The numbers that calls return besides those of faults.

/// The handle is empty, or full where it must be empty, or holds another actor.
pub const WRONG_HANDLE: u8 = 90;

/// The actor has messages that weren't taken.
pub const UNSENT: u8 = 91;

/// The buffer is too small.
pub const TOO_SMALL: u8 = 92;

/// All messages were taken.
pub const NO_MORE: u8 = 93;

/// A number of bytes that the struct doesn't have room for.
pub const BAD_LENGTH: u8 = 94;
