//! Tests of fleets.

mod calls;
mod drive;
mod looks;
mod tables;
mod threads;
