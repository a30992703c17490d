//! Places in sorted runs.

/// The place of a record in sorted runs, or the place at which to insert it.
#[derive(Clone, Copy)]
pub struct RunPlace {
    pub(crate) run: usize,
    pub(crate) index: usize,
}
