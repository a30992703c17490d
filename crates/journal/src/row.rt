//! The cells that hold the entries of a journal.

use crate::entry::Entry;
use std::alloc::{AllocError, Global};
use std::marker::Brand;
use std::sync::ledger::Ledger;

/// A name for a journal: its row of cells, its ledger and its plan. Each call of a program uses its own.
pub trait Site: Ledger {
    ghost use Rattle.std.specs.Prelude.{ℕ, List};
    ghost use Rattle.atomic_table.specs.Seated.{TableId};
    ghost use Rattle.volume_model.specs.Common.{Plan};

    // The plan of the volume.
    ghost plan: { Plan };

    // The row's cells.
    ghost cells: { List ℕ };

    // The table of the board.
    ghost board: { TableId };

    // The table of the journal's history.
    ghost history: { TableId };

    // The number of client slots.
    ghost slots: { ℕ };
}

impl Site for Brand {
    ghost use Rattle.std.specs.Prelude.{[]};
    ghost use Rattle.journal.specs.Named.{no_plan, no_table};

    ghost plan = { no_plan };

    ghost cells = { [] };

    ghost board = { no_table };

    ghost history = { no_table };

    ghost slots = { 0 };
}

/// Cells for the entries of a journal.
#[derive(Drop)]
pub struct Row {
    pub(crate) cells: Vec<Option<Entry>>,
}

impl Row {
    ghost use Rattle.std.specs.Prelude.{◌≡◌, IfOk, vec_len};

    /// Makes a row of `cells` unwritten cells.
    ///
    /// # Errors
    /// `AllocError` if memory runs out.
    pub fn new(alloc: Global, cells: usize) -> Result<Row, AllocError>
        ensures { IfOk result (λ row. vec_len row.cells ≡ cells) }
    {
        let mut made = Vec::with_capacity(alloc, cells)?;
        for _ in 0..cells {
            made.push(None)?;
        }
        Ok(Row { cells: made })
    }
}
