//! The comparisons on which verdicts rest.

ghost use Rattle.std.specs.Prelude.{◌↔◌, ◌≤◌, ◌<◌, IsTrue};

/// Returns whether the commits up to `durable` are within the cut of a later recovery.
pub fn is_kept(durable: u64, cut: u64) -> bool
    ensures { IsTrue result ↔ (durable ≤ cut) }
{
    durable <= cut
}

/// Returns whether an LSN is below the next one.
pub fn is_given(lsn: u64, next: u64) -> bool
    ensures { IsTrue result ↔ (lsn < next) }
{
    lsn < next
}
