//! Reads the records of a set one by one.

use crate::run::Run;
use crate::shared_record::SharedRecord;

/// The records of a set that weren't read yet, in order.
#[derive(Clone, Copy)]
pub struct Records<'a> {
    pub(crate) run: &'a [SharedRecord],
    pub(crate) later: &'a [Run],
}

impl<'a> Records<'a> {
    ghost use Rattle.std.specs.Prelude.{◌≡◌, [], ◌∷◌, true, MatchOption};
    ghost use Rattle.redo_record.specs.SharedRecord.{shared_redo};
    ghost use Rattle.redo_record.specs.Records.{left_of, packets_left, then_left};

    /// Makes a reader of no records.
    pub fn none() -> Records<'a>
        ensures { packets_left result ≡ [] }
    {
        Records {
            run: &[],
            later: &[],
        }
    }

    /// Reads the next record; `None` at the end.
    #[inline(always)]
    pub fn next(&mut self) -> Option<&'a SharedRecord>
        ensures packets { MatchOption result (packets_left self.old ≡ [])
            (λ packet. packets_left self.old ≡ packet.now ∷ packets_left self.new) }
        ensures records { MatchOption result (left_of self.old ≡ [])
            (λ packet. left_of self.old ≡ shared_redo packet.now ∷ left_of self.new) }
        ensures ended { MatchOption result (packets_left self.new ≡ []) (λ packet. true ≡ true) }
        ensures both { left_of self.old ≡ then_left result (left_of self.new) }
    {
        while self.run.is_empty() {
            match self.later {
                [] => return None,
                [run, later @ ..] => {
                    self.run = run.as_slice();
                    self.later = later;
                }
            }
        }
        let (first, rest) = self.run.split_at(1);
        self.run = rest;
        Some(&first[0])
    }
}
