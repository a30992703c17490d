//! Why a step under both locks wasn't made.

ghost use Rattle.std.specs.Prelude.{◌≡◌};
ghost use Rattle.volume_model.specs.declared.fault.Fault.TheVariants.{NoMemory};
ghost use Rattle.node_fleet.specs.declared.halt.Halt.TheVariants.{Refused};

use std::alloc::AllocError;
use volume_model::Fault;

/// Why a step under both locks wasn't made.
#[derive(Clone, Copy, PartialEq, Eq, Debug)]
pub enum Halt {
    /// The cursor isn't at the actor's last entry, which can't happen.
    StaleCursor,
    /// The step was refused.
    Refused(Fault),
}

impl From<AllocError> for Halt {
    ghost from_gives = { λ _ halt. halt ≡ Refused NoMemory };

    fn from(_error: AllocError) -> Halt {
        Halt::Refused(Fault::NoMemory)
    }
}
