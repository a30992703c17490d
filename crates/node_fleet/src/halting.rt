//! The refusal of an attempted step.

ghost use Rattle.std.specs.Prelude.{◌≡◌};
ghost use Rattle.node_fleet.specs.declared.halt.Halt.TheVariants.{Refused};

use crate::halt::Halt;
use std::sync::Wait;
use volume_model::Fault;

/// Returns why a step was refused. Blocks forever on a stale cursor, which can't happen.
pub(crate) fn refusal_of<R: Wait>(rt: &R, halt: Halt) -> Fault
    ensures { halt ≡ Refused result }
{
    match halt {
        Halt::Refused(fault) => fault,
        Halt::StaleCursor => {
            for _ in rt.forever() {}
            unreachable!()
        }
    }
}
