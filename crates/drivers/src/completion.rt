//! The completion of an order.

use journal::Receipt;
use volume_model::Fault;

/// The completion of an order.
#[derive(Clone, Copy)]
pub enum Completion {
    /// The step was made, with `count` messages, numbered from `first` on.
    Made { first: u64, count: u64 },
    /// The step was refused.
    Refused,
    /// The step ran out of memory.
    OutOfMemory,
}

impl Completion {
    ghost use Rattle.std.specs.Prelude.{◌≡◌, is_ok};
    ghost use Rattle.drivers.specs.Counts.{is_made, is_refusal, is_refused};

    /// Returns the completion of a call of the fleet.
    pub fn of(call: Result<Receipt, Fault>) -> Completion
        ensures made { is_made result ≡ is_ok call }
        ensures refused { is_refused result ≡ is_refusal call }
    {
        match call {
            Ok(receipt) => Completion::Made {
                first: receipt.first_message,
                count: receipt.made as u64,
            },
            Err(Fault::NoMemory) => Completion::OutOfMemory,
            Err(_) => Completion::Refused,
        }
    }
}
