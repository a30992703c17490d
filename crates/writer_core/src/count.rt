//! Counted acknowledgements.

ghost use Rattle.std.specs.Prelude.{◌<◌};

/// A counted acknowledgement.
#[derive(Clone, Copy)]
pub struct Count {
    /// The member that sent the acknowledgement.
    pub sender: u8,
    /// The greatest complete point that the member has reported.
    pub reached: u64,
    pub ghost below: { sender < 64 },
}
