//! The formats of a plan's text.

ghost use Rattle.std.specs.Prelude.{◌≡◌};

/// The format of a plan's text. Formats 2 and 3 can say more than the one before.
#[derive(Clone, Copy, Debug, PartialEq, Eq)]
pub enum Format {
    /// Format 1: expressions have no weights, and all groups exist when the volume is born.
    Plain,
    /// Format 2: expressions may have weights.
    Weighted,
    /// Format 3: expressions may have weights, and groups may join the volume after its birth.
    Growing,
}

impl Format {
    ghost use Rattle.plan.specs.Formats.{is_weighted, key_count, number_of};

    /// Returns whether expressions may have weights.
    pub fn is_weighted(self) -> bool
        ensures { result ≡ is_weighted self }
    {
        self != Format::Plain
    }

    /// Returns the number of keys of a plan.
    pub(crate) fn key_count(self) -> usize
        ensures { result ≡ key_count self }
    {
        match self {
            Format::Plain | Format::Weighted => 3,
            Format::Growing => 4,
        }
    }

    /// Returns the number of the format.
    pub fn number(self) -> u64
        ensures { result ≡ number_of self }
    {
        match self {
            Format::Plain => 1,
            Format::Weighted => 2,
            Format::Growing => 3,
        }
    }
}
