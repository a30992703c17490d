//! Worked lines of the grammar.

ghost use Rattle.drivers.specs.Examples.{SayTheirLines};

/// Proves the meaning of some lines of the grammar.
pub fn say_their_lines()
    ensures { SayTheirLines }
{}
