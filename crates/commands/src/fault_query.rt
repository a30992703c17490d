//! A refusal in words by its number: `explain N`.

ghost use Rattle.std.specs.Prelude.{IfNone, IfSome, Some};
ghost use Rattle.commands.specs.FaultQuery.{AnswersNumber, IsFileName};
ghost use Rattle.commands.specs.Jobs.{IsNumberOf};
ghost use Rattle.commands.specs.Stops.{answer_of};

use crate::reply::{Reply, Stop};
use explain::{fault_lines, fault_words};
use std::alloc::Global;

/// Returns the number that a word is, if it is below 256.
pub fn number_in(word: &str) -> Option<u8>
    ensures number { IfSome result (IsNumberOf (Some word.now)) }
    ensures none { IfNone result (IsFileName word.now) }
{
    match word.parse::<u8>() {
        Ok(number) => Some(number),
        Err(_) => None,
    }
}

/// Returns the lines of the refusal with a number, or that none has it.
pub fn explain_number(alloc: Global, number: u8) -> Result<Reply, Stop>
    ensures { AnswersNumber number (answer_of result) }
{
    let Some(entry) = fault_words(number) else {
        return Err(Stop::Number(number));
    };
    let lines = fault_lines(alloc, entry)?;
    Ok(Reply::printed(alloc, 0, lines.into_bytes()))
}
