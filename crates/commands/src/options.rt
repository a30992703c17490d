//! The options of subcommands, in what clap found.

ghost use Rattle.std.specs.Prelude.{◌≡◌, ◌≤◌, ◌<◌, ◌^◌, ℕ, IfErr, IfNone, IfOk, IfSome, codes, option_map};
ghost use Rattle.clap.specs.Words.{first_of, found_of, one_of, rows_of};
ghost use Rattle.commands.specs.Jobs.{AreOptions, IsGiven, IsNoNumber, IsNumberIn, IsNumberOf, IsNumberOr, is_asked, AreWords, making_name};
ghost use Rattle.commands.specs.declared.action.ReplaceOptions.{ReplaceOptions as Options};

use crate::action::{Making, ReplaceOptions};
use clap::ArgMatches;
use fuzzing::{Events, Simulation};
use plan_edit::PlanRequest;

/// The text of an option isn't a number below 256.
#[derive(Clone, Copy)]
pub struct NotANumber;

/// Returns the first value of an id.
pub fn text_of<'a>(matches: &ArgMatches<'a>, id: &str) -> Option<&'a str>
    ensures { option_map (λ w. w.now) result ≡ first_of id.now (rows_of (found_of matches.now)) }
{
    matches.get_str(id)
}

/// Returns whether an option without a value is given.
pub fn is_given(matches: &ArgMatches<'_>, id: &str) -> bool
    ensures { result ≡ is_asked (first_of id.now (rows_of (found_of matches.now))) }
{
    match text_of(matches, id) {
        Some(text) => text == "true",
        None => false,
    }
}

/// Returns the number that an option gives, if it is given.
fn number_of(matches: &ArgMatches<'_>, id: &str) -> Result<Option<u8>, NotANumber>
    ensures number { IfOk result (IsGiven (one_of id.now (rows_of (found_of matches.now)))) }
    ensures none { IfErr result (λ _. IsNoNumber (one_of id.now (rows_of (found_of matches.now)))) }
{
    match matches.try_get_one::<u8>(id) {
        Ok(number) => Ok(number),
        Err(_) => Err(NotANumber),
    }
}

/// Returns the number that an option gives, or the other one if it isn't given.
fn number_or(matches: &ArgMatches<'_>, id: &str, other: u8) -> Option<u8>
    ensures number { IfSome result (IsNumberOr other (one_of id.now (rows_of (found_of matches.now)))) }
    ensures none { IfNone result ((n : ℕ) → n < 2 ^ 8
        → IsNumberOr other (one_of id.now (rows_of (found_of matches.now))) n → ⊥) }
{
    match number_of(matches, id) {
        Ok(Some(number)) => Some(number),
        Ok(None) => Some(other),
        Err(_) => None,
    }
}

/// Returns the number of workers if it is from 1 to 16; 4 if there is no option.
pub fn workers_of(matches: &ArgMatches<'_>) -> Option<u8>
    ensures number { IfSome result (IsNumberOf (one_of (codes "workers") (rows_of (found_of matches.now)))) }
    ensures range { IfSome result (λ n. (1 ≤ n) × (n ≤ 16)) }
    ensures none { IfNone result ((n : ℕ) → 1 ≤ n → n ≤ 16
        → IsNumberOf (one_of (codes "workers") (rows_of (found_of matches.now))) n → ⊥) }
{
    match number_or(matches, "workers", 4) {
        Some(number) if 1 <= number && number <= 16 => Some(number),
        _ => None,
    }
}

/// Returns the number of an option that must be given.
fn required(matches: &ArgMatches<'_>, id: &str) -> Option<u8>
    ensures number { IfSome result (IsNumberIn (one_of id.now (rows_of (found_of matches.now)))) }
    ensures none { IfNone result ((n : ℕ) → n < 2 ^ 8
        → IsNumberIn (one_of id.now (rows_of (found_of matches.now))) n → ⊥) }
{
    match number_of(matches, id) {
        Ok(number) => number,
        Err(_) => None,
    }
}

/// Returns the options of a replacement.
pub fn options_of(matches: &ArgMatches<'_>) -> Option<ReplaceOptions>
    ensures given { IfSome result (AreOptions (rows_of (found_of matches.now))) }
    ensures none { IfNone result ((o : Options) → AreOptions (rows_of (found_of matches.now)) o → ⊥) }
{
    let group = number_or(matches, "group", 0)?;
    let Ok(configuration) = number_of(matches, "configuration") else {
        return None;
    };
    let old = required(matches, "out")?;
    let new = required(matches, "in")?;
    Some(ReplaceOptions {
        group,
        configuration,
        old,
        new,
        is_tail: is_given(matches, "tail"),
        is_direct: is_given(matches, "direct"),
    })
}

/// Returns the step whose script is asked for.
pub fn step_of(matches: &ArgMatches<'_>) -> Making
    ensures { making_name result ≡ codes "steps" }
{
    Making::Steps {
        group: number_or(matches, "group", 0).unwrap_or(0),
        configuration: number_or(matches, "configuration", 0).unwrap_or(0),
    }
}

/// Returns the number that an option gives.
fn count_of(matches: &ArgMatches<'_>, id: &str) -> u32 {
    matches.try_get_one::<u32>(id).unwrap_or(None).unwrap_or(0)
}

/// Returns the random runs that are asked for.
pub fn runs_of(matches: &ArgMatches<'_>) -> Making
    ensures { making_name result ≡ codes "simulate" }
{
    Making::Simulate(Simulation {
        seed: u64::from(count_of(matches, "seed")),
        runs: count_of(matches, "runs"),
        events: Events {
            restarts: is_given(matches, "crash"),
            steps: is_given(matches, "replace"),
        },
    })
}

/// Returns the words of the new plan that is asked for.
pub fn request_of<'a>(matches: &ArgMatches<'a>) -> PlanRequest<'a>
    ensures { AreWords (rows_of (found_of matches.now)) result }
{
    PlanRequest {
        members: text_of(matches, "members"),
        zones: text_of(matches, "zones"),
        tail: text_of(matches, "tail"),
        weights: text_of(matches, "weights"),
        survive: text_of(matches, "survive"),
        read: matches.try_get_one::<u16>("read").unwrap_or(None),
        write: matches.try_get_one::<u16>("write").unwrap_or(None),
        groups: number_or(matches, "groups", 1).unwrap_or(1),
        born: number_of(matches, "born").unwrap_or(None),
        lal: count_of(matches, "lal"),
    }
}
