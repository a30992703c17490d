//! What a command line asks for.

ghost use Rattle.std.specs.Prelude.{◌≡◌, ◌≢◌, ◌↔◌, IfErr, IfNone, IfOk, IfSome, IsTrue, codes, map, option_map};
ghost use Rattle.clap.specs.Words.{Text, found_of, rows_of, subcommand_of, subcommand_rows_of};
ghost use Rattle.commands.specs.CommandLine.{tool};
ghost use Rattle.commands.specs.Jobs.{AreApart, AreOptions, HasOptions, IsJob, NamesPlan, name_of};
ghost use Rattle.commands.specs.Usage.{IsMissing, IsRefusal, IsRightFor};
ghost use Rattle.commands.specs.declared.action.Action.{Action as ActionName};
ghost use Rattle.commands.specs.declared.action.ReplaceOptions.{ReplaceOptions as OptionsName};

use crate::action::{Action, Job};
use crate::options::{is_given, options_of, request_of, runs_of, step_of, text_of, workers_of};
use crate::subcommands::command_line;
use crate::usage::Usage;
use clap::ArgMatches;
use clap::error::ErrorKind;
use std::alloc::{AllocError, Global};

/// Returns the job that the words of a command line name; the first is the program's own name.
///
/// # Errors
/// Clap's answer to words that it doesn't take, or the help or version that they ask for; that clap's reading names no
/// job; or that memory ran out.
pub fn job<'a>(alloc: Global, words: &'a [&'a str]) -> Result<Job<'a>, Usage>
    ensures job { IfOk result (IsJob (subcommand_of tool (map (λ w. w.now) words.entry.now))) }
    ensures refused { IfErr result (IsRightFor (map (λ w. w.now) words.entry.now)) }
{
    let command = match command_line(alloc) {
        Ok(command) => command,
        Err(error) => return Err(Usage::Memory(error)),
    };
    match command.try_get_matches_from(words) {
        Ok(matches) => job_of(&matches),
        Err(error) => Err(refusal(error)),
    }
}

/// Returns why clap refused the words.
fn refusal(error: clap::Error) -> Usage
    ensures { IsRefusal error result }
{
    match error.kind() {
        ErrorKind::OutOfMemory => Usage::Memory(AllocError),
        _ => Usage::Words(error),
    }
}

/// Returns the replacement that the options ask for.
fn replace_of(matches: &ArgMatches<'_>) -> Option<Action>
    ensures named { IfSome result (λ action. name_of action ≡ codes "replace") }
    ensures options { IfSome result (HasOptions (rows_of (found_of matches.now))) }
    ensures none { IfNone result ((o : OptionsName) → AreOptions (rows_of (found_of matches.now)) o → ⊥) }
{
    match options_of(matches) {
        Some(options) => Some(Action::Replace(options)),
        None => None,
    }
}

/// Returns the action of a subcommand with this name, with its options.
fn action_of(name: &str, matches: &ArgMatches<'_>) -> Option<Action>
    ensures named { IfSome result (λ action. name.now ≡ name_of action) }
    ensures options { IfSome result (HasOptions (rows_of (found_of matches.now))) }
    ensures others { IfNone result ((action : ActionName) → HasOptions (rows_of (found_of matches.now)) action
        → name.now ≢ name_of action) }
{
    match name {
        "check" => Some(Action::Check),
        "run" => Some(Action::Run),
        "fleet" => Some(Action::Fleet),
        "search" => Some(Action::Search),
        "explain" => Some(Action::Explain),
        "replace" => replace_of(matches),
        "steps" => Some(Action::Make(step_of(matches))),
        "simulate" => Some(Action::Make(runs_of(matches))),
        "new" => Some(Action::New),
        "draw" => Some(Action::Draw),
        _ => None,
    }
}

/// Returns the name of the plan's file; an empty one for `new`, which takes none.
fn plan_of<'a>(name: &str, matches: &ArgMatches<'a>) -> Option<&'a str>
    ensures named { IfSome result (λ plan. NamesPlan name.now (rows_of (found_of matches.now)) plan.now) }
    ensures none { IfNone result ((plan : Text) → NamesPlan name.now (rows_of (found_of matches.now)) plan → ⊥) }
{
    if name == "new" {
        return Some("");
    }
    text_of(matches, "plan")
}

/// Returns whether at most one of two files is standard input.
fn are_apart(plan: &str, script: Option<&str>) -> bool
    ensures { IsTrue result ↔ AreApart plan.now (option_map (λ w. w.now) script.entry) }
{
    match script {
        Some(script) => plan != "-" || script != "-",
        None => true,
    }
}

/// Returns the job that clap found.
fn job_of<'a>(matches: &ArgMatches<'a>) -> Result<Job<'a>, Usage>
    ensures job { IfOk result (IsJob (subcommand_rows_of matches.now)) }
    ensures refused { IfErr result (IsMissing (subcommand_rows_of matches.now)) }
{
    let Some((name, inner)) = matches.subcommand() else {
        return Err(Usage::Missing("no subcommand"));
    };
    let Some(action) = action_of(name, inner) else {
        return Err(Usage::Missing("no such subcommand"));
    };
    let Some(plan) = plan_of(name, inner) else {
        return Err(Usage::Missing("no plan"));
    };
    let script = text_of(inner, "script");
    if !are_apart(plan, script) {
        return Err(Usage::Missing(
            "standard input is read once: it can't be both the plan and the script",
        ));
    }
    let Some(workers) = workers_of(inner) else {
        return Err(Usage::Missing("no number of workers from 1 to 16"));
    };
    Ok(Job {
        action,
        plan,
        script,
        workers,
        json: is_given(inner, "json"),
        output: text_of(inner, "output"),
        pretty: is_given(inner, "pretty"),
        request: request_of(inner),
    })
}
