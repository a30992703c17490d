//! The command line, by clap's builder.

ghost use Rattle.std.specs.Prelude.{◌≡◌, IfOk, false};
ghost use Rattle.clap.specs.Words.{app_of, with_subcommand};
ghost use Rattle.clap.specs.declared.builder.command.Command.TheViews.{out-Command as fields_of};
ghost use Rattle.commands.specs.CommandLine.{IsLeaf, draw_leaf, file_leaf, fleet_leaf, groups_leaf, json_leaf, new_leaf, places_leaf, program, quorums_leaf, replace_leaf, runs_leaf, script_leaf, search_leaf, simulate_leaf, steps_leaf, tool, with_options, words_leaf, workers_leaf, zones_leaf};

use crate::arguments::{
    configuration, file, flag, group, member, number, other_file, output, text, workers,
};
use crate::help;
use crate::help::Subcommand;
use clap::{Command, value_parser};
use std::alloc::{AllocError, Global};

/// Returns the program before its subcommands.
fn program<'a>(alloc: Global) -> Command<'a>
    ensures { app_of result ≡ program }
{
    Command::new(alloc, "plan_tool")
        .about("Checks plans of a quorum log volume, certifies them, and runs scripts over them")
        .version("0.1.0")
        .subcommand_required(true)
        .after_help(help::PROGRAM)
}

/// Returns a subcommand of a plan's file.
fn of_file<'a>(alloc: Global, head: Subcommand<'a>) -> Result<Command<'a>, AllocError>
    ensures { IfOk result (IsLeaf (file_leaf head.entry.name.now)) }
{
    Command::new(alloc, head.name)
        .about(head.about)
        .after_help(head.notes)
        .arg(file(
            alloc,
            "plan",
            "The plan's file: a JSON text; - is standard input",
        ))
}

/// Adds the options of a subcommand that prints a plan: how it is laid out, and the file that it goes to.
fn with_options<'a>(alloc: Global, command: Command<'a>) -> Result<Command<'a>, AllocError>
    requires { (fields_of command).has_globals ≡ false }
    ensures { IfOk result (IsLeaf (with_options (app_of command.entry))) }
{
    let about = "Lay the plan out, a line for each value of a configuration";
    command
        .arg(flag(alloc, "pretty", about))?
        .arg(output(alloc))
}

/// Returns a subcommand of a plan's file and a number of workers.
fn of_workers<'a>(alloc: Global, head: Subcommand<'a>) -> Result<Command<'a>, AllocError>
    ensures { IfOk result (IsLeaf (workers_leaf head.entry.name.now)) }
{
    of_file(alloc, head)?.arg(workers(alloc, "How many workers search, 1 to 16"))
}

/// Returns a subcommand of a plan's file and a number of workers that prints a plan.
fn of_search<'a>(alloc: Global, head: Subcommand<'a>) -> Result<Command<'a>, AllocError>
    ensures { IfOk result (IsLeaf (search_leaf head.entry.name.now)) }
{
    let command = of_workers(alloc, head)?;
    with_options(alloc, command)
}

/// Returns a subcommand of a plan and a script.
fn of_script<'a>(alloc: Global, head: Subcommand<'a>) -> Result<Command<'a>, AllocError>
    ensures { IfOk result (IsLeaf (script_leaf head.entry.name.now)) }
{
    let script = file(
        alloc,
        "script",
        "The script's file: an event a line; - is standard input",
    );
    of_file(alloc, head)?.arg(script)
}

/// Returns a subcommand of a plan, a script and a number of workers.
fn of_fleet<'a>(alloc: Global, head: Subcommand<'a>) -> Result<Command<'a>, AllocError>
    ensures { IfOk result (IsLeaf (fleet_leaf head.entry.name.now)) }
{
    of_script(alloc, head)?.arg(workers(alloc, "How many drivers run the script, 1 to 16"))
}

/// Returns a subcommand of a plan's file, and of a script's if it is named, that may write JSON.
fn of_json<'a>(alloc: Global, head: Subcommand<'a>) -> Result<Command<'a>, AllocError>
    ensures { IfOk result (IsLeaf (json_leaf head.entry.name.now)) }
{
    let script = other_file(alloc, "script", "A script's file, whose run is explained");
    let command = of_file(alloc, head)?.arg(script)?;
    command.arg(flag(
        alloc,
        "json",
        "Print the same as one line of JSON, of the form in docs/EXPLAIN.md",
    ))
}

/// Returns a subcommand of a plan's file, a number of workers, two members, a group and a configuration.
fn of_places<'a>(alloc: Global, head: Subcommand<'a>) -> Result<Command<'a>, AllocError>
    ensures { IfOk result (IsLeaf (places_leaf head.entry.name.now)) }
{
    let command = of_workers(alloc, head)?;
    let command = command.arg(member(alloc, "out", "The member that goes"))?;
    let new = member(alloc, "in", "The member that comes in its place");
    let command = command.arg(new)?.arg(group(alloc))?;
    command.arg(configuration(
        alloc,
        "The configuration that the replacement leaves; may be left out if the group has only one",
    ))
}

/// Returns a subcommand with all options of a replacement.
fn of_replace<'a>(alloc: Global, head: Subcommand<'a>) -> Result<Command<'a>, AllocError>
    ensures { IfOk result (IsLeaf (replace_leaf head.entry.name.now)) }
{
    let command = of_places(alloc, head)?;
    let tail = flag(
        alloc,
        "tail",
        "The new member keeps the log alone, even if the old one keeps pages",
    );
    let command = command.arg(tail)?;
    let direct = flag(
        alloc,
        "direct",
        "Leave out the configuration with both members, if that can be certified",
    );
    with_options(alloc, command.arg(direct)?)
}

/// Returns a subcommand of a plan's file, a group and a configuration.
fn of_steps<'a>(alloc: Global, head: Subcommand<'a>) -> Result<Command<'a>, AllocError>
    ensures { IfOk result (IsLeaf (steps_leaf head.entry.name.now)) }
{
    let command = of_file(alloc, head)?.arg(group(alloc))?;
    let about = "The configuration to which the step leads";
    command.arg(configuration(alloc, about).required(true))
}

/// Returns a subcommand of a plan's file, the first seed and the number of runs.
fn of_runs<'a>(alloc: Global, head: Subcommand<'a>) -> Result<Command<'a>, AllocError>
    ensures { IfOk result (IsLeaf (runs_leaf head.entry.name.now)) }
{
    let range = value_parser!(u32).range(0..=4_294_967_295);
    let about = "The seed of the first run; each run has the next one";
    let seed = number(alloc, "seed", about, range).default_value("1");
    let command = of_file(alloc, head)?.arg(seed)?;
    let range = value_parser!(u32).range(1..=1_000_000);
    let runs = number(alloc, "runs", "How many runs, 1 to 1,000,000", range).default_value("1000");
    command.arg(runs)
}

/// Returns a subcommand of random runs of a plan.
fn of_simulate<'a>(alloc: Global, head: Subcommand<'a>) -> Result<Command<'a>, AllocError>
    ensures { IfOk result (IsLeaf (simulate_leaf head.entry.name.now)) }
{
    let command = of_runs(alloc, head)?;
    let command = command.arg(flag(alloc, "crash", "Nodes restart"))?;
    command.arg(flag(alloc, "replace", "Groups step along the plan"))
}

/// Returns a subcommand with the members of a new plan.
fn of_zones<'a>(alloc: Global, head: Subcommand<'a>) -> Result<Command<'a>, AllocError>
    ensures { IfOk result (IsLeaf (zones_leaf head.entry.name.now)) }
{
    let members = text(
        alloc,
        "members",
        "LIST",
        "The members of each group, such as 0-2,5",
    );
    let command = Command::new(alloc, head.name)
        .about(head.about)
        .after_help(head.notes);
    let command = command.arg(members)?;
    command.arg(text(
        alloc,
        "zones",
        "LISTS",
        "The members by zones in place of --members, such as 0,1/2,3/4,5",
    ))
}

/// Returns such a subcommand with the kinds and weights of the members, and what they survive.
fn of_words<'a>(alloc: Global, head: Subcommand<'a>) -> Result<Command<'a>, AllocError>
    ensures { IfOk result (IsLeaf (words_leaf head.entry.name.now)) }
{
    let tail = text(
        alloc,
        "tail",
        "LIST",
        "The members that keep the log alone; the quorums are those of full and tail members",
    );
    let command = of_zones(alloc, head)?.arg(tail)?;
    let weights = text(
        alloc,
        "weights",
        "LIST",
        "Weights of members, such as 0=2,1=3; the others weigh 1",
    );
    let command = command.arg(weights)?;
    command.arg(text(
        alloc,
        "survive",
        "WHAT",
        "Pick quorums that survive the loss of any N members, of a zone (zone), or for reads of one more (zone+1)",
    ))
}

/// Returns a subcommand with the words of a new plan's quorums.
fn of_quorums<'a>(alloc: Global, head: Subcommand<'a>) -> Result<Command<'a>, AllocError>
    ensures { IfOk result (IsLeaf (quorums_leaf head.entry.name.now)) }
{
    let range = value_parser!(u16).range(1..=16_320);
    let about = "How many members read, or their weight; by default as many as meet each write set";
    let command = of_words(alloc, head)?.arg(number(alloc, "read", about, range))?;
    let range = value_parser!(u16).range(1..=16_320);
    let about = "How many members write, or their weight; by default more than half";
    command.arg(number(alloc, "write", about, range))
}

/// Returns such a subcommand with the groups.
fn of_groups<'a>(alloc: Global, head: Subcommand<'a>) -> Result<Command<'a>, AllocError>
    ensures { IfOk result (IsLeaf (groups_leaf head.entry.name.now)) }
{
    let range = value_parser!(u8).range(1..=16);
    let groups = number(alloc, "groups", "How many groups, 1 to 16", range).default_value("1");
    let command = of_quorums(alloc, head)?.arg(groups)?;
    let range = value_parser!(u8).range(1..=16);
    let about =
        "How many groups exist when the volume is born, the others join later; by default all";
    command.arg(number(alloc, "born", about, range))
}

/// Returns a subcommand with all words of a new plan.
fn of_new<'a>(alloc: Global, head: Subcommand<'a>) -> Result<Command<'a>, AllocError>
    ensures { IfOk result (IsLeaf (new_leaf head.entry.name.now)) }
{
    let range = value_parser!(u32).range(1..=10_000_000);
    let about = "How far LSNs may run ahead of the durable point, 1 to 10,000,000";
    let lal = number(alloc, "lal", about, range).default_value("10000000");
    let command = of_groups(alloc, head)?.arg(lal)?;
    let command = command.arg(workers(alloc, "How many workers search, 1 to 16"))?;
    with_options(alloc, command)
}

/// Returns a subcommand of a plan's file, and of a script's if it is named.
fn of_draw<'a>(alloc: Global, head: Subcommand<'a>) -> Result<Command<'a>, AllocError>
    ensures { IfOk result (IsLeaf (draw_leaf head.entry.name.now)) }
{
    let script = other_file(alloc, "script", "A script's file, whose run is drawn");
    let command = of_file(alloc, head)?.arg(script)?;
    command.arg(output(alloc))
}

/// Adds a subcommand.
fn add<'a>(command: Command<'a>, leaf: Command<'a>) -> Result<Command<'a>, AllocError>
    requires { (fields_of leaf).has_globals ≡ false }
    ensures { IfOk result
        (λ c. app_of c ≡ with_subcommand (app_of command.entry) (app_of leaf.entry).top) }
{
    command.subcommand(leaf)
}

/// Returns the whole command line.
pub fn command_line<'a>(alloc: Global) -> Result<Command<'a>, AllocError>
    ensures { IfOk result (λ c. app_of c ≡ tool) }
{
    let command = program(alloc);
    let command = add(command, of_file(alloc, help::CHECK)?)?;
    let command = add(command, of_script(alloc, help::RUN)?)?;
    let command = add(command, of_fleet(alloc, help::FLEET)?)?;
    let command = add(command, of_search(alloc, help::SEARCH)?)?;
    let command = add(command, of_json(alloc, help::EXPLAIN)?)?;
    let command = add(command, of_replace(alloc, help::REPLACE)?)?;
    let command = add(command, of_steps(alloc, help::STEPS)?)?;
    let command = add(command, of_simulate(alloc, help::SIMULATE)?)?;
    let command = add(command, of_new(alloc, help::NEW)?)?;
    add(command, of_draw(alloc, help::DRAW)?)
}
