//! The arguments and options of subcommands.

ghost use Rattle.commands.specs.CommandLine.{IsArg, configuration_rule, file_rule, flag_rule, group_rule, member_rule, other_file_rule, output_rule, parsed_rule, text_rule, workers_rule};

use clap::builder::ValueParser;
use clap::{Arg, ArgAction, value_parser};
use std::alloc::Global;

/// Returns an argument that names a file.
pub fn file<'a>(alloc: Global, id: &'a str, about: &'a str) -> Arg<'a>
    ensures { IsArg (file_rule id.entry.now) result }
{
    Arg::new(alloc, id)
        .required(true)
        .action(ArgAction::Set)
        .help(about)
}

/// Returns an argument that names a file, and may be left out.
pub fn other_file<'a>(alloc: Global, id: &'a str, about: &'a str) -> Arg<'a>
    ensures { IsArg (other_file_rule id.entry.now) result }
{
    Arg::new(alloc, id).action(ArgAction::Set).help(about)
}

/// Returns an option with a number: `--ID N`.
pub fn number<'a>(alloc: Global, id: &'a str, about: &'a str, range: ValueParser<'a>) -> Arg<'a>
    ensures { IsArg (parsed_rule id.entry.now range.entry) result }
{
    Arg::new(alloc, id)
        .long(id)
        .value_name("N")
        .help(about)
        .value_parser(range)
}

/// Returns the option of how many workers there are.
pub fn workers<'a>(alloc: Global, about: &'a str) -> Arg<'a>
    ensures { IsArg workers_rule result }
{
    number(alloc, "workers", about, value_parser!(u8).range(1..=16))
        .short('w')
        .default_value("4")
}

/// Returns an option without a value.
pub fn flag<'a>(alloc: Global, id: &'a str, about: &'a str) -> Arg<'a>
    ensures { IsArg (flag_rule id.entry.now) result }
{
    Arg::new(alloc, id)
        .long(id)
        .action(ArgAction::SetTrue)
        .help(about)
}

/// Returns an option with a member's number, which must be given.
pub fn member<'a>(alloc: Global, id: &'a str, about: &'a str) -> Arg<'a>
    ensures { IsArg (member_rule id.entry.now) result }
{
    number(alloc, id, about, value_parser!(u8).range(0..=63))
        .value_name("MEMBER")
        .required(true)
}

/// Returns the option with a group's number.
pub fn group<'a>(alloc: Global) -> Arg<'a>
    ensures { IsArg group_rule result }
{
    number(alloc, "group", "The group", value_parser!(u8).range(0..=15))
        .short('g')
        .default_value("0")
}

/// Returns the option with a configuration's number.
pub fn configuration<'a>(alloc: Global, about: &'a str) -> Arg<'a>
    ensures { IsArg configuration_rule result }
{
    let range = value_parser!(u8).range(0..=63);
    number(alloc, "configuration", about, range).short('c')
}

/// Returns an option with a text.
pub fn text<'a>(alloc: Global, id: &'a str, value: &'a str, about: &'a str) -> Arg<'a>
    ensures { IsArg (text_rule id.entry.now) result }
{
    Arg::new(alloc, id)
        .long(id)
        .value_name(value)
        .action(ArgAction::Set)
        .help(about)
}

/// Returns the option with the file that the printed text goes to.
pub fn output<'a>(alloc: Global) -> Arg<'a>
    ensures { IsArg output_rule result }
{
    Arg::new(alloc, "output")
        .short('o')
        .long("output")
        .value_name("FILE")
        .action(ArgAction::Set)
        .help("Write what would be printed to this file, whole or not at all, if the status is 0")
}
