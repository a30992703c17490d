//! The subcommands with their help.

/// What the help says of a subcommand.
#[derive(Clone, Copy)]
pub struct Subcommand<'a> {
    pub name: &'a str,
    pub about: &'a str,
    /// What stands below the lists of arguments.
    pub notes: &'a str,
}

/// What stands below the list of subcommands.
pub const PROGRAM: &str = "\
Exit status: 0 for yes, 1 for a refusal, 2 for words, files or texts that can't be used (told on standard error),
and for an output that can't be written.

In place of a plan's or a script's file `-` is standard input; one of the two may be.

Every plan's key is said in docs/PLANS.md, every script's word in docs/SCRIPTS.md, every refusal in docs/FAULTS.md.

To begin: `new` makes a plan, `draw` shows it, `explain` says what it survives, `replace` adds the steps that replace a
member, `steps` says what to do for one, and `simulate` tries the plan at random.

Example: plan_tool new --members 0-5 -o plan.json && plan_tool explain plan.json";

/// The subcommand `check`.
pub const CHECK: Subcommand<'static> = Subcommand {
    name: "check",
    about: "Says whether a plan's quorums all meet",
    notes: "\
Reads the plan, and prints `yes: G groups, C configurations, K certificates`, or the plan's first fault.

Exit status: 0 for yes; 1 for a fault; 2 where the file can't be read or its text isn't a plan's (told on standard
error).

Example: plan_tool check examples/six_copies.json",
};

/// The subcommand `run`.
pub const RUN: Subcommand<'static> = Subcommand {
    name: "run",
    about: "Runs a script over a plan",
    notes: "\
Checks the plan, reads the whole script, and makes its events happen over a volume that is just born. Prints a line an
event, `LINE ok M` with the number of messages that it made or `LINE refused NUMBER NAME`; then the open writers, with
what is durable, and the recoveries that have cut.

Exit status: 0 where no event was refused; 1 where one was, or for a fault of the plan; 2 where a file can't be read or
its text isn't a plan's or a script's (told on standard error).

Example: plan_tool run examples/six_copies.json examples/recovery.script",
};

/// The subcommand `fleet`.
pub const FLEET: Subcommand<'static> = Subcommand {
    name: "fleet",
    about: "Runs a script over a plan on threads",
    notes: "\
Checks the plan, reads the whole script, and makes its events happen over a volume that is just born, on threads:
drivers take its lines in turn, and each node takes its messages on a thread of its own. A line that names a message
waits for the line that made it, and no line behind a `wait` starts before all lines before it have ended. Other lines
happen in any order.

Prints `steps S` and `refused R`, the numbers of events that happened and that were refused; then, of the journal that
the threads left, run again event by event, the open writers, with what is durable, and the recoveries that have cut;
then `journal yes` where that run refuses nothing and has S steps, else `journal no`.

Exit status: 0 where no event was refused and the journal says yes; 1 where not, or for a fault of the plan; 2 where a
file can't be read, its text isn't a plan's or a script's, or memory or a thread is wanting (told on standard error).

Example: plan_tool fleet examples/six_copies.json examples/three_bytes_written.script -w 3",
};

/// The subcommand `search`.
pub const SEARCH: Subcommand<'static> = Subcommand {
    name: "search",
    about: "Writes a plan with certificates for its claims",
    notes: "\
Reads the plan, and prints it with the certificates that are found for its claims; tells on standard error of each claim
for which none is found.

With -o FILE the plan is written as a new file beside FILE, which is then renamed, so that FILE may be the plan's own
file. If the status isn't 0 what would be printed without -o is printed, and FILE isn't touched.

Exit status: 0 where each claim has one; 1 where a claim has none, or for a fault of the plan; 2 where the file can't be
read or its text isn't a plan's (told on standard error), or where FILE can't be written.

Example: plan_tool search examples/uncertified.json -w 4 -o certified.json",
};

/// The subcommand `explain`.
pub const EXPLAIN: Subcommand<'static> = Subcommand {
    name: "explain",
    about: "Says what a plan survives, why its claims fail and where a script fails, or what a refusal means",
    notes: "\
Reads the plan, and prints of each configuration its members, its expressions with how many members each can lose, the
step from its parent, and of each claim whether it is certified, or two sets that show why it fails; of a text that
isn't a plan's, the place of its fault; then the line that `check` prints. With a number below 256 in place of a file
it prints what the refusal with that number means.

With a script it prints what is wrong with the script's first bad line; else it runs the script, and prints each refused
line with what the refusal means, the nodes and the clients at the end, and the last lines of `run`.

With --json it prints the same as one line of JSON on standard output.

Exit status, as of `check`, or of `run` with a script: 0 for yes; 1 for a fault or a refused line; 2 where a file can't
be read or its text isn't a plan's or a script's, or no refusal has the number (told on standard error).

Example: plan_tool explain examples/write_three.json",
};

/// The subcommand `replace`.
pub const REPLACE: Subcommand<'static> = Subcommand {
    name: "replace",
    about: "Writes a plan in which a member may be replaced",
    notes: "\
Reads the plan, and prints it as one line with new configurations behind those of the group, and with a certificate for
each claim. The configurations that the plan has stay as they are. -c names the one that the replacement leaves, which
may be left out if the group has only one.

The first new configuration is the joint one: it has both members, writes satisfy the old and the new write expression,
and reads the old or the new read expression. So writes go on while the new member hydrates, which is to copy what it
lacks from the others, and either way is still open: the second new configuration is the new membership, the third one
leads back to the old membership. Step to one of them once the new member is whole, or once it is given up.

--direct leaves the joint configuration out: one step leads to the new membership, if that step can be certified. It has
no way back, and until the new member is whole the group has a member less to read from.

The new member is full, which is to say that it keeps pages, if the old one is. With --tail it keeps the log alone.

`steps` prints what to do for each new configuration, and `draw` shows them. With -o FILE the plan is written as a new
file beside FILE, which is then renamed, so that FILE may be the plan's own file; if the status isn't 0 FILE isn't
touched.

Exit status: 0 where the plan is printed; 1 where it isn't and a line says why; 2 where the file can't be read or its
text isn't a plan's (told on standard error), or where FILE can't be written. A fault of the plan that would be printed
is told as `check` does it. What is printed has the status 0 in `check`.

Example: plan_tool replace examples/six_copies.json --out 5 --in 6 -o replaced.json",
};

/// The subcommand `steps`.
pub const STEPS: Subcommand<'static> = Subcommand {
    name: "steps",
    about: "Writes the script of a step",
    notes: "\
The script has the steps that lead to the parent of the configuration and then the step itself, with comments: the
authority advances the group, its StepTo goes to the members, each new member asks the whole ones for copies and becomes
whole, and the writer learns of the step. `run FILE` takes each of its lines. The plan must have no fault.

Example: plan_tool steps plan.json -c 1 > step.script && plan_tool run plan.json step.script",
};

/// The subcommand `simulate`.
pub const SIMULATE: Subcommand<'static> = Subcommand {
    name: "simulate",
    about: "Makes random runs of a plan, and judges what they print",
    notes: "\
Each run has a script of its own: transactions of several writers, losses, repetitions, messages that come late and out
of order, recoveries side by side, and groups that join; with --crash nodes restart too, with --replace groups step
along the plan. What a run prints is judged: whether each later recovery has all acknowledged commits, and whether no
LSN is given twice. Status 0: no promise is broken. Status 1: a run breaks one; its seed and its script are printed,
without the lines that don't matter. The plan must have no fault. Where standard error is a terminal, it shows how many
runs have ended.

Example: plan_tool simulate plan.json --seed 7 --runs 100 --crash --replace",
};

/// The subcommand `new`.
pub const NEW: Subcommand<'static> = Subcommand {
    name: "new",
    about: "Writes a plan with certificates from words",
    notes: "\
Prints a plan as one line, with a certificate for each claim: it has the status 0 in `check`. Each group has one
configuration with the members of --members or --zones, one of the two: numbers from 0 to 63 and ranges of them with
commas between them; in --zones a slash ends a zone. N members have N votes, or with --weights the sum of their weights.

A write set has --write votes, by default half of all, rounded down, + 1. A read set has --read votes, by default all
+ 1 less those of a write set, which is the least that meets each write set: of six members 3 read and 4 write.

With --tail the members of the list keep the log alone; the others are full: they keep pages too. A read set has --read
members, one of them full; a write set has --write members, or all full members: with `--members 0-5 --tail 3-5` 3 of
all and 1 full member read, 4 of all or the 3 full members write.

--survive picks the quorums in place of --read, --write, --weights and --tail. With a number N, a read set and a write
set are left whichever N members are lost: N + 1 of M members read, M - N write. With `zone` they are left whichever
zone is lost, with `zone+1` a read set is left after the loss of one more member: N + 1 read and M - N write for the
size N of the largest zone, if these survive that; else a part of all zones but one writes, and a part of two zones
reads. A part of a zone of Z members is Z / 2 + 1 of them for writes, and as many as meet those for reads; with `zone+1`
and three zones it is the whole zone for writes and one member for reads.

--groups makes that many groups, which are alike. With --born the volume begins with the first of them, and the others
join while it is written to: `--groups 4 --born 1` is a volume that grows.

With -o FILE the plan is written as a new file beside FILE, which is then renamed; if the status isn't 0 FILE isn't
touched.

Exit status: 0 where the plan is printed; 1 where it isn't and a line says why, with two disjoint sets where a read set
needn't meet a write set; 2 for words that can't be used (told on standard error), or where FILE can't be written.

Examples: plan_tool new --members 0-5 -o plan.json
          plan_tool new --zones 0,1/2,3/4,5 --survive zone+1 --groups 3 --born 2 -o plan.json",
};

/// The subcommand `draw`.
pub const DRAW: Subcommand<'static> = Subcommand {
    name: "draw",
    about: "Draws a plan, or a script's run over it, as SVG",
    notes: "\
Prints an SVG picture, which a browser shows: of a plan each group's tree of configurations, each with its members, what
its expressions ask for and survive, and its claims, in red where they aren't certified. With a script, of its run over
the plan: a lane for each authority, client and node, a row for each line, messages as arrows with their LSNs, durable
points in green where they grow, refusals in red. docs/DRAWING.md explains the marks.

A plan needs no certificates to be drawn, but a run's plan must have no fault. A script of more than 2,000 events isn't
drawn.

Exit status: 0 where the picture is printed; 1 where it isn't and a line says why, as for a plan with a wrong parent, or
for a fault of a run's plan; 2 where a file can't be read or its text isn't a plan's or a script's (told on standard
error), or where the file of -o can't be written. If the status isn't 0, that file isn't touched.

Example: plan_tool draw examples/six_copies.json -o plan.svg
         plan_tool draw examples/six_copies.json examples/recovery.script -o run.svg",
};
