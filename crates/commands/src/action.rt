//! The actions of the program.

ghost use Rattle.std.specs.Prelude.{◌<◌, ◌≤◌, ◌^◌, unwrap_or};

use fuzzing::Simulation;
use plan_edit::PlanRequest;

/// How a member of a group is to be replaced.
#[derive(Clone, Copy, Debug, PartialEq, Eq)]
pub struct ReplaceOptions {
    /// The number of the group.
    pub group: u8,
    /// The number of the configuration that is left; 0 if none is given.
    pub configuration: Option<u8>,
    /// The member that goes.
    pub old: u8,
    /// The member that comes in its place.
    pub new: u8,
    /// Whether the new member keeps the log alone.
    pub is_tail: bool,
    /// Whether the joint configuration is left out.
    pub is_direct: bool,
    ghost group_fits: { group < 2 ^ 8 },
    ghost configuration_fits: { unwrap_or configuration 0 < 2 ^ 8 },
    ghost old_fits: { old < 2 ^ 8 },
    ghost new_fits: { new < 2 ^ 8 },
}

/// What is made of a checked plan.
#[derive(Clone, Copy, Debug, PartialEq, Eq)]
pub enum Making {
    /// The script of a step.
    Steps {
        /// The number of the group.
        group: u8,
        /// The configuration to which the step leads.
        configuration: u8,
    },
    /// Random runs.
    Simulate(Simulation),
}

/// An action of the program.
#[derive(Clone, Copy, Debug, PartialEq, Eq)]
pub enum Action {
    /// Check a plan.
    Check,
    /// Run a script over a plan.
    Run,
    /// Run a script over a plan on threads.
    Fleet,
    /// Search for the certificates of a plan.
    Search,
    /// Describe a plan in words.
    Explain,
    /// Replace a member of a plan.
    Replace(ReplaceOptions),
    /// Make something of a checked plan.
    Make(Making),
    /// Make a plan from words.
    New,
    /// Draw a plan, or a script's run over it.
    Draw,
}

/// An action, the names of its files as given, and the number of workers.
#[derive(Clone, Copy, Debug, PartialEq, Eq)]
pub struct Job<'a> {
    /// What to do with the files.
    pub action: Action,
    /// The plan's file, `-` for standard input; empty if the action takes none.
    pub plan: &'a str,
    /// The script's file, where the action takes one; `-` for standard input.
    pub script: Option<&'a str>,
    /// The number of workers; 4 if the action takes no such number.
    pub workers: u8,
    /// Whether a plan is explained as JSON.
    pub json: bool,
    /// The file that the printed text goes to in place of standard output.
    pub output: Option<&'a str>,
    /// Whether a printed plan is laid out over several lines.
    pub pretty: bool,
    /// What a new plan is to be; nothing but numbers if the action isn't `New`.
    pub request: PlanRequest<'a>,
    ghost some: { 1 ≤ workers },
    ghost few: { workers ≤ 16 },
}

impl<'a> Job<'a> {
    /// Returns the name of the plan's file, if the action takes one.
    pub fn plan_file(&self) -> Option<&'a str> {
        match self.action {
            Action::New => None,
            _ => Some(self.plan),
        }
    }

    /// Returns whether the printed text is laid out or goes to a file.
    pub fn is_placed(&self) -> bool {
        self.pretty || self.output.is_some()
    }
}
