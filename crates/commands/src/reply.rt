//! The answers of the program.

ghost use Rattle.std.specs.Prelude.{◌≤◌, ◌≡◌, Some, ◌≢◌};

use drivers::ScriptFault;
use plan::PlanFault;
use std::alloc::{AllocError, AllocFailed, Global};
use std::fmt;
use volume_model::Fault;

/// An answer: the exit status, and what is written to standard output and to standard error.
#[derive(Drop)]
pub struct Reply {
    pub status: u8,
    pub out: Vec<u8>,
    pub err: Vec<u8>,
    ghost known: { status ≤ 2 },
}

impl Reply {
    ghost use Rattle.commands.specs.Answer.{printed};
    ghost use Rattle.commands.specs.Stops.{said};

    /// Makes the answer that prints a text, and nothing to standard error.
    pub fn printed(alloc: Global, status: u8, text: Vec<u8>) -> Reply
        requires { status ≤ 2 }
        ensures { said result ≡ printed status text.items }
    {
        Reply {
            status,
            out: text,
            err: Vec::new(alloc),
        }
    }
}

/// Why a job ends before its own answer.
#[derive(Drop)]
pub enum Stop {
    /// The file with this name can't be read.
    Unreadable(String),
    /// The plan has this fault, or its text isn't a plan's.
    Plan(PlanFault),
    /// The plan's text has this fault; the lines say where.
    Placed(String, PlanFault),
    /// The script's line with this number is bad.
    Line(usize),
    /// No refusal has this number.
    Number(u8),
    /// Memory ran out.
    NoMemory,
}

/// Writes its line, and above it those of the place.
impl fmt::Display for Stop {
    ghost use Rattle.commands.specs.Stops.{stop_line};

    ghost output = { λ stop. Some (stop_line stop) };

    fn fmt<W: fmt::Write>(&self, f: &mut fmt::Formatter<W>) -> fmt::Result {
        match self {
            Stop::Unreadable(name) => write!(f, "input: cannot read {name}\n"),
            Stop::Plan(fault) => write!(f, "{fault}\n"),
            Stop::Placed(lines, fault) => write!(f, "{lines}{fault}\n"),
            Stop::Line(line) => write!(f, "input: line {line}\n"),
            Stop::Number(number) => { write!(f, "input: no refusal has the number {number}\n") }
            Stop::NoMemory => f.write_str("input: 9 NoMemory\n"),
        }
    }
}

impl From<AllocError> for Stop {
    ghost use Rattle.commands.specs.declared.reply.Stop.TheVariants.{NoMemory};

    ghost from_gives = { λ _ e. e ≡ NoMemory };

    fn from(_e: AllocError) -> Self {
        Stop::NoMemory
    }
}

impl<T: Drop> From<AllocFailed<T>> for Stop {
    ghost use Rattle.commands.specs.declared.reply.Stop.TheVariants.{NoMemory};

    ghost from_gives = { λ _ e. e ≡ NoMemory };

    fn from(_e: AllocFailed<T>) -> Self {
        Stop::NoMemory
    }
}

impl Stop {
    ghost use Rattle.volume_model.specs.declared.fault.Fault.TheVariants.{NoMemory};
    ghost use Rattle.plan.specs.declared.fault.PlanFault.TheVariants.{Text};
    ghost use Rattle.commands.specs.Stops.{StopsBy, is_input_stop, plan_stop, script_stop};

    /// Returns the stop of a plan's fault.
    pub fn of_plan(fault: PlanFault) -> Self
        ensures exact { result ≡ plan_stop fault }
        ensures reported { StopsBy (λ reported. (reported ≡ fault) × (fault ≢ Text NoMemory)) result }
    {
        if let PlanFault::Text(Fault::NoMemory) = &fault {
            return Stop::NoMemory;
        }
        Stop::Plan(fault)
    }

    /// Returns the stop of a script's fault.
    pub fn of_script(fault: ScriptFault) -> Self
        ensures { result ≡ script_stop fault }
    {
        match fault {
            ScriptFault::Line(line) => Stop::Line(line),
            ScriptFault::NoMemory => Stop::NoMemory,
        }
    }

    /// Returns whether an input can't be used. Otherwise the plan was read and has a fault.
    pub fn is_input(&self) -> bool
        ensures { result ≡ is_input_stop self.now }
    {
        match self {
            Stop::Plan(fault) | Stop::Placed(_, fault) => fault.is_input(),
            _ => true,
        }
    }
}
