//! Why a plan isn't made.

use crate::refusal::EditRefusal;
use crate::word_reading::WordFault;
use plan::PlanFault;
use quorum_expr::{MEMBERS, MemberSet};
use std::alloc::{AllocError, AllocFailed, Global};
use std::error::Error;
use std::fmt;
use volume_model::Fault;

/// Why a new plan isn't made.
#[derive(Debug, Drop)]
pub enum NewRefusal {
    /// These two sets are disjoint, and by what is asked for the first reads and the second writes.
    Apart {
        /// The set that reads.
        read: MemberSet,
        /// The set that writes.
        write: MemberSet,
    },
    /// A word of the request can't be read.
    Word(WordFault),
    /// The options of the request don't go together.
    Options(&'static str),
    /// A tail member, or a member with a weight, isn't a member.
    NotAMember(u8),
    /// All members are tail members.
    NoFullMember,
    /// A read set or a write set would need more than all members have.
    OverTotal {
        /// What a set needs.
        needed: u16,
        /// What all members have.
        total: u16,
    },
    /// The new plan would have a fault, or isn't the wanted one; or memory ran out.
    Plan(EditRefusal),
}

impl NewRefusal {
    /// Returns whether the words of the request can't be used, so that they don't say what is wanted.
    pub fn is_usage(&self) -> bool {
        matches!(self, NewRefusal::Word(_) | NewRefusal::Options(_))
    }

    /// Returns whether memory ran out.
    pub fn is_no_memory(&self) -> bool {
        matches!(self, NewRefusal::Plan(EditRefusal::NoMemory))
    }
}

/// Writes the members of a set in braces.
fn write_set<W: fmt::Write>(f: &mut fmt::Formatter<W>, members: MemberSet) -> fmt::Result {
    let mut before = "";
    f.write_str("{")?;
    for member in 0..MEMBERS {
        if members.contains(member) {
            write!(f, "{before}{member}")?;
            before = " ";
        }
    }
    f.write_str("}")
}

impl fmt::Display for NewRefusal {
    fn fmt<W: fmt::Write>(&self, f: &mut fmt::Formatter<W>) -> fmt::Result {
        match self {
            NewRefusal::Apart { read, write } => {
                f.write_str("read ")?;
                write_set(f, *read)?;
                f.write_str(" and write ")?;
                write_set(f, *write)?;
                f.write_str(" are disjoint")
            }
            NewRefusal::Word(fault) => write!(f, "{fault}"),
            NewRefusal::Options(line) => f.write_str(line),
            NewRefusal::NotAMember(member) => write!(f, "{member} isn't a member"),
            NewRefusal::NoFullMember => f.write_str("one member at least must be full"),
            NewRefusal::OverTotal { needed, total } => {
                write!(f, "a set needs {needed}, but all members have {total}")
            }
            NewRefusal::Plan(refusal) => write!(f, "{refusal}"),
        }
    }
}

impl Error for NewRefusal {}

/// Returns the lines that say why a new plan isn't made.
pub fn refusal_lines(alloc: Global, refusal: &NewRefusal) -> Result<String, AllocError> {
    match refusal {
        NewRefusal::Plan(EditRefusal::Plan(fault)) => format!(in alloc; "{fault}\n"),
        other if other.is_usage() => {
            format!(in alloc; "error: {other}\n\nFor more information, try '--help'.\n")
        }
        other => format!(in alloc; "no: {other}\n"),
    }
}

impl From<EditRefusal> for NewRefusal {
    fn from(refusal: EditRefusal) -> Self {
        NewRefusal::Plan(refusal)
    }
}

impl From<AllocError> for NewRefusal {
    fn from(_error: AllocError) -> Self {
        NewRefusal::Plan(EditRefusal::NoMemory)
    }
}

impl From<WordFault> for NewRefusal {
    fn from(fault: WordFault) -> Self {
        match fault {
            WordFault::NoMemory => NewRefusal::Plan(EditRefusal::NoMemory),
            fault => NewRefusal::Word(fault),
        }
    }
}

impl<T: Drop> From<AllocFailed<T>> for NewRefusal {
    fn from(_error: AllocFailed<T>) -> Self {
        NewRefusal::Plan(EditRefusal::NoMemory)
    }
}

impl From<PlanFault> for NewRefusal {
    fn from(fault: PlanFault) -> Self {
        NewRefusal::Plan(EditRefusal::from(fault))
    }
}

impl From<Fault> for NewRefusal {
    fn from(fault: Fault) -> Self {
        NewRefusal::Plan(EditRefusal::from(fault))
    }
}
