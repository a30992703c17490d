//! The refusals in words. docs/FAULTS.md has the same words, which `scripts/faults.py` checks.

ghost use Rattle.std.specs.Prelude.{◌≡◌, ◌++◌, ℕ, IfOk, IfSome, List, codes, string_bytes};
ghost use Rattle.volume_model.specs.Common.{fault_text, number_of};

use crate::page::Page;
use std::alloc::{AllocError, Global};
use volume_model::Fault;

/// A refusal in words.
#[derive(Clone, Copy, Debug)]
pub struct FaultWords {
    /// The refusal.
    pub fault: Fault,
    /// What refuses, or what has the fault.
    pub of: &'static str,
    /// Why, and what helps.
    pub words: &'static str,
}

/// All refusals, in the order of their numbers.
pub const FAULTS: &[FaultWords] = &[
    FaultWords {
        fault: Fault::Short,
        of: "reading a record",
        words: "the bytes end before the record does: read more of them.",
    },
    FaultWords {
        fault: Fault::BadField,
        of: "reading a record",
        words: "a field isn't allowed: the bytes aren't a record.",
    },
    FaultWords {
        fault: Fault::Trailing,
        of: "reading a record",
        words: "there are bytes after the record.",
    },
    FaultWords {
        fault: Fault::NoMemory,
        of: "any call that grows",
        words: "memory ran out, and nothing changed: the call may be made again. An argument passed by value (a tree, \
            a plan, a list) may be gone: keep a copy if it is needed again.",
    },
    FaultWords {
        fault: Fault::BadCount,
        of: "a plan",
        words: "a K that isn't 1 to the number of its list's expressions, or to what they weigh together; more than 64 \
            of these; a weight that isn't 1 to 255.",
    },
    FaultWords {
        fault: Fault::TooDeep,
        of: "a plan",
        words: "an expression with more than six levels.",
    },
    FaultWords {
        fault: Fault::NotAMember,
        of: "a plan",
        words: "a number that isn't a member of the configuration.",
    },
    FaultWords {
        fault: Fault::Malformed,
        of: "a plan",
        words: "the text isn't a plan's (`PLANS.md` has the usual mistakes).",
    },
    FaultWords {
        fault: Fault::NoSuchItem,
        of: "a certificate",
        words: "the rule names an item that isn't there.",
    },
    FaultWords {
        fault: Fault::NotDead,
        of: "a certificate",
        words: "`dead` of an item that can still hold.",
    },
    FaultWords {
        fault: Fault::NoClash,
        of: "a certificate",
        words: "`clash` of items that aren't both one and the same member.",
    },
    FaultWords {
        fault: Fault::NotAll,
        of: "a certificate",
        words: "`open` of an item that doesn't ask for all its children.",
    },
    FaultWords {
        fault: Fault::TooFewPicked,
        of: "a certificate",
        words: "`pick` of no threshold, or of so few children that the others could be enough.",
    },
    FaultWords {
        fault: Fault::BadPair,
        of: "a certificate",
        words: "a child that isn't there or is named twice, or `match` of no threshold.",
    },
    FaultWords {
        fault: Fault::CountTooSmall,
        of: "a certificate",
        words: "`match` with too few pairs: there may be disjoint sets. The quorums may not meet at all.",
    },
    FaultWords {
        fault: Fault::BranchCount,
        of: "a certificate",
        words: "not as many branches as children or pairs.",
    },
    FaultWords {
        fault: Fault::BadParent,
        of: "a plan",
        words: "configuration 0 has a parent, or the parent of another configuration isn't one that comes before it.",
    },
    FaultWords {
        fault: Fault::MemberReused,
        of: "a plan",
        words: "a fresh member that a configuration above has: give the member a number that wasn't in use.",
    },
    FaultWords {
        fault: Fault::NoCertificate,
        of: "a plan",
        words: "a claim without a certificate: let `search` look for it.",
    },
    FaultWords {
        fault: Fault::Certificate,
        of: "a plan",
        words: "a certificate that doesn't show its claim: the fault of its rule follows.",
    },
    FaultWords {
        fault: Fault::OverLimit,
        of: "a plan",
        words: "the text, an expression or a certificate is larger than allowed: `PLANS.md` has the limits.",
    },
    FaultWords {
        fault: Fault::Superseded,
        of: "the authority",
        words: "`refresh` of a client whose volume epoch isn't the last one assigned: it is to stop.",
    },
    FaultWords {
        fault: Fault::NotInPlan,
        of: "the authority, a node, a client",
        words: "the configuration isn't a child of the group's present one; or a message names a group or a \
            configuration that the plan doesn't have; or a View lists fewer groups than the volume has at birth, or \
            more than the plan has.",
    },
    FaultWords {
        fault: Fault::NoGroup,
        of: "the authority, a writer",
        words: "there is no such group, or it hasn't joined; of a writer, it isn't in its view: refresh it.",
    },
    FaultWords {
        fault: Fault::EpochsSpent,
        of: "the authority",
        words: "no volume epoch is left.",
    },
    FaultWords {
        fault: Fault::AllGrown,
        of: "the authority",
        words: "`grow` where every group of the plan has joined.",
    },
    FaultWords {
        fault: Fault::StaleVolume,
        of: "a node",
        words: "it has promised a later volume epoch: the sender is superseded.",
    },
    FaultWords {
        fault: Fault::StaleMember,
        of: "a node",
        words: "it is at a later membership epoch: refresh the sender; or it has taken this step, or a later one, \
            already.",
    },
    FaultWords {
        fault: Fault::AheadMember,
        of: "a node",
        words: "it is at an earlier membership epoch: deliver the step to it first.",
    },
    FaultWords {
        fault: Fault::NotInstalled,
        of: "a node",
        words: "its lineage isn't that of the volume epoch: install first.",
    },
    FaultWords {
        fault: Fault::NotWhole,
        of: "a node",
        words: "it is fresh and not whole yet: send it copies, and let it hydrate.",
    },
    FaultWords {
        fault: Fault::Full,
        of: "a node",
        words: "it would hold more than 1,048,576 records; or an Install in more than 4,096 pieces.",
    },
    FaultWords {
        fault: Fault::AlreadyWhole,
        of: "a node",
        words: "it is whole, and needs no copies.",
    },
    FaultWords {
        fault: Fault::NotEnough,
        of: "a node",
        words: "the members whose complete copies it has don't satisfy the read expression of the configuration that \
            it took last, or it isn't a member of that configuration: send it the missing pieces.",
    },
    FaultWords {
        fault: Fault::NoRecord,
        of: "a node",
        words: "it holds no record with that number to offer.",
    },
    FaultWords {
        fault: Fault::BadPiece,
        of: "a node",
        words: "a piece of an Install or of a copy that can't be one: the count of its pieces is 0 or above 4,096, its \
            number isn't below that count, it has more than 256 records, or its count isn't that of the pieces \
            received before. No actor makes such a piece: check the transport.",
    },
    FaultWords {
        fault: Fault::TailSegment,
        of: "a node",
        words: "it keeps no whole pages, or isn't a member of its configuration any more: ask a full segment.",
    },
    FaultWords {
        fault: Fault::PointAhead,
        of: "a node",
        words: "it isn't complete up to the point asked: ask another, or send it what it lacks.",
    },
    FaultWords {
        fault: Fault::SeriesSpent,
        of: "a node",
        words: "it has made 2^62 copies: ask another.",
    },
    FaultWords {
        fault: Fault::NotOpen,
        of: "a client",
        words: "only an open writer issues, resends and reads.",
    },
    FaultWords {
        fault: Fault::LimitReached,
        of: "a writer",
        words: "the log would run further than the allowance ahead of the durable point or, where that is greater, of \
            the writer's start: wait for acknowledgements.",
    },
    FaultWords {
        fault: Fault::BadTransaction,
        of: "a writer",
        words: "not 1 to 32 changes, a group outside the writer's view, not 1 to 64 bytes, or bytes that end beyond \
            the page of 512.",
    },
    FaultWords {
        fault: Fault::LsnSpent,
        of: "a writer, a recovery",
        words: "no log sequence number is left.",
    },
    FaultWords {
        fault: Fault::NotReady,
        of: "a recovery",
        words: "`cut` before each group's reports are a read set, or `open` before the cut or before the installs are \
            acknowledged.",
    },
    FaultWords {
        fault: Fault::AlreadyDone,
        of: "a client",
        words: "it has cut or opened before.",
    },
    FaultWords {
        fault: Fault::NoLogRecord,
        of: "a writer",
        words: "its log has no such record.",
    },
    FaultWords {
        fault: Fault::NotJoined,
        of: "a writer",
        words: "it learned of the group after it opened, and no write quorum has acknowledged the group's Install yet: \
            deliver the Install.",
    },
    FaultWords {
        fault: Fault::NoMessage,
        of: "any that takes a message",
        words: "no such message was made.",
    },
    FaultWords {
        fault: Fault::NotAddressed,
        of: "any that takes a message",
        words: "the message is for another group, volume epoch or kind of actor; or it carries records of another \
            group, or names a sender above 63.",
    },
    FaultWords {
        fault: Fault::NoActor,
        of: "nodes and clients",
        words: "the plan names no such node, or its group hasn't joined; or no View has reached the client yet.",
    },
    FaultWords {
        fault: Fault::NoSlot,
        of: "the authority under its lock: `assign` of a fleet",
        words: "the last slot's volume epoch was assigned: no slot is left for a client. `fleet` has 64.",
    },
    FaultWords {
        fault: Fault::JournalFull,
        of: "a step under locks",
        words: "the journal has no cell left; `fleet` takes one for each event of its script.",
    },
];

/// Returns the refusal with a number, if there is one.
pub fn fault_words(number: u8) -> Option<&'static FaultWords>
    ensures { IfSome result (λ found. number_of found.now.fault ≡ number) }
{
    FAULTS.iter().find(|entry| entry.fault.number() == number)
}

/// Appends what a refusal means.
pub fn add_meaning(alloc: Global, page: &mut Page, entry: &FaultWords) -> Result<(), AllocError> {
    let sentence = format!(in alloc; "{}: {}", entry.of, entry.words)?;
    page.add(4, sentence.as_str())
}

/// Returns the lines of a refusal: its number and name, and below them what it means.
pub fn fault_lines(alloc: Global, entry: &FaultWords) -> Result<String, AllocError>
    ensures { IfOk result (λ text. (words : List ℕ)
        × (string_bytes text ≡ fault_text entry.now.fault ++ codes "\n" ++ words)) }
{
    let mut page = Page::new(alloc);
    add_meaning(alloc, &mut page, entry)?;
    let words = page.into_text();
    let fault = entry.fault;
    let mut text = String::new(alloc);
    write!(text, "{fault}\n{words}")?;
    Ok(text)
}
