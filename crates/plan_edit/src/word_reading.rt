//! Reads the words that describe a new plan.

ghost use Rattle.std.specs.FinSet.{empty};
ghost use Rattle.std.specs.Prelude.{◌≡◌, ◌<◌, ℕ, IfOk, get_or, length};
ghost use Rattle.plan_edit.specs.Survivals.{IsSurvival};
ghost use Rattle.plan_edit.specs.Words.{AddsNamed, AddsPair, AddsText, AddsWeights, AreNamed, AreWeights, IsPair, IsSpan, IsSpelled};

use quorum_expr::{MEMBERS, MemberSet};
use std::alloc::{AllocFailed, Global};
use std::error::Error;
use std::fmt;

/// Why a word isn't read.
#[derive(Clone, Copy, Debug, PartialEq, Eq)]
pub enum WordFault {
    /// Members aren't numbers and ranges.
    Members,
    /// A member stands twice.
    Repeated,
    /// Weights aren't pairs of a member and a weight.
    Weights,
    /// What is to be survived isn't a number of members, `zone` or `zone+1`.
    Survival,
    /// Memory ran out.
    NoMemory,
}

impl fmt::Display for WordFault {
    fn fmt<W: fmt::Write>(&self, f: &mut fmt::Formatter<W>) -> fmt::Result {
        f.write_str(match self {
            WordFault::Members => {
                "members are numbers from 0 to 63 and ranges of them, such as 0-2,5; a slash ends a zone"
            }
            WordFault::Repeated => "a member stands twice",
            WordFault::Weights => {
                "weights are pairs of a member and a weight from 1 to 255, such as 0=2,1=1"
            }
            WordFault::Survival => "what is survived is a number of members, zone or zone+1",
            WordFault::NoMemory => "input: 9 NoMemory",
        })
    }
}

impl Error for WordFault {}

impl<T: Drop> From<AllocFailed<T>> for WordFault {
    fn from(_error: AllocFailed<T>) -> Self {
        WordFault::NoMemory
    }
}

/// What a plan is to survive.
#[derive(Clone, Copy, Debug, PartialEq, Eq)]
pub enum SurvivalWord {
    /// The loss of this many members, whichever they are.
    Members(u8),
    /// The loss of a zone.
    Zone,
    /// For write sets the loss of a zone, for read sets the loss of a zone and of one more member.
    ZoneAndOne,
}

/// Reads a member's number.
fn member(word: &str) -> Result<u8, WordFault>
    ensures below { IfOk result (λ m. m < 64) }
    ensures spelled { IfOk result (IsSpelled word.now) }
{
    match word.parse::<u8>() {
        Ok(member) if member < MEMBERS => Ok(member),
        _ => Err(WordFault::Members),
    }
}

/// Reads a member's number, or the first and the last number of a range.
fn range(word: &str) -> Result<(u8, u8), WordFault>
    ensures span { IfOk result (λ span. IsSpan word.now span.0 span.1) }
    ensures below { IfOk result (λ span. span.1 < 64) }
{
    match word.split_once('-') {
        None => {
            let only = member(word)?;
            Ok((only, only))
        }
        Some((first, last)) => Ok((member(first)?, member(last)?)),
    }
}

/// Adds the members of a number or of a range.
fn with_range(members: MemberSet, word: &str) -> Result<MemberSet, WordFault>
    ensures { IfOk result (AddsNamed word.now members) }
{
    let (first, last) = range(word)?;
    if last < first {
        return Err(WordFault::Members);
    }
    let mut all = members;
    for number in first..MEMBERS {
        if number <= last {
            if all.contains(number) {
                return Err(WordFault::Repeated);
            }
            all = all.with(number);
        }
    }
    Ok(all)
}

/// Adds the members of numbers and ranges with commas between them. Each word adds one at least, so that there are at
/// most 65 calls.
fn with_words(members: MemberSet, text: &str) -> Result<MemberSet, WordFault>
    ensures { IfOk result (AddsText text.now members) }
{
    match text.split_once(',') {
        None => with_range(members, text),
        Some((word, rest)) => {
            let more = with_range(members, word)?;
            with_words(more, rest)
        }
    }
}

/// Reads members: numbers and ranges with commas between them, each member once.
///
/// # Errors
/// `Members` or `Repeated`, whichever comes first from left to right.
pub fn read_members(text: &str) -> Result<MemberSet, WordFault>
    ensures { IfOk result (AreNamed text.now) }
{
    with_words(MemberSet::empty(), text)
}

/// Reads zones: sets of members with slashes between them, each member once.
///
/// # Errors
/// `Members` or `Repeated`, whichever comes first from left to right; `NoMemory`.
pub fn read_zones(alloc: Global, text: &str) -> Result<Vec<MemberSet>, WordFault> {
    let mut zones = Vec::new(alloc);
    let mut members = MemberSet::empty();
    for word in text.split('/') {
        let zone = read_members(word)?;
        if !members.intersection(zone).is_empty() {
            return Err(WordFault::Repeated);
        }
        members = members.union(zone);
        zones.push(zone)?;
    }
    Ok(zones)
}

/// Reads what a plan is to survive: a number of members, `zone` or `zone+1`.
///
/// # Errors
/// `Survival`.
pub fn read_survival(text: &str) -> Result<SurvivalWord, WordFault>
    ensures { IfOk result (IsSurvival text.now) }
{
    match text {
        "zone" => Ok(SurvivalWord::Zone),
        "zone+1" => Ok(SurvivalWord::ZoneAndOne),
        _ => match text.parse::<u8>() {
            Ok(count) => Ok(SurvivalWord::Members(count)),
            Err(_) => Err(WordFault::Survival),
        },
    }
}

/// Reads a member and its weight.
fn weight(word: &str) -> Result<(u8, u8), WordFault>
    ensures below { IfOk result (λ x. x.0 < 64) }
    ensures pair { IfOk result (λ x. IsPair word.now x.0 x.1) }
{
    let Some((of, weight)) = word.split_once('=') else {
        return Err(WordFault::Weights);
    };
    let of = member(of)?;
    match weight.parse::<u8>() {
        Ok(weight) if weight > 0 => Ok((of, weight)),
        _ => Err(WordFault::Weights),
    }
}

/// The weights of members.
#[derive(Clone, Copy, Debug)]
pub struct Weights {
    /// The members that have a weight.
    pub members: MemberSet,
    /// The weight of each member by its number; 1 for a member that has none.
    pub of: [u8; 64],
    ghost whole: { length of ≡ 64 },
}

/// Adds the weight of a pair.
fn with_pair(weights: Weights, word: &str) -> Result<Weights, WordFault>
    ensures { IfOk result (λ new. AddsPair word.now weights.members weights.of new.members new.of) }
{
    let (of, weight) = weight(word)?;
    let Weights {
        members,
        of: mut known,
    } = weights;
    if members.contains(of) {
        return Err(WordFault::Repeated);
    }
    known[usize::from(of)] = weight;
    Ok(Weights {
        members: members.with(of),
        of: known,
    })
}

/// Adds the weights of pairs with commas between them. Each pair adds one, so that there are at most 65 calls.
fn with_pairs(weights: Weights, text: &str) -> Result<Weights, WordFault>
    ensures { IfOk result (λ new. AddsWeights text.now weights.members weights.of new.of) }
{
    match text.split_once(',') {
        None => with_pair(weights, text),
        Some((word, rest)) => {
            let more = with_pair(weights, word)?;
            with_pairs(more, rest)
        }
    }
}

/// Reads weights: pairs of a member and its weight with commas between them, each member once. The others weigh 1.
///
/// # Errors
/// `Weights`, `Members` or `Repeated`, whichever comes first from left to right.
pub fn read_weights(text: &str) -> Result<Weights, WordFault>
    ensures { IfOk result (λ weights. AreWeights text.now weights.of) }
{
    with_pairs(no_weights(), text)
}

/// Returns weights of which none is given.
pub fn no_weights() -> Weights
    ensures none { result.members ≡ empty }
    ensures ones { (member : ℕ) → get_or result.of member 1 ≡ 1 }
{
    Weights {
        members: MemberSet::empty(),
        of: [1; 64],
    }
}
