//! Makes a new plan from the words of a command line.

ghost use Rattle.std.specs.Prelude.{◌≡◌, ◌<◌, ◌≤◌, IfOk, IfSome, Some, option_map};
ghost use Rattle.plan_edit.specs.Requests.{AreWeightsBy, HasKind, HasThresholds, IsMeant, IsNamedBy, IsNamedIf, IsRead, IsRequested};

use crate::making::new_plan;
use crate::new_refusal::NewRefusal;
use crate::plan_words::{PlanWords, Quorums};
use crate::word_reading::{
    SurvivalWord, Weights, no_weights, read_members, read_survival, read_weights, read_zones,
};
use quorum_expr::{MEMBERS, MemberSet};
use std::alloc::Global;
use std::sync::Wait;
use std::thread::Threads;

/// What a new plan is to be, in the words of a command line.
#[derive(Clone, Copy, Debug, PartialEq, Eq)]
pub struct PlanRequest<'a> {
    /// The members of each group, such as `0-2,5`. Either these or zones are given.
    pub members: Option<&'a str>,
    /// The members of each group by zones, such as `0,1/2,3/4,5`.
    pub zones: Option<&'a str>,
    /// The members that keep the log alone. The quorums have Aurora's full and tail form.
    pub tail: Option<&'a str>,
    /// Weights of members, such as `0=2,1=1`. The others weigh 1.
    pub weights: Option<&'a str>,
    /// What read sets and write sets must survive: a number of members, `zone` or `zone+1`.
    pub survive: Option<&'a str>,
    /// What a read set needs; if it isn't given, as much as meets each write set.
    pub read: Option<u16>,
    /// What a write set needs; if it isn't given, more than half.
    pub write: Option<u16>,
    /// The number of groups.
    pub groups: u8,
    /// The number of groups at birth; all, if it isn't given.
    pub born: Option<u8>,
    /// How far LSNs may run ahead of the durable point.
    pub lal: u32,
}

/// The words of a request, as they are read.
#[derive(Drop)]
struct ReadRequest {
    /// The zones, if they are given.
    zones: Vec<MemberSet>,
    members: MemberSet,
    tail: MemberSet,
    weights: Weights,
}

/// Reads the zones of a request, none if it names members in their place.
fn zones_of(alloc: Global, request: &PlanRequest<'_>) -> Result<Vec<MemberSet>, NewRefusal> {
    match (request.members, request.zones) {
        (Some(_), None) => Ok(Vec::new(alloc)),
        (None, Some(zones)) => Ok(read_zones(alloc, zones)?),
        _ => Err(NewRefusal::Options("give --members or --zones, one of the two")),
    }
}

/// Reads the members of a request: those of its zones, if it has zones.
fn members_of(request: &PlanRequest<'_>, zones: &[MemberSet]) -> Result<MemberSet, NewRefusal>
    ensures { IfOk result (IsNamedIf (option_map (λ text. text.now) request.now.members)) }
{
    match request.members {
        Some(text) => Ok(read_members(text)?),
        None => Ok(
            zones
                .iter()
                .fold(MemberSet::empty(), |members, zone| members.union(*zone)),
        ),
    }
}

/// Checks that each of these is a member.
fn check_members(named: MemberSet, members: MemberSet) -> Result<(), NewRefusal> {
    match named.difference(members).first() {
        Some(member) => Err(NewRefusal::NotAMember(member)),
        None => Ok(()),
    }
}

/// Reads the tail members of a request.
fn tail_of(request: &PlanRequest<'_>, members: MemberSet) -> Result<MemberSet, NewRefusal>
    ensures { IfOk result (IsNamedBy (option_map (λ text. text.now) request.now.tail)) }
{
    let Some(text) = request.tail else {
        return Ok(MemberSet::empty());
    };
    let tail = read_members(text)?;
    check_members(tail, members)?;
    if members.difference(tail).is_empty() {
        return Err(NewRefusal::NoFullMember);
    }
    Ok(tail)
}

/// Reads the weights of a request.
fn weights_of(request: &PlanRequest<'_>, members: MemberSet) -> Result<Weights, NewRefusal>
    ensures { IfOk result
        (λ weights. AreWeightsBy (option_map (λ text. text.now) request.now.weights) weights.of) }
{
    let Some(text) = request.weights else {
        return Ok(no_weights());
    };
    let weights = read_weights(text)?;
    check_members(weights.members, members)?;
    Ok(weights)
}

/// Reads the words of a request.
fn read_request(alloc: Global, request: &PlanRequest<'_>) -> Result<ReadRequest, NewRefusal>
    ensures { IfOk result (IsRead request.now) }
{
    let zones = zones_of(alloc, request)?;
    let members = members_of(request, &zones)?;
    let tail = tail_of(request, members)?;
    let weights = weights_of(request, members)?;
    Ok(ReadRequest {
        zones,
        members,
        tail,
        weights,
    })
}

/// Returns the weight of all members.
fn total_of(read: &ReadRequest) -> u16 {
    let mut total: u16 = 0;
    for member in 0..MEMBERS {
        if read.members.contains(member) {
            total = total.saturating_add(u16::from(read.weights.of[usize::from(member)]));
        }
    }
    total
}

/// Returns the quorums that survive what a word says.
fn surviving<'w>(
    request: &PlanRequest<'_>,
    zones: &'w [MemberSet],
    word: &str,
) -> Result<Quorums<'w>, NewRefusal>
    requires { option_map (λ text. text.now) request.now.survive ≡ Some word.now }
    ensures thresholds { IfOk result (HasThresholds request.now) }
    ensures kind { IfOk result (HasKind request.now) }
{
    if request.read.is_some()
        || request.write.is_some()
        || request.weights.is_some()
        || request.tail.is_some()
    {
        return Err(NewRefusal::Options(
            "--survive picks the quorums: leave out --read, --write, --weights and --tail",
        ));
    }
    let is_one_more = match read_survival(word)? {
        SurvivalWord::Members(count) => return Ok(Quorums::Surviving(count)),
        SurvivalWord::Zone => false,
        SurvivalWord::ZoneAndOne => true,
    };
    if request.zones.is_none() {
        return Err(NewRefusal::Options("--survive zone and zone+1 need --zones"));
    }
    Ok(Quorums::Zones { zones, is_one_more })
}

/// Returns the thresholds of a request for reads and for writes over this total.
fn thresholds(request: &PlanRequest<'_>, total: u16) -> Result<(u16, u16), NewRefusal>
    ensures read { IfOk result (λ both. IfSome request.now.read (λ given. both.0 ≡ given)) }
    ensures write { IfOk result (λ both. IfSome request.now.write (λ given. both.1 ≡ given)) }
{
    let write = request.write.unwrap_or(total / 2 + 1);
    let rest = total.saturating_sub(write).saturating_add(1);
    let read = request.read.unwrap_or(rest);
    let needed = read.max(write);
    if needed > total {
        return Err(NewRefusal::OverTotal { needed, total });
    }
    Ok((read, write))
}

/// Returns the quorums of a request.
fn quorums_of<'w>(
    request: &PlanRequest<'_>,
    words: &'w ReadRequest,
) -> Result<Quorums<'w>, NewRefusal>
    requires { IsRead request.now words.now }
    ensures thresholds { IfOk result (HasThresholds request.now) }
    ensures kind { IfOk result (HasKind request.now) }
{
    if let Some(word) = request.survive {
        return surviving(request, &words.zones, word);
    }
    let (read, write) = thresholds(request, total_of(words))?;
    if request.tail.is_none() {
        return Ok(Quorums::Counted {
            read,
            write,
            weights: &words.weights.of,
        });
    }
    if request.weights.is_some() {
        return Err(NewRefusal::Options("--tail goes without --weights"));
    }
    Ok(Quorums::FullAndTail { read, write })
}

/// Returns what the words of a request ask for.
fn words_of<'w>(
    request: &PlanRequest<'_>,
    read: &'w ReadRequest,
) -> Result<PlanWords<'w>, NewRefusal>
    requires { IsRead request.now read.now }
    ensures { IfOk result (IsMeant request.now) }
{
    let born = request.born.unwrap_or(request.groups);
    if born > request.groups {
        return Err(NewRefusal::Options("--born is at most --groups"));
    }
    let quorums = quorums_of(request, read)?;
    Ok(PlanWords {
        members: read.members,
        tail: read.tail,
        quorums,
        groups: request.groups,
        born,
        lal: u64::from(request.lal),
    })
}

/// Returns a line with the text of the plan that is requested. Each claim has a certificate.
///
/// # Errors
/// A word that can't be read, or options that don't go together; else as [`new_plan`].
pub fn requested_plan<H: Threads + Wait + Sync>(
    rt: &H,
    alloc: Global,
    request: &PlanRequest<'_>,
    workers: u8,
) -> Result<Vec<u8>, NewRefusal>
    requires { (0 < workers) × (workers ≤ 16) }
    ensures { IfOk result (λ line. IsRequested request.now line.items) }
{
    let read = read_request(alloc, request)?;
    let words = words_of(request, &read)?;
    new_plan(rt, alloc, &words, workers)
}
