//! Keeps the shortest certificates if they are too long together.

ghost use Rattle.std.specs.Prelude.{◌≡◌, ◌<◌, IfErr, IfOk, None, get_or, if◌then◌else◌, length, map, nat_le, slice_set};
ghost use Rattle.volume_model.specs.declared.fault.Fault.TheVariants.{NoMemory};
ghost use Rattle.cert_search.specs.Answers.{rule_in};
ghost use Rattle.cert_search.specs.Kept.{AreKept, length_before, length_up_to};
ghost use Rattle.cert_search.specs.Lengths.{length_in};

use crate::lengths::length_of;
use refutation::Certificate;
use std::alloc::{AllocError, Global};
use volume_model::Fault;

/// Returns the length of the certificate at `k` if it comes no later than the one at `i`, else 0. Shorter ones come
/// first.
fn length_before(long: u32, k: usize, other: u32, i: usize) -> u32
    ensures { result ≡ length_before long k other i }
{
    if long < other || (long == other && k <= i) {
        long
    } else {
        0
    }
}

/// Returns whether the certificate at a place and those that come before it fit into the room.
fn is_kept(lengths: &[u32], at: usize, room: u32) -> bool
    requires { at < length lengths.now }
    ensures { result ≡ nat_le (length_up_to (get_or lengths.now at 0) at 0 lengths.now) room }
{
    let other = lengths[at];
    let mut left = room;
    for k in 0..lengths.len() {
        match left.checked_sub(length_before(lengths[k], k, other, at)) {
            Some(rest) => left = rest,
            None => return false,
        }
    }
    true
}

/// Returns the length of a certificate, 0 if there is none.
fn length_in(certificate: &Option<Certificate<Global>>) -> u32
    ensures { result ≡ length_in (rule_in certificate.now) }
{
    match certificate {
        Some(certificate) => length_of(certificate),
        None => 0,
    }
}

/// Returns the lengths of certificates.
fn lengths_of(
    alloc: Global,
    certificates: &[Option<Certificate<Global>>],
) -> Result<Vec<u32>, AllocError>
    ensures { IfOk result (λ v. v.items ≡ map length_in (map rule_in certificates.now)) }
{
    let mut lengths = Vec::with_capacity(alloc, certificates.len())?;
    for certificate in certificates {
        lengths.push(length_in(certificate))?;
    }
    Ok(lengths)
}

/// Drops the certificate at a place unless it stays.
fn keep_if(certificates: &mut Vec<Option<Certificate<Global>>>, at: usize, stays: bool)
    requires { at < length certificates.old.items }
    ensures { certificates.new.items ≡ (if stays then certificates.old.items else slice_set certificates.old.items at
        None) }
{
    if !stays {
        certificates[at] = None;
    }
}

/// Drops certificates that don't fit into the room: the shortest stay; of equally long ones, the first.
///
/// # Errors
/// [`NoMemory`](Fault::NoMemory) if memory runs out.
pub fn keep_shortest(
    alloc: Global,
    certificates: &mut Vec<Option<Certificate<Global>>>,
    room: u32,
) -> Result<(), Fault>
    ensures kept { IfOk result (λ _. AreKept room (map rule_in certificates.old.items)
        (map rule_in certificates.new.items)) }
    ensures memory { IfErr result (λ e. e ≡ NoMemory) }
{
    let lengths = lengths_of(alloc, certificates)?;
    for at in 0..certificates.len() {
        let stays = is_kept(&lengths, at, room);
        keep_if(certificates, at, stays);
    }
    Ok(())
}
