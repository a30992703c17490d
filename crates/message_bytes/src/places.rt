//! Decodes labels, places and lists of places.

ghost use Rattle.std.specs.Prelude.{[], map};
ghost use Rattle.volume_model.specs.Common.{Gives};
ghost use Rattle.wire.specs.Common.{label_of, place_of};
ghost use Rattle.message_bytes.specs.Reading.{label_at, labelled_at, place_at, places_at};

use crate::numbers::{u8_at, u32_at};
use std::alloc::Global;
use volume_model::Fault;
use wire::{Label, Place};

#[tactic(auto, unfolding(crate::specs::Reading::label_at))]
fn read_label(bytes: &[u8]) -> Result<(Label, &[u8]), Fault>
    ensures { Gives (λ x. (label_of x.0, x.1.now)) result (label_at bytes.now) }
{
    let (volume, rest) = u32_at(bytes)?;
    let (member, rest) = u32_at(rest)?;
    Ok((Label { volume, member }, rest))
}

/// Decodes a group and a label.
#[tactic(auto, unfolding(crate::specs::Reading::labelled_at))]
pub fn labelled(bytes: &[u8]) -> Result<(u8, Label, &[u8]), Fault>
    ensures { Gives (λ x. ((x.0, label_of x.1), x.2.now)) result (labelled_at bytes.now) }
{
    let (group, rest) = u8_at(bytes)?;
    let (label, rest) = read_label(rest)?;
    Ok((group, label, rest))
}

/// Decodes a configuration and its membership epoch.
#[tactic(auto, unfolding(crate::specs::Reading::place_at))]
pub fn read_place(bytes: &[u8]) -> Result<(Place, &[u8]), Fault>
    ensures { Gives (λ x. (place_of x.0, x.1.now)) result (place_at bytes.now) }
{
    let (configuration, rest) = u8_at(bytes)?;
    let (epoch, rest) = u32_at(rest)?;
    let place = Place {
        configuration,
        epoch,
    };
    Ok((place, rest))
}

/// Decodes `count` places.
pub fn read_places(alloc: Global, count: u32, bytes: &[u8]) -> Result<(Vec<Place>, &[u8]), Fault>
    ensures { Gives (λ x. (map place_of x.0.items, x.1.now)) result (places_at count [] bytes.now) }
{
    let mut places = Vec::new(alloc);
    let mut rest = bytes;
    for _ in 0..count {
        let (place, after) = read_place(rest)?;
        places.push(place)?;
        rest = after;
    }
    Ok((places, rest))
}
