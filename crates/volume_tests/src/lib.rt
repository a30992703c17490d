//! Tests of the crates below the program. They are in a crate of their own, so that those needn't be proved again with
//! their tests.
#![tactic(auto)]

#[cfg(test)]
mod authorities;
#[cfg(test)]
mod blocks;
#[cfg(test)]
mod boards;
#[cfg(test)]
mod certificates;
#[cfg(test)]
mod clients;
#[cfg(test)]
mod fleets;
#[cfg(test)]
mod gates;
#[cfg(test)]
mod hands;
#[cfg(test)]
mod hydrations;
#[cfg(test)]
mod letters;
#[cfg(test)]
mod lineages;
#[cfg(test)]
mod links;
#[cfg(test)]
mod packets;
mod picked;
#[cfg(test)]
mod records;
#[cfg(test)]
mod recoveries;
#[cfg(test)]
mod replays;
#[cfg(test)]
mod replies;
#[cfg(test)]
mod segments;
#[cfg(test)]
mod sorted;
#[cfg(test)]
mod spent;
#[cfg(test)]
mod texts;
#[cfg(test)]
mod thread_plans;
#[cfg(test)]
mod wires;
#[cfg(test)]
mod writers;
