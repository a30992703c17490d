//! Assigns orders to drivers.

ghost use Rattle.std.specs.Prelude.{◌≡◌, ◌≤◌, IfOk, vec_len};

use crate::reading::Script;
use std::alloc::{AllocError, Global};

/// The assignment of an order to a driver.
#[derive(Clone, Copy)]
pub struct Assignment {
    /// The driver's number, from 0.
    pub driver: u8,
    /// The number of orders before the last `wait`; the driver waits for these.
    pub behind: usize,
}

/// Assigns a script's orders to `drivers` drivers in turn, by their line numbers.
///
/// # Errors
/// `AllocError` if memory runs out.
pub fn assignments(
    alloc: Global,
    script: &Script,
    drivers: u8,
) -> Result<Vec<Assignment>, AllocError>
    requires { 1 ≤ drivers }
    ensures { IfOk result (λ made. vec_len made ≡ vec_len script.now.orders) }
{
    let orders = script.orders.len();
    let mut made = Vec::with_capacity(alloc, orders)?;
    let mut behind = 0;
    for step in &script.steps {
        if !step.has_event {
            behind = made.len();
        } else if made.len() < orders {
            let driver = (step.line.saturating_sub(1) % u32::from(drivers)) as u8;
            made.push(Assignment { driver, behind })?;
        }
    }
    while made.len() < orders {
        made.push(Assignment { driver: 0, behind })?;
    }
    Ok(made)
}
