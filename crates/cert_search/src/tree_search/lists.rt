//! Lists that grow.

use std::alloc::{AllocError, Allocator};

/// Appends an element.
pub fn append<T: Drop, B: Allocator>(list: &mut Vec<T, B>, value: T) -> Result<(), AllocError> {
    list.reserve(1)?;
    list.push_reserved(value);
    Ok(())
}
