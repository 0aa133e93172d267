//! The marks around a call.

use std::alloc::Global;

/// The size of the allocation before a call. No call allocates this size.
const BEFORE: usize = 7919;

/// The size of the allocation after a call.
const AFTER: usize = 7927;

/// Marks the beginning of a call.
pub fn begin(alloc: Global) {
    mark(alloc, BEFORE);
}

/// Marks the end of a call.
pub fn end(alloc: Global) {
    mark(alloc, AFTER);
}

/// Allocates memory of this size, and frees it.
fn mark(alloc: Global, size: usize) {
    let _ = Vec::<u8>::with_capacity(alloc, size);
}
