//! The heap, which refuses the request that it is told to (`tools/refusing_heap.c`).

use std::alloc::{AllocError, Global};

/// A request of so many bytes or more is an order, and is refused itself.
const ORDERS: usize = 70_368_744_177_664;

/// Has the request of this number refused, as they come from now on.
pub(crate) fn refuse(alloc: Global, number: usize) {
    let _is_refused = has_room(alloc, ORDERS.saturating_add(number));
}

/// Has none refused any more, and answers whether that request came.
pub(crate) fn was_refused(alloc: Global) -> bool {
    refuse(alloc, 0);
    !has_room(alloc, 1)
}

/// Whether the heap does what it is told.
pub(crate) fn is_obeyed(alloc: Global) -> bool {
    refuse(alloc, 2);
    let is_first_given = has_room(alloc, 1);
    let is_second_given = has_room(alloc, 1);
    let is_third_given = has_room(alloc, 1);
    let came = was_refused(alloc);
    refuse(alloc, 1);
    is_first_given && !is_second_given && is_third_given && came && !was_refused(alloc)
}

/// Whether a request for so many bytes is granted.
fn has_room(alloc: Global, bytes: usize) -> bool {
    let room: Result<Vec<u8>, AllocError> = Vec::with_capacity(alloc, bytes);
    room.is_ok()
}
