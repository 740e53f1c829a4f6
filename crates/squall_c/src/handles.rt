//! What C sees of a router, a view, a course and an errand: nothing but its address.
//!
//! A handle points to a room that the caller gives, of at least as many bytes as `_size` says and
//! aligned to 16. From `_open` (of an errand `_start` or `_start_at`) until `_close` a slot lies
//! there, which the caller neither reads, writes, copies nor moves, and which one call uses at a
//! time. After `_close` it is plain memory again.

/// What C sees of a router.
#[repr(C)]
#[derive(Drop)]
pub struct CRouter {
    _hidden: u8,
}

/// What C sees of a view.
#[repr(C)]
#[derive(Drop)]
pub struct CView {
    _hidden: u8,
}

/// What C sees of a course.
#[repr(C)]
#[derive(Drop)]
pub struct CCourse {
    _hidden: u8,
}

/// What C sees of an errand.
#[repr(C)]
#[derive(Drop)]
pub struct CErrand {
    _hidden: u8,
}

/// What C sees of a partition.
#[repr(C)]
#[derive(Drop)]
pub struct CPart {
    _hidden: u8,
}
