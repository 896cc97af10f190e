//! The limits of a group, named once.

/// The most members of a group.
pub const MAX_MEMBERS: u8 = 7;

/// The most threads of a plan.
pub const MAX_THREADS: usize = 16;

/// The most calls of a plan, over all its threads.
pub const MAX_CALLS: u64 = 1_000;

/// The most calls of a plan that ask for a change of the ordering protocol.
pub const MAX_CHANGES: u64 = 32;

/// The highest version of the ordering protocol that a group reaches.
pub const MAX_VERSION: u16 = 1_000;

/// The most bytes of a payload.
pub const MAX_PAYLOAD: usize = 256;

/// The most messages of one member that were accepted and are absent from its log.
pub const MAX_UNDELIVERED: usize = 64;

/// The most items of a batch.
pub const MAX_BATCH: usize = 32;
