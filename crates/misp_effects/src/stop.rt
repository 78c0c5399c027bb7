//! What stops a command.

/// The instance that is asked, or its peer.
#[derive(Clone, Copy, PartialEq, Eq)]
pub enum Side {
    Here,
    There,
}

/// What stopped a command: a keeper that failed, memory that ran out, or a carry that failed.
#[derive(Clone, Copy, PartialEq, Eq)]
pub enum Stop {
    Keeper(Side),
    Memory(Side),
    Carry,
}
