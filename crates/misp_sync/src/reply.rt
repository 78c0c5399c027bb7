//! What a synchronisation is told.

use misp_protocol::{Cause, SyncCount};

/// What a synchronisation is told.
#[derive(Drop)]
pub enum SyncReply {
    /// All that passes was taken, so far as it is new.
    Done(SyncCount),
    /// So much was taken before this refused or stopped it.
    Stopped { count: SyncCount, cause: Cause },
}
