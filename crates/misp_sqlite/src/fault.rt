//! What a refused statement comes to.

ghost use Rattle.std.specs.Prelude.{◌≡◌, ◌↔◌};

use misp_outside::KeeperFault;
use sqlite::{Error, ErrorCode};

/// A statement that was refused for memory, or for another cause.
pub(crate) fn fault_of(error: Error) -> KeeperFault
    ensures { result ≡ KeeperFault.NoMemory ↔
        error ≡ Error.SqliteFailure ErrorCode.OutOfMemory }
{
    match error {
        Error::SqliteFailure(ErrorCode::OutOfMemory) => KeeperFault::NoMemory,
        _ => KeeperFault::Failed,
    }
}
