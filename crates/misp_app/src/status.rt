//! How a run ends.

ghost use Rattle.std.specs.Prelude.{◌≡◌};
ghost use Rattle.misp_app.specs.Status.{status_code};

use misp_ids::NoMemory;
use misp_net::NetFault;
use misp_outside::SinkFault;
use std::alloc::{AllocError, AllocFailed};

/// How a run ends.
#[derive(Clone, Copy, Debug, PartialEq, Eq)]
pub enum Status {
    /// All steps were run, all connections served, or all that passes was taken, and all lines were
    /// written.
    Done,
    /// A synchronisation was refused or stopped; its line says by what.
    Stopped,
    /// The words are not accepted.
    Usage,
    ReadFault,
    WriteFault,
    /// The text before the script is no description; a line says where and why.
    BadDescription,
    /// The instance that is to be served or synchronised is not in the description.
    NoSuchInstance,
    DoorFault,
    OutOfMemory,
    /// The source is longer than it may be.
    TooMuch,
    /// A keeper failed while an instance was opened.
    KeeperFault,
    /// A keeper holds a row of the administration that is none.
    BadRow,
}

impl Status {
    /// The exit status of the program.
    pub fn code(self) -> u8
        ensures { result ≡ status_code self }
    {
        match self {
            Status::Done => 0,
            Status::Stopped => 1,
            Status::Usage => 2,
            Status::ReadFault => 3,
            Status::WriteFault => 4,
            Status::BadDescription => 5,
            Status::NoSuchInstance => 6,
            Status::DoorFault => 7,
            Status::OutOfMemory => 8,
            Status::TooMuch => 9,
            Status::KeeperFault => 10,
            Status::BadRow => 11,
        }
    }
}

impl From<AllocError> for Status {
    ghost use Rattle.misp_app.specs.declared.status.Status.TheVariants.{OutOfMemory};

    ghost from_gives = { λ _ status. status ≡ OutOfMemory };

    fn from(_error: AllocError) -> Status {
        Status::OutOfMemory
    }
}

impl<T: Drop> From<AllocFailed<T>> for Status {
    ghost use Rattle.misp_app.specs.declared.status.Status.TheVariants.{OutOfMemory};

    ghost from_gives = { λ _ status. status ≡ OutOfMemory };

    fn from(_error: AllocFailed<T>) -> Status {
        Status::OutOfMemory
    }
}

impl From<NoMemory> for Status {
    ghost use Rattle.misp_app.specs.declared.status.Status.TheVariants.{OutOfMemory};

    ghost from_gives = { λ _ status. status ≡ OutOfMemory };

    fn from(_error: NoMemory) -> Status {
        Status::OutOfMemory
    }
}

impl From<SinkFault> for Status {
    ghost use Rattle.misp_app.specs.declared.status.Status.TheVariants.{WriteFault};

    ghost from_gives = { λ _ status. status ≡ WriteFault };

    fn from(_error: SinkFault) -> Status {
        Status::WriteFault
    }
}

impl From<NetFault> for Status {
    ghost use Rattle.misp_app.specs.Status.{status_after};

    ghost from_gives = { λ fault status. status ≡ status_after fault };

    fn from(fault: NetFault) -> Status {
        match fault {
            NetFault::KeeperFault => Status::KeeperFault,
            NetFault::BadRow => Status::BadRow,
            NetFault::NoMemory => Status::OutOfMemory,
        }
    }
}
