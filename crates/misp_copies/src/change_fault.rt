//! Why an event or a part of it is not changed, or a statement not taken.

ghost use Rattle.std.specs.Prelude.{◌≡◌};
ghost use Rattle.misp_copies.specs.declared.change_fault.ChangeFault.TheVariants.{NoMemory};

use misp_ids::{ElemId, GroupId, NoMemory, Uid};
use std::alloc::{AllocError, AllocFailed};

/// Why an event or a part of it is not changed, or a statement not taken.
#[derive(Clone, Copy, PartialEq, Eq)]
pub enum ChangeFault {
    /// The caller sees no such event, or its copy has no such live element.
    NotGranted,
    /// The caller sees the event and has no copy of it.
    NotOwner,
    /// The caller's copy came by a synchronisation.
    LockedCopy,
    /// The caller's copy is deleted.
    EventGone,
    /// There is an element or a sighting of this uuid.
    ElementExists(ElemId),
    /// The caller may not use this group.
    GroupNotUsable(GroupId),
    /// The edit is of an older row.
    OlderTime,
    /// The row has the last stamp.
    TimeLimit,
    /// The caller has proposed this.
    ProposalExists,
    /// The caller has judged this proposal.
    ProposalClosed,
    /// The element would be too long.
    ElementFull,
    /// Memory ran out.
    NoMemory,
}

impl From<NoMemory> for ChangeFault {
    ghost from_gives = { λ _ fault. fault ≡ NoMemory };

    fn from(_error: NoMemory) -> ChangeFault {
        ChangeFault::NoMemory
    }
}

impl From<AllocError> for ChangeFault {
    ghost from_gives = { λ _ fault. fault ≡ NoMemory };

    fn from(_error: AllocError) -> ChangeFault {
        ChangeFault::NoMemory
    }
}

impl<T: Drop> From<AllocFailed<T>> for ChangeFault {
    ghost from_gives = { λ _ fault. fault ≡ NoMemory };

    fn from(_error: AllocFailed<T>) -> ChangeFault {
        ChangeFault::NoMemory
    }
}
