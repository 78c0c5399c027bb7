//! Why what is held was not read.

ghost use Rattle.std.specs.Prelude.{◌≡◌};

use misp_elem::NoMemory;
use misp_ids::Items;
use misp_outside::KeeperFault;
use std::alloc::{AllocError, AllocFailed};

/// Why rows were not read.
#[derive(Drop)]
pub(crate) enum RowFault {
    /// The bytes under this name are no row's, or those of a row of another event or name.
    BadRow { name: Items<u8> },
    NoMemory,
}

impl From<NoMemory> for RowFault {
    ghost use Rattle.misp_store.specs.declared.fault.RowFault.TheVariants.{NoMemory};

    ghost from_gives = { λ _ fault. fault ≡ NoMemory };

    fn from(_error: NoMemory) -> RowFault {
        RowFault::NoMemory
    }
}

impl From<AllocError> for RowFault {
    ghost use Rattle.misp_store.specs.declared.fault.RowFault.TheVariants.{NoMemory};

    ghost from_gives = { λ _ fault. fault ≡ NoMemory };

    fn from(_error: AllocError) -> RowFault {
        RowFault::NoMemory
    }
}

impl<T: Drop> From<AllocFailed<T>> for RowFault {
    ghost use Rattle.misp_store.specs.declared.fault.RowFault.TheVariants.{NoMemory};

    ghost from_gives = { λ _ fault. fault ≡ NoMemory };

    fn from(_error: AllocFailed<T>) -> RowFault {
        RowFault::NoMemory
    }
}

/// Why what a keeper holds was not loaded.
#[derive(Drop)]
pub enum LoadFault {
    KeeperFault,
    /// What is held under this name is no row, or no group's row.
    BadRow { name: Items<u8> },
    NoMemory,
}

impl From<KeeperFault> for LoadFault {
    ghost use Rattle.misp_store.specs.Loading.{stopped};

    ghost from_gives = { λ stop fault. fault ≡ stopped stop };

    fn from(error: KeeperFault) -> LoadFault {
        match error {
            KeeperFault::Failed => LoadFault::KeeperFault,
            KeeperFault::NoMemory => LoadFault::NoMemory,
        }
    }
}

impl From<RowFault> for LoadFault {
    ghost use Rattle.misp_store.specs.Loading.{unread};

    ghost from_gives = { λ why fault. fault ≡ unread why };

    fn from(error: RowFault) -> LoadFault {
        match error {
            RowFault::BadRow { name } => LoadFault::BadRow { name },
            RowFault::NoMemory => LoadFault::NoMemory,
        }
    }
}

impl From<NoMemory> for LoadFault {
    ghost use Rattle.misp_store.specs.declared.fault.LoadFault.TheVariants.{NoMemory};

    ghost from_gives = { λ _ fault. fault ≡ NoMemory };

    fn from(_error: NoMemory) -> LoadFault {
        LoadFault::NoMemory
    }
}
