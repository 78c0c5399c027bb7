//! What a command is planned to do.

ghost use Rattle.std.specs.Prelude.{◌≡◌, None};

use crate::reply::Answer;
use misp_elem::{NoMemory, Row};
use misp_groups::Group;
use misp_ids::{Items, Refusal};
use std::alloc::{AllocError, AllocFailed};

/// What is put at once.
#[derive(Drop)]
pub struct Batch {
    pub(crate) rows: Items<Row>,
    pub(crate) groups: Items<Group>,
}

/// What is answered once the batch is put.
#[derive(Drop)]
pub struct Plan {
    pub(crate) answer: Answer,
    pub(crate) batch: Option<Batch>,
}

impl Plan {
    /// What is answered, and what is put before it is.
    pub fn into_parts(self) -> (Answer, Option<Batch>)
        ensures answer { result.0 ≡ self.answer }
        ensures batch { result.1 ≡ self.batch }
    {
        let Plan { answer, batch } = self;
        (answer, batch)
    }
}

/// An answer for which nothing is put.
pub(crate) fn told(answer: Answer) -> Plan
    ensures { result ≡ record { answer = answer; batch = None } }
{
    Plan {
        answer,
        batch: None,
    }
}

/// Why nothing is planned.
#[derive(Drop)]
pub enum NoPlan {
    Refused(Refusal),
    /// The keeper failed while rows were read.
    KeeperFault,
    NoMemory,
}

impl From<NoMemory> for NoPlan {
    ghost use Rattle.std.specs.Prelude.{◌≡◌};
    ghost use Rattle.misp_core.specs.declared.planning.NoPlan.TheVariants as why;

    ghost from_gives = { λ _ fault. fault ≡ why.NoMemory };

    fn from(_error: NoMemory) -> NoPlan {
        NoPlan::NoMemory
    }
}

impl From<AllocError> for NoPlan {
    ghost use Rattle.std.specs.Prelude.{◌≡◌};
    ghost use Rattle.misp_core.specs.declared.planning.NoPlan.TheVariants as why;

    ghost from_gives = { λ _ fault. fault ≡ why.NoMemory };

    fn from(_error: AllocError) -> NoPlan {
        NoPlan::NoMemory
    }
}

impl<T: Drop> From<AllocFailed<T>> for NoPlan {
    ghost use Rattle.std.specs.Prelude.{◌≡◌};
    ghost use Rattle.misp_core.specs.declared.planning.NoPlan.TheVariants as why;

    ghost from_gives = { λ _ fault. fault ≡ why.NoMemory };

    fn from(_error: AllocFailed<T>) -> NoPlan {
        NoPlan::NoMemory
    }
}
