//! Why an event is not added.

ghost use Rattle.std.specs.Prelude.{◌≡◌};
ghost use Rattle.misp_edit.specs.declared.fault.AddFault.TheVariants.{NoMemory};

use misp_ids::{NoMemory, Refusal};

/// Why an event is not added.
#[derive(Drop)]
pub enum AddFault {
    /// A rule refuses it.
    Refused(Refusal),
    /// Memory ran out.
    NoMemory,
}

impl From<NoMemory> for AddFault {
    ghost from_gives = { λ _ fault. fault ≡ NoMemory };

    fn from(_error: NoMemory) -> AddFault {
        AddFault::NoMemory
    }
}
