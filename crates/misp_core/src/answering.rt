//! Why nothing is planned where a request is not permitted, or nothing is read.

ghost use Rattle.std.specs.Prelude.{◌≡◌, Err};
ghost use Rattle.misp_effects.specs.Effect.{Effect};
ghost use Rattle.misp_core.specs.Answers.{bad_row};
ghost use Rattle.misp_model.specs.Permission.{no_permission};
ghost use Rattle.misp_core.specs.Effects.{refused};
ghost use Rattle.misp_core.specs.Planning.{Plans, IsPlanned};
ghost use Rattle.misp_core.specs.Handing.{IsUnread, TellsFault};
ghost use Rattle.misp_core.specs.declared.reply.Reply.{Reply as Answered};

use crate::planning::NoPlan;
use misp_elem::NoMemory;
use misp_ids::{Refusal, RuleName, Text};
use misp_model::no_permission;
use misp_orgs::Perm;
use misp_store::LoadFault;
use std::alloc::Global;

/// The refusal of what a role does not permit.
pub(crate) fn forbidden(alloc: Global, perm: Perm) -> NoPlan
    ensures { Plans (Err result) (refused (no_permission perm)) }
{
    match no_permission(alloc, perm) {
        Ok(refusal) => NoPlan::Refused(refusal),
        Err(NoMemory) => NoPlan::NoMemory,
    }
}

// The refusal that names a row which does not decode.
fn bad_row(alloc: Global, name: &[u8]) -> NoPlan
    ensures { Plans (Err result) (refused (bad_row name.now)) }
{
    match hex::encode(alloc, name) {
        Ok(place) => NoPlan::Refused(Refusal {
            name: RuleName::BadRow,
            place: Text::of(place),
        }),
        Err(_) => NoPlan::NoMemory,
    }
}

/// Why nothing is planned where the rows were not read.
pub(crate) fn unread(alloc: Global, fault: LoadFault) -> NoPlan
    ensures plans { (e : Effect Answered) → IsUnread fault e → IsPlanned (Err result) e }
    ensures told { TellsFault fault result }
{
    match fault {
        LoadFault::KeeperFault => NoPlan::KeeperFault,
        LoadFault::BadRow { name } => bad_row(alloc, name.as_slice()),
        LoadFault::NoMemory => NoPlan::NoMemory,
    }
}
