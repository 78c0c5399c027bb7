//! What a role has to permit for an ask.

ghost use Rattle.std.specs.Prelude.{◌≡◌, IfOk};
ghost use Rattle.misp_model.specs.Permission.{change_permission, permission_of, no_permission};

use crate::ask::Ask;
use crate::change::Change;
use misp_elem::NoMemory;
use misp_ids::{Refusal, RuleName, Text};
use misp_orgs::Perm;
use std::alloc::Global;

fn change_permission(change: &Change) -> Perm
    ensures { result ≡ change_permission change.now }
{
    match change {
        Change::Publish { .. } => Perm::Publish,
        Change::AddEvent(_) | Change::AddParts { .. } => Perm::Write,
        Change::EditEvent { .. } | Change::EditAttribute { .. } => Perm::Write,
        Change::EditObject { .. } | Change::Delete { .. } => Perm::Write,
        Change::DeleteReference { .. } | Change::DeleteEvent { .. } => Perm::Write,
        Change::Tag { .. } | Change::Untag { .. } => Perm::Write,
    }
}

/// What a role has to permit for an ask.
pub fn permission_for(ask: &Ask) -> Perm
    ensures { result ≡ permission_of ask.now }
{
    match ask {
        Ask::View { .. } | Ask::Index(_) | Ask::Search { .. } | Ask::Groups => Perm::Read,
        Ask::Change(change) => change_permission(change),
        Ask::Propose(_) => Perm::Propose,
        Ask::Judge { .. } => Perm::Write,
        Ask::Sight { .. } => Perm::Sight,
        Ask::SyncGroups
        | Ask::SyncEvents
        | Ask::SyncPart { .. }
        | Ask::SyncManifest
        | Ask::SyncRows(_)
        | Ask::TakePart(_) => Perm::Sync,
    }
}

/// The refusal of what a role does not permit.
pub fn no_permission(alloc: Global, perm: Perm) -> Result<Refusal, NoMemory>
    ensures { IfOk result (λ refusal. refusal ≡ no_permission perm) }
{
    Ok(Refusal {
        name: RuleName::NoPermission,
        place: Text::of(String::from_str(alloc, perm.text())?),
    })
}
