//! Who may ask an instance.

ghost use Rattle.std.specs.List.{AllByRecursion};
ghost use Rattle.misp_ids.specs.Uid.{IsUid};
ghost use Rattle.misp_core.specs.Callers.{IsOwned};

use misp_ids::OrgId;
use misp_orgs::HeldKey;

// Shows that this is an identifier.
fn is_identifier(org: &OrgId)
    ensures { IsUid org.now.0 }
{
    let _number = org.0.0;
}

/// Shows that each of these keys is of an organisation.
#[tactic(auto, using(crate::proofs::Owners::keys_all))]
pub(crate) fn keys_are_owned(keys: &[HeldKey])
    ensures { AllByRecursion IsOwned keys.now }
{
    for held in keys {
        is_identifier(&held.record().org);
    }
}
