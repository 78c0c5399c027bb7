//! Reads manifests as the list of their parts.

ghost use Rattle.std.specs.Prelude.{◌≡◌, IfOk, IfSome, option_map};
ghost use Rattle.misp_protocol.specs.Parts.{IsListed, parts_listed};
ghost use Rattle.misp_client.specs.Bodies.{manifest_in};

use misp_elem::DecodeFault;
use misp_ids::{Items, NoMemory};
use misp_protocol::{PartKeys, parts_listed};
use std::alloc::Global;

/// The parts of the manifest that a body spells.
#[tactic(auto, unfolding(crate::specs::Bodies::manifest_in))]
pub(crate) fn read_manifest(alloc: Global, body: &[u8]) -> Result<Option<Items<PartKeys>>, NoMemory>
    ensures value { IfOk result (λ found. found ≡ option_map parts_listed (manifest_in body.now)) }
    ensures fits { IfOk result (λ found. IfSome found IsListed) }
{
    match misp_wanted::read_manifest(alloc, body) {
        Ok(events) => Ok(Some(Items::of(parts_listed(alloc, events)?))),
        Err(DecodeFault::NoMemory) => Err(NoMemory),
        Err(DecodeFault::BadRow { .. }) => Ok(None),
    }
}
