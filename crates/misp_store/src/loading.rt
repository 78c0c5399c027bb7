//! Rows, as they are loaded from a keeper.

ghost use Rattle.std.specs.Prelude.{◌≡◌, Ok, Err, IfOk, IfErr, IfSome, IsTrue};
ghost use Rattle.misp_model.specs.View.{IsTable};
ghost use Rattle.misp_outside.specs.Causes.{HasCause, StaysUnless};
ghost use Rattle.misp_outside.specs.Reporting.{StaysHeld};
ghost use Rattle.misp_lists.specs.Order.{ascend};
ghost use Rattle.misp_outside.specs.Held.{comes_before};
ghost use Rattle.misp_store.specs.Loading.{NamesFault};
ghost use Rattle.misp_store.specs.Seeking.{IsInOrder};
ghost use Rattle.misp_store.specs.Seen.{rows_within, seen_in};

use crate::fault::LoadFault;
use crate::reach::Reach;
use crate::rows::decode_rows;
use crate::seeking::seek;
use misp_elem::Row;
use misp_outside::{Keeper, KeeperFault, RawRow};
use std::alloc::Global;

// What is held within a reach.
#[tactic(auto, unfolding(misp_lists::specs::Order::ascend, misp_elem::specs::Spelling::uid))]
fn held_within<K: Keeper>(
    keeper: &mut K,
    alloc: Global,
    reach: &Reach,
) -> Result<Vec<RawRow>, KeeperFault>
    requires { IsInOrder reach.now }
    ensures found { IfOk result (λ found. IfSome (K.state keeper.new).held
        (λ held. found.items ≡ rows_within reach.now held.rows)) }
    ensures order { IfOk result (λ found. IfSome (K.state keeper.new).held
        (λ _. IsTrue (ascend comes_before found.items))) }
    ensures held { StaysHeld (K.state keeper.old).held (K.state keeper.new).held }
    ensures cause { HasCause (K.state keeper.old).faults (K.state keeper.new).faults
        (result ≡ Err KeeperFault.Failed) }
    ensures stays { StaysUnless (K.state keeper.old).faults (K.state keeper.new).faults
        (result ≡ Err KeeperFault.Failed) }
    ensures unasked { reach.now ≡ Reach.Nothing → keeper.new ≡ keeper.old }
{
    match reach {
        Reach::Nothing => Ok(Vec::new(alloc)),
        Reach::Own(org, event) => keeper.load_named(alloc, event, org.0.0.to_be_bytes().as_slice()),
        Reach::Looked(looks) => seek(keeper, alloc, looks),
        Reach::Event(event) => keeper.load_event(alloc, event),
        Reach::All => keeper.load_all(alloc),
    }
}

/// The rows that the keeper holds within a reach.
pub fn load<K: Keeper>(keeper: &mut K, alloc: Global, reach: &Reach) -> Result<Vec<Row>, LoadFault>
    requires { IsInOrder reach.now }
    ensures found { IfOk result (λ found. IfSome (K.state keeper.new).held
        (λ held. (seen_in held).rows reach.now ≡ Ok found.items)) }
    ensures table { IfOk result (λ found. IfSome (K.state keeper.new).held
        (λ _. IsTable found.items)) }
    ensures bad { IfErr result (λ fault. IfSome (K.state keeper.new).held
        (λ held. NamesFault ((seen_in held).rows reach.now) fault)) }
    ensures held { StaysHeld (K.state keeper.old).held (K.state keeper.new).held }
    ensures cause { HasCause (K.state keeper.old).faults (K.state keeper.new).faults
        (result ≡ Err LoadFault.KeeperFault) }
    ensures stays { StaysUnless (K.state keeper.old).faults (K.state keeper.new).faults
        (result ≡ Err LoadFault.KeeperFault) }

    // Of nothing no keeper is asked.
    ensures unasked { reach.now ≡ Reach.Nothing → keeper.new ≡ keeper.old }
{
    let held = held_within(keeper, alloc, reach)?;
    Ok(decode_rows(alloc, &held)?)
}
