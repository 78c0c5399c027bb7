//! Tells what a site administrator makes, and puts it.

ghost use Rattle.std.specs.Prelude.{◌≡◌, ◌⊎◌, ◌≤◌, ◌<◌, ◌++◌, true, false, None, Err, IfOk, IfErr, OnOk, OnErr, length, vec_len, vec_capacity};
ghost use Rattle.misp_outside.specs.Causes.{Rose};
ghost use Rattle.misp_outside.specs.Reporting.{StaysHeld, WhereReported};
ghost use Rattle.misp_core.specs.Effects.{Did, IsRefused, by_keeper, stop_in};
ghost use Rattle.misp_core.specs.Managing.{item_made};
ghost use Rattle.misp_core.specs.Planning.{stop_planned, unplanned};
ghost use Rattle.misp_core.specs.Sound.{IsSound};
ghost use Rattle.misp_core.specs.Text.{has_octets, reply_text};
ghost use Rattle.misp_core.specs.declared.reply.Reply.{Reply as Answered};
ghost use Rattle.misp_effects.specs.Effect.{Effect};
ghost use Rattle.misp_api.specs.Planned.{IsSoundPlan, PlansCommand, made_after, planned_after};
ghost use Rattle.misp_api.specs.declared.TheConstants.{CHANGE_TEXT};

use crate::planned::Planned;
use crate::telling::{stop_text, take_back, tell, write_answer};
use misp_admins::Item;
use misp_core::{Answer, Instance, NoPlan, Reply};
use misp_ids::NoMemory;
use misp_outside::Keeper;
use std::alloc::Global;

// Writes that one was taken, and then puts the item. Where it is not put, its refusal is answered.
fn tell_made<K: Keeper>(
    text: &mut Vec<u8>,
    alloc: Global,
    instance: &mut Instance<K>,
    item: Item,
) -> Result<Reply, NoMemory>
    ensures text { IfOk result (λ reply. text.new.items ≡ text.old.items ++ reply_text reply) }
    ensures room { OnOk result (vec_len text.new < vec_capacity text.new) }
    ensures short { IfOk result (λ reply. length (reply_text reply) ≤ CHANGE_TEXT) }
    ensures no_octets { IfOk result (λ reply. has_octets reply ≡ false) }
    ensures done { IfOk result (λ reply. WhereReported instance.old.held instance.new.held
        (λ held new. Did (item_made item) held reply new)) }
    ensures silent { instance.old.held ≡ None → instance.new.held ≡ None }
    ensures sound { IfOk result IsSound }
    ensures refused { IfOk result (λ reply.
        IsRefused reply → StaysHeld instance.old.held instance.new.held) }
    ensures later { instance.old.faults ≤ instance.new.faults }
    ensures rose { IfOk result (λ reply. stop_in reply ≡ by_keeper →
        Rose instance.old.faults instance.new.faults) }
    ensures name { instance.new.name ≡ instance.old.name }
    ensures admin { IfOk result (λ reply.
        instance.new.admin ≡ made_after item instance.old.admin reply) }
    ensures err { OnErr result (instance.new ≡ instance.old) }
{
    let start = text.len();
    let reply = write_answer(text, alloc, Answer::Taken(1))?;
    match instance.manage(alloc, item) {
        Ok(()) => Ok(reply),
        Err(stop) => {
            take_back(text, start, stop_text(stop).as_bytes());
            Ok(Reply::stopped_by(alloc, stop))
        }
    }
}

/// Tells what was planned, and puts it. The text of the reply is written before anything is put.
pub(crate) fn tell_planned<K: Keeper>(
    text: &mut Vec<u8>,
    alloc: Global,
    instance: &mut Instance<K>,
    planned: Result<Planned, NoPlan>,
) -> Result<Reply, NoMemory>
    ensures text { IfOk result (λ reply. text.new.items ≡ text.old.items ++ reply_text reply) }
    ensures room { OnOk result (vec_len text.new < vec_capacity text.new) }

    // Where memory runs out for the text, or it is longer than that of any change, nothing is put.
    ensures kept { IfOk result (λ reply. CHANGE_TEXT < length (reply_text reply)) →
        StaysHeld instance.old.held instance.new.held }
    ensures octets { IfOk result (λ reply.
        has_octets reply ≡ true → StaysHeld instance.old.held instance.new.held) }

    // Else the reply and what is put are those of the plan.
    ensures done { (e : Effect Answered) → PlansCommand planned e → IfOk result (λ reply.
        WhereReported instance.old.held instance.new.held
        (λ held new. Did e held reply new)) }
    ensures unplanned { IfErr planned (λ why. IfOk result (λ reply. reply ≡ unplanned why)) }
    ensures still { OnErr planned (instance.new ≡ instance.old) }
    ensures refused { IfOk result (λ reply.
        IsRefused reply → StaysHeld instance.old.held instance.new.held) }
    ensures silent { instance.old.held ≡ None → instance.new.held ≡ None }
    ensures sound { IfOk planned IsSoundPlan → IfOk result IsSound }

    // A fault of the keeper that is told was met in planning, or now.
    ensures later { instance.old.faults ≤ instance.new.faults }
    ensures rose { IfOk result (λ reply. stop_in reply ≡ by_keeper →
        (stop_planned planned ≡ by_keeper) ⊎ Rose instance.old.faults instance.new.faults) }
    ensures name { instance.new.name ≡ instance.old.name }

    // What a site administrator makes is put, and nothing else changes the administration.
    ensures admin { IfOk result (λ reply.
        instance.new.admin ≡ planned_after planned instance.old.admin reply) }
    ensures unchanged { IfOk result (λ reply. CHANGE_TEXT < length (reply_text reply)) →
        instance.new.admin ≡ instance.old.admin }
{
    match planned {
        Ok(Planned::Rows(plan)) => tell(text, alloc, instance, Ok(plan)),
        Ok(Planned::Made(item)) => tell_made(text, alloc, instance, item),
        Err(why) => tell(text, alloc, instance, Err(why)),
    }
}
