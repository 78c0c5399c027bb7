//! Tells what was planned, and puts it.

ghost use Rattle.std.specs.Prelude.{◌≡◌, true, false, ◌⊎◌, ◌+◌, ◌<◌, ◌≤◌, ◌++◌, None, Some, Err, IfOk, IfErr, OnOk, OnErr, length, take, vec_len, vec_capacity};
ghost use Rattle.misp_outside.specs.Causes.{Rose, HasCause};
ghost use Rattle.misp_outside.specs.Reporting.{StaysHeld, WhereReported};
ghost use Rattle.misp_outside.specs.Held.{with_batch};
ghost use Rattle.misp_effects.specs.Effect.{Effect};
ghost use Rattle.misp_store.specs.Batches.{spelled};
ghost use Rattle.misp_store.specs.Sharing.{AreStorable};
ghost use Rattle.misp_core.specs.Effects.{Did, IsRefused, refused_by, rule_of_stop, stop_in, by_keeper};
ghost use Rattle.misp_core.specs.Planning.{IsPlan, IsPlanned, batch_of, unplanned, stop_planned};
ghost use Rattle.misp_core.specs.declared.planning.Plan.{Plan as Planned};
ghost use Rattle.misp_core.specs.declared.reply.Reply.{Reply as Answered};
ghost use Rattle.misp_core.specs.Sound.{IsSound, IsSoundAnswer};
ghost use Rattle.misp_core.specs.Text.{has_octets, reply_text};
ghost use Rattle.misp_api.specs.declared.TheConstants.{CHANGE_TEXT};
ghost use Rattle.misp_api.specs.declared.telling.TheConstants.{STOP_TEXT};

use crate::CHANGE_TEXT;
use crate::reply::{has_octets, put_reply};
use misp_core::{Answer, Batch, Instance, NoPlan, Plan, Reply};
use misp_ids::NoMemory;
use misp_outside::{Keeper, KeeperFault};
use std::alloc::Global;

// Writes a reply, and takes room for one byte after it.
fn put_told(text: &mut Vec<u8>, alloc: Global, reply: &Reply) -> Result<(), NoMemory>
    ensures text { OnOk result (text.new.items ≡ text.old.items ++ reply_text reply.now) }
    ensures room { OnOk result (vec_len text.new < vec_capacity text.new) }
{
    put_reply(text, alloc, reply)?;
    Ok(text.reserve(1)?)
}

/// Writes a reply, and takes room for one byte after it.
pub(crate) fn told(text: &mut Vec<u8>, alloc: Global, reply: Reply) -> Result<Reply, NoMemory>
    ensures reply { IfOk result (λ told. told ≡ reply) }
    ensures text { OnOk result (text.new.items ≡ text.old.items ++ reply_text reply) }
    ensures room { OnOk result (vec_len text.new < vec_capacity text.new) }
{
    match put_told(text, alloc, &reply) {
        Ok(()) => Ok(reply),
        Err(stop) => Err(stop),
    }
}

/// The most bytes in the text of the refusal of what a keeper stopped.
pub(crate) const STOP_TEXT: usize = 47;

/// The text of the refusal of what a keeper stopped.
pub(crate) fn stop_text(stop: KeeperFault) -> &'static str
    ensures text { result.now ≡ reply_text (refused_by (rule_of_stop stop)) }
    ensures short { length result.now ≤ STOP_TEXT }
{
    match stop {
        KeeperFault::Failed => "503 {\"name\":\"KeeperFault\",\"place\":\"\",\"rule\":26}",
        KeeperFault::NoMemory => "507 {\"name\":\"NoMemory\",\"place\":\"\",\"rule\":27}",
    }
}

/// Writes a text in place of what is after the start. It takes no memory.
pub(crate) fn take_back(text: &mut Vec<u8>, start: usize, instead: &[u8])
    requires start { start ≤ vec_len text.old }
    requires room { start + length instead.now < vec_capacity text.old }
    ensures text { text.new.items ≡ take start text.old.items ++ instead.now }
    ensures room { vec_len text.new < vec_capacity text.new }
{
    text.truncate(start);
    text.extend_from_slice(instead).unwrap();
}

// Writes the reply to a change, with room for each refusal after it, and for one byte more. So any
// of them fits in place of it. One that is longer than the answer to any change is given no memory,
// and neither are octets.
fn put_change(text: &mut Vec<u8>, alloc: Global, reply: &Reply) -> Result<(), NoMemory>
    ensures text { OnOk result (text.new.items ≡ text.old.items ++ reply_text reply.now) }
    ensures room { OnOk result (vec_len text.new + STOP_TEXT < vec_capacity text.new) }
    ensures short { OnOk result (length (reply_text reply.now) ≤ CHANGE_TEXT) }
    ensures no_octets { OnOk result (has_octets reply.now ≡ false) }
{
    if has_octets(reply) {
        return Err(NoMemory);
    }
    let start = text.len();
    put_reply(text, alloc, reply)?;
    if text.len().saturating_sub(start) > CHANGE_TEXT {
        return Err(NoMemory);
    }
    Ok(text.reserve(STOP_TEXT + 1)?)
}

/// Writes an answer to a change, with room for what may take its place.
pub(crate) fn write_answer(
    text: &mut Vec<u8>,
    alloc: Global,
    answer: Answer,
) -> Result<Reply, NoMemory>
    ensures reply { IfOk result (λ reply. reply ≡ Answered.Ok answer) }
    ensures text { OnOk result
        (text.new.items ≡ text.old.items ++ reply_text (Answered.Ok answer)) }
    ensures room { OnOk result (vec_len text.new + STOP_TEXT < vec_capacity text.new) }
    ensures short { OnOk result (length (reply_text (Answered.Ok answer)) ≤ CHANGE_TEXT) }
    ensures no_octets { OnOk result (has_octets (Answered.Ok answer) ≡ false) }
{
    let reply = Reply::Ok(answer);
    match put_change(text, alloc, &reply) {
        Ok(()) => Ok(reply),
        Err(stop) => Err(stop),
    }
}

// Puts a batch. Where it is not put, its refusal stands in place of what is after the start. It
// takes no memory for that.
fn put_or_refuse<K: Keeper>(
    text: &mut Vec<u8>,
    alloc: Global,
    instance: &mut Instance<K>,
    start: usize,
    put: Batch,
) -> Result<(), KeeperFault>
    requires start { start ≤ vec_len text.old }
    requires room { vec_len text.old + STOP_TEXT < vec_capacity text.old }
    ensures left { OnOk result (text.new.items ≡ text.old.items) }
    ensures text { IfErr result (λ stop. text.new.items ≡
        take start text.old.items ++ reply_text (refused_by (rule_of_stop stop))) }
    ensures room { vec_len text.new < vec_capacity text.new }
    ensures put { OnOk result (WhereReported instance.old.held instance.new.held
        (λ held new. new ≡ with_batch (spelled (batch_of put)) held)) }
    ensures storable { OnOk result (AreStorable put.groups) }
    ensures err { OnErr result (StaysHeld instance.old.held instance.new.held) }
    ensures cause { HasCause instance.old.faults instance.new.faults
        (result ≡ Err KeeperFault.Failed) }
    ensures name { instance.new.name ≡ instance.old.name }
    ensures admin { instance.new.admin ≡ instance.old.admin }
{
    match instance.settle(alloc, put) {
        Ok(()) => Ok(()),
        Err(stop) => {
            take_back(text, start, stop_text(stop).as_bytes());
            Err(stop)
        }
    }
}

// Puts the batch of an answer that is written. Where it is not put, its refusal is answered.
fn settled<K: Keeper>(
    text: &mut Vec<u8>,
    alloc: Global,
    instance: &mut Instance<K>,
    start: usize,
    reply: Reply,
    put: Batch,
) -> Reply
    requires answer { IsRefused reply → ⊥ }
    requires start { start ≤ vec_len text.old }
    requires text { text.old.items ≡ take start text.old.items ++ reply_text reply }
    requires room { vec_len text.old + STOP_TEXT < vec_capacity text.old }
    requires short { length (reply_text reply) ≤ CHANGE_TEXT }
    requires no_octets { has_octets reply ≡ false }
    ensures text { text.new.items ≡ take start text.old.items ++ reply_text result }
    ensures room { vec_len text.new < vec_capacity text.new }
    ensures done { (p : Planned) (e : Effect Answered) → reply ≡ Answered.Ok p.answer →
        p.batch ≡ Some put → IsPlan p e →
        WhereReported instance.old.held instance.new.held
        (λ held new. Did e held result new) }
    ensures refused { IsRefused result → StaysHeld instance.old.held instance.new.held }
    ensures long { CHANGE_TEXT < length (reply_text result) →
        StaysHeld instance.old.held instance.new.held }
    ensures octets { has_octets result ≡ true → StaysHeld instance.old.held instance.new.held }
    ensures silent { instance.old.held ≡ None → instance.new.held ≡ None }
    ensures sound { IsSound reply → IsSound result }
    ensures cause { HasCause instance.old.faults instance.new.faults
        (stop_in result ≡ by_keeper) }
    ensures name { instance.new.name ≡ instance.old.name }
    ensures admin { instance.new.admin ≡ instance.old.admin }
{
    match put_or_refuse(text, alloc, instance, start, put) {
        Ok(()) => reply,
        Err(stop) => Reply::stopped_by(alloc, stop),
    }
}

// Writes an answer, and then puts its batch.
fn told_and_put<K: Keeper>(
    text: &mut Vec<u8>,
    alloc: Global,
    instance: &mut Instance<K>,
    answer: Answer,
    put: Batch,
) -> Result<Reply, NoMemory>
    ensures text { IfOk result (λ reply. text.new.items ≡ text.old.items ++ reply_text reply) }
    ensures room { OnOk result (vec_len text.new < vec_capacity text.new) }
    ensures kept { IfOk result (λ reply. CHANGE_TEXT < length (reply_text reply)) →
        StaysHeld instance.old.held instance.new.held }
    ensures octets { IfOk result (λ reply.
        has_octets reply ≡ true → StaysHeld instance.old.held instance.new.held) }
    ensures done { (p : Planned) (e : Effect Answered) → p.answer ≡ answer →
        p.batch ≡ Some put → IsPlan p e → IfOk result (λ reply.
        WhereReported instance.old.held instance.new.held
        (λ held new. Did e held reply new)) }
    ensures silent { instance.old.held ≡ None → instance.new.held ≡ None }
    ensures sound { IsSoundAnswer answer → IfOk result IsSound }
    ensures refused { IfOk result (λ reply.
        IsRefused reply → StaysHeld instance.old.held instance.new.held) }
    ensures later { instance.old.faults ≤ instance.new.faults }
    ensures rose { IfOk result (λ reply. stop_in reply ≡ by_keeper →
        Rose instance.old.faults instance.new.faults) }
    ensures name { instance.new.name ≡ instance.old.name }
    ensures admin { instance.new.admin ≡ instance.old.admin }
{
    let start = text.len();
    let reply = write_answer(text, alloc, answer)?;
    Ok(settled(text, alloc, instance, start, reply, put))
}

/// Tells what was planned, and puts it. The text of the reply is written before anything is put.
pub(crate) fn tell<K: Keeper>(
    text: &mut Vec<u8>,
    alloc: Global,
    instance: &mut Instance<K>,
    planned: Result<Plan, NoPlan>,
) -> Result<Reply, NoMemory>
    ensures text { IfOk result (λ reply. text.new.items ≡ text.old.items ++ reply_text reply) }
    ensures room { OnOk result (vec_len text.new < vec_capacity text.new) }

    // Where memory runs out for the text, or it is longer than that of any change, nothing is put.
    ensures kept { IfOk result (λ reply. CHANGE_TEXT < length (reply_text reply)) →
        StaysHeld instance.old.held instance.new.held }
    ensures octets { IfOk result (λ reply.
        has_octets reply ≡ true → StaysHeld instance.old.held instance.new.held) }

    // Else reply and rows are those of the plan.
    ensures done { (e : Effect Answered) → IsPlanned planned e → IfOk result (λ reply.
        WhereReported instance.old.held instance.new.held
        (λ held new. Did e held reply new)) }
    ensures unplanned { IfErr planned (λ why. IfOk result (λ reply. reply ≡ unplanned why)) }
    ensures still { OnErr planned (instance.new ≡ instance.old) }
    ensures refused { IfOk result (λ reply.
        IsRefused reply → StaysHeld instance.old.held instance.new.held) }
    ensures silent { instance.old.held ≡ None → instance.new.held ≡ None }
    ensures sound { IfOk planned (λ plan. IsSoundAnswer plan.answer) → IfOk result IsSound }

    // A fault of the keeper that is told was met in planning, or now.
    ensures later { instance.old.faults ≤ instance.new.faults }
    ensures rose { IfOk result (λ reply. stop_in reply ≡ by_keeper →
        (stop_planned planned ≡ by_keeper) ⊎ Rose instance.old.faults instance.new.faults) }
    ensures name { instance.new.name ≡ instance.old.name }
    ensures admin { instance.new.admin ≡ instance.old.admin }
{
    match planned {
        Err(why) => told(text, alloc, Reply::unplanned(alloc, why)),
        Ok(plan) => {
            let (answer, batch) = plan.into_parts();
            match batch {
                None => told(text, alloc, Reply::Ok(answer)),
                Some(put) => told_and_put(text, alloc, instance, answer, put),
            }
        }
    }
}
