//! Answers a request at an instance.

ghost use Rattle.std.specs.Prelude.{◌≡◌, true, false, ◌<◌, ◌++◌, Err, IfOk, IsOkAnd, IfSome, OnOk, OnErr, length, None, vec_len, vec_capacity};
ghost use Rattle.misp_outside.specs.Causes.{HasCause};
ghost use Rattle.misp_outside.specs.Reporting.{StaysHeld, WhereReported};
ghost use Rattle.misp_core.specs.Effects.{stop_in, by_keeper, refused_by, IsRefused};
ghost use Rattle.misp_core.specs.Planning.{IsBarred, stop_planned};
ghost use Rattle.misp_api.specs.Planned.{IsAskedFor, IsSoundPlan, PlansCommand};
ghost use Rattle.misp_store.specs.Seen.{seen_in};
ghost use Rattle.misp_api.specs.Answering.{IsPull, IsReplied, IsSync, admin_after, caller_in, form_at, read_of};
ghost use Rattle.misp_api.specs.Commands.{AsksBuilt, barred, commanded, is_allowed, is_syncing};
ghost use Rattle.misp_api.specs.Unread.{fault_reply};
ghost use Rattle.misp_api.specs.Order.{IsInOrder, order};
ghost use Rattle.misp_core.specs.Sound.{IsSound};
ghost use Rattle.misp_core.specs.Standing.{host_of};
ghost use Rattle.misp_api.specs.Request.{Gives, request_data};
ghost use Rattle.misp_api.specs.Refusing.{TurnsAway};
ghost use Rattle.misp_core.specs.Text.{has_octets, reply_text};
ghost use Rattle.misp_api.specs.declared.TheConstants.{CHANGE_TEXT};

use crate::asking::read_command;
use crate::command::Command;
use crate::managing::tell_planned;
use crate::planned::Planned;
use crate::request::AskFault;
use crate::routes::Routes;
use crate::telling::told;
use misp_core::{Instance, NoPlan, Reply};
use misp_http::Request;
use misp_ids::{ApiKey, NoMemory, Refusal, RuleName, Stamp, Text};
use misp_orgs::Caller;
use misp_outside::Keeper;
use std::alloc::Global;

fn caller<K: Keeper>(instance: &Instance<K>, key: &Option<Text>) -> Option<Caller>
    ensures { result ≡ caller_in instance.now.admin key.now }
{
    match key {
        Some(text) => instance.who(&ApiKey::read(text.as_str())?),
        None => None,
    }
}

// The command that a request is, and whose it is: first its route must be one, then its key, then
// its body.
#[tactic(auto, unfolding(crate::specs::Answering::read_of))]
fn read<K: Keeper>(
    alloc: Global,
    routes: &Routes,
    instance: &Instance<K>,
    word: u128,
    request: &Request,
) -> Result<(Caller, Command), AskFault>
    ensures read { Gives result (read_of instance.now.admin
        (request_data instance.now.name word request.now)) }
    ensures built { IfOk result (λ it. AsksBuilt it.1) }
{
    let route = match routes.route(request.method.as_str(), request.target.as_str()) {
        Ok(route) => route,
        Err(rule) => return Err(AskFault::Refused(Refusal::bare(alloc, rule))),
    };
    let Some(caller) = caller(instance, &request.key) else {
        return Err(AskFault::Refused(Refusal::bare(alloc, RuleName::NoKey)));
    };
    let command = read_command(alloc, instance.name(), route, request.body.as_slice(), word)?;
    Ok((caller, command))
}

// Plans what a command of this moment comes to. Nothing is put.
fn plan<K: Keeper>(
    alloc: Global,
    instance: &mut Instance<K>,
    now: Stamp,
    caller: &Caller,
    command: Command,
) -> Result<Planned, NoPlan>
    requires { AsksBuilt command }
    ensures planned { IfSome instance.new.held (λ held. PlansCommand result
        (commanded (host_of instance.old) now (caller.now, command) (seen_in held))) }
    ensures barred { is_allowed (caller.now, command) ≡ false →
        IsBarred (barred command) instance.old instance.new result }
    ensures made { IfOk result (IsAskedFor instance.old.admin command) }
    ensures sound { is_syncing command ≡ true → IfOk result IsSoundPlan }
    ensures held { StaysHeld instance.old.held instance.new.held }
    ensures cause { HasCause instance.old.faults instance.new.faults
        (stop_planned result ≡ by_keeper) }
    ensures name { instance.new.name ≡ instance.old.name }
    ensures admin { instance.new.admin ≡ instance.old.admin }
{
    match command {
        Command::Asks(ask) => Planned::of_rows(instance.plan(alloc, now, caller, ask)),
        Command::TakesGroups(groups) => {
            Planned::of_rows(instance.plan_handed_groups(alloc, caller, groups.into_vec()))
        }
        Command::Shares { add, group } => {
            Planned::of_rows(instance.plan_shared_group(alloc, now, caller, add, group))
        }
        Command::Manages(ask) => Planned::of_item(instance.plan_managed(alloc, caller, ask)),
    }
}

/// The reply to what was not read.
pub(crate) fn refused(alloc: Global, fault: AskFault) -> Reply
    ensures { result ≡ fault_reply fault }
{
    match fault {
        AskFault::Refused(refusal) => Reply::Refused(refusal),
        AskFault::NoMemory => Reply::Refused(Refusal::bare(alloc, RuleName::NoMemory)),
    }
}

/// Answers a request of this moment, and writes the reply. Elements without an identifier get those
/// that are made of `word`. The text is written before anything is put.
pub fn answer<K: Keeper>(
    text: &mut Vec<u8>,
    alloc: Global,
    routes: &Routes,
    instance: &mut Instance<K>,
    now: Stamp,
    word: u128,
    request: &Request,
) -> Result<Reply, NoMemory>
    // The text of the reply is after what was there, with room for one byte after it.
    ensures text { IfOk result (λ reply. text.new.items ≡ text.old.items ++ reply_text reply) }
    ensures room { OnOk result (vec_len text.new < vec_capacity text.new) }

    // Where memory runs out for the text, or it is longer than that of any change, nothing is put.
    ensures kept { IfOk result (λ reply. CHANGE_TEXT < length (reply_text reply)) →
        StaysHeld instance.old.held instance.new.held }

    // Reply and rows are the stated functions of the request and of what is held.
    ensures replied { IfOk result (λ reply.
        WhereReported instance.old.held instance.new.held (λ held new. IsReplied
        (host_of instance.old) now
        (form_at (host_of instance.old) word request.now) held reply new)) }

    // Where several rules refuse the request, the first in the one order is answered.
    ensures order { IfOk result (λ reply.
        WhereReported instance.old.held instance.new.held (λ held _. IsInOrder
        (order (host_of instance.old) now
        (request_data instance.old.name word request.now) held) reply)) }

    // What the form of the request refuses, or the role of its caller, is refused just so, and the
    // keeper is as it was.
    ensures formed { IfOk result (λ reply.
        TurnsAway (form_at (host_of instance.old) word request.now)
        instance.old instance.new reply) }
    ensures unformed { OnErr result
        (TurnsAway (form_at (host_of instance.old) word request.now)
        instance.old instance.new (refused_by RuleName.NoMemory)) }

    // A refused request changes nothing, and neither does one that is answered octets.
    ensures refused { IfOk result (λ reply.
        IsRefused reply → StaysHeld instance.old.held instance.new.held) }
    ensures octets { IfOk result (λ reply.
        has_octets reply ≡ true → StaysHeld instance.old.held instance.new.held) }

    // What a pull asks changes nothing either, even where memory runs out. What a synchronisation
    // is replied can be read back from its text.
    ensures pulled { IsPull (form_at (host_of instance.old) word request.now) →
        StaysHeld instance.old.held instance.new.held }
    ensures sound { IsSync (form_at (host_of instance.old) word request.now) →
        IfOk result IsSound }
    ensures silent { instance.old.held ≡ None → instance.new.held ≡ None }
    ensures cause { HasCause instance.old.faults instance.new.faults
        (IsOkAnd result (λ reply. stop_in reply ≡ by_keeper)) }
    ensures name { instance.new.name ≡ instance.old.name }

    // What a site administrator makes is put, and nothing else changes the administration. Where
    // memory runs out for the text it is as it was.
    ensures admin { IfOk result (λ reply. instance.new.admin
        ≡ admin_after (form_at (host_of instance.old) word request.now) instance.old.admin reply) }
    ensures unchanged { IfOk result (λ reply. CHANGE_TEXT < length (reply_text reply)) →
        instance.new.admin ≡ instance.old.admin }
{
    match read(alloc, routes, instance, word, request) {
        Ok((caller, command)) => {
            let planned = plan(alloc, instance, now, &caller, command);
            tell_planned(text, alloc, instance, planned)
        }
        Err(fault) => told(text, alloc, refused(alloc, fault)),
    }
}
