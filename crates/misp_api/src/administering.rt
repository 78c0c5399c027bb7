//! Adds or edits a sharing group at an instance.

ghost use Rattle.std.specs.Prelude.{◌≡◌, true, ◌<◌, ◌++◌, None, IfOk, IsOkAnd, OnOk, OnErr, vec_len, vec_capacity};
ghost use Rattle.misp_groups.specs.Group.{IsGroup};
ghost use Rattle.misp_outside.specs.Causes.{HasCause};
ghost use Rattle.misp_outside.specs.Reporting.{StaysHeld, WhereReported};
ghost use Rattle.misp_core.specs.Effects.{by_keeper, stop_in, IsRefused};
ghost use Rattle.misp_api.specs.Administering.{group_form, FormFits, IsDone};
ghost use Rattle.misp_api.specs.Request.{Gives};
ghost use Rattle.misp_api.specs.Refusing.{TurnsAway};
ghost use Rattle.misp_core.specs.Text.{has_octets, reply_text};

use crate::answering::refused;
use crate::request::{AskFault, fault};
use crate::telling::{tell, told};
use misp_core::{Instance, Reply};
use misp_format::read_group_text;
use misp_groups::Group;
use misp_ids::{NoMemory, OrgId, Stamp};
use misp_outside::Keeper;
use std::alloc::Global;

/// What an organisation asks of a sharing group.
#[derive(Clone, Copy, PartialEq, Eq)]
pub struct GroupRequest<'a> {
    /// By whom it is administered: an organisation that is known at the instance.
    pub by: OrgId,
    /// Whether the group is added; else it is edited.
    pub add: bool,
    /// The text of the group. It may be no JSON.
    pub body: &'a [u8],
}

// The group that a text is.
#[tactic(auto, unfolding(crate::specs::Administering::group_form))]
fn group(alloc: Global, text: &[u8]) -> Result<Group, AskFault>
    ensures read { Gives result (group_form text.now) }
    ensures fits { IfOk result IsGroup }
{
    match read_group_text(alloc, text) {
        Ok(group) => Ok(group),
        Err(stopped) => Err(fault(alloc, stopped)),
    }
}

/// Adds or edits a sharing group at this moment, and writes the reply. The text is written before
/// anything is put.
pub fn administer<K: Keeper>(
    text: &mut Vec<u8>,
    alloc: Global,
    instance: &mut Instance<K>,
    now: Stamp,
    request: &GroupRequest<'_>,
) -> Result<Reply, NoMemory>
    // The text of the reply is after what was there, with room for one byte after it.
    ensures text { IfOk result (λ reply. text.new.items ≡ text.old.items ++ reply_text reply) }
    ensures room { OnOk result (vec_len text.new < vec_capacity text.new) }

    // Where memory runs out for the text, nothing is put.
    ensures kept { OnErr result (StaysHeld instance.old.held instance.new.held) }

    // Reply and groups are the stated functions of the request and of what is held.
    ensures replied { IfOk result (λ reply.
        WhereReported instance.old.held instance.new.held (λ held new.
        IsDone now request.now.by request.now.add (group_form request.now.body.now)
        held reply new)) }

    // What is read and not stopped is a group, at a moment that has a stamp.
    ensures fits { IfOk result (λ reply.
        stop_in reply ≡ None → FormFits now (group_form request.now.body.now)) }

    // A text that is no group is refused just so, and the keeper is as it was.
    ensures formed { IfOk result (λ reply.
        TurnsAway (group_form request.now.body.now) instance.old instance.new reply) }

    // A refused request changes nothing, and neither does one that is answered octets.
    ensures refused { IfOk result (λ reply.
        IsRefused reply → StaysHeld instance.old.held instance.new.held) }
    ensures octets { IfOk result (λ reply.
        has_octets reply ≡ true → StaysHeld instance.old.held instance.new.held) }
    ensures cause { HasCause instance.old.faults instance.new.faults
        (IsOkAnd result (λ reply. stop_in reply ≡ by_keeper)) }
    ensures name { instance.new.name ≡ instance.old.name }
    ensures admin { instance.new.admin ≡ instance.old.admin }
{
    // The moment of a stamp is within the years that a stamp has.
    let _moment = now.get();
    match group(alloc, request.body) {
        Ok(group) => {
            let planned = instance.plan_group(alloc, now, &request.by, group, request.add);
            tell(text, alloc, instance, planned)
        }
        Err(fault) => told(text, alloc, refused(alloc, fault)),
    }
}
