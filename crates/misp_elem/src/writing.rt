//! Writing keys.

ghost use Rattle.std.specs.Prelude.{◌≡◌, ◌++◌, OnOk, IfOk};
ghost use Rattle.misp_elem.specs.declared.key.KeyForm.TheVariants as forms;
ghost use Rattle.misp_elem.specs.Spelling as spelling;

mod bodies;
mod fields;
mod rows;
mod tags;

use crate::key::{Key, KeyForm, Place, ProposalName};
use misp_ids::{ElemId, EventId, InstId, NoMemory, OrgId, Uid};
pub use rows::encode;
use std::alloc::{AllocError, Global};

/// Room that the names of most rows fit into.
const NAME_ROOM: usize = 64;

#[tactic(auto, unfolding(crate::specs::Spelling::uid))]
fn put_uid(out: &mut Vec<u8>, id: Uid) -> Result<(), AllocError>
    ensures { OnOk result (out.new.items ≡ out.old.items ++ spelling.uid id) }
{
    out.extend_from_slice(&id.0.to_be_bytes())
}

fn put_inst(out: &mut Vec<u8>, name: &InstId) -> Result<(), AllocError>
    ensures { OnOk result (out.new.items ≡ out.old.items ++ spelling.inst_name name.now) }
{
    let name = name.text();
    out.push(name.len() as u8)?;
    out.extend_from_slice(name.as_bytes())
}

fn put_place(out: &mut Vec<u8>, place: &Place) -> Result<(), AllocError>
    ensures { OnOk result (out.new.items ≡ out.old.items ++ spelling.place place.now) }
{
    match place {
        Place::Event => out.push(0)?,
        Place::Object(object) => {
            out.push(1)?;
            put_uid(out, object.0)?;
        }
        Place::Attribute(attribute) => {
            out.push(2)?;
            put_uid(out, attribute.0)?;
        }
        Place::ObjectAttribute(object, attribute) => {
            out.push(3)?;
            put_uid(out, object.0)?;
            put_uid(out, attribute.0)?;
        }
    }
    Ok(())
}

fn put_proposal(out: &mut Vec<u8>, name: &ProposalName) -> Result<(), AllocError>
    ensures { OnOk result (out.new.items ≡ out.old.items ++ spelling.proposal_name name.now) }
{
    put_place(out, &name.target)?;
    put_inst(out, &name.at)?;
    put_uid(out, name.by.0)?;
    put_uid(out, name.uuid.0)
}

fn put_element(out: &mut Vec<u8>, event: &EventId, place: &Place) -> Result<(), AllocError>
    ensures { OnOk result (out.new.items
        ≡ out.old.items ++ spelling.key (forms.Element event.now place.now)) }
{
    out.push(0)?;
    put_uid(out, event.0)?;
    put_place(out, place)
}

fn put_reference(
    out: &mut Vec<u8>,
    event: &EventId,
    object: &ElemId,
    target: &Place,
    uuid: &ElemId,
) -> Result<(), AllocError>
    ensures { OnOk result (out.new.items ≡ out.old.items
        ++ spelling.key (forms.Reference event.now object.now target.now uuid.now)) }
{
    out.push(1)?;
    put_uid(out, event.0)?;
    put_uid(out, object.0)?;
    put_place(out, target)?;
    put_uid(out, uuid.0)
}

fn put_proposed(out: &mut Vec<u8>, event: &EventId, name: &ProposalName) -> Result<(), AllocError>
    ensures { OnOk result (out.new.items
        ≡ out.old.items ++ spelling.key (forms.Proposal event.now name.now)) }
{
    out.push(2)?;
    put_uid(out, event.0)?;
    put_proposal(out, name)
}

fn put_verdict(
    out: &mut Vec<u8>,
    event: &EventId,
    name: &ProposalName,
    at: &InstId,
    judge: &OrgId,
) -> Result<(), AllocError>
    ensures { OnOk result (out.new.items
        ≡ out.old.items ++ spelling.key (forms.Verdict event.now name.now at.now judge.now)) }
{
    out.push(3)?;
    put_uid(out, event.0)?;
    put_proposal(out, name)?;
    put_inst(out, at)?;
    put_uid(out, judge.0)
}

fn put_sighting(
    out: &mut Vec<u8>,
    event: &EventId,
    target: &Place,
    at: &InstId,
    by: &OrgId,
    uuid: &ElemId,
) -> Result<(), AllocError>
    ensures { OnOk result (out.new.items ≡ out.old.items
        ++ spelling.key (forms.Sighting event.now target.now at.now by.now uuid.now)) }
{
    out.push(4)?;
    put_uid(out, event.0)?;
    put_place(out, target)?;
    put_inst(out, at)?;
    put_uid(out, by.0)?;
    put_uid(out, uuid.0)
}

/// Writes the one spelling of a key after what is there. Where memory runs out, a part of it may be
/// written.
pub fn put_key(out: &mut Vec<u8>, key: &KeyForm) -> Result<(), AllocError>
    ensures { OnOk result (out.new.items ≡ out.old.items ++ spelling.key key.now) }
{
    match key {
        KeyForm::Element { event, place } => put_element(out, event, place),
        KeyForm::Reference {
            event,
            object,
            target,
            uuid,
        } => put_reference(out, event, object, target, uuid),
        KeyForm::Proposal { event, name } => put_proposed(out, event, name),
        KeyForm::Verdict {
            event,
            name,
            at,
            judge,
        } => put_verdict(out, event, name, at, judge),
        KeyForm::Sighting {
            event,
            target,
            at,
            by,
            uuid,
        } => put_sighting(out, event, target, at, by, uuid),
    }
}

/// The one spelling of a key.
pub fn encode_key(alloc: Global, key: &Key) -> Result<Vec<u8>, NoMemory>
    ensures { IfOk result (λ v. v.items ≡ spelling.key key.now) }
{
    let mut out = Vec::with_capacity(alloc, NAME_ROOM)?;
    match put_key(&mut out, &key.form) {
        Ok(()) => Ok(out),
        Err(_) => Err(NoMemory),
    }
}

fn put_name(out: &mut Vec<u8>, owner: &OrgId, key: &Key) -> Result<(), AllocError>
    ensures { OnOk result (out.new.items ≡ out.old.items ++ spelling.name owner.now key.now) }
{
    put_uid(out, owner.0)?;
    put_key(out, &key.form)
}

/// The name under which a keeper holds the row of this owner and key.
pub fn encode_name(alloc: Global, owner: &OrgId, key: &Key) -> Result<Vec<u8>, NoMemory>
    ensures { IfOk result (λ v. v.items ≡ spelling.name owner.now key.now) }
{
    let mut out = Vec::with_capacity(alloc, NAME_ROOM)?;
    match put_name(&mut out, owner, key) {
        Ok(()) => Ok(out),
        Err(_) => Err(NoMemory),
    }
}
