//! What a request looks at of its event.

ghost use Rattle.std.specs.Prelude.{◌≡◌, ◌∷◌, ◌++◌, [], true, map, IfOk, IfSome};
ghost use Rattle.misp_lists.specs.Prelude.{AllByRecursion};
ghost use Rattle.misp_ids.specs.Uid.{IsUid};
ghost use Rattle.misp_elem.specs.Key.{IsKey};
ghost use Rattle.misp_elem.specs.Parents.{event_key, up_to};
ghost use Rattle.misp_elem.specs.declared.key.KeyForm.TheVariants.{Element, Proposal, Verdict, Sighting};
ghost use Rattle.misp_model.specs.Looking.{at_copy, at_event, at_parts, at_place, at_proposal, at_shown, at_target, beside, change_looks, elem_at, looks_of, own_alone, own_at_proposal, proposal_by, proposal_keys, uuids_in};
ghost use Rattle.misp_model.specs.Statement.{IsProposalDraft};
ghost use Rattle.misp_model.specs.Statements.{is_for_new};
ghost use Rattle.misp_store.specs.Seeking.{HasKeys, HasKeysInOrder, IsLookOfKeys};

use misp_elem::{
    Draft, Key, KeyForm, NoMemory, Place, ProposalName, ReferenceDraft, Submission, parents,
    uuid_at,
};
use misp_ids::{ElemId, EventId, InstId, Items, OrgId, Uid};
use misp_model::{
    Ask, AttributePlace, Change, Look, Looks, NamedProposal, ProposalDraftFields, SightingDraft,
};
use std::alloc::Global;

// ---- keys

/// The key of an element.
pub(crate) fn element_key(event: EventId, place: Place) -> Key
    ensures value { result ≡ Element event place }
    ensures is_key { IsKey result }
{
    Key {
        form: KeyForm::Element { event, place },
    }
}

fn proposal_key(event: EventId, proposal: &NamedProposal) -> Key
    ensures { result ≡ Proposal event proposal.now }
{
    let name = proposal.name;
    Key {
        form: KeyForm::Proposal { event, name },
    }
}

// The key of the proposal that an organisation makes at an instance.
fn proposal_by(draft: &ProposalDraftFields, at: InstId, by: OrgId) -> Key
    requires { IsProposalDraft draft.now }
    ensures { result ≡ proposal_by at by draft.now }
{
    let name = ProposalName {
        target: draft.target,
        at,
        by,
        uuid: draft.uuid,
    };
    let event = draft.event;
    Key {
        form: KeyForm::Proposal { event, name },
    }
}

fn verdict_key(event: EventId, proposal: &NamedProposal, at: InstId, judge: OrgId) -> Key
    ensures { result ≡ Verdict event proposal.now at judge }
{
    let name = proposal.name;
    Key {
        form: KeyForm::Verdict {
            event,
            name,
            at,
            judge,
        },
    }
}

fn sighting_key(
    event: EventId,
    target: &AttributePlace,
    draft: &SightingDraft,
    at: InstId,
    by: OrgId,
) -> Key
    ensures { result ≡ Sighting event target.now at by draft.now.uuid }
{
    let uuid = draft.fields.uuid;
    let target = target.get();
    Key {
        form: KeyForm::Sighting {
            event,
            target,
            at,
            by,
            uuid,
        },
    }
}

// ---- lists of keys

// The event itself.
#[tactic(auto, unfolding(misp_elem::specs::Parents::event_key))]
fn event_alone(alloc: Global, event: &EventId) -> Result<Items<Key>, NoMemory>
    ensures value { IfOk result (λ keys. keys ≡ event_key event.now ∷ []) }
    ensures keys { IfOk result (AllByRecursion IsKey) }
{
    let mut keys = Vec::new(alloc);
    keys.push(element_key(*event, Place::Event))?;
    Ok(Items::of(keys))
}

// What is above a place, and the element at that place.
#[tactic(auto, unfolding(misp_elem::specs::Parents::parents, misp_elem::specs::Parents::up_to))]
fn up_to(alloc: Global, event: &EventId, place: Place) -> Result<Vec<Key>, NoMemory>
    ensures value { IfOk result (λ keys. keys.items ≡ up_to event.now place) }
    ensures keys { IfOk result (λ keys. AllByRecursion IsKey keys.items) }
{
    let key = element_key(*event, place);
    let mut keys = parents(&key).as_slice().to_vec(alloc)?;
    keys.push(key)?;
    Ok(keys)
}

// These, and one more.
fn with_key(mut keys: Vec<Key>, key: Key) -> Result<Items<Key>, NoMemory>
    requires { AllByRecursion IsKey keys.items }
    ensures value { IfOk result (λ all. all ≡ keys.items ++ key ∷ []) }
    ensures keys { IfOk result (AllByRecursion IsKey) }
{
    keys.push(key)?;
    Ok(Items::of(keys))
}

// A proposal, and what it is seen by.
fn proposal_keys(
    alloc: Global,
    event: &EventId,
    proposal: &NamedProposal,
) -> Result<Vec<Key>, NoMemory>
    ensures value { IfOk result (λ keys. keys.items ≡ proposal_keys event.now proposal.now) }
    ensures keys { IfOk result (λ keys. AllByRecursion IsKey keys.items) }
{
    let mut keys = up_to(alloc, event, proposal.name.target)?;
    keys.push(proposal_key(*event, proposal))?;
    Ok(keys)
}

// ---- uuids

// With those of what is at these places of an event.
fn with_parts(
    mut uuids: Vec<ElemId>,
    event: EventId,
    parts: &[Draft],
) -> Result<Vec<ElemId>, NoMemory>
    requires { AllByRecursion (λ u. IsUid u.0) uuids.items }
    ensures value { IfOk result (λ all.
        all.items ≡ uuids.items ++ map (λ d. elem_at event d.place) parts.now) }
    ensures uids { IfOk result (λ uuids. AllByRecursion (λ u. IsUid u.0) uuids.items) }
{
    for part in parts {
        uuids.push(ElemId(Uid(uuid_at(event, part.place))))?;
    }
    Ok(uuids)
}

// With those of references.
fn with_references(
    mut uuids: Vec<ElemId>,
    references: &[ReferenceDraft],
) -> Result<Vec<ElemId>, NoMemory>
    requires { AllByRecursion (λ u. IsUid u.0) uuids.items }
    ensures value { IfOk result (λ all.
        all.items ≡ uuids.items ++ map (λ r. r.uuid) references.now) }
    ensures uids { IfOk result (λ uuids. AllByRecursion (λ u. IsUid u.0) uuids.items) }
{
    for reference in references {
        uuids.push(reference.uuid)?;
    }
    Ok(uuids)
}

// With those that references refer to.
fn with_referenced(
    mut uuids: Vec<ElemId>,
    references: &[ReferenceDraft],
) -> Result<Vec<ElemId>, NoMemory>
    requires { AllByRecursion (λ u. IsUid u.0) uuids.items }
    ensures value { IfOk result (λ all.
        all.items ≡ uuids.items ++ map (λ r. r.referenced) references.now) }
    ensures uids { IfOk result (λ uuids. AllByRecursion (λ u. IsUid u.0) uuids.items) }
{
    for reference in references {
        uuids.push(reference.referenced)?;
    }
    Ok(uuids)
}

// The uuids of a body, and those to which its references refer.
fn uuids_in(alloc: Global, body: &Submission) -> Result<Items<ElemId>, NoMemory>
    ensures value { IfOk result (λ uuids. uuids ≡ uuids_in body.now) }
    ensures uids { IfOk result (AllByRecursion (λ u. IsUid u.0)) }
{
    let parts = body.parts.as_slice();
    let references = body.references.as_slice();
    let length = parts
        .len()
        .saturating_add(references.len().saturating_mul(2));
    let uuids = with_parts(Vec::with_capacity(alloc, length)?, body.event, parts)?;
    let uuids = with_references(uuids, references)?;
    Ok(Items::of(with_referenced(uuids, references)?))
}

// ---- what is looked at

// Own rows alone, as an organisation looks at them.
fn own_alone(alloc: Global, by: &OrgId, event: &EventId, own: Look) -> Looks
    requires { IsLookOfKeys own }
    ensures value { result ≡ own_alone by.now event.now own }
    ensures keys { HasKeys result }
{
    let others = Look::Keys(Items::of(Vec::new(alloc)));
    Looks {
        event: *event,
        of: *by,
        own,
        others,
    }
}

// An element with what is above it in the own copy.
fn at_place(alloc: Global, by: &OrgId, event: &EventId, place: Place) -> Result<Looks, NoMemory>
    ensures value { IfOk result (λ looks. looks ≡ at_place by.now event.now place) }
    ensures keys { IfOk result HasKeys }
{
    let own = Items::of(up_to(alloc, event, place)?);
    Ok(own_alone(alloc, by, event, Look::Keys(own)))
}

// What has one of the uuids that are added, and all objects.
fn at_parts(alloc: Global, by: &OrgId, body: &Submission) -> Result<Looks, NoMemory>
    ensures value { IfOk result (λ looks. looks ≡ at_parts by.now body.now) }
    ensures keys { IfOk result HasKeys }
{
    let uuids = uuids_in(alloc, body)?;
    let keys = Items::of(Vec::new(alloc));
    Ok(own_alone(alloc, by, &body.event, Look::Uuids { uuids, keys }))
}

// A place with what is above it in each copy, and the own row of a statement.
fn at_target(
    alloc: Global,
    by: &OrgId,
    event: &EventId,
    place: Place,
    key: Key,
) -> Result<Looks, NoMemory>
    ensures value { IfOk result (λ looks. looks ≡ at_target by.now event.now place key) }
    ensures keys { IfOk result HasKeys }
{
    let own = with_key(up_to(alloc, event, place)?, key)?;
    let others = Items::of(up_to(alloc, event, place)?);
    Ok(Looks {
        event: *event,
        of: *by,
        own: Look::Keys(own),
        others: Look::Keys(others),
    })
}

// The event's row in each copy.
fn at_event(alloc: Global, by: &OrgId, event: &EventId) -> Result<Looks, NoMemory>
    ensures value { IfOk result (λ looks. looks ≡ at_event by.now event.now) }
    ensures keys { IfOk result HasKeys }
{
    let own = event_alone(alloc, event)?;
    let others = event_alone(alloc, event)?;
    Ok(Looks {
        event: *event,
        of: *by,
        own: Look::Keys(own),
        others: Look::Keys(others),
    })
}

#[tactic(auto, unfolding(misp_model::specs::Statements::is_for_new))]
fn is_for_new(proposal: &NamedProposal) -> bool
    ensures { result ≡ is_for_new proposal.now }
{
    matches!(proposal.name.target, Place::Event)
}

// A proposal and a verdict on it, and what has the uuid of the proposal.
fn own_for_new(
    alloc: Global,
    event: &EventId,
    proposal: &NamedProposal,
    verdict: Key,
) -> Result<Look, NoMemory>
    ensures value { IfOk result (λ own.
        own ≡ own_at_proposal event.now proposal.now true verdict) }
    ensures keys { IfOk result IsLookOfKeys }
{
    let mut uuids = Vec::new(alloc);
    uuids.push(proposal.name.uuid)?;
    let mut keys = Vec::new(alloc);
    keys.push(proposal_key(*event, proposal))?;
    keys.push(verdict)?;
    Ok(Look::Uuids {
        uuids: Items::of(uuids),
        keys: Items::of(keys),
    })
}

// What is looked at of the own rows for a judgement.
fn own_at_proposal(
    alloc: Global,
    event: &EventId,
    proposal: &NamedProposal,
    makes: bool,
    verdict: Key,
) -> Result<Look, NoMemory>
    ensures value { IfOk result (λ own.
        own ≡ own_at_proposal event.now proposal.now makes verdict) }
    ensures keys { IfOk result IsLookOfKeys }
{
    if makes {
        return own_for_new(alloc, event, proposal, verdict);
    }
    let keys = proposal_keys(alloc, event, proposal)?;
    Ok(Look::Keys(with_key(keys, verdict)?))
}

// A proposal with what it is seen by in each copy, and the own rows for a judgement.
fn at_proposal(
    alloc: Global,
    by: &OrgId,
    event: &EventId,
    proposal: &NamedProposal,
    makes: bool,
    verdict: Key,
) -> Result<Looks, NoMemory>
    ensures value { IfOk result (λ looks.
        looks ≡ at_proposal by.now event.now proposal.now makes verdict) }
    ensures keys { IfOk result HasKeys }
{
    let own = own_at_proposal(alloc, event, proposal, makes, verdict)?;
    let others = Items::of(proposal_keys(alloc, event, proposal)?);
    Ok(Looks {
        event: *event,
        of: *by,
        own,
        others: Look::Keys(others),
    })
}

// ---- of which ask

// The own copy.
fn at_copy(alloc: Global, by: &OrgId, event: &EventId) -> Looks
    ensures value { result ≡ at_copy by.now event.now }
    ensures keys { HasKeys result }
{
    own_alone(alloc, by, event, Look::All)
}

// What a change looks at, where that is said.
fn change_looks(alloc: Global, by: &OrgId, change: &Change) -> Result<Option<Looks>, NoMemory>
    ensures value { IfOk result (λ looks. looks ≡ change_looks by.now change.now) }
    ensures keys { IfOk result (λ looks. IfSome looks HasKeys) }
{
    Ok(match change {
        Change::AddEvent(_) => None,
        Change::AddParts { parts, .. } => Some(at_parts(alloc, by, &parts.submission)?),
        Change::EditEvent { event, .. } | Change::DeleteEvent { event } => {
            Some(at_place(alloc, by, event, Place::Event)?)
        }
        Change::EditAttribute { event, place, .. } => {
            Some(at_place(alloc, by, event, place.get())?)
        }
        Change::EditObject { event, object, .. } => {
            Some(at_place(alloc, by, event, Place::Object(*object))?)
        }
        Change::Delete { event, place } => Some(at_place(alloc, by, event, place.get())?),
        Change::Tag { event, place, .. } | Change::Untag { event, place, .. } => {
            Some(at_place(alloc, by, event, place.get())?)
        }
        Change::DeleteReference { event, .. } | Change::Publish { event } => {
            Some(at_copy(alloc, by, event))
        }
    })
}

// What is looked at for a proposal.
fn proposed_at(
    alloc: Global,
    here: &InstId,
    by: &OrgId,
    draft: &ProposalDraftFields,
) -> Result<Looks, NoMemory>
    requires { IsProposalDraft draft.now }
    ensures value { IfOk result (λ looks. looks ≡ at_target by.now draft.now.event draft.now.target
        (proposal_by here.now by.now draft.now)) }
    ensures keys { IfOk result HasKeys }
{
    let key = proposal_by(draft, *here, *by);
    at_target(alloc, by, &draft.event, draft.target, key)
}

/// What an ask looks at of its event, where that is said.
pub(crate) fn looks(
    alloc: Global,
    here: &InstId,
    by: &OrgId,
    ask: &Ask,
) -> Result<Option<Looks>, NoMemory>
    ensures value { IfOk result (λ looks. looks ≡ looks_of here.now by.now ask.now) }
    ensures keys { IfOk result (λ looks. IfSome looks HasKeys) }
{
    match ask {
        Ask::Change(change) => change_looks(alloc, by, change),
        Ask::Propose(draft) => Ok(Some(proposed_at(alloc, here, by, draft.get())?)),
        Ask::Sight {
            event,
            target,
            draft,
        } => {
            let key = sighting_key(*event, target, draft, *here, *by);
            Ok(Some(at_target(alloc, by, event, target.get(), key)?))
        }
        Ask::Judge {
            event,
            proposal,
            accept,
        } => {
            let makes = *accept && is_for_new(proposal);
            let verdict = verdict_key(*event, proposal, *here, *by);
            Ok(Some(at_proposal(alloc, by, event, proposal, makes, verdict)?))
        }
        Ask::View { event, .. } => Ok(Some(at_event(alloc, by, event)?)),
        Ask::Index(_)
        | Ask::Search { .. }
        | Ask::Groups
        | Ask::SyncGroups
        | Ask::SyncEvents
        | Ask::SyncPart { .. }
        | Ask::SyncManifest
        | Ask::SyncRows(_)
        | Ask::TakePart(_) => Ok(None),
    }
}

// ---- what is looked at then

/// The event's row in each other copy, besides the own rows that are looked at.
pub fn beside(alloc: Global, looks: Looks) -> Result<Looks, NoMemory>
    ensures value { IfOk result (λ more. more ≡ beside looks) }
    ensures keys { HasKeys looks → IfOk result HasKeys }
    ensures order { HasKeysInOrder looks → IfOk result HasKeysInOrder }
{
    let others = Look::Keys(event_alone(alloc, &looks.event)?);
    Ok(Looks { others, ..looks })
}

/// A copy that is shown, and in each other copy the event's row and those of statements.
pub fn at_shown(owner: OrgId, event: EventId) -> Looks
    ensures value { result ≡ at_shown owner event }
    ensures keys { HasKeys result }
    ensures order { HasKeysInOrder result }
{
    Looks {
        event,
        of: owner,
        own: Look::All,
        others: Look::Statements,
    }
}
