//! What a request is, by its route and body.

ghost use Rattle.std.specs.Prelude.{◌≡◌, true, Err, IfOk};
ghost use Rattle.misp_elem.specs.declared.key.Place.TheVariants as places;
ghost use Rattle.misp_fields.specs.declared.need.Need.{Need};
ghost use Rattle.misp_format.specs.Prelude.{group_in_text};
ghost use Rattle.misp_format.specs.declared.fault.FormatFault.{FormatFault};
ghost use Rattle.misp_format.specs.Rows as rows;
ghost use Rattle.misp_format.specs.Tables.{is_form_for};
ghost use Rattle.misp_model.specs.declared.ask.Ask.TheVariants as asks;
ghost use Rattle.misp_model.specs.declared.change.Change.TheVariants as changes;
ghost use Rattle.misp_api.specs.Commands.{AsksBuilt};
ghost use Rattle.misp_api.specs.GroupList.{groups_in};
ghost use Rattle.misp_api.specs.Request.{Gives, ask_command, groups_command, share_command, admin_command, managing_command, path_ask, body_command, event_in, index_in, search_in, event_edit_in, attribute_edit_in, object_edit_in, parts_in, tag_in, untag_in, proposal_in, judgement_in, sighting_in, package_in, wanted_in, command_of};

use crate::command::Command;
use crate::group_list::read_groups;
use crate::path_kind::AdminRoute;
use crate::query::PageQuery;
use crate::request::{AskFault, fault};
use crate::route::Route;
use misp_admins::AdminAsk;
use misp_elem::{DecodeFault, Place};
use misp_fields::Need;
use misp_format::{
    FormatFault, PartForm, read_attribute_edit, read_auth_key, read_event, read_event_edit,
    read_filter, read_group_text, read_json, read_judgement, read_object_edit, read_organisation,
    read_parts, read_proposal, read_revoked, read_server, read_server_edit, read_sighting,
    read_tag,
};
use misp_ids::{ElemId, EventId, InstId, Items, Text};
use misp_model::{Ask, AttributePlace, Change, ElementPlace, NewTag, Parts, TaggedPlace};
use misp_package::read_package;
use misp_wanted::read_wanted;
use std::alloc::Global;

// The addition of the event that a body is.
fn event_in(alloc: Global, body: &[u8], word: u128) -> Result<Command, FormatFault>
    ensures { rows.Gives result (ask_command (event_in body.now word)) }
{
    let value = read_json(alloc, body)?;
    let submission = read_event(alloc, &value, word)?;
    Ok(Command::Asks(Ask::Change(Change::AddEvent(submission))))
}

fn event_edit_in(alloc: Global, event: EventId, body: &[u8]) -> Result<Command, FormatFault>
    ensures { rows.Gives result (ask_command (event_edit_in event body.now)) }
{
    let value = read_json(alloc, body)?;
    let edit = read_event_edit(alloc, &value)?;
    Ok(Command::Asks(Ask::Change(Change::EditEvent { event, edit })))
}

fn attribute_edit_in(
    alloc: Global,
    event: EventId,
    place: AttributePlace,
    body: &[u8],
) -> Result<Command, FormatFault>
    ensures { rows.Gives result (ask_command (attribute_edit_in event place body.now)) }
{
    let value = read_json(alloc, body)?;
    let edit = read_attribute_edit(alloc, &value)?;
    Ok(Command::Asks(Ask::Change(Change::EditAttribute { event, place, edit })))
}

fn object_edit_in(
    alloc: Global,
    event: EventId,
    object: ElemId,
    body: &[u8],
) -> Result<Command, FormatFault>
    ensures { rows.Gives result (ask_command (object_edit_in event object body.now)) }
{
    let value = read_json(alloc, body)?;
    let edit = read_object_edit(alloc, &value)?;
    Ok(Command::Asks(Ask::Change(Change::EditObject {
        event,
        object,
        edit,
    })))
}

// The addition of the elements that a body brings to an event that is there.
fn parts_in(
    alloc: Global,
    event: EventId,
    object: Option<ElemId>,
    form: PartForm,
    body: &[u8],
    word: u128,
) -> Result<Command, FormatFault>
    requires { is_form_for object form ≡ true }
    ensures { rows.Gives result (ask_command (parts_in event object form body.now word)) }
{
    let _number = event.0.0;
    let value = read_json(alloc, body)?;
    let parts = Parts::of(read_parts(alloc, &value, event, object, form, word)?);
    Ok(Command::Asks(Ask::Change(Change::AddParts { event, parts })))
}

fn tag_in(
    alloc: Global,
    event: EventId,
    place: TaggedPlace,
    body: &[u8],
) -> Result<Command, FormatFault>
    ensures { rows.Gives result (ask_command (tag_in event place body.now)) }
{
    let value = read_json(alloc, body)?;
    let tag = NewTag::of(read_tag(alloc, &value)?);
    Ok(Command::Asks(Ask::Change(Change::Tag { event, place, tag })))
}

// The removal of the tag that has the name of the one that a body is.
fn untag_in(
    alloc: Global,
    event: EventId,
    place: TaggedPlace,
    body: &[u8],
) -> Result<Command, FormatFault>
    ensures { rows.Gives result (ask_command (untag_in event place body.now)) }
{
    let value = read_json(alloc, body)?;
    let name = read_tag(alloc, &value)?.name;
    Ok(Command::Asks(Ask::Change(Change::Untag { event, place, name })))
}

fn proposal_in(
    alloc: Global,
    event: EventId,
    target: TaggedPlace,
    body: &[u8],
    word: u128,
) -> Result<Command, FormatFault>
    ensures { rows.Gives result (ask_command (proposal_in event target body.now word)) }
{
    let value = read_json(alloc, body)?;
    let draft = read_proposal(alloc, &value, event, target, word)?;
    Ok(Command::Asks(Ask::Propose(draft)))
}

fn judgement_in(
    alloc: Global,
    event: EventId,
    accept: bool,
    body: &[u8],
) -> Result<Command, FormatFault>
    ensures { rows.Gives result (ask_command (judgement_in event accept body.now)) }
{
    let value = read_json(alloc, body)?;
    let proposal = read_judgement(alloc, &value)?;
    Ok(Command::Asks(Ask::Judge {
        event,
        proposal,
        accept,
    }))
}

fn sighting_in(
    alloc: Global,
    event: EventId,
    target: AttributePlace,
    body: &[u8],
    word: u128,
) -> Result<Command, FormatFault>
    ensures { rows.Gives result (ask_command (sighting_in event target body.now word)) }
{
    let value = read_json(alloc, body)?;
    let draft = read_sighting(alloc, &value, word)?;
    Ok(Command::Asks(Ask::Sight {
        event,
        target,
        draft,
    }))
}

// The fault of a member of a query that is no number of its range.
fn bad_query(alloc: Global, name: &str) -> Result<Command, FormatFault>
    ensures { rows.Gives result (Err (FormatFault.BadField name.now Need.Range)) }
{
    Err(FormatFault::BadField {
        path: Text::of(String::from_str(alloc, name)?),
        need: Need::Range,
    })
}

// The list of events that a query asks for a page of.
fn index_in(alloc: Global, page: PageQuery) -> Result<Command, FormatFault>
    ensures { rows.Gives result (ask_command (index_in page)) }
{
    match page {
        PageQuery::Of(page) => Ok(Command::Asks(Ask::Index(page))),
        PageQuery::BadPage => bad_query(alloc, "query.page"),
        PageQuery::BadLimit => bad_query(alloc, "query.limit"),
    }
}

// The search that a body is, for whole events or for attributes.
fn search_in(alloc: Global, whole: bool, body: &[u8]) -> Result<Command, FormatFault>
    ensures { rows.Gives result (ask_command (search_in whole body.now)) }
{
    let value = read_json(alloc, body)?;
    let filter = read_filter(alloc, &value)?;
    Ok(Command::Asks(Ask::Search { filter, whole }))
}

// The handing in of the package that a body is.
fn package_in(alloc: Global, body: &[u8]) -> Result<Command, FormatFault>
    ensures { rows.Gives result (ask_command (package_in body.now)) }
{
    match read_package(alloc, body) {
        Ok(package) => Ok(Command::Asks(Ask::TakePart(package))),
        Err(DecodeFault::BadRow { .. }) => Err(FormatFault::BadField {
            path: Text::of(String::from_str(alloc, "package")?),
            need: Need::Row,
        }),
        Err(DecodeFault::NoMemory) => Err(FormatFault::NoMemory),
    }
}

// The request for the rows that a body is the wanted list of.
fn wanted_in(alloc: Global, body: &[u8]) -> Result<Command, FormatFault>
    ensures { rows.Gives result (ask_command (wanted_in body.now)) }
{
    match read_wanted(alloc, body) {
        Ok(wanted) => Ok(Command::Asks(Ask::SyncRows(wanted))),
        Err(DecodeFault::BadRow { .. }) => Err(FormatFault::BadField {
            path: Text::of(String::from_str(alloc, "wanted")?),
            need: Need::Row,
        }),
        Err(DecodeFault::NoMemory) => Err(FormatFault::NoMemory),
    }
}

// The taking of the groups that a body is the list of.
fn groups_command(alloc: Global, body: &[u8]) -> Result<Command, FormatFault>
    ensures { rows.Gives result (groups_command (groups_in body.now)) }
{
    let groups = read_groups(alloc, body)?;
    Ok(Command::TakesGroups(Items::of(groups)))
}

// The adding or editing of the group that a body is.
fn share_command(alloc: Global, add: bool, body: &[u8]) -> Result<Command, FormatFault>
    ensures { rows.Gives result (share_command add (group_in_text body.now)) }
{
    let group = read_group_text(alloc, body)?;
    Ok(Command::Shares { add, group })
}

// What a site administrator asks by a body.
fn managing_command(
    alloc: Global,
    here: &InstId,
    route: AdminRoute,
    body: &[u8],
) -> Result<Command, FormatFault>
    ensures { rows.Gives result (managing_command here.now route body.now) }
{
    let ask = match route {
        AdminRoute::AddOrganisation => AdminAsk::AddOrg(read_organisation(alloc, body)?),
        AdminRoute::AddAuthKey => AdminAsk::AddKey(read_auth_key(alloc, body)?),
        AdminRoute::RevokeAuthKey => AdminAsk::RevokeKey(read_revoked(alloc, body)?),
        AdminRoute::AddServer => AdminAsk::AddLink(read_server(alloc, here, body)?),
        AdminRoute::EditServer => AdminAsk::EditLink(read_server_edit(alloc, body)?),
    };
    Ok(Command::Manages(ask))
}

// The place of an attribute as that of an element.
fn element_place(place: &AttributePlace) -> ElementPlace
    ensures { result ≡ place.now }
{
    match ElementPlace::of(place.get()) {
        Some(place) => place,
        None => unreachable!(),
    }
}

fn object_place(object: ElemId) -> ElementPlace
    ensures { result ≡ places.Object object }
{
    match ElementPlace::of(Place::Object(object)) {
        Some(place) => place,
        None => unreachable!(),
    }
}

fn delete(event: EventId, place: ElementPlace) -> Ask
    ensures { result ≡ asks.Change (changes.Delete event place) }
{
    Ask::Change(Change::Delete { event, place })
}

fn delete_reference(event: EventId, object: ElemId, reference: ElemId) -> Ask
    ensures { result ≡ asks.Change (changes.DeleteReference event object reference) }
{
    Ask::Change(Change::DeleteReference {
        event,
        object,
        reference,
    })
}

// The ask of a request whose path says all of it.
fn path_ask(route: &Route) -> Option<Ask>
    ensures { result ≡ path_ask route.now }
{
    match route {
        Route::ViewEvent(event, owner) => Some(Ask::View {
            event: *event,
            owner: *owner,
        }),
        Route::DeleteEvent(event) => Some(Ask::Change(Change::DeleteEvent { event: *event })),
        Route::Publish(event) => Some(Ask::Change(Change::Publish { event: *event })),
        Route::DeleteAttribute(event, place) => Some(delete(*event, element_place(place))),
        Route::DeleteObject(event, object) => Some(delete(*event, object_place(*object))),
        Route::DeleteReference(event, object, reference) => {
            Some(delete_reference(*event, *object, *reference))
        }
        Route::Groups => Some(Ask::Groups),
        Route::SyncGroups => Some(Ask::SyncGroups),
        Route::SyncEvents => Some(Ask::SyncEvents),
        Route::SyncPart(event, part) => Some(Ask::SyncPart {
            event: *event,
            part: *part,
        }),
        Route::SyncManifest => Some(Ask::SyncManifest),
        _ => None,
    }
}

// What another request is by its query or its body, by its route.
fn body_command(
    alloc: Global,
    here: &InstId,
    route: Route,
    body: &[u8],
    word: u128,
) -> Result<Command, FormatFault>
    ensures { rows.Gives result (body_command here.now route body.now word) }
{
    match route {
        Route::AddEvent => event_in(alloc, body, word),
        Route::EditEvent(event) => event_edit_in(alloc, event, body),
        Route::AddAttributes(event, object) => {
            parts_in(alloc, event, object, PartForm::Attributes, body, word)
        }
        Route::EditAttribute(event, place) => attribute_edit_in(alloc, event, place, body),
        Route::AddObject(event) => parts_in(alloc, event, None, PartForm::Object, body, word),
        Route::EditObject(event, object) => object_edit_in(alloc, event, object, body),
        Route::AddReference(event, object) => {
            parts_in(alloc, event, Some(object), PartForm::Reference, body, word)
        }
        Route::Tag(event, place) => tag_in(alloc, event, place, body),
        Route::Untag(event, place) => untag_in(alloc, event, place, body),
        Route::Propose(event, target) => proposal_in(alloc, event, target, body, word),
        Route::Judge(event, accept) => judgement_in(alloc, event, accept, body),
        Route::Sight(event, target) => sighting_in(alloc, event, target, body, word),
        Route::Index(page) => index_in(alloc, page),
        Route::SearchEvents => search_in(alloc, true, body),
        Route::SearchAttributes => search_in(alloc, false, body),
        Route::SyncRows => wanted_in(alloc, body),
        Route::TakePart => package_in(alloc, body),
        Route::AddGroup => share_command(alloc, true, body),
        Route::EditGroup => share_command(alloc, false, body),
        Route::Admin(asked) => managing_command(alloc, here, asked, body),
        _ => groups_command(alloc, body),
    }
}

/// What a request to this instance is. Elements without an identifier get those that are made of
/// `word`.
pub fn read_command(
    alloc: Global,
    here: &InstId,
    route: Route,
    body: &[u8],
    word: u128,
) -> Result<Command, AskFault>
    ensures command { Gives result (command_of here.now route body.now word) }
    ensures built { IfOk result AsksBuilt }
{
    match path_ask(&route) {
        Some(ask) => Ok(Command::Asks(ask)),
        None => match body_command(alloc, here, route, body, word) {
            Ok(command) => Ok(command),
            Err(stopped) => Err(fault(alloc, stopped)),
        },
    }
}
