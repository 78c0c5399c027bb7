//! Routes.

ghost use Rattle.std.specs.Prelude.{◌≡◌};
ghost use Rattle.misp_api.specs.Path.{ids_of};
ghost use Rattle.misp_api.specs.declared.route.Route.TheVariants as routes;
ghost use Rattle.misp_api.specs.Route.{path_of, query_of, with_query, event_in, object_in, reference_in, attribute_in, tagged_in, copy_in, parent_in, alone, element_route, event_route, route_with, route_by, part_route, route_as, at_method, method_of};

use crate::path_ids::{PathIds, ids_of};
use crate::path_kind::{AdminRoute, PathKind};
use crate::path_part::part_of;
use crate::query::{PageQuery, page_query};
use misp_elem::Place;
use misp_ids::{ElemId, EventId, OrgId};
use misp_model::{AttributePlace, TaggedPlace};

/// What a request asks for, by its method and path.
#[derive(Clone, Copy)]
pub enum Route {
    AddEvent,
    /// An event: the chosen copy, or that of this owner.
    ViewEvent(EventId, Option<OrgId>),
    EditEvent(EventId),
    DeleteEvent(EventId),
    Publish(EventId),
    /// For an object or outside objects.
    AddAttributes(EventId, Option<ElemId>),
    EditAttribute(EventId, AttributePlace),
    DeleteAttribute(EventId, AttributePlace),
    AddObject(EventId),
    EditObject(EventId, ElemId),
    DeleteObject(EventId, ElemId),
    /// For an object.
    AddReference(EventId, ElemId),
    DeleteReference(EventId, ElemId, ElemId),
    Tag(EventId, TaggedPlace),
    Untag(EventId, TaggedPlace),
    /// For an attribute, or for a new one where the place is the event.
    Propose(EventId, TaggedPlace),
    /// Accepts a proposal, or discards it.
    Judge(EventId, bool),
    Sight(EventId, AttributePlace),
    /// A page of the events that are seen.
    Index(PageQuery),
    /// Whole events that are searched for.
    SearchEvents,
    /// Attributes that are searched for.
    SearchAttributes,
    /// The groups that concern who asks.
    Groups,
    /// A group that is added.
    AddGroup,
    /// A group as it is from then on.
    EditGroup,
    /// The groups that a pull brings.
    SyncGroups,
    /// The events of which a pull brings something.
    SyncEvents,
    /// A package that a pull brings of an event.
    SyncPart(EventId, u32),
    /// What the manifest of a pull says.
    SyncManifest,
    /// The wanted rows of a package that a pull brings.
    SyncRows,
    /// A package that is handed in.
    TakePart,
    /// Groups that are handed in.
    TakeGroups,
    /// What a site administrator asks for.
    Admin(AdminRoute),
}

/// What stands before the first `?`.
pub(crate) fn path_of(target: &str) -> &str
    ensures { result.now ≡ path_of target.now }
{
    match target.split_once('?') {
        Some((path, _)) => path,
        None => target,
    }
}

/// What stands behind the first `?`.
pub(crate) fn query_of(target: &str) -> &str
    ensures { result.now ≡ query_of target.now }
{
    match target.split_once('?') {
        Some((_, query)) => query,
        None => "",
    }
}

// Where an attribute is, outside objects or in one.
fn attribute_in(ids: PathIds) -> Option<(EventId, AttributePlace)>
    ensures { result ≡ attribute_in ids }
{
    let (event, place) = match ids {
        PathIds::Two(e, a) => (e, Place::Attribute(ElemId(a))),
        PathIds::Three(e, x, a) => (e, Place::ObjectAttribute(ElemId(x), ElemId(a))),
        _ => return None,
    };
    match AttributePlace::of(place) {
        Some(place) => Some((EventId(event), place)),
        None => None,
    }
}

// Where tags are: the event itself, or an attribute of it.
fn tagged_in(ids: PathIds) -> Option<(EventId, TaggedPlace)>
    ensures { result ≡ tagged_in ids }
{
    let (event, place) = match ids {
        PathIds::One(e) => (e, Place::Event),
        PathIds::Two(e, a) => (e, Place::Attribute(ElemId(a))),
        PathIds::Three(e, x, a) => (e, Place::ObjectAttribute(ElemId(x), ElemId(a))),
        PathIds::Nobody => return None,
    };
    match TaggedPlace::of(place) {
        Some(place) => Some((EventId(event), place)),
        None => None,
    }
}

fn event_in(ids: PathIds) -> Option<EventId>
    ensures { result ≡ event_in ids }
{
    match ids {
        PathIds::One(e) => Some(EventId(e)),
        _ => None,
    }
}

fn object_in(ids: PathIds) -> Option<(EventId, ElemId)>
    ensures { result ≡ object_in ids }
{
    match ids {
        PathIds::Two(e, x) => Some((EventId(e), ElemId(x))),
        _ => None,
    }
}

fn reference_in(ids: PathIds) -> Option<(EventId, (ElemId, ElemId))>
    ensures { result ≡ reference_in ids }
{
    match ids {
        PathIds::Three(e, x, r) => Some((EventId(e), (ElemId(x), ElemId(r)))),
        _ => None,
    }
}

// An event, with an owner or not.
fn copy_in(ids: PathIds) -> Option<(EventId, Option<OrgId>)>
    ensures { result ≡ copy_in ids }
{
    match ids {
        PathIds::One(e) => Some((EventId(e), None)),
        PathIds::Two(e, o) => Some((EventId(e), Some(OrgId(o)))),
        _ => None,
    }
}

// An event, with an object of it or not.
fn parent_in(ids: PathIds) -> Option<(EventId, Option<ElemId>)>
    ensures { result ≡ parent_in ids }
{
    match ids {
        PathIds::One(e) => Some((EventId(e), None)),
        PathIds::Two(e, x) => Some((EventId(e), Some(ElemId(x)))),
        _ => None,
    }
}

fn alone(route: Route, ids: PathIds) -> Option<Route>
    ensures { result ≡ alone route ids }
{
    match ids {
        PathIds::Nobody => Some(route),
        _ => None,
    }
}

// The route of paths of a kind that is for attributes, objects or references, with these
// identifiers.
fn element_route(kind: PathKind, ids: PathIds) -> Option<Route>
    ensures { result ≡ element_route kind ids }
{
    match kind {
        PathKind::AddAttributes => {
            let (event, object) = parent_in(ids)?;
            Some(Route::AddAttributes(event, object))
        }
        PathKind::EditAttribute => {
            let (event, place) = attribute_in(ids)?;
            Some(Route::EditAttribute(event, place))
        }
        PathKind::DeleteAttribute => {
            let (event, place) = attribute_in(ids)?;
            Some(Route::DeleteAttribute(event, place))
        }
        PathKind::EditObject => {
            let (event, object) = object_in(ids)?;
            Some(Route::EditObject(event, object))
        }
        PathKind::DeleteObject => {
            let (event, object) = object_in(ids)?;
            Some(Route::DeleteObject(event, object))
        }
        PathKind::AddReference => {
            let (event, object) = object_in(ids)?;
            Some(Route::AddReference(event, object))
        }
        PathKind::DeleteReference => {
            let (event, (object, reference)) = reference_in(ids)?;
            Some(Route::DeleteReference(event, object, reference))
        }
        _ => None,
    }
}

// Of paths of a kind that is for an event, or for what stands in one.
fn event_route(kind: PathKind, ids: PathIds) -> Option<Route>
    ensures { result ≡ event_route kind ids }
{
    match kind {
        PathKind::ViewEvent => {
            let (event, owner) = copy_in(ids)?;
            Some(Route::ViewEvent(event, owner))
        }
        PathKind::EditEvent => Some(Route::EditEvent(event_in(ids)?)),
        PathKind::DeleteEvent => Some(Route::DeleteEvent(event_in(ids)?)),
        PathKind::Publish => Some(Route::Publish(event_in(ids)?)),
        PathKind::AddObject => Some(Route::AddObject(event_in(ids)?)),
        PathKind::Tag => {
            let (event, place) = tagged_in(ids)?;
            Some(Route::Tag(event, place))
        }
        PathKind::Untag => {
            let (event, place) = tagged_in(ids)?;
            Some(Route::Untag(event, place))
        }
        PathKind::Propose => {
            let (event, target) = tagged_in(ids)?;
            Some(Route::Propose(event, target))
        }
        PathKind::Accept => Some(Route::Judge(event_in(ids)?, true)),
        PathKind::Discard => Some(Route::Judge(event_in(ids)?, false)),
        PathKind::Sight => {
            let (event, target) = attribute_in(ids)?;
            Some(Route::Sight(event, target))
        }
        _ => element_route(kind, ids),
    }
}

// Of paths of any kind.
fn route_with(kind: PathKind, ids: PathIds) -> Option<Route>
    ensures { result ≡ route_with kind ids }
{
    match kind {
        PathKind::AddEvent => alone(Route::AddEvent, ids),
        PathKind::Index => alone(Route::Index(page_query("")), ids),
        PathKind::SearchEvents => alone(Route::SearchEvents, ids),
        PathKind::SearchAttributes => alone(Route::SearchAttributes, ids),
        PathKind::Groups => alone(Route::Groups, ids),
        PathKind::AddGroup => alone(Route::AddGroup, ids),
        PathKind::EditGroup => alone(Route::EditGroup, ids),
        PathKind::SyncGroups => alone(Route::SyncGroups, ids),
        PathKind::SyncEvents => alone(Route::SyncEvents, ids),
        PathKind::SyncManifest => alone(Route::SyncManifest, ids),
        PathKind::SyncRows => alone(Route::SyncRows, ids),
        PathKind::TakePart => alone(Route::TakePart, ids),
        _ => event_route(kind, ids),
    }
}

// Of paths that end with identifiers alone.
fn route_by(path: &str, kind: PathKind) -> Option<Route>
    ensures { result ≡ route_by kind (ids_of path.now) }
{
    match ids_of(path) {
        Some(ids) => route_with(kind, ids),
        None => None,
    }
}

// That of a part.
fn part_route(path: &str) -> Option<Route>
    ensures { result ≡ part_route path.now }
{
    let (event, number) = part_of(path)?;
    Some(Route::SyncPart(EventId(event), number))
}

/// The route of a path of a kind.
pub(crate) fn route_as(path: &str, kind: PathKind) -> Option<Route>
    ensures { result ≡ route_as kind path.now }
{
    match kind {
        PathKind::SyncPart => part_route(path),
        PathKind::Admin(route) => Some(Route::Admin(route)),
        _ => route_by(path, kind),
    }
}

fn groups_at_method(method: &str) -> Route
    ensures { result ≡ at_method method.now routes.SyncGroups }
{
    if method == "POST" {
        Route::TakeGroups
    } else {
        Route::SyncGroups
    }
}

/// What a path is for by this method: where groups are pulled they are handed in, too.
pub(crate) fn at_method(method: &str, route: Route) -> Route
    ensures { result ≡ at_method method.now route }
{
    match route {
        Route::SyncGroups => groups_at_method(method),
        _ => route,
    }
}

/// With the page that the query asks for, where it is a list of pages.
pub(crate) fn with_query(query: &str, route: Route) -> Route
    ensures { result ≡ with_query query.now route }
{
    match route {
        Route::Index(_) => Route::Index(page_query(query)),
        _ => route,
    }
}

/// The method by which it is asked for.
pub(crate) fn method_of(route: &Route) -> &'static str
    ensures { result.now ≡ method_of route.now }
{
    match route {
        Route::ViewEvent(_, _)
        | Route::Index(_)
        | Route::Groups
        | Route::SyncGroups
        | Route::SyncEvents
        | Route::SyncPart(_, _)
        | Route::SyncManifest => "GET",
        _ => "POST",
    }
}
