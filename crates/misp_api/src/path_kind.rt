//! What paths are for, by their patterns.

/// What a site administrator asks for.
#[derive(Clone, Copy, Drop)]
pub enum AdminRoute {
    AddOrganisation,
    AddAuthKey,
    RevokeAuthKey,
    AddServer,
    EditServer,
}

/// What a path is for, whatever identifiers it ends with.
#[derive(Clone, Copy, Drop)]
pub enum PathKind {
    ViewEvent,
    AddEvent,
    EditEvent,
    DeleteEvent,
    Publish,
    AddAttributes,
    EditAttribute,
    DeleteAttribute,
    AddObject,
    EditObject,
    DeleteObject,
    AddReference,
    DeleteReference,
    Tag,
    Untag,
    Propose,
    Accept,
    Discard,
    Sight,
    Index,
    SearchEvents,
    SearchAttributes,
    Groups,
    AddGroup,
    EditGroup,
    SyncGroups,
    SyncEvents,
    SyncPart,
    SyncManifest,
    SyncRows,
    TakePart,
    Admin(AdminRoute),
}

/// The patterns of paths, each with what it is for. A name in braces is an identifier, or the
/// number of a part.
pub(crate) const PATHS: [(&str, PathKind); 47] = [
    ("/events/view/{event}", PathKind::ViewEvent),
    ("/events/view/{event}/{owner}", PathKind::ViewEvent),
    ("/events/index", PathKind::Index),
    ("/events/restSearch", PathKind::SearchEvents),
    ("/attributes/restSearch", PathKind::SearchAttributes),
    ("/events/add", PathKind::AddEvent),
    ("/events/edit/{event}", PathKind::EditEvent),
    ("/events/delete/{event}", PathKind::DeleteEvent),
    ("/events/publish/{event}", PathKind::Publish),
    ("/attributes/add/{event}", PathKind::AddAttributes),
    ("/attributes/add/{event}/{object}", PathKind::AddAttributes),
    (
        "/attributes/edit/{event}/{attribute}",
        PathKind::EditAttribute,
    ),
    (
        "/attributes/edit/{event}/{object}/{attribute}",
        PathKind::EditAttribute,
    ),
    (
        "/attributes/delete/{event}/{attribute}",
        PathKind::DeleteAttribute,
    ),
    (
        "/attributes/delete/{event}/{object}/{attribute}",
        PathKind::DeleteAttribute,
    ),
    ("/objects/add/{event}", PathKind::AddObject),
    ("/objects/edit/{event}/{object}", PathKind::EditObject),
    ("/objects/delete/{event}/{object}", PathKind::DeleteObject),
    ("/references/add/{event}/{object}", PathKind::AddReference),
    (
        "/references/delete/{event}/{object}/{reference}",
        PathKind::DeleteReference,
    ),
    ("/tags/attach/{event}", PathKind::Tag),
    ("/tags/attach/{event}/{attribute}", PathKind::Tag),
    ("/tags/attach/{event}/{object}/{attribute}", PathKind::Tag),
    ("/tags/remove/{event}", PathKind::Untag),
    ("/tags/remove/{event}/{attribute}", PathKind::Untag),
    ("/tags/remove/{event}/{object}/{attribute}", PathKind::Untag),
    ("/shadow_attributes/add/{event}", PathKind::Propose),
    (
        "/shadow_attributes/add/{event}/{attribute}",
        PathKind::Propose,
    ),
    (
        "/shadow_attributes/add/{event}/{object}/{attribute}",
        PathKind::Propose,
    ),
    ("/shadow_attributes/accept/{event}", PathKind::Accept),
    ("/shadow_attributes/discard/{event}", PathKind::Discard),
    ("/sightings/add/{event}/{attribute}", PathKind::Sight),
    (
        "/sightings/add/{event}/{object}/{attribute}",
        PathKind::Sight,
    ),
    ("/sharing_groups/index", PathKind::Groups),
    ("/sharing_groups/add", PathKind::AddGroup),
    ("/sharing_groups/edit", PathKind::EditGroup),
    ("/sync/groups", PathKind::SyncGroups),
    ("/sync/events", PathKind::SyncEvents),
    ("/sync/part/{event}/{part}", PathKind::SyncPart),
    ("/sync/manifest", PathKind::SyncManifest),
    ("/sync/rows", PathKind::SyncRows),
    ("/sync/part", PathKind::TakePart),
    (
        "/admin/organisations/add",
        PathKind::Admin(AdminRoute::AddOrganisation),
    ),
    ("/admin/keys/add", PathKind::Admin(AdminRoute::AddAuthKey)),
    (
        "/admin/keys/revoke",
        PathKind::Admin(AdminRoute::RevokeAuthKey),
    ),
    ("/admin/links/add", PathKind::Admin(AdminRoute::AddServer)),
    ("/admin/links/edit", PathKind::Admin(AdminRoute::EditServer)),
];
