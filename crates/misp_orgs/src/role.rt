//! Roles, and what they permit.

ghost use Rattle.std.specs.Prelude.{◌≡◌};
ghost use Rattle.misp_orgs.specs.Roles.{permits, perm_name, role_named};

/// In which role a key asks.
#[derive(Clone, Copy, PartialEq, Eq)]
pub enum Role {
    Reader,
    User,
    Publisher,
    OrgAdmin,
    /// For the synchronisation with another instance.
    Sync,
    SiteAdmin,
}

impl Role {
    /// The role of this name.
    pub fn named(text: &str) -> Option<Role>
        ensures { result ≡ role_named text.now }
    {
        if text == "reader" {
            Some(Role::Reader)
        } else if text == "user" {
            Some(Role::User)
        } else if text == "publisher" {
            Some(Role::Publisher)
        } else if text == "orgadmin" {
            Some(Role::OrgAdmin)
        } else if text == "sync" {
            Some(Role::Sync)
        } else if text == "siteadmin" {
            Some(Role::SiteAdmin)
        } else {
            None
        }
    }
}

/// What a role permits.
#[derive(Clone, Copy, PartialEq, Eq)]
pub enum Perm {
    /// To view and to search.
    Read,
    /// To add and to change one's own elements.
    Write,
    /// To propose changes of others' elements.
    Propose,
    /// To add sightings.
    Sight,
    /// To release an event.
    Publish,
    /// To hand over and to take in as another instance.
    Sync,
    /// To add and to edit sharing groups.
    Group,
    Admin,
}

impl Perm {
    /// The name of the permission.
    #[tactic(auto, unfolding(crate::specs::Roles::perm_name))]
    pub fn text(self) -> &'static str
        ensures { result.now ≡ perm_name self }
    {
        match self {
            Perm::Read => "Read",
            Perm::Write => "Write",
            Perm::Propose => "Propose",
            Perm::Sight => "Sight",
            Perm::Publish => "Publish",
            Perm::Sync => "Sync",
            Perm::Group => "Group",
            Perm::Admin => "Admin",
        }
    }
}

/// Whether a role permits it.
pub fn may(role: Role, perm: Perm) -> bool
    ensures { result ≡ permits role perm }
{
    match role {
        Role::Reader => matches!(perm, Perm::Read),
        Role::User => matches!(perm, Perm::Read | Perm::Write | Perm::Propose | Perm::Sight),
        Role::Publisher => !matches!(perm, Perm::Sync | Perm::Group | Perm::Admin),
        Role::OrgAdmin => !matches!(perm, Perm::Sync | Perm::Admin),
        Role::Sync => !matches!(perm, Perm::Group | Perm::Admin),
        Role::SiteAdmin => matches!(perm, Perm::Admin),
    }
}
