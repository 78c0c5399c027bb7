//! Where and when a request is answered.

ghost use Rattle.std.specs.Prelude.{◌≡◌, IfOk};
ghost use Rattle.misp_model.specs.View.{known};
ghost use Rattle.misp_core.specs.Partners.{pull_way};

use misp_copies::{Viewer, known};
use misp_elem::{NoMemory, Row};
use misp_groups::Groups;
use misp_ids::{InstId, OrgId, Stamp, Way};
use misp_orgs::{Admin, Caller};
use std::alloc::Global;

/// Where and when a request is answered, and whose it is.
#[derive(Clone, Copy)]
pub(crate) struct Site<'a> {
    pub(crate) here: &'a InstId,
    pub(crate) admin: &'a Admin,
    pub(crate) groups: &'a Groups,
    pub(crate) caller: &'a Caller,
    pub(crate) moment: Stamp,
}

/// Whose a request is.
pub(crate) fn asker(caller: &Caller) -> OrgId
    ensures { result ≡ caller.now.org }
{
    caller.org
}

/// The partner of the key that asks.
pub(crate) fn partner(caller: &Caller) -> Option<InstId>
    ensures { result ≡ caller.now.partner }
{
    caller.partner
}

/// The way of a pull by the key that asks: internal where the key is.
pub(crate) fn pull_way(caller: &Caller) -> Way
    ensures { result ≡ pull_way caller.now.internal }
{
    if caller.internal {
        Way::Internal
    } else {
        Way::Pull
    }
}

/// Who looks, where a request is answered.
pub(crate) fn viewer<'a>(site: &Site<'a>) -> Viewer<'a>
    ensures groups { result.groups.now ≡ site.now.groups.now }
    ensures here { result.here ≡ site.now.here.now }
    ensures org { result.org ≡ site.now.caller.now.org }
{
    Viewer {
        groups: site.groups,
        here: *site.here,
        org: asker(site.caller),
    }
}

/// Of the rows that are read, those that who asks knows.
pub(crate) fn known_at(alloc: Global, site: &Site<'_>, rows: Vec<Row>) -> Result<Vec<Row>, NoMemory>
    ensures { IfOk result (λ left. left.items
        ≡ known rows.items site.now.groups.now site.now.here.now site.now.caller.now.org) }
{
    let org = asker(site.caller);
    known(alloc, rows, site.groups, site.here, &org)
}
