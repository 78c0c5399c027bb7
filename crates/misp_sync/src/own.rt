//! The own instance as a party of a synchronisation.

ghost use Rattle.std.specs.Prelude.{◌≡◌};

use crate::own_answers::{groups, missing, packages, take_groups, take_part};
use misp_core::Instance;
use misp_dialogue::Party;
use misp_orgs::Link;
use misp_outside::Keeper;
use misp_protocol::{Answer, Body, Cause, Request};
use std::alloc::Global;

/// The own instance as it answers over a link. It says what passes of it in a push, and takes what
/// comes. It is asked for no manifest, and for no rows of a list.
#[derive(Drop)]
pub struct Own<'a, K: Keeper> {
    instance: &'a mut Instance<K>,
    link: &'a Link,
}

impl<'a, K: Keeper> Own<'a, K> {
    /// The instance over this link.
    pub fn new(instance: &'a mut Instance<K>, link: &'a Link) -> Own<'a, K>
        ensures instance { result.instance.ghost_name ≡ instance.entry.ghost_name }
        ensures now { result.instance.now ≡ instance.old }
        ensures link { result.link.now ≡ link.now }
    {
        Own { instance, link }
    }
}

impl<K: Keeper> Party<Request, Answer, Cause> for Own<'_, K> {
    ghost use Rattle.std.specs.Prelude.{ℕ};
    ghost use Rattle.misp_core.specs.Prelude.{Held, Host, host_of};
    ghost use Rattle.misp_orgs.specs.declared.link.Link.{Link};
    ghost use Rattle.misp_sync.specs.OwnAnswers.{own_conduct, own_state};

    ghost Holds = { Held };

    ghost state = { λ o. own_state o.instance.now };

    ghost Setting = { (Host × Link) × ℕ };

    ghost setting = { λ o. ((host_of o.instance.now, o.link.now), o.instance.ghost_name) };

    ghost conduct = { λ s. own_conduct s.0 };

    fn ask(&mut self, alloc: Global, request: Request) -> Result<Answer, Cause> {
        match request {
            Request::Groups => groups(alloc, self.instance, self.link),
            Request::Packages => packages(alloc, self.instance, self.link),
            Request::TakeGroups(coming) => take_groups(alloc, self.instance, self.link, coming),
            Request::Missing(part) => missing(alloc, self.instance, self.link, &part),
            Request::TakePart(coming) => take_part(alloc, self.instance, self.link, &coming),
            Request::Manifest => Err(Cause::Garbled(Body::Body)),
            Request::Rows(wanted) => {
                let _fields = wanted.get();
                Err(Cause::Garbled(Body::Body))
            }
        }
    }
}
