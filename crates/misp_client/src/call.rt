//! What is asked of a peer, as requests.

ghost use Rattle.std.specs.Prelude.{◌≡◌, IfOk};
ghost use Rattle.misp_format.specs.WholeGroup.{groups_text};
ghost use Rattle.std.specs.List.{AllByRecursion};
ghost use Rattle.misp_groups.specs.Group.{IsGroup};
ghost use Rattle.misp_client.specs.Calling.{IsCall, IsCallable};
ghost use Rattle.misp_client.specs.Calls.{body_of, call_text, method_of, target_of};

use misp_format::put_groups;
use misp_groups::Group;
use misp_http::request_bytes;
use misp_ids::{ApiKey, Items, NoMemory};
use misp_manifest::Wanted;
use misp_model::Package;
use misp_package::package_bytes;
use misp_wanted::wanted_bytes;
use std::alloc::Global;

/// What is asked of a peer.
#[derive(Drop)]
pub enum Call {
    /// The groups that pass.
    Groups,
    /// Which rows pass, by their keys and stamps.
    Manifest,
    /// These rows of a package.
    Rows(Wanted),
    /// That it takes groups.
    TakeGroups(Items<Group>),
    /// That it takes a package.
    TakePart(Package),
}

// The method of a request.
fn method(call: &Call) -> &'static str
    ensures { result.now ≡ method_of call.now }
{
    match call {
        Call::Groups | Call::Manifest => "GET",
        Call::Rows(_) | Call::TakeGroups(_) | Call::TakePart(_) => "POST",
    }
}

// Its target.
fn target(call: &Call) -> &'static str
    ensures { result.now ≡ target_of call.now }
{
    match call {
        Call::Groups | Call::TakeGroups(_) => "/sync/groups",
        Call::Manifest => "/sync/manifest",
        Call::Rows(_) => "/sync/rows",
        Call::TakePart(_) => "/sync/part",
    }
}

// The text of a list of groups.
fn groups_bytes(alloc: Global, groups: &[Group]) -> Result<Vec<u8>, NoMemory>
    ensures { IfOk result (λ bytes. bytes.items ≡ groups_text groups.now) }
{
    let mut bytes = Vec::new(alloc);
    put_groups(&mut bytes, alloc, groups)?;
    Ok(bytes)
}

// Its body.
fn body(alloc: Global, call: &Call) -> Result<Vec<u8>, NoMemory>
    ensures { IfOk result (λ bytes. bytes.items ≡ body_of call.now) }
{
    match call {
        Call::Groups | Call::Manifest => Ok(Vec::new(alloc)),
        Call::Rows(wanted) => wanted_bytes(alloc, wanted),
        Call::TakeGroups(groups) => groups_bytes(alloc, groups.as_slice()),
        Call::TakePart(package) => package_bytes(alloc, package),
    }
}

// ---- what holds of it

// A group is one.
fn is_group(group: &Group)
    ensures { IsGroup group.now }
{
    let _carried = group.carried;
}

// Each of a list is.
fn are_groups(groups: &[Group])
    ensures { AllByRecursion IsGroup groups.now }
{
    for group in groups {
        is_group(group);
    }
}

// What is asked is a value of its type.
fn is_call(call: &Call)
    ensures { IsCall call.now }
{
    match call {
        Call::Groups | Call::Manifest => {}
        Call::Rows(wanted) => {
            let _fields = wanted.get();
        }
        Call::TakeGroups(groups) => {
            let _count = groups.as_slice().len();
            are_groups(groups.as_slice());
        }
        Call::TakePart(parcel) => {
            let _fields = parcel.get();
        }
    }
}

// ---- the whole

/// The bytes of the request with this key, after which the connection is closed.
pub fn call_bytes(alloc: Global, key: &ApiKey, call: &Call) -> Result<Vec<u8>, NoMemory>
    ensures bytes { IfOk result (λ bytes. bytes.items ≡ call_text key.now call.now) }
    ensures fits { IsCallable key.now call.now }
{
    is_call(call);
    let key = key.text();
    let body = body(alloc, call)?;
    request_bytes(alloc, method(call), target(call), Some(key), &body, true)
}
