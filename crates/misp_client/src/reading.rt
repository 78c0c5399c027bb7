//! Reads what a peer replies to a call.

ghost use Rattle.std.specs.Prelude.{◌≡◌, ◌⊎◌, Err, IfOk, IfSome};
ghost use Rattle.misp_protocol.specs.Values.{IsSoundAnswer};
ghost use Rattle.misp_protocol.specs.declared.cause.Cause.TheVariants as causes;
ghost use Rattle.misp_client.specs.Answers.{IsToldBy, kind_of, or_garbled, read_of, refused_in};

use crate::call::Call;
use crate::group_list::read_groups;
use crate::manifest::read_manifest;
use crate::numbers::{read_rule, read_taken};
use crate::parcel::read_part;
use misp_http::{ReplyFault, read_reply};
use misp_ids::NoMemory;
use misp_protocol::{Answer, Body, Cause};
use std::alloc::Global;

// What the body of an accepted call is to be.
fn kind(call: &Call) -> Body
    ensures { result ≡ kind_of call.now }
{
    match call {
        Call::Groups => Body::Groups,
        Call::Manifest => Body::Manifest,
        Call::Rows(_) => Body::Package,
        Call::TakeGroups(_) | Call::TakePart(_) => Body::Taken,
    }
}

// What is read of it.
fn read_body(alloc: Global, body: &[u8], call: &Call) -> Result<Option<Answer>, NoMemory>
    ensures value { IfOk result (λ found. found ≡ read_of call.now body.now) }
    ensures fits { IfOk result (λ found. IfSome found IsSoundAnswer) }
{
    match call {
        Call::Groups => Ok(read_groups(alloc, body)?.map(Answer::Groups)),
        Call::Manifest => Ok(read_manifest(alloc, body)?.map(Answer::Manifest)),
        Call::Rows(wanted) => Ok(read_part(alloc, body, wanted)?.map(Answer::Part)),
        Call::TakeGroups(groups) => {
            let most = groups.as_slice().len() as u64;
            Ok(read_taken(alloc, body, most)?.map(Answer::Taken))
        }
        Call::TakePart(parcel) => {
            let most = parcel.get().rows.as_slice().len() as u64;
            Ok(read_taken(alloc, body, most)?.map(Answer::Taken))
        }
    }
}

// What a body of the status 200 tells.
fn accepted(alloc: Global, body: &[u8], call: &Call) -> Result<Answer, Cause>
    ensures value { (result ≡ Err causes.NoMemory)
        ⊎ (result ≡ or_garbled (kind_of call.now) (read_of call.now body.now)) }
    ensures fits { IfOk result IsSoundAnswer }
{
    match read_body(alloc, body, call) {
        Ok(Some(answer)) => Ok(answer),
        Ok(None) => Err(Cause::Garbled(kind(call))),
        Err(NoMemory) => Err(Cause::NoMemory),
    }
}

// What a body of another status says.
fn refused(alloc: Global, status: u16, body: &[u8]) -> Cause
    ensures { (result ≡ causes.NoMemory) ⊎ (result ≡ refused_in status body.now) }
{
    match read_rule(alloc, body) {
        Ok(Some(rule)) => Cause::Refused { status, rule },
        Ok(None) => Cause::Garbled(Body::Body),
        Err(NoMemory) => Cause::NoMemory,
    }
}

/// What the bytes of a reply to a call tell, or why they tell nothing.
pub fn read_answer(alloc: Global, bytes: &[u8], call: &Call) -> Result<Answer, Cause>
    ensures read { (result ≡ Err causes.NoMemory) ⊎ IsToldBy call.now bytes.now result }
    ensures fits { IfOk result IsSoundAnswer }
{
    match read_reply(alloc, bytes) {
        Ok((200, body)) => accepted(alloc, &body, call),
        Ok((status, body)) => Err(refused(alloc, status, &body)),
        Err(ReplyFault::Head) => Err(Cause::Garbled(Body::Head)),
        Err(ReplyFault::Body) => Err(Cause::Garbled(Body::Body)),
        Err(ReplyFault::NoMemory) => Err(Cause::NoMemory),
    }
}
