//! Answers the bytes of one request, as a wire of one process needs it.

ghost use Rattle.std.specs.Prelude.{◌≡◌, ◌≢◌, ◌≤◌, ◌++◌, ℕ, List, [], Option, None, Ok, Err, IfOk, OnOk, OnErr};
ghost use Rattle.misp_outside.specs.Reporting.{StaysHeld, WhereReported};
ghost use Rattle.misp_http.specs.Reading.{IsRead};
ghost use Rattle.misp_http.specs.declared.request.Read.{Read as WasRead};
ghost use Rattle.misp_http.specs.declared.request.ReadEnd.{ReadEnd as NotRead};
ghost use Rattle.misp_core.specs.Sound.{IsSound, IsWorded};
ghost use Rattle.misp_core.specs.Standing.{host_of};
ghost use Rattle.misp_core.specs.Text.{http_text, reply_text};
ghost use Rattle.misp_api.specs.Answering.{IsPull, IsSync};
ghost use Rattle.misp_api.specs.Exchange.{IsExchanged, IsLeftSo};
ghost use Rattle.misp_api.specs.Sending.{IsAnswered, read_form};

use crate::answering::answer;
use crate::reply::body_in;
use crate::routes::Routes;
use crate::sending::{kind_of, refuse, status_of};
use crate::turn::closes;
use misp_core::{Instance, Reply};
use misp_http::{Read, ReadEnd, read_request, reply_bytes};
use misp_ids::{NoMemory, Stamp};
use misp_outside::{Keeper, SureSource};
use std::alloc::Global;

/// What bytes are as a request, after which no more follow.
pub fn read_bytes(alloc: Global, bytes: Vec<u8>) -> Result<Read, ReadEnd>
    ensures read { (left : Option (List ℕ)) × IsRead bytes.items result left }
    ensures no_fault { result ≢ Err NotRead.ReadFault }
{
    let mut rest = bytes;
    let mut source = SureSource::new(Vec::new(alloc));
    read_request(alloc, &mut source, &mut rest)
}

// Answers what was read, and writes the reply.
fn answer_to<K: Keeper>(
    text: &mut Vec<u8>,
    alloc: Global,
    routes: &Routes,
    instance: &mut Instance<K>,
    now: Stamp,
    word: u128,
    read: &Read,
) -> Result<Reply, NoMemory>
    ensures text { IfOk result (λ reply. text.new.items ≡ text.old.items ++ reply_text reply) }
    ensures answered { IfOk result (IsAnswered now word read.now instance.old instance.new) }
    ensures unwritten { OnErr result (StaysHeld instance.old.held instance.new.held) }
    ensures sound { IsSync (read_form (host_of instance.old) word read.now) → IfOk result IsSound }
    ensures still { IsPull (read_form (host_of instance.old) word read.now) →
        StaysHeld instance.old.held instance.new.held }
    ensures silent { instance.old.held ≡ None → instance.new.held ≡ None }
    ensures later { instance.old.faults ≤ instance.new.faults }
    ensures name { instance.new.name ≡ instance.old.name }
    ensures admin { IsSync (read_form (host_of instance.old) word read.now) →
        instance.new.admin ≡ instance.old.admin }
{
    match read {
        Read::Request(request) => answer(text, alloc, routes, instance, now, word, request),
        Read::Refused(fault) => refuse(text, alloc, *fault),
    }
}

// The same reply. What a refusal says of its place is a text.
fn worded(reply: Reply) -> Reply
    ensures same { result ≡ reply }
    ensures worded { IsWorded result }
{
    match reply {
        Reply::Ok(answer) => Reply::Ok(answer),
        Reply::Refused(refusal) => {
            let _place = refusal.place.as_str();
            Reply::Refused(refusal)
        }
    }
}

// The bytes of a reply of this text.
fn bytes_of(alloc: Global, reply: &Reply, text: &[u8], close: bool) -> Result<Vec<u8>, NoMemory>
    requires { text.now ≡ reply_text reply.now }
    ensures { IfOk result (λ bytes. bytes.items ≡ http_text reply.now close) }
{
    reply_bytes(
        alloc,
        status_of(reply),
        kind_of(reply),
        body_in(text),
        close,
    )
}

// Answers what was read with the bytes of the reply.
fn reply_to_read<K: Keeper>(
    alloc: Global,
    routes: &Routes,
    instance: &mut Instance<K>,
    now: Stamp,
    word: u128,
    read: &Read,
) -> Result<Vec<u8>, NoMemory>
    ensures answered { IfOk result (λ bytes.
        IsExchanged now word read.now instance.old instance.new bytes.items) }
    ensures left { OnErr result (WhereReported instance.old.held instance.new.held
        (IsLeftSo now (read_form (host_of instance.old) word read.now) instance.old)) }
    ensures still { IsPull (read_form (host_of instance.old) word read.now) →
        StaysHeld instance.old.held instance.new.held }
    ensures silent { instance.old.held ≡ None → instance.new.held ≡ None }
    ensures later { instance.old.faults ≤ instance.new.faults }
    ensures name { instance.new.name ≡ instance.old.name }
    ensures admin { IsSync (read_form (host_of instance.old) word read.now) →
        instance.new.admin ≡ instance.old.admin }
{
    let close = closes(read);
    let mut text = Vec::new(alloc);
    let reply = answer_to(&mut text, alloc, routes, instance, now, word, read)?;
    let reply = worded(reply);
    bytes_of(alloc, &reply, &text, close)
}

// There is no reply to bytes that are no request.
fn unread(alloc: Global, end: ReadEnd) -> Result<Vec<u8>, NoMemory>
    ensures read { OnOk result (end ≢ NotRead.NoMemory) }
    ensures none { IfOk result (λ bytes. bytes.items ≡ []) }
    ensures memory { OnErr result (end ≡ NotRead.NoMemory) }
{
    match end {
        ReadEnd::NoMemory => Err(NoMemory),
        ReadEnd::Ended | ReadEnd::Cut | ReadEnd::ReadFault => Ok(Vec::new(alloc)),
    }
}

/// The bytes of the reply to the one request that the bytes are. Where they are none, there is no
/// reply, and no byte.
pub fn exchange<K: Keeper>(
    alloc: Global,
    routes: &Routes,
    instance: &mut Instance<K>,
    now: Stamp,
    word: u128,
    bytes: Vec<u8>,
) -> Result<Vec<u8>, NoMemory>
    // Bytes that are a request, or are refused as none, are answered as it is stated.
    ensures answered { (read : WasRead) (left : Option (List ℕ)) → IsRead bytes.items (Ok read) left
        → IfOk result (λ reply. IsExchanged now word read instance.old instance.new reply.items) }

    // Where memory runs out, what is held is as it was, or what some reply to the request leaves.
    ensures left { (read : WasRead) (left : Option (List ℕ)) → IsRead bytes.items (Ok read) left
        → OnErr result (WhereReported instance.old.held instance.new.held
        (IsLeftSo now (read_form (host_of instance.old) word read) instance.old)) }

    // What a pull asks and what is refused by its form changes nothing that is held, even where
    // memory runs out. A keeper that reports nothing reports nothing then.
    ensures still { (read : WasRead) (left : Option (List ℕ)) → IsRead bytes.items (Ok read) left
        → IsPull (read_form (host_of instance.old) word read)
        → StaysHeld instance.old.held instance.new.held }
    ensures silent { instance.old.held ≡ None → instance.new.held ≡ None }
    ensures later { instance.old.faults ≤ instance.new.faults }
    ensures name { instance.new.name ≡ instance.old.name }

    // What a synchronisation asks leaves the administration as it is.
    ensures admin { (read : WasRead) (left : Option (List ℕ)) → IsRead bytes.items (Ok read) left
        → IsSync (read_form (host_of instance.old) word read)
        → instance.new.admin ≡ instance.old.admin }
{
    match read_bytes(alloc, bytes) {
        Ok(read) => reply_to_read(alloc, routes, instance, now, word, &read),
        Err(end) => unread(alloc, end),
    }
}
