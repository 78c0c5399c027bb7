//! How the reply to a request goes out.

ghost use Rattle.std.specs.Prelude.{◌≡◌, ◌≤◌, ◌<◌, ◌≢◌, ◌++◌, ℕ, [], Ok, Some, length, vec_len, vec_capacity, IfOk, OnOk, OnErr};
ghost use Rattle.misp_outside.specs.Causes.{HasCause};
ghost use Rattle.misp_outside.specs.Streams.{HasRoom};
ghost use Rattle.misp_http.specs.Faults.{fault_refusal};
ghost use Rattle.misp_http.specs.declared.request.Read.TheVariants as reads;
ghost use Rattle.misp_core.specs.declared.reply.Reply.{Reply as Answered};
ghost use Rattle.misp_core.specs.Effects.{refused_by};
ghost use Rattle.misp_ids.specs.declared.refusal.RuleName.{RuleName};
ghost use Rattle.misp_api.specs.Sending.{GoOut, IsAnswered, no_memory_text};
ghost use Rattle.misp_core.specs.Text.{body_text, http_text, kind_of, reply_text, status_of};
ghost use Rattle.misp_api.specs.Turn.{WentOut, next_word};
ghost use Rattle.misp_api.specs.declared.TheConstants.{CHANGE_TEXT, REPLY_ROOM};

use crate::answering::answer;
use crate::reply::{body_in, has_octets};
use crate::routes::Routes;
use crate::telling::told;
use crate::{CHANGE_TEXT, REPLY_ROOM};
use misp_core::{Instance, Reply};
use misp_http::{BodyKind, Fault, Read, Request, put_reply, write_all};
use misp_ids::{NoMemory, Stamp};
use misp_outside::{Clock, Keeper, Sink};
use std::alloc::Global;

/// How a reply went out.
#[derive(Clone, Copy, PartialEq, Eq)]
pub enum Delivery {
    Written,
    /// It could not be written whole.
    WriteFault,
    /// There was no room for it, and nothing was asked.
    NoRoom,
}

/// What a session keeps from one request to the next: the bytes that were read and not used, and
/// room for replies.
#[derive(Drop)]
pub(crate) struct Buffers {
    /// Read from the source, behind the last request.
    pub(crate) rest: Vec<u8>,
    /// A reply as `answer` writes it.
    pub(crate) text: Vec<u8>,
    /// The same as HTTP has it.
    pub(crate) out: Vec<u8>,
}

// Makes room for the reply to any request that changes anything.
fn make_room<W: Sink>(sink: &mut W, out: &mut Vec<u8>) -> Result<(), NoMemory>
    ensures none { OnOk result (out.new.items ≡ []) }
    ensures empty { OnOk result (vec_len out.new ≡ 0) }
    ensures own { OnOk result (REPLY_ROOM ≤ vec_capacity out.new) }
    ensures room { OnOk result (HasRoom (W.space sink.new) REPLY_ROOM) }
    ensures bytes { W.written sink.new ≡ W.written sink.old }
    ensures faults { W.faults sink.new ≡ W.faults sink.old }
{
    out.clear();
    out.reserve(REPLY_ROOM)?;
    sink.room(REPLY_ROOM)
}

// The moment that the clock tells.
fn moment<T: Clock>(clock: &mut T) -> Stamp
    ensures told { (time : ℕ) → T.time clock.old ≡ Some time → result ≡ time }
    ensures time { T.time clock.new ≡ T.time clock.old }
    ensures word { T.next_word clock.new ≡ T.next_word clock.old }
{
    match Stamp::new(clock.now()) {
        Some(now) => now,
        None => unreachable!(),
    }
}

// Answers a request of the next moment and word.
fn answer_next<K: Keeper, T: Clock>(
    text: &mut Vec<u8>,
    alloc: Global,
    routes: &Routes,
    instance: &mut Instance<K>,
    clock: &mut T,
    request: &Request,
) -> Result<Reply, NoMemory>
    ensures text { IfOk result (λ reply. text.new.items ≡ text.old.items ++ reply_text reply) }
    ensures answered { (time word : ℕ) → T.time clock.old ≡ Some time →
        T.next_word clock.old ≡ Some word → IfOk result (IsAnswered time word
        (reads.Request request.now) instance.old instance.new) }
    ensures dropped { (time word : ℕ) → T.time clock.old ≡ Some time →
        T.next_word clock.old ≡ Some word →
        IfOk result (λ reply. CHANGE_TEXT < length (reply_text reply)) →
        IsAnswered time word (reads.Request request.now) instance.old instance.new
        (refused_by RuleName.NoMemory) }
    ensures time { T.time clock.new ≡ T.time clock.old }
    ensures word { (word : ℕ) → T.next_word clock.old ≡ Some word →
        T.next_word clock.new ≡ Some (next_word (reads.Request request.now) word) }
{
    let now = moment(clock);
    let word = clock.word();
    answer(text, alloc, routes, instance, now, word, request)
}

/// Writes the refusal of bytes that are no request.
pub fn refuse(text: &mut Vec<u8>, alloc: Global, fault: Fault) -> Result<Reply, NoMemory>
    ensures reply { IfOk result (λ reply. reply ≡ Answered.Refused (fault_refusal fault)) }
    ensures text { IfOk result (λ reply. text.new.items ≡ text.old.items ++ reply_text reply) }
    ensures room { OnOk result (vec_len text.new < vec_capacity text.new) }
{
    let refusal = fault.refusal(alloc)?;
    told(text, alloc, Reply::Refused(refusal))
}

// Answers what was read.
fn answer_read<K: Keeper, T: Clock>(
    text: &mut Vec<u8>,
    alloc: Global,
    routes: &Routes,
    instance: &mut Instance<K>,
    clock: &mut T,
    read: &Read,
) -> Result<Reply, NoMemory>
    ensures text { IfOk result (λ reply. text.new.items ≡ reply_text reply) }
    ensures answered { (time word : ℕ) → T.time clock.old ≡ Some time →
        T.next_word clock.old ≡ Some word →
        IfOk result (IsAnswered time word read.now instance.old instance.new) }

    // What changes anything is told in a short text. So where the text is long, or memory ran out
    // for it, it may as well be told that memory ran out.
    ensures dropped { (time word : ℕ) → T.time clock.old ≡ Some time →
        T.next_word clock.old ≡ Some word →
        IfOk result (λ reply. CHANGE_TEXT < length (reply_text reply)) →
        IsAnswered time word read.now instance.old instance.new (refused_by RuleName.NoMemory) }
    ensures time { T.time clock.new ≡ T.time clock.old }
    ensures word { (word : ℕ) → T.next_word clock.old ≡ Some word →
        T.next_word clock.new ≡ Some (next_word read.now word) }
{
    text.clear();
    match read {
        Read::Request(request) => answer_next(text, alloc, routes, instance, clock, request),
        Read::Refused(fault) => refuse(text, alloc, *fault),
    }
}

/// The status of a reply.
pub(crate) fn status_of(reply: &Reply) -> u16
    ensures { result ≡ status_of reply.now }
{
    match reply {
        Reply::Ok(_) => 200,
        Reply::Refused(refusal) => refusal.status(),
    }
}

/// What the body of a reply is.
pub(crate) fn kind_of(reply: &Reply) -> BodyKind
    ensures { result ≡ kind_of reply.now }
{
    if has_octets(reply) {
        BodyKind::Octets
    } else {
        BodyKind::Json
    }
}

#[tactic(auto, unfolding(crate::specs::Sending::no_memory_text))]
fn no_memory_text(close: bool) -> &'static str
    ensures text { result.now ≡ no_memory_text close }
    ensures short { length result.now ≤ REPLY_ROOM }
{
    if close {
        "HTTP/1.1 507 Insufficient Storage\r\nContent-Type: application/json\r\nContent-Length: 40\r\nConnection: close\r\n\r\n{\"name\":\"NoMemory\",\"place\":\"\",\"rule\":27}"
    } else {
        "HTTP/1.1 507 Insufficient Storage\r\nContent-Type: application/json\r\nContent-Length: 40\r\n\r\n{\"name\":\"NoMemory\",\"place\":\"\",\"rule\":27}"
    }
}

// Puts the bytes of a reply into the room, where they are not more than it.
fn put<W: Sink>(
    sink: &mut W,
    out: &mut Vec<u8>,
    reply: &Reply,
    text: &[u8],
    close: bool,
) -> Result<(), NoMemory>
    requires none { out.old.items ≡ [] }
    requires empty { vec_len out.old ≡ 0 }
    requires own { REPLY_ROOM ≤ vec_capacity out.old }
    requires room { HasRoom (W.space sink.old) REPLY_ROOM }
    requires text { text.now ≡ reply_text reply.now }
    ensures text { OnOk result (out.new.items ≡ http_text reply.now close) }
    ensures room { OnOk result (HasRoom (W.space sink.new) (length out.new.items)) }
    ensures full { OnErr result (REPLY_ROOM < length (http_text reply.now close)) }
    ensures left { OnErr result (HasRoom (W.space sink.new) REPLY_ROOM) }
    ensures own_left { REPLY_ROOM ≤ vec_capacity out.new }
    ensures bytes { W.written sink.new ≡ W.written sink.old }
    ensures faults { W.faults sink.new ≡ W.faults sink.old }
{
    put_reply(out, status_of(reply), kind_of(reply), body_in(text), close)?;
    let size = out.as_slice().len();
    if size <= REPLY_ROOM {
        return Ok(());
    }
    sink.room(size)
}

// Puts the bytes of what was answered into the room, or those of want of memory.
fn put_some<W: Sink>(
    sink: &mut W,
    out: &mut Vec<u8>,
    answered: &Result<Reply, NoMemory>,
    text: &[u8],
    close: bool,
)
    requires none { out.old.items ≡ [] }
    requires empty { vec_len out.old ≡ 0 }
    requires own { REPLY_ROOM ≤ vec_capacity out.old }
    requires room { HasRoom (W.space sink.old) REPLY_ROOM }
    requires text { IfOk answered.now (λ reply. text.now ≡ reply_text reply) }
    ensures text { GoOut answered.now close out.new.items }
    ensures room { HasRoom (W.space sink.new) (length out.new.items) }
    ensures bytes { W.written sink.new ≡ W.written sink.old }
    ensures faults { W.faults sink.new ≡ W.faults sink.old }
{
    if let Ok(reply) = answered {
        if put(sink, out, reply, text, close).is_ok() {
            return;
        }
    }
    out.clear();
    out.extend_from_slice(no_memory_text(close).as_bytes())
        .unwrap();
}

// Answers what was read, and puts the bytes of the reply into the room.
fn put_answered<K: Keeper, W: Sink, T: Clock>(
    alloc: Global,
    routes: &Routes,
    instance: &mut Instance<K>,
    sink: &mut W,
    clock: &mut T,
    buffers: &mut Buffers,
    read: &Read,
    close: bool,
)
    requires none { buffers.old.out.items ≡ [] }
    requires empty { vec_len buffers.old.out ≡ 0 }
    requires own { REPLY_ROOM ≤ vec_capacity buffers.old.out }
    requires room { HasRoom (W.space sink.old) REPLY_ROOM }
    ensures put { (time word : ℕ) → T.time clock.old ≡ Some time →
        T.next_word clock.old ≡ Some word → (reply : Answered) ×
        IsAnswered time word read.now instance.old instance.new reply ×
        (buffers.new.out.items ≡ http_text reply close) }
    ensures room { HasRoom (W.space sink.new) (length buffers.new.out.items) }
    ensures bytes { W.written sink.new ≡ W.written sink.old }
    ensures faults { W.faults sink.new ≡ W.faults sink.old }
    ensures time { T.time clock.new ≡ T.time clock.old }
    ensures word { (word : ℕ) → T.next_word clock.old ≡ Some word →
        T.next_word clock.new ≡ Some (next_word read.now word) }
    ensures rest { buffers.new.rest ≡ buffers.old.rest }
{
    let answered = answer_read(&mut buffers.text, alloc, routes, instance, clock, read);
    put_some(sink, &mut buffers.out, &answered, &buffers.text, close);
}

/// Answers what was read, and writes the reply.
pub(crate) fn reply_to<K: Keeper, W: Sink, T: Clock>(
    alloc: Global,
    routes: &Routes,
    instance: &mut Instance<K>,
    sink: &mut W,
    clock: &mut T,
    buffers: &mut Buffers,
    read: Read,
    close: bool,
) -> Delivery
    ensures went { (time word : ℕ) → T.time clock.old ≡ Some time →
        T.next_word clock.old ≡ Some word → WentOut time word read close instance.old
        instance.new (W.written sink.old) (W.written sink.new) result }
    ensures time { T.time clock.new ≡ T.time clock.old }
    ensures word { (word : ℕ) → T.next_word clock.old ≡ Some word → result ≢ Delivery.NoRoom →
        T.next_word clock.new ≡ Some (next_word read word) }
    ensures still { result ≡ Delivery.NoRoom → T.next_word clock.new ≡ T.next_word clock.old }
    ensures rest { buffers.new.rest ≡ buffers.old.rest }
    ensures cause { HasCause (W.faults sink.old) (W.faults sink.new)
        (result ≡ Delivery.WriteFault) }
{
    if make_room(sink, &mut buffers.out).is_err() {
        drop(read);
        return Delivery::NoRoom;
    }
    put_answered(alloc, routes, instance, sink, clock, buffers, &read, close);
    drop(read);
    match write_all(sink, &buffers.out) {
        Ok(()) => Delivery::Written,
        Err(_) => Delivery::WriteFault,
    }
}
