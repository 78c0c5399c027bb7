//! Writes what a synchronisation was told.

ghost use Rattle.std.specs.Prelude.{◌≡◌, ◌<◌, [], ◌∷◌, ◌++◌, decimal, IfOk, OnOk, vec_len, vec_capacity};
ghost use Rattle.json.specs.Token as tokens;
ghost use Rattle.serde_json.specs.Written.{compact_text};
ghost use Rattle.misp_net.specs.SyncText.{body_name, counted_data, stopped_data, stopped_text, sync_text, synced_line, words_of};
ghost use Rattle.misp_sync.specs.declared.reply.SyncReply.TheVariants as replies;

use crate::line::put_front;
use json::Writer;
use misp_api::{put_number, put_text};
use misp_ids::{NoMemory, Refusal, RuleName, Text};
use misp_protocol::{Body, Cause, SyncCount};
use misp_sync::SyncReply;
use std::alloc::Global;
use std::fmt::Write;

// What of a reply is not of the form.
fn name_of(body: Body) -> &'static str
    ensures { result.now ≡ body_name body }
{
    match body {
        Body::Head => "head",
        Body::Body => "body",
        Body::Groups => "groups",
        Body::Manifest => "manifest",
        Body::Package => "package",
        Body::Taken => "taken",
    }
}

// A refusal of this rule that says this of its place.
fn placed(name: RuleName, place: String) -> Refusal
    ensures { result ≡ record { name = name; place = place.bytes.items } }
{
    Refusal {
        name,
        place: Text::of(place),
    }
}

// What a status and a rule are written as.
fn numbers(alloc: Global, status: u16, rule: u64) -> Result<String, NoMemory>
    ensures { IfOk result (λ text. text.bytes.items ≡ decimal status ++ 32 ∷ decimal rule) }
{
    let mut text = String::new(alloc);
    write!(text, "{status} {rule}")?;
    Ok(text)
}

// Why a synchronisation ended before its end, in words.
fn words(alloc: Global, cause: &Cause) -> Result<Refusal, NoMemory>
    ensures { IfOk result (λ refusal. refusal ≡ words_of cause.now) }
{
    Ok(match cause {
        Cause::NoLink => Refusal::bare(alloc, RuleName::NoLink),
        Cause::LinkOff => Refusal::bare(alloc, RuleName::LinkOff),
        Cause::NoPeer => Refusal::bare(alloc, RuleName::NoPeer),
        Cause::Refused { status, rule } => {
            placed(RuleName::PeerRefused, numbers(alloc, *status, *rule)?)
        }
        Cause::Garbled(body) => {
            placed(
                RuleName::PeerGarbled,
                String::from_str(alloc, name_of(*body))?,
            )
        }
        Cause::Link => Refusal::bare(alloc, RuleName::LinkFault),
        Cause::Keeper => Refusal::bare(alloc, RuleName::KeeperFault),
        Cause::NoMemory => Refusal::bare(alloc, RuleName::NoMemory),
        Cause::BadRow(name) => placed(RuleName::BadRow, hex::encode(alloc, name.as_slice())?),
    })
}

// Puts down a member that is a number.
fn put_count(out: &mut Writer, name: &str, count: u64) -> Result<(), NoMemory>
    ensures before { OnOk result (out.new.before ≡ out.old.before) }
    ensures tokens { OnOk result (out.new.tokens
        ≡ out.old.tokens ++ tokens.key name.now ∷ tokens.number (decimal count) ∷ []) }
{
    out.key(name)?;
    Ok(out.u64(count)?)
}

// Puts down a member that is a text.
fn put_name(out: &mut Writer, name: &str, text: &str) -> Result<(), NoMemory>
    ensures before { OnOk result (out.new.before ≡ out.old.before) }
    ensures tokens { OnOk result (out.new.tokens
        ≡ out.old.tokens ++ tokens.key name.now ∷ tokens.string text.now ∷ []) }
{
    out.key(name)?;
    Ok(out.string(text)?)
}

// What was taken.
fn write_counted(alloc: Global, count: &SyncCount) -> Result<Vec<u8>, NoMemory>
    ensures { IfOk result (λ b. b.items ≡ compact_text (counted_data count.now)) }
{
    let mut out = Writer::new(Vec::new(alloc));
    out.begin_object()?;
    put_count(&mut out, "elements", count.elements)?;
    put_count(&mut out, "events", count.events)?;
    put_count(&mut out, "groups", count.groups)?;
    put_count(&mut out, "packages", count.packages)?;
    out.end_object()?;
    Ok(out.into_inner())
}

// What refused or stopped it, and how many packages were taken before that.
fn write_stopped(alloc: Global, count: &SyncCount, cause: &Refusal) -> Result<Vec<u8>, NoMemory>
    ensures { IfOk result (λ b. b.items ≡ compact_text (stopped_data count.now cause.now)) }
{
    let mut out = Writer::new(Vec::new(alloc));
    out.begin_object()?;
    put_name(&mut out, "name", cause.name.text())?;
    put_count(&mut out, "packages", count.packages)?;
    put_name(&mut out, "place", cause.place.as_str())?;
    put_count(&mut out, "rule", u64::from(cause.rule()))?;
    out.end_object()?;
    Ok(out.into_inner())
}

// Writes the status of the rule that refused or stopped it, a space, and the refusal.
fn put_refused(
    lines: &mut Vec<u8>,
    alloc: Global,
    count: &SyncCount,
    cause: &Refusal,
) -> Result<(), NoMemory>
    ensures { OnOk result
        (lines.new.items ≡ lines.old.items ++ stopped_text count.now cause.now) }
{
    put_number(lines, alloc, usize::from(cause.status()))?;
    put_text(lines, " ")?;
    Ok(lines.extend_from_slice(&write_stopped(alloc, count, cause)?)?)
}

// Writes why it ended before its end.
fn put_stopped(
    lines: &mut Vec<u8>,
    alloc: Global,
    count: &SyncCount,
    cause: &Cause,
) -> Result<(), NoMemory>
    ensures { OnOk result (lines.new.items
        ≡ lines.old.items ++ sync_text (replies.Stopped count.now cause.now)) }
{
    let refusal = words(alloc, cause)?;
    put_refused(lines, alloc, count, &refusal)
}

// Writes that all was taken that passes, and how much.
fn put_done(lines: &mut Vec<u8>, alloc: Global, count: &SyncCount) -> Result<(), NoMemory>
    ensures { OnOk result (lines.new.items
        ≡ lines.old.items ++ sync_text (replies.Done count.now)) }
{
    put_text(lines, "200 ")?;
    Ok(lines.extend_from_slice(&write_counted(alloc, count)?)?)
}

/// Writes what a synchronisation was told, with room for one byte after it.
pub(crate) fn put_synced(
    lines: &mut Vec<u8>,
    alloc: Global,
    reply: &SyncReply,
) -> Result<(), NoMemory>
    ensures text { OnOk result (lines.new.items ≡ lines.old.items ++ sync_text reply.now) }
    ensures room { OnOk result (vec_len lines.new < vec_capacity lines.new) }
{
    match reply {
        SyncReply::Done(count) => put_done(lines, alloc, count)?,
        SyncReply::Stopped { count, cause } => put_stopped(lines, alloc, count, cause)?,
    }
    lines.reserve(1)?;
    Ok(())
}

/// Writes the line of a synchronisation, with this number.
pub fn put_synced_line(
    lines: &mut Vec<u8>,
    alloc: Global,
    number: usize,
    reply: &SyncReply,
) -> Result<(), NoMemory>
    ensures { OnOk result (lines.new.items ≡ lines.old.items ++ synced_line number reply.now) }
{
    put_front(lines, alloc, number)?;
    put_synced(lines, alloc, reply)?;
    lines.push(b'\n').unwrap();
    Ok(())
}
