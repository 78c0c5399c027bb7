//! Writes what the lines of a script come to.

ghost use Rattle.std.specs.Prelude.{◌≡◌, ◌≤◌, ◌<◌, true, [], ◌∷◌, ◌++◌, IfOk, OnOk, OnErr, codes, decimal, drop, take, vec_len, vec_capacity};
ghost use Rattle.hex.specs.Hex.{encode_lower};
ghost use Rattle.misp_api.specs.Session.{end_name};
ghost use Rattle.misp_core.specs.Text.{has_octets, reply_text};
ghost use Rattle.misp_net.specs.Text.{output_text, shown_text};

use misp_api::{End, body_in, has_octets, put_number, put_text};
use misp_core::Reply;
use misp_ids::NoMemory;
use misp_sync::SyncReply;
use std::alloc::Global;

/// What a line of a script comes to.
#[derive(Drop)]
pub enum Output {
    /// The line is none, and its first faulty field begins here, counted in bytes from 0.
    Bad(usize),
    /// Nothing was asked.
    Nothing,
    Replied(Reply),
    /// The bytes of a request ended within it.
    Unanswered(End),
    /// What a synchronisation was told.
    Synced(SyncReply),
}

/// Writes that a line is none, with room for one byte after it.
pub(crate) fn put_bad(lines: &mut Vec<u8>, alloc: Global, place: usize) -> Result<(), NoMemory>
    ensures text { OnOk result
        (lines.new.items ≡ lines.old.items ++ output_text (Output.Bad place)) }
    ensures room { OnOk result (vec_len lines.new < vec_capacity lines.new) }
{
    put_text(lines, "bad ")?;
    put_number(lines, alloc, place)?;
    lines.reserve(1)?;
    Ok(())
}

/// Writes that nothing was asked, with room for one byte after it.
pub(crate) fn put_nothing(lines: &mut Vec<u8>) -> Result<(), NoMemory>
    ensures text { OnOk result (lines.new.items ≡ lines.old.items ++ output_text Output.Nothing) }
    ensures room { OnOk result (vec_len lines.new < vec_capacity lines.new) }
{
    put_text(lines, "-")?;
    lines.reserve(1)?;
    Ok(())
}

// Puts the body of a reply that is written behind a place into hexadecimal digits, with room for
// one byte after them.
fn put_digits(lines: &mut Vec<u8>, alloc: Global, start: usize) -> Result<(), NoMemory>
    requires { start ≤ vec_len lines.old }
    ensures text { OnOk result (lines.new.items ≡ (take start lines.old.items ++ codes "200 ")
        ++ encode_lower (drop 4 (drop start lines.old.items))) }
    ensures room { OnOk result (vec_len lines.new < vec_capacity lines.new) }
{
    let digits = hex::encode(alloc, body_in(&lines[start..]))?;
    lines.truncate(start);
    put_text(lines, "200 ")?;
    put_text(lines, digits.as_str())?;
    lines.reserve(1)?;
    Ok(())
}

/// Shows a reply that is written behind a place, with room for one byte after it. Octets are put
/// into hexadecimal digits, and memory may run out for these alone.
pub(crate) fn show(
    lines: &mut Vec<u8>,
    alloc: Global,
    start: usize,
    reply: &Reply,
) -> Result<(), NoMemory>
    requires start { start ≤ vec_len lines.old }
    requires text { drop start lines.old.items ≡ reply_text reply.now }
    requires room { vec_len lines.old < vec_capacity lines.old }
    ensures text { OnOk result
        (lines.new.items ≡ take start lines.old.items ++ shown_text reply.now) }
    ensures room { OnOk result (vec_len lines.new < vec_capacity lines.new) }
    ensures octets { OnErr result (has_octets reply.now ≡ true) }
{
    if has_octets(reply) {
        put_digits(lines, alloc, start)
    } else {
        Ok(())
    }
}

/// Writes how a session ended that had no reply, with room for one byte after it.
pub(crate) fn put_unanswered(lines: &mut Vec<u8>, end: End) -> Result<Output, NoMemory>
    ensures output { IfOk result (λ output. output ≡ Output.Unanswered end) }
    ensures text { OnOk result
        (lines.new.items ≡ lines.old.items ++ output_text (Output.Unanswered end)) }
    ensures room { OnOk result (vec_len lines.new < vec_capacity lines.new) }
{
    put_text(lines, end.name())?;
    lines.reserve(1)?;
    Ok(Output::Unanswered(end))
}

/// Writes how a session ended, and the bytes of its replies in hexadecimal digits, with room for
/// one byte after them.
pub(crate) fn put_session(
    lines: &mut Vec<u8>,
    alloc: Global,
    end: End,
    bytes: &[u8],
) -> Result<(), NoMemory>
    ensures text { OnOk result
        (lines.new.items ≡ lines.old.items ++ end_name end ++ 32 ∷ encode_lower bytes.now) }
    ensures room { OnOk result (vec_len lines.new < vec_capacity lines.new) }
{
    put_text(lines, end.name())?;
    put_text(lines, " ")?;
    put_text(lines, hex::encode(alloc, bytes)?.as_str())?;
    lines.reserve(1)?;
    Ok(())
}

/// Writes the number of a line, and a space.
pub(crate) fn put_front(lines: &mut Vec<u8>, alloc: Global, number: usize) -> Result<(), NoMemory>
    ensures { OnOk result (lines.new.items ≡ (lines.old.items ++ decimal number) ++ 32 ∷ []) }
{
    put_number(lines, alloc, number)?;
    put_text(lines, " ")
}
