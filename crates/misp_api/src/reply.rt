//! Writes replies.

ghost use Rattle.std.specs.Prelude.{◌≡◌, ◌++◌, OnOk, decimal, codes, drop, string_bytes};
ghost use Rattle.misp_format.specs.Found.{hits_text};
ghost use Rattle.misp_core.specs.Text.{answer_text, has_octets, reply_text};

use crate::event_list::put_event_list;
use misp_core::{Answer, Hits, Reply};
use misp_format::{
    put_event, put_events, put_groups, put_hits, put_index, write_refusal, write_saved, write_taken,
};
use misp_ids::NoMemory;
use misp_package::package_bytes;
use misp_wanted::manifest_bytes;
use std::alloc::Global;
use std::fmt::Write;

/// Writes a text at the end.
pub fn put_text(out: &mut Vec<u8>, text: &str) -> Result<(), NoMemory>
    ensures { OnOk result (out.new.items ≡ out.old.items ++ text.now) }
{
    Ok(out.extend_from_slice(text.as_bytes())?)
}

/// Writes a number in decimal digits.
pub fn put_number(out: &mut Vec<u8>, alloc: Global, number: usize) -> Result<(), NoMemory>
    ensures { OnOk result (out.new.items ≡ out.old.items ++ decimal number) }
{
    let mut text = String::new(alloc);
    write!(text, "{number}")?;
    put_text(out, text.as_str())
}

fn put_found(out: &mut Vec<u8>, alloc: Global, hits: &Hits) -> Result<(), NoMemory>
    ensures { OnOk result (out.new.items
        ≡ out.old.items ++ hits_text hits.now.group_names hits.now.attributes) }
{
    let names = hits.group_names.as_slice();
    put_hits(out, alloc, names, hits.attributes.as_slice())
}

fn put_answer(out: &mut Vec<u8>, alloc: Global, answer: &Answer) -> Result<(), NoMemory>
    ensures { OnOk result (out.new.items ≡ out.old.items ++ answer_text answer.now) }
{
    match answer {
        Answer::Saved {
            elements,
            event,
            stamp,
        } => Ok(out.extend_from_slice(&write_saved(alloc, *elements, event, *stamp)?)?),
        Answer::Event(event) => put_event(out, alloc, event),
        Answer::Index(events) => put_index(out, alloc, events.as_slice()),
        Answer::Hits(hits) => put_found(out, alloc, hits),
        Answer::Events(events) => put_events(out, alloc, events.as_slice()),
        Answer::Groups(groups) => put_groups(out, alloc, groups.as_slice()),
        Answer::Taken(count) => Ok(out.extend_from_slice(&write_taken(alloc, *count)?)?),
        Answer::Parts(events) => put_event_list(out, alloc, events.as_slice()),
        Answer::Part(package) => Ok(out.extend_from_slice(&package_bytes(alloc, package)?)?),
        Answer::Manifest(events) => {
            Ok(out.extend_from_slice(&manifest_bytes(alloc, events.as_slice())?)?)
        }
    }
}

/// Writes a reply: its status, a space and its body.
pub fn put_reply(out: &mut Vec<u8>, alloc: Global, reply: &Reply) -> Result<(), NoMemory>
    ensures { OnOk result (out.new.items ≡ out.old.items ++ reply_text reply.now) }
{
    match reply {
        Reply::Ok(answer) => {
            put_text(out, "200 ")?;
            put_answer(out, alloc, answer)
        }
        Reply::Refused(refusal) => {
            put_number(out, alloc, usize::from(refusal.status()))?;
            put_text(out, " ")?;
            Ok(out.extend_from_slice(&write_refusal(alloc, refusal)?)?)
        }
    }
}

/// The body in a text of a reply, which is behind three digits and a space.
pub fn body_in(text: &[u8]) -> &[u8]
    ensures { result.now ≡ drop 4 text.now }
{
    match text {
        [_, _, _, _, body @ ..] => body,
        _ => &[],
    }
}

/// Whether the body of a reply is octets. Else it is JSON.
pub fn has_octets(reply: &Reply) -> bool
    ensures { result ≡ has_octets reply.now }
{
    matches!(reply, Reply::Ok(Answer::Part(_) | Answer::Manifest(_)))
}
