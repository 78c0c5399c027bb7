//! The script of the generated network.

ghost use Rattle.std.specs.Prelude.{◌≡◌, ◌≤◌, ◌++◌, ℕ, List, IfOk, OnOk, codes, string_bytes, flat_map};
ghost use Rattle.std.specs.List.{range_with_len};
ghost use Rattle.misp_ids.specs.Uid.{text_of};
ghost use Rattle.misp_generated.specs.Network.{key_of};
ghost use Rattle.misp_generated.specs.Script.{attribute_uuid, event_body, event_lines, event_uuid, pull_line, pull_lines, request_line, search_line, search_lines, source_text};

use crate::network::description;
use crate::text::{put, put_number};
use misp_ids::{NoMemory, Uid};
use std::alloc::Global;

// A moment and a word, in front of each command.
const STEP_HEAD: &str = "1700000000 00000000000000000000000000000000 ";

fn put_uuid(out: &mut String, uuid: &Uid) -> Result<(), NoMemory>
    ensures { OnOk result (string_bytes out.new ≡ string_bytes out.old ++ text_of uuid.now) }
{
    let text = uuid.to_text(*out.allocator())?;
    Ok(put(out, text.as_str())?)
}

// A letter forty times.
fn put_key(out: &mut String, letter: char) -> Result<(), NoMemory>
    requires { letter ≤ 127 }
    ensures { OnOk result (string_bytes out.new ≡ string_bytes out.old ++ key_of letter) }
{
    for _ in 0..40u8 {
        out.push(letter)?;
    }
    Ok(())
}

// What stands in front of a request.
fn put_request_head(out: &mut String, inst: &str, letter: char) -> Result<(), NoMemory>
    requires { letter ≤ 127 }
    ensures { OnOk result ((request : List ℕ) →
        string_bytes out.new ++ request ++ codes "\n"
        ≡ string_bytes out.old ++ request_line inst.now letter request) }
{
    put(out, STEP_HEAD)?;
    put(out, "req ")?;
    put(out, inst)?;
    put(out, " ")?;
    put_key(out, letter)?;
    Ok(put(out, " ")?)
}

fn put_event_body(out: &mut String, number: u32) -> Result<(), NoMemory>
    ensures { OnOk result (string_bytes out.new ≡ string_bytes out.old ++ event_body number) }
{
    put(out, "{\"Event\":{\"uuid\":\"")?;
    put_uuid(out, &event_uuid(number))?;
    put(out, "\",\"info\":\"event ")?;
    put_number(out, u128::from(number))?;
    put(out, "\",\"date\":\"2023-11-14\",\"distribution\":\"")?;
    put_number(out, u128::from(1 + number % 3))?;
    put(out, "\",\"Attribute\":[{\"uuid\":\"")?;
    put_uuid(out, &attribute_uuid(number))?;
    put(out, "\",\"type\":\"text\",\"value\":\"value ")?;
    put_number(out, u128::from(number))?;
    Ok(put(out, "\"}]}}")?)
}

fn event_uuid(number: u32) -> Uid
    ensures { result ≡ event_uuid number }
{
    Uid((0x4000_8000 << 48) + u128::from(number))
}

fn attribute_uuid(number: u32) -> Uid
    ensures { result ≡ attribute_uuid number }
{
    Uid((1 << 96) + (0x4000_8000 << 48) + u128::from(number))
}

// An event that is added and published.
fn put_event_lines(out: &mut String, number: u32) -> Result<(), NoMemory>
    ensures { OnOk result (string_bytes out.new ≡ string_bytes out.old ++ event_lines number) }
{
    put_request_head(out, "a", 'A')?;
    put(out, "POST /events/add ")?;
    put_event_body(out, number)?;
    put(out, "\n")?;
    put_request_head(out, "a", 'A')?;
    put(out, "POST /events/publish/")?;
    put_uuid(out, &event_uuid(number))?;
    Ok(put(out, "\n")?)
}

fn put_pull_line(out: &mut String, command: &str) -> Result<(), NoMemory>
    ensures { OnOk result (string_bytes out.new ≡ string_bytes out.old ++ pull_line command.now) }
{
    put(out, STEP_HEAD)?;
    put(out, "pull ")?;
    put(out, command)?;
    Ok(put(out, "\n")?)
}

fn put_pull_lines(out: &mut String) -> Result<(), NoMemory>
    ensures { OnOk result (string_bytes out.new ≡ string_bytes out.old ++ pull_lines) }
{
    put_pull_line(out, "b ba")?;
    put_pull_line(out, "c cb")?;
    put_pull_line(out, "d dc")?;
    Ok(put_pull_line(out, "a ad")?)
}

fn put_search_line(out: &mut String, inst: &str, letter: char) -> Result<(), NoMemory>
    requires { letter ≤ 127 }
    ensures { OnOk result (string_bytes out.new
        ≡ string_bytes out.old ++ search_line inst.now letter) }
{
    put_request_head(out, inst, letter)?;
    Ok(put(out, "POST /attributes/restSearch {\"value\":\"value 1\"}\n")?)
}

fn put_search_lines(out: &mut String) -> Result<(), NoMemory>
    ensures { OnOk result (string_bytes out.new ≡ string_bytes out.old ++ search_lines) }
{
    put_search_line(out, "a", 'A')?;
    put_search_line(out, "b", 'B')?;
    put_search_line(out, "c", 'C')?;
    Ok(put_search_line(out, "d", 'D')?)
}

// Twice around the ring.
fn put_rounds(out: &mut String) -> Result<(), NoMemory>
    ensures { OnOk result (string_bytes out.new
        ≡ string_bytes out.old ++ pull_lines ++ pull_lines) }
{
    put_pull_lines(out)?;
    Ok(put_pull_lines(out)?)
}

// The lines of so many events, one after another.
fn put_all_events(out: &mut String, count: u32) -> Result<(), NoMemory>
    ensures { OnOk result (string_bytes out.new
        ≡ string_bytes out.old ++ flat_map event_lines (range_with_len 1 count)) }
{
    for index in 0..count {
        put_event_lines(out, index + 1)?;
    }
    Ok(())
}

/// The source of a network with so many events: its description, and its script.
#[tactic(auto, unfolding(crate::specs::Script::source_text, crate::specs::Script::script_text))]
pub fn write_source(alloc: Global, count: u32) -> Result<String, NoMemory>
    ensures { IfOk result (λ text. string_bytes text ≡ source_text count) }
{
    let mut out = String::from_str(alloc, description())?;
    put(&mut out, "---\n")?;
    put_all_events(&mut out, count)?;
    put_rounds(&mut out)?;
    put_search_lines(&mut out)?;
    Ok(out)
}
