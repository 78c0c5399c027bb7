//! The lines that a run writes, and what is read in them.

ghost use Rattle.std.specs.Prelude.{◌≡◌, IfOk, map, option_and_then, option_map, string_bytes};
ghost use Rattle.misp_script.specs.Lines.{lines_of};
ghost use Rattle.serde_json.specs.Find.{as_array, as_number, as_u64, get};
ghost use Rattle.serde_json.specs.View.{view};
ghost use Rattle.misp_generated.specs.Summary.{accepted_head, behind, count_at, items_count, length_at, reply_at, value_at, value_of};

use misp_ids::NoMemory;
use misp_script::split_line;
use serde_json::Value;
use std::alloc::Global;
use std::marker::Model;

fn accepted_head(alloc: Global, number: usize) -> Result<String, NoMemory>
    ensures { IfOk result (λ head. string_bytes head ≡ accepted_head number) }
{
    Ok(format!(in alloc; "{number} 200 ")?)
}

fn behind<'a>(head: &[u8], line: &'a [u8]) -> Option<&'a [u8]>
    ensures { option_map (λ rest. rest.now) result ≡ behind head.now line.now }
{
    if line.starts_with(head) {
        Some(&line[head.len()..])
    } else {
        None
    }
}

// The value of a body, where it is JSON.
fn value_of(alloc: Global, body: &[u8]) -> Result<Option<Value>, NoMemory>
    ensures { IfOk result (λ value. option_map view value ≡ value_of body.now) }
{
    match Value::from_slice(alloc, body) {
        Ok(value) => Ok(Some(value)),
        Err(error) if error.is_memory() => Err(NoMemory),
        Err(_) => Ok(None),
    }
}

fn count_in(value: &Value, name: &str) -> Option<u64>
    ensures { result
        ≡ option_and_then as_u64 (option_and_then as_number (get name.now (view value.now))) }
{
    value.get(name).and_then(Value::as_u64)
}

fn length_in(value: &Value, name: &str) -> Option<u64>
    ensures { result
        ≡ option_map items_count (option_and_then as_array (get name.now (view value.now))) }
{
    let items = value.get(name)?.as_array()?;
    Some(items.len() as u64)
}

/// Lines, which are looked up by their places. Contracts see their bytes.
#[derive(Drop)]
pub(crate) struct Lines<'a> {
    alloc: Global,
    lines: Vec<&'a [u8]>,
}

impl<'a> Model for Lines<'a> {
    ghost use Rattle.std.specs.Prelude.{ℕ, List, map};

    ghost Value = { List (List ℕ) };

    ghost view = { λ these. map (λ line. line.now) these.lines.items };
}

impl<'a> Lines<'a> {
    // The lines of a text.
    pub(crate) fn of(alloc: Global, text: &'a [u8]) -> Result<Lines<'a>, NoMemory>
        ensures { IfOk result (λ lines. lines ≡ lines_of text.now) }
    {
        let mut lines = Vec::new(alloc);
        let mut rest = text;
        while !rest.is_empty() {
            let (line, after) = split_line(rest);
            lines.push(line)?;
            rest = after;
        }
        Ok(Lines { alloc, lines })
    }

    // The body of the reply on a line, counted from 0, where its status is 200.
    pub(crate) fn reply_at(&self, place: usize) -> Result<Option<&'a [u8]>, NoMemory>
        ensures { IfOk result (λ reply.
            option_map (λ body. body.now) reply ≡ reply_at self.now place) }
    {
        let Some(line) = self.lines.get(place) else {
            return Ok(None);
        };
        let head = accepted_head(self.alloc, place + 1)?;
        Ok(behind(head.as_bytes(), *line))
    }

    // The value in a reply.
    fn value_at(&self, place: usize) -> Result<Option<Value>, NoMemory>
        ensures { IfOk result (λ value. option_map view value ≡ value_at self.now place) }
    {
        match self.reply_at(place)? {
            Some(body) => value_of(self.alloc, body),
            None => Ok(None),
        }
    }

    // The number in a member of a reply.
    pub(crate) fn count_at(&self, place: usize, name: &str) -> Result<Option<u64>, NoMemory>
        ensures { IfOk result (λ count. count ≡ count_at self.now place name.now) }
    {
        match self.value_at(place)? {
            Some(value) => Ok(count_in(&value, name)),
            None => Ok(None),
        }
    }

    // How many items the list in a member of a reply has.
    pub(crate) fn length_at(&self, place: usize, name: &str) -> Result<Option<u64>, NoMemory>
        ensures { IfOk result (λ count. count ≡ length_at self.now place name.now) }
    {
        match self.value_at(place)? {
            Some(value) => Ok(length_in(&value, name)),
            None => Ok(None),
        }
    }
}
