//! The summary of the lines that a run of the generated script writes.

ghost use Rattle.std.specs.Prelude.{◌≡◌, ◌+◌, ◌*◌, ◌++◌, IfOk, OnOk, string_bytes};
ghost use Rattle.misp_script.specs.Lines.{lines_of};
ghost use Rattle.misp_generated.specs.Summary.{added, added_text, again, again_text, all_hits_text, count_text, hits_text, pull_text, pulls_text, summary_text};

use crate::lines::Lines;
use crate::text::{put, put_number};
use misp_ids::NoMemory;
use std::alloc::Global;

fn put_count(out: &mut String, count: Option<u128>) -> Result<(), NoMemory>
    ensures { OnOk result (string_bytes out.new ≡ string_bytes out.old ++ count_text count) }
{
    match count {
        Some(count) => put_number(out, count),
        None => put(out, "-"),
    }
}

// The same count, with room for a sum.
fn widened(count: Option<u64>) -> Option<u128>
    ensures { result ≡ count }
{
    match count {
        Some(count) => Some(u128::from(count)),
        None => None,
    }
}

// How many of so many events were added.
fn added(lines: &Lines<'_>, count: u32) -> Result<u32, NoMemory>
    ensures { IfOk result (λ number. number ≡ added lines.now count) }
{
    let mut number = 0u32;
    for index in 0..count {
        if lines.reply_at(2 * (index as usize))?.is_some() {
            number += 1;
        }
    }
    Ok(number)
}

// The elements of the four pulls of the second round.
fn again(lines: &Lines<'_>, count: u32) -> Result<Option<u128>, NoMemory>
    ensures { IfOk result (λ sum. sum ≡ again lines.now (2 * count + 4)) }
{
    let first = 2 * (count as usize) + 4;
    let mut sum = 0u128;
    for place in first..first + 4 {
        match lines.count_at(place, "elements")? {
            Some(elements) => sum += u128::from(elements),
            None => return Ok(None),
        }
    }
    Ok(Some(sum))
}

fn put_added(out: &mut String, lines: &Lines<'_>, count: u32) -> Result<(), NoMemory>
    ensures { OnOk result (string_bytes out.new
        ≡ string_bytes out.old ++ added_text lines.now count) }
{
    put(out, "events ")?;
    put_number(out, u128::from(added(lines, count)?))?;
    Ok(put(out, "\n")?)
}

fn put_pull(out: &mut String, lines: &Lines<'_>, place: usize, inst: &str) -> Result<(), NoMemory>
    ensures { OnOk result (string_bytes out.new
        ≡ string_bytes out.old ++ pull_text lines.now place inst.now) }
{
    put(out, inst)?;
    put(out, " ")?;
    put_count(out, widened(lines.count_at(place, "elements")?))?;
    put(out, " ")?;
    put_count(out, widened(lines.count_at(place, "events")?))?;
    Ok(put(out, "\n")?)
}

// The pulls of the first round.
fn put_pulls(out: &mut String, lines: &Lines<'_>, count: u32) -> Result<(), NoMemory>
    ensures { OnOk result (string_bytes out.new
        ≡ string_bytes out.old ++ pulls_text lines.now (2 * count)) }
{
    let first = 2 * (count as usize);
    put_pull(out, lines, first, "b")?;
    put_pull(out, lines, first + 1, "c")?;
    put_pull(out, lines, first + 2, "d")?;
    Ok(put_pull(out, lines, first + 3, "a")?)
}

fn put_again(out: &mut String, lines: &Lines<'_>, count: u32) -> Result<(), NoMemory>
    ensures { OnOk result (string_bytes out.new
        ≡ string_bytes out.old ++ again_text lines.now (2 * count + 4)) }
{
    put(out, "again ")?;
    put_count(out, again(lines, count)?)?;
    Ok(put(out, "\n")?)
}

fn put_hits(out: &mut String, lines: &Lines<'_>, place: usize) -> Result<(), NoMemory>
    ensures { OnOk result (string_bytes out.new
        ≡ string_bytes out.old ++ hits_text lines.now place) }
{
    put(out, " ")?;
    Ok(put_count(out, widened(lines.length_at(place, "Attribute")?))?)
}

fn put_all_hits(out: &mut String, lines: &Lines<'_>, count: u32) -> Result<(), NoMemory>
    ensures { OnOk result (string_bytes out.new
        ≡ string_bytes out.old ++ all_hits_text lines.now (2 * count + 8)) }
{
    let first = 2 * (count as usize) + 8;
    put(out, "hits")?;
    put_hits(out, lines, first)?;
    put_hits(out, lines, first + 1)?;
    put_hits(out, lines, first + 2)?;
    put_hits(out, lines, first + 3)?;
    Ok(put(out, "\n")?)
}

/// The summary of these lines, where so many events were added.
#[tactic(auto, unfolding(crate::specs::Summary::summary_text))]
pub fn write_summary(alloc: Global, count: u32, text: &[u8]) -> Result<String, NoMemory>
    ensures { IfOk result (λ summary.
        string_bytes summary ≡ summary_text count (lines_of text.now)) }
{
    let lines = Lines::of(alloc, text)?;
    let mut out = String::new(alloc);
    put_added(&mut out, &lines, count)?;
    put_pulls(&mut out, &lines, count)?;
    put_again(&mut out, &lines, count)?;
    put_all_hits(&mut out, &lines, count)?;
    Ok(out)
}
