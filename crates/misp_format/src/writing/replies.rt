//! The small replies as they are written.

ghost use Rattle.std.specs.Prelude.{◌≡◌, IfOk, Some};
ghost use Rattle.serde_json.specs.Read.{read};
ghost use Rattle.serde_json.specs.Written.{compact_text};
ghost use Rattle.misp_format.specs.Replies.{saved_data, taken_data, refusal_data};

use crate::writing::writer::Writer;
use misp_ids::{EventId, NoMemory, Refusal, Stamp};
use std::alloc::Global;

/// The reply to a request that changed an event: how many elements it brought or changed, and the
/// stamp that they got.
#[tactic(auto, unfolding(crate::specs::Replies::saved_data))]
pub fn write_saved(
    alloc: Global,
    elements: u64,
    event: &EventId,
    stamp: Stamp,
) -> Result<Vec<u8>, NoMemory>
    // The text, byte for byte.
    ensures text { IfOk result (λ b. b.items ≡ compact_text (saved_data elements event.now stamp)) }
    // It is read to the same data.
    ensures reads_back { IfOk result (λ b. read b.items
        ≡ Some (saved_data elements event.now stamp)) }
{
    let mut out = Writer::behind(alloc, Vec::new(alloc));
    out.begin_object()?;
    out.count("elements", elements)?;
    out.uuid("event", &event.0)?;
    out.number("timestamp", stamp.get())?;
    out.end_object()?;
    Ok(out.into_text())
}

/// The reply that tells how many were taken.
#[tactic(auto, unfolding(crate::specs::Replies::taken_data))]
pub fn write_taken(alloc: Global, count: u64) -> Result<Vec<u8>, NoMemory>
    // The text, byte for byte.
    ensures text { IfOk result (λ b. b.items ≡ compact_text (taken_data count)) }
    // It is read to the same data.
    ensures reads_back { IfOk result (λ b. read b.items ≡ Some (taken_data count)) }
{
    let mut out = Writer::behind(alloc, Vec::new(alloc));
    out.begin_object()?;
    out.count("taken", count)?;
    out.end_object()?;
    Ok(out.into_text())
}

/// The reply that refuses a request.
#[tactic(auto, unfolding(crate::specs::Replies::refusal_data))]
pub fn write_refusal(alloc: Global, refusal: &Refusal) -> Result<Vec<u8>, NoMemory>
    // The text, byte for byte.
    ensures text { IfOk result (λ b. b.items ≡ compact_text (refusal_data refusal.now)) }
    // It is read to the same data.
    ensures reads_back { IfOk result (λ b. read b.items ≡ Some (refusal_data refusal.now)) }
{
    let mut out = Writer::behind(alloc, Vec::new(alloc));
    out.begin_object()?;
    out.text("name", refusal.name.text())?;
    out.text("place", refusal.place.as_str())?;
    out.count("rule", u64::from(refusal.rule()))?;
    out.end_object()?;
    Ok(out.into_text())
}
