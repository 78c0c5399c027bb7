//! Reading from left to right.

ghost use Rattle.std.specs.Prelude.{Ok};
ghost use Rattle.misp_elem.specs.Prelude.{between_at, stamp_at};
ghost use Rattle.misp_elem.specs.WireReading.{front_at, own_event_at};
ghost use Rattle.misp_package.specs.PackageReading.{Gives};

mod keys;
mod manifests;
mod wanted_lists;

pub use manifests::read_manifest;
use misp_ids::{EventId, Stamp};
use misp_package::{Reader, Stop};
pub use wanted_lists::read_wanted;

// A byte between these.
#[tactic(auto, unfolding(misp_elem::specs::Reading::between_at))]
fn between(reader: &mut Reader<'_>, least: u8, most: u8) -> Result<u8, Stop>
    ensures { Gives result reader.new (between_at least most reader.old) }
{
    match reader.rest {
        [] => Err(Stop::Bad(0)),
        [first, rest @ ..] => {
            let byte = *first;
            if least <= byte && byte <= most {
                reader.rest = rest;
                Ok(byte)
            } else {
                Err(reader.bad())
            }
        }
    }
}

// This event.
#[tactic(auto, unfolding(misp_elem::specs::WireReading::own_event_at))]
fn own_event(reader: &mut Reader<'_>, event: EventId) -> Result<EventId, Stop>
    ensures { Gives result reader.new (own_event_at event reader.old) }
{
    let bad = reader.bad();
    let own = reader.event()?;
    if own.0.0 == event.0.0 {
        Ok(own)
    } else {
        Err(bad)
    }
}

// The kind of a key, and this event.
#[tactic(auto, unfolding(misp_elem::specs::WireReading::front_at))]
fn front(reader: &mut Reader<'_>, event: EventId) -> Result<EventId, Stop>
    ensures { Gives result reader.new (front_at event reader.old) }
{
    between(reader, 0, 4)?;
    own_event(reader, event)
}

// A stamp.
#[tactic(auto, unfolding(misp_elem::specs::Reading::stamp_at))]
fn stamp(reader: &mut Reader<'_>) -> Result<Stamp, Stop>
    ensures { Gives result reader.new (stamp_at reader.old) }
{
    let bad = reader.bad();
    if reader.rest.len() < 8 {
        return Err(bad);
    }
    let (front, rest) = reader.rest.split_at(8);
    reader.rest = rest;
    let mut number = [0; 8];
    number.copy_from_slice(front);
    match Stamp::new(u64::from_be_bytes(number)) {
        Some(stamp) => Ok(stamp),
        None => Err(bad),
    }
}
