//! Reading rows on the wire.

ghost use Rattle.std.specs.Prelude.{◌≡◌, ℕ, List, IfOk, Ok};
ghost use Rattle.misp_elem.specs.declared.row.RowFields.{RowFields};
ghost use Rattle.misp_elem.specs.Spelling as spelling;
ghost use Rattle.misp_elem.specs.Row.{IsRow};
ghost use Rattle.misp_elem.specs.Reading.{Reads, Gives, GivesAll, Answers, answer};
ghost use Rattle.misp_elem.specs.KeyReading.{key_at};
ghost use Rattle.misp_elem.specs.WireReading.{IsOnWire, nobody_at, own_event_at, front_at, first_key_at, later_key_at, key_after_at, carried_at, fields_on_wire, row_on_wire, row_of_wire};

use crate::fault::{BadField, DecodeFault, Stop};
use crate::key::{Key, KeyForm};
use crate::order::compare_keys;
use crate::reading::Reader;
use crate::reading::rows::barred;
use crate::row::{Row, RowFields, RowForm};
use misp_ids::{EventId, OrgId};
use std::alloc::Global;

/// The key of this form, which these bytes begin with.
fn key_from(bytes: &[u8], form: KeyForm) -> Key
    requires { (rest : List ℕ) × (key_at bytes.now ≡ Ok (form, rest)) }
    ensures { result ≡ form }
{
    Key { form }
}

impl Reader<'_> {
    #[tactic(auto, unfolding(crate::specs::WireReading::nobody_at))]
    fn nobody(&mut self) -> Result<OrgId, BadField>
        ensures { Reads result self.new (nobody_at self.old) }
    {
        let bad = self.bad();
        let owner = self.org()?;
        if owner.0.0 == 0 { Ok(owner) } else { Err(bad) }
    }

    #[tactic(auto, unfolding(crate::specs::WireReading::own_event_at))]
    fn own_event(&mut self, event: EventId) -> Result<EventId, BadField>
        ensures { Reads result self.new (own_event_at event self.old) }
    {
        let bad = self.bad();
        let own = self.event()?;
        if own.0.0 == event.0.0 {
            Ok(own)
        } else {
            Err(bad)
        }
    }

    #[tactic(auto, unfolding(crate::specs::WireReading::front_at))]
    fn front(&mut self, event: EventId) -> Result<EventId, BadField>
        ensures { Reads result self.new (front_at event self.old) }
    {
        self.between(0, 4)?;
        self.own_event(event)
    }

    #[tactic(auto, unfolding(crate::specs::WireReading::first_key_at))]
    fn first_key(&mut self, event: EventId) -> Result<KeyForm, BadField>
        ensures { Reads result self.new (first_key_at event self.old) }
    {
        self.between(0, 0)?;
        let event = self.own_event(event)?;
        let place = self.place(&[1, 2, 3])?;
        Ok(KeyForm::Element { event, place })
    }

    #[tactic(auto, unfolding(crate::specs::WireReading::later_key_at))]
    fn later_key(&mut self, event: EventId, before: &Key) -> Result<KeyForm, BadField>
        ensures { Reads result self.new (later_key_at event before.now self.old) }
    {
        let bad = self.bad();
        let bytes = self.rest;
        let mut start = Reader { rest: bytes };
        start.front(event)?;
        let next = key_from(bytes, self.key()?);
        if compare_keys(before, &next).is_lt() {
            Ok(next.form)
        } else {
            Err(bad)
        }
    }

    #[tactic(auto, unfolding(crate::specs::WireReading::key_after_at))]
    fn key_after(&mut self, event: EventId, before: Option<Key>) -> Result<KeyForm, BadField>
        ensures { Reads result self.new (key_after_at event before self.old) }
    {
        match before {
            None => self.first_key(event),
            Some(before) => self.later_key(event, &before),
        }
    }

    #[tactic(auto, unfolding(crate::specs::WireReading::carried_at))]
    fn carried(&mut self) -> Result<(bool, bool), BadField>
        ensures { Reads result self.new (carried_at self.old) }
    {
        let bad = self.bad();
        let (held, carried) = self.flags()?;
        if !held && carried {
            Ok((held, carried))
        } else {
            Err(bad)
        }
    }

    #[tactic(auto, unfolding(crate::specs::WireReading::fields_on_wire))]
    fn fields_on_wire(
        &mut self,
        alloc: Global,
        event: EventId,
        before: Option<Key>,
    ) -> Result<RowFields, Stop>
        ensures { Gives result self.new (fields_on_wire event before self.old) }
    {
        let owner = self.nobody()?;
        let key = self.key_after(event, before)?;
        let stamp = self.stamp()?;
        let label = self.label(barred(&key))?;
        let (held, carried) = self.carried()?;
        let content = self.content(alloc, RowForm::Second, &key, label.kind(), (held, carried))?;
        Ok(RowFields {
            owner,
            key,
            stamp,
            label,
            held,
            carried,
            content,
        })
    }

    #[tactic(auto, unfolding(crate::specs::WireReading::row_on_wire))]
    fn row_on_wire(
        &mut self,
        alloc: Global,
        event: EventId,
        before: Option<Key>,
    ) -> Result<RowFields, Stop>
        ensures { Gives result self.new (row_on_wire event before self.old) }
    {
        self.between(2, 2)?;
        self.fields_on_wire(alloc, event, before)
    }
}

#[tactic(auto, unfolding(crate::specs::WireReading::row_of_wire))]
fn whole_row(
    alloc: Global,
    bytes: &[u8],
    event: EventId,
    before: Option<Key>,
) -> Result<RowFields, Stop>
    ensures { GivesAll result (row_of_wire event before bytes.now) }
{
    let mut reader = Reader { rest: bytes };
    let fields = reader.row_on_wire(alloc, event, before)?;
    if reader.rest.is_empty() {
        return Ok(fields);
    }
    drop(fields);
    Err(Stop::Bad(reader.bad()))
}

/// The row that the bytes spell in the second form, all of the bytes, as it stands on the wire among
/// those of the event: the event's own row where none is before it, else one with a key after that
/// before.
pub fn decode_on_wire(
    alloc: Global,
    bytes: &[u8],
    event: EventId,
    before: Option<Key>,
) -> Result<Row, DecodeFault>
    // What is read is spelled so, and stands so on the wire.
    ensures found { IfOk result (λ r.
        IsRow r × IsOnWire event before r × (bytes.now ≡ spelling.row r)) }
    // What stands and is spelled so is read, unless memory runs out.
    ensures only { (r : RowFields) → IsRow r → IsOnWire event before r →
        bytes.now ≡ spelling.row r → Answers result (Ok r) }
    // The place of a fault is that of the first field that is not of its form.
    ensures exact { Answers result (answer bytes.now (row_of_wire event before bytes.now)) }
{
    match whole_row(alloc, bytes, event, before) {
        Ok(fields) => Ok(Row::of(fields)),
        Err(Stop::Bad(bad)) => Err(DecodeFault::BadRow {
            place: bytes.len().saturating_sub(bad.left),
        }),
        Err(Stop::NoMemory) => Err(DecodeFault::NoMemory),
    }
}
