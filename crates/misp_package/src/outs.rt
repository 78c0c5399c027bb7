//! What is let out of the copy of an event that is sent.

ghost use Rattle.std.specs.Prelude.{◌≡◌, map, IfOk};
ghost use Rattle.misp_elem.specs.Parents.{event_key};
ghost use Rattle.misp_elem.specs.SameKey.{same_key};
ghost use Rattle.misp_copies.specs.StatementsByTarget.{IsByTarget};
ghost use Rattle.misp_package.specs.Passing.{is_at};

use misp_copies::{StatementsByTarget, event_key};
use misp_elem::{Key, KeyForm, Place, Row};
use misp_ids::{EventId, NoMemory};
use std::marker::Model;

/// Rows of an event, and whether one is about the event itself. That is found once, since each row
/// of the event asks it.
///
/// A contract sees them as the list of the rows.
#[derive(Drop)]
pub(crate) struct Outs<'a> {
    event: EventId,
    has_event: bool,
    rows: StatementsByTarget<'a>,
}

impl<'a> Model for Outs<'a> {
    ghost use Rattle.std.specs.Prelude.{◌≡◌, List};
    ghost use Rattle.std.specs.List.{list_any};
    ghost use Rattle.misp_elem.specs.Parents.{event_key};
    ghost use Rattle.misp_elem.specs.declared.row.RowFields.{RowFields as Row};
    ghost use Rattle.misp_copies.specs.Keys.{is_about};

    ghost Value = { List Row };

    ghost view = { λ o. o.rows };

    ghost invariant = { λ o.
        o.has_event ≡ list_any (λ r. is_about (event_key o.event) r.key) o.rows };
}

// Whether the key is that of the event itself.
#[tactic(auto, unfolding(misp_elem::specs::SameKey::same_key, misp_elem::specs::SameKey::same_place, misp_elem::specs::Parents::event_key, misp_ids::specs::Same::same_event))]
fn is_event_key(key: &Key, event: &EventId) -> bool
    ensures { result ≡ same_key key.now (event_key event.now) }
{
    match &key.form {
        KeyForm::Element {
            event: of,
            place: Place::Event,
        } => of == event,
        _ => false,
    }
}

impl<'a> Outs<'a> {
    /// These rows, which are mostly of this event.
    pub(crate) fn of(event: &EventId, rows: Vec<&'a Row>) -> Result<Outs<'a>, NoMemory>
        ensures { IfOk result (λ out. IsByTarget out (map (λ r. r.now) rows.entry.items)) }
    {
        let rows = StatementsByTarget::of(rows)?;
        let has_event = rows.has(&event_key(event));
        Ok(Outs {
            event: *event,
            has_event,
            rows,
        })
    }

    /// Whether one is about the key.
    #[tactic(auto, unfolding(crate::specs::Passing::is_at))]
    pub(crate) fn has(&self, key: &Key) -> bool
        ensures { result ≡ is_at self.now key.now }
    {
        if is_event_key(key, &self.event) {
            return self.has_event;
        }
        self.rows.has(key)
    }
}
