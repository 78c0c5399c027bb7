//! The elements of a body, in reading order.

ghost use Rattle.std.specs.Prelude.{◌≡◌, Ok, IfOk, IfErr};
ghost use Rattle.misp_format.specs.declared.fault.FormatFault.TheVariants as faults;
ghost use Rattle.misp_format.specs.Gathered.{none_from, place, with_part, with_reference};
ghost use Rattle.misp_format.specs.Rows.{Gives, Shows};

use crate::fault::FormatFault;
use misp_elem::{Draft, ReferenceDraft};
use misp_ids::Items;
use std::alloc::Global;
use std::marker::Model;

/// The elements of a body that were read so far, and the place of the first. A contract sees them
/// as they are.
#[derive(Drop)]
pub(crate) struct Elements {
    first: u32,
    parts: Vec<Draft>,
    references: Vec<ReferenceDraft>,
}

impl Model for Elements {
    ghost use Rattle.misp_format.specs.Gathered.{Gathered};

    ghost Value = { Gathered };

    ghost view = { λ e.
        record { first = e.first; parts = e.parts.items; references = e.references.items } };
}

impl Elements {
    /// No elements, of which the first has this place.
    pub(crate) fn none_from(alloc: Global, first: u32) -> Elements
        ensures { result ≡ none_from first }
    {
        Elements {
            first,
            parts: Vec::new(alloc),
            references: Vec::new(alloc),
        }
    }

    /// The same, with room for so many parts.
    pub(crate) fn with_room(alloc: Global, first: u32, room: usize) -> Result<Elements, FormatFault>
        ensures { Gives result (Ok (none_from first)) }
    {
        Ok(Elements {
            first,
            parts: Vec::with_capacity(alloc, room)?,
            references: Vec::new(alloc),
        })
    }

    /// The place of the next element.
    pub(crate) fn place(&self) -> Result<u32, FormatFault>
        ensures ok { IfOk result (λ n. n ≡ place self.now) }
        ensures err { IfErr result (λ fault. fault ≡ faults.NoMemory) }
    {
        let place = (self.first as usize)
            .saturating_add(self.parts.len())
            .saturating_add(self.references.len());
        if place <= u32::MAX as usize {
            return Ok(place as u32);
        }
        Err(FormatFault::NoMemory)
    }

    pub(crate) fn push_part(&mut self, part: Draft) -> Result<(), FormatFault>
        ensures { Shows (λ _. self.new) result (Ok (with_part self.old part)) }
    {
        self.parts.push(part)?;
        Ok(())
    }

    pub(crate) fn push_reference(&mut self, reference: ReferenceDraft) -> Result<(), FormatFault>
        ensures { Shows (λ _. self.new) result (Ok (with_reference self.old reference)) }
    {
        self.references.push(reference)?;
        Ok(())
    }

    /// Both lists.
    pub(crate) fn lists(self) -> (Items<Draft>, Items<ReferenceDraft>)
        ensures { result ≡ (self.parts, self.references) }
    {
        (Items::of(self.parts), Items::of(self.references))
    }
}
