//! Reading the contents that the key of a row allows.

ghost use Rattle.std.specs.Prelude.{◌≡◌};
ghost use Rattle.misp_elem.specs.Row.{fits, may_remove};
ghost use Rattle.misp_elem.specs.Reading.{Gives};
ghost use Rattle.misp_elem.specs.ContentReading.{content_at};

use crate::content::Content;
use crate::fault::Stop;
use crate::key::{KeyForm, Place};
use crate::reading::Reader;
use crate::row::RowForm;
use crate::shared::Shared;
use std::alloc::Global;

/// Whether a row of this key, label and flags may have a content of this kind.
fn is_fit(key: &KeyForm, label: u8, flags: (bool, bool), kind: u8) -> bool
    ensures { result ≡ fits key.now label flags kind }
{
    match key {
        KeyForm::Element { place, .. } => match place {
            Place::Event => kind == 0 || kind == 7 && label == 0 && !flags.0 && !flags.1,
            Place::Object(_) => kind == 1,
            Place::Attribute(_) | Place::ObjectAttribute(..) => kind == 2,
        },
        KeyForm::Reference { .. } => kind == 3,
        KeyForm::Proposal { .. } => kind == 4,
        KeyForm::Verdict { .. } => kind == 5,
        KeyForm::Sighting { .. } => kind == 6,
    }
}

/// Whether a proposal of this key may ask to delete.
fn may_remove(key: &KeyForm) -> bool
    ensures { result ≡ may_remove key.now }
{
    match key {
        KeyForm::Proposal { name, .. } => match name.target {
            Place::Event => false,
            _ => true,
        },
        _ => true,
    }
}

impl Reader<'_> {
    #[tactic(auto, unfolding(crate::specs::ContentReading::content_at))]
    pub(super) fn content(
        &mut self,
        alloc: Global,
        form: RowForm,
        key: &KeyForm,
        label: u8,
        flags: (bool, bool),
    ) -> Result<Content, Stop>
        ensures { Gives result self.new (content_at form key.now label flags self.old) }
    {
        let bad = Stop::Bad(self.bad());
        let kind = self.byte()?;
        if !is_fit(key, label, flags, kind) {
            return Err(bad);
        }
        match kind {
            0 => Ok(Content::Event(Shared::of(alloc, self.event_body(alloc)?)?)),
            1 => Ok(Content::Object(Shared::of(alloc, self.object_body(alloc)?)?)),
            2 => Ok(Content::Attribute(Shared::of(alloc, self.attribute_body(alloc, form)?)?)),
            3 => Ok(Content::Reference(Shared::of(alloc, self.reference_body(alloc)?)?)),
            4 => Ok(Content::Proposal(Shared::of(
                alloc,
                self.proposal_body(alloc, may_remove(key))?,
            )?)),
            5 => Ok(Content::Verdict(self.flag()?)),
            6 => Ok(Content::Sighting(Shared::of(alloc, self.sighting_body(alloc)?)?)),
            7 => Ok(Content::Gone),
            _ => Err(bad),
        }
    }
}
