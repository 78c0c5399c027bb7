//! What one row says, and one key.

ghost use Rattle.std.specs.Prelude.{◌≡◌};
ghost use Rattle.misp_elem.specs.KeyFacts.{is_statement, uuid_at};
ghost use Rattle.misp_elem.specs.RowFacts.{is_gone, is_tombstone, is_deleted};

use crate::content::Content;
use crate::key::{Key, KeyForm, Place};
use crate::row::Row;
use misp_ids::EventId;

impl Key {
    /// Whether it names a proposal, a verdict or a sighting.
    #[tactic(auto, unfolding(crate::specs::KeyFacts::is_statement))]
    pub fn is_statement(&self) -> bool
        ensures { result ≡ is_statement self.now }
    {
        !matches!(
            self.form,
            KeyForm::Element { .. } | KeyForm::Reference { .. }
        )
    }
}

/// The number of what stands at a place of an event.
#[tactic(auto, unfolding(crate::specs::KeyFacts::uuid_at))]
pub fn uuid_at(event: EventId, place: Place) -> u128
    ensures { result ≡ uuid_at event place }
{
    match place {
        Place::Event => event.0.0,
        Place::Object(object) => object.0.0,
        Place::Attribute(attribute) => attribute.0.0,
        Place::ObjectAttribute(_, attribute) => attribute.0.0,
    }
}

impl Content {
    /// Whether it is that of the tombstone of a deleted event.
    #[tactic(auto, unfolding(crate::specs::RowFacts::is_gone))]
    pub fn is_gone(&self) -> bool
        ensures { result ≡ is_gone self.now }
    {
        matches!(self, Content::Gone)
    }
}

impl Row {
    /// Whether it is the tombstone of a deleted event.
    #[tactic(auto, unfolding(crate::specs::RowFacts::is_tombstone))]
    pub fn is_tombstone(&self) -> bool
        ensures { result ≡ is_tombstone self.now }
    {
        self.content.is_gone()
    }

    /// Whether it is an object, an attribute or a reference that is deleted.
    #[tactic(auto, unfolding(crate::specs::RowFacts::is_deleted))]
    pub fn is_deleted(&self) -> bool
        ensures { result ≡ is_deleted self.now }
    {
        match &self.content {
            Content::Object(body) => body.deleted,
            Content::Attribute(body) => body.deleted,
            Content::Reference(body) => body.deleted,
            Content::Event(_) | Content::Proposal(_) | Content::Verdict(_) => false,
            Content::Sighting(_) | Content::Gone => false,
        }
    }
}
