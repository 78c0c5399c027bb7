//! Places that are only what they may be.

use misp_elem::{Place, ProposalName};
use std::marker::Model;

/// The place of an attribute, in an object or not.
///
/// A contract sees it as a place.
#[derive(Clone, Copy, PartialEq, Eq)]
pub struct AttributePlace {
    pub place: Place,
}

impl Model for AttributePlace {
    ghost use Rattle.misp_elem.specs.declared.key.Place.{Place};

    ghost Value = { Place };

    ghost use Rattle.misp_model.specs.Place.{IsAttributePlace};

    ghost view = { λ p. p.place };

    ghost invariant = { λ p. IsAttributePlace p.place };

    ghost inverse = { λ place. record { place = place } };
}

impl AttributePlace {
    ghost use Rattle.std.specs.Prelude.{◌≡◌};
    ghost use Rattle.misp_model.specs.Place.{IsAttributePlace, attribute_place};

    /// The place, where it is that of an attribute.
    pub fn of(place: Place) -> Option<AttributePlace>
        ensures { result ≡ attribute_place place }
    {
        match place {
            Place::Attribute(attribute) => {
                let _number = attribute.0.0;
                let place = Place::Attribute(attribute);
                Some(AttributePlace { place })
            }
            Place::ObjectAttribute(object, attribute) => {
                let _numbers = (object.0.0, attribute.0.0);
                let place = Place::ObjectAttribute(object, attribute);
                Some(AttributePlace { place })
            }
            Place::Event | Place::Object(_) => None,
        }
    }

    pub fn get(&self) -> Place
        ensures value { result ≡ self.now }
        ensures fits { IsAttributePlace result }
    {
        self.place
    }
}

/// The place of an object or of an attribute.
///
/// A contract sees it as a place.
#[derive(Clone, Copy, PartialEq, Eq)]
pub struct ElementPlace {
    pub place: Place,
}

impl Model for ElementPlace {
    ghost use Rattle.misp_elem.specs.declared.key.Place.{Place};

    ghost Value = { Place };

    ghost use Rattle.misp_model.specs.Place.{IsElementPlace};

    ghost view = { λ p. p.place };

    ghost invariant = { λ p. IsElementPlace p.place };

    ghost inverse = { λ place. record { place = place } };
}

impl ElementPlace {
    ghost use Rattle.std.specs.Prelude.{◌≡◌};
    ghost use Rattle.misp_model.specs.Place.{IsElementPlace, element_place};

    /// The place, where it is not that of the event.
    pub fn of(place: Place) -> Option<ElementPlace>
        ensures { result ≡ element_place place }
    {
        match place {
            Place::Object(object) => {
                let _number = object.0.0;
                let place = Place::Object(object);
                Some(ElementPlace { place })
            }
            Place::Attribute(attribute) => {
                let _number = attribute.0.0;
                let place = Place::Attribute(attribute);
                Some(ElementPlace { place })
            }
            Place::ObjectAttribute(object, attribute) => {
                let _numbers = (object.0.0, attribute.0.0);
                let place = Place::ObjectAttribute(object, attribute);
                Some(ElementPlace { place })
            }
            Place::Event => None,
        }
    }

    pub fn get(&self) -> Place
        ensures value { result ≡ self.now }
        ensures fits { IsElementPlace result }
    {
        self.place
    }
}

/// The place of the event or of an attribute: where tags are, and what proposals are for.
///
/// A contract sees it as a place.
#[derive(Clone, Copy, PartialEq, Eq)]
pub struct TaggedPlace {
    pub place: Place,
}

impl Model for TaggedPlace {
    ghost use Rattle.misp_elem.specs.declared.key.Place.{Place};

    ghost Value = { Place };

    ghost use Rattle.misp_model.specs.Place.{IsTaggedPlace};

    ghost view = { λ p. p.place };

    ghost invariant = { λ p. IsTaggedPlace p.place };

    ghost inverse = { λ place. record { place = place } };
}

impl TaggedPlace {
    ghost use Rattle.std.specs.Prelude.{◌≡◌};
    ghost use Rattle.misp_model.specs.Place.{IsTaggedPlace, tagged_place};

    /// The place, where it is not that of an object.
    pub fn of(place: Place) -> Option<TaggedPlace>
        ensures { result ≡ tagged_place place }
    {
        match place {
            Place::Event => Some(TaggedPlace {
                place: Place::Event,
            }),
            Place::Attribute(attribute) => {
                let _number = attribute.0.0;
                let place = Place::Attribute(attribute);
                Some(TaggedPlace { place })
            }
            Place::ObjectAttribute(object, attribute) => {
                let _numbers = (object.0.0, attribute.0.0);
                let place = Place::ObjectAttribute(object, attribute);
                Some(TaggedPlace { place })
            }
            Place::Object(_) => None,
        }
    }

    pub fn get(&self) -> Place
        ensures value { result ≡ self.now }
        ensures fits { IsTaggedPlace result }
    {
        self.place
    }
}

/// What names a proposal within its event. It is for the event or an attribute.
///
/// A contract sees it as the name.
#[derive(Clone, Copy, PartialEq, Eq)]
pub struct NamedProposal {
    pub name: ProposalName,
}

impl Model for NamedProposal {
    ghost use Rattle.misp_elem.specs.declared.key.ProposalName.{ProposalName};

    ghost Value = { ProposalName };

    ghost use Rattle.misp_elem.specs.Key.{IsProposalName};

    ghost view = { λ p. p.name };

    ghost invariant = { λ p. IsProposalName p.name };

    ghost inverse = { λ name. record { name = name } };
}
