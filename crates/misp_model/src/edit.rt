//! Edits. What is absent stays.

use misp_elem::Moment;
use misp_ids::{Label, Stamp, Text, Uid};
use std::marker::Model;

/// An edit of an event. What is given is such as an event may have.
///
/// A contract sees it as its fields.
#[derive(Drop)]
pub struct EventEdit {
    pub fields: EventEditFields,
}

/// The fields of an edit of an event, whether they fit or not.
#[derive(Drop)]
pub struct EventEditFields {
    pub stamp: Option<Stamp>,
    pub label: Option<Label>,
    pub info: Option<Text>,
    pub date: Option<Text>,
    pub threat_level_id: Option<u8>,
    pub analysis: Option<u8>,
    pub extends_uuid: Option<Option<Uid>>,
}

impl Model for EventEdit {
    ghost use Rattle.misp_model.specs.declared.edit.EventEditFields.{EventEditFields};

    ghost Value = { EventEditFields };

    ghost use Rattle.misp_model.specs.Edit.{IsEventEdit};

    ghost view = { λ x. x.fields };

    ghost invariant = { λ x. IsEventEdit x.fields };
}

impl EventEdit {
    ghost use Rattle.std.specs.Prelude.{◌≡◌};
    ghost use Rattle.misp_model.specs.Edit.{IsEventEdit};

    /// The edit of these fields.
    pub fn of(fields: EventEditFields) -> EventEdit
        requires { IsEventEdit fields }
        ensures { result ≡ fields }
    {
        EventEdit { fields }
    }

    pub fn get(&self) -> &EventEditFields
        ensures value { result.now ≡ self.now }
        ensures fits { IsEventEdit result.now }
    {
        &self.fields
    }
}

/// An edit of an attribute. What is given is such as an attribute may have.
///
/// A contract sees it as its fields.
#[derive(Drop)]
pub struct AttributeEdit {
    pub fields: AttributeEditFields,
}

/// The fields of an edit of an attribute, whether they fit or not.
#[derive(Drop)]
pub struct AttributeEditFields {
    pub stamp: Option<Stamp>,
    pub label: Option<Label>,
    pub category: Option<u8>,
    pub to_ids: Option<bool>,
    pub comment: Option<Text>,
    /// The type and the value, which change together.
    pub kind_value: Option<(Text, Text)>,
    /// The two moments, which change together.
    pub seen: Option<Seen>,
}

/// When something was first and last seen, as far as it is known.
#[derive(Clone, Copy)]
pub struct Seen {
    pub first: Option<Moment>,
    pub last: Option<Moment>,
}

impl Model for AttributeEdit {
    ghost use Rattle.misp_model.specs.declared.edit.AttributeEditFields.{AttributeEditFields};

    ghost Value = { AttributeEditFields };

    ghost use Rattle.misp_model.specs.Edit.{IsAttributeEdit};

    ghost view = { λ x. x.fields };

    ghost invariant = { λ x. IsAttributeEdit x.fields };
}

impl AttributeEdit {
    ghost use Rattle.std.specs.Prelude.{◌≡◌};
    ghost use Rattle.misp_model.specs.Edit.{IsAttributeEdit};

    /// The edit of these fields.
    pub fn of(fields: AttributeEditFields) -> AttributeEdit
        requires { IsAttributeEdit fields }
        ensures { result ≡ fields }
    {
        AttributeEdit { fields }
    }

    pub fn get(&self) -> &AttributeEditFields
        ensures value { result.now ≡ self.now }
        ensures fits { IsAttributeEdit result.now }
    {
        &self.fields
    }
}

/// An edit of an object. What is given is such as an object may have.
///
/// A contract sees it as its fields.
#[derive(Drop)]
pub struct ObjectEdit {
    pub fields: ObjectEditFields,
}

/// The fields of an edit of an object, whether they fit or not.
#[derive(Drop)]
pub struct ObjectEditFields {
    pub stamp: Option<Stamp>,
    pub label: Option<Label>,
    pub comment: Option<Text>,
    pub description: Option<Text>,
}

impl Model for ObjectEdit {
    ghost use Rattle.misp_model.specs.declared.edit.ObjectEditFields.{ObjectEditFields};

    ghost Value = { ObjectEditFields };

    ghost use Rattle.misp_model.specs.Edit.{IsObjectEdit};

    ghost view = { λ x. x.fields };

    ghost invariant = { λ x. IsObjectEdit x.fields };
}

impl ObjectEdit {
    ghost use Rattle.std.specs.Prelude.{◌≡◌};
    ghost use Rattle.misp_model.specs.Edit.{IsObjectEdit};

    /// The edit of these fields.
    pub fn of(fields: ObjectEditFields) -> ObjectEdit
        requires { IsObjectEdit fields }
        ensures { result ≡ fields }
    {
        ObjectEdit { fields }
    }

    pub fn get(&self) -> &ObjectEditFields
        ensures value { result.now ≡ self.now }
        ensures fits { IsObjectEdit result.now }
    {
        &self.fields
    }
}
