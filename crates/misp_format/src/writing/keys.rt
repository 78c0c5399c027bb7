//! What is written of keys, labels and stamps.

ghost use Rattle.std.specs.Prelude.{◌≡◌, OnOk, codes};
ghost use Rattle.misp_ids.specs.Labels.{label_kind};
ghost use Rattle.misp_format.specs.Fields.{number_data, uuid_data};
ghost use Rattle.misp_format.specs.Tokens.{put_member};
ghost use Rattle.misp_format.specs.Written.{place_uuid, key_uuid};

use crate::writing::writer::Writer;
use misp_elem::{KeyForm, Place, Row};
use misp_ids::{EventId, Label, NoMemory, Uid};

/// The identifier of what stands at a place of an event.
pub(crate) fn place_uuid(event: EventId, place: Place) -> Uid
    ensures { result ≡ place_uuid event place }
{
    match place {
        Place::Event => event.0,
        Place::Object(object) => object.0,
        Place::Attribute(attribute) => attribute.0,
        Place::ObjectAttribute(_, attribute) => attribute.0,
    }
}

/// The identifier of what a key names.
pub(crate) fn key_uuid(key: KeyForm) -> Uid
    ensures { result ≡ key_uuid key }
{
    match key {
        KeyForm::Element { event, place } => place_uuid(event, place),
        KeyForm::Reference { uuid, .. } => uuid.0,
        KeyForm::Proposal { name, .. } => name.uuid.0,
        KeyForm::Verdict { name, .. } => name.uuid.0,
        KeyForm::Sighting { uuid, .. } => uuid.0,
    }
}

/// The number of a label.
pub(crate) fn label_number(label: &Label) -> u64
    ensures { result ≡ label_kind label.now }
{
    u64::from(label.kind())
}

/// The members `timestamp` and `uuid`.
pub(crate) fn put_stamp_and_uuid(out: &mut Writer, row: &Row) -> Result<(), NoMemory>
    ensures { OnOk result (out.new ≡ put_member (codes "uuid") (uuid_data (key_uuid row.now.key))
        (put_member (codes "timestamp") (number_data row.now.stamp) out.old)) }
{
    out.number("timestamp", row.stamp.get())?;
    out.uuid("uuid", &key_uuid(row.key.form))?;
    Ok(())
}
