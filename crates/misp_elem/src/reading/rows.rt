//! Reading rows.

ghost use Rattle.std.specs.Prelude.{◌≡◌, List, IfOk, Ok};
ghost use Rattle.misp_elem.specs.declared.row.RowFields.{RowFields};
ghost use Rattle.misp_elem.specs.Spelling as spelling;
ghost use Rattle.misp_elem.specs.Row.{barred_labels, IsRow};
ghost use Rattle.misp_ids.specs.Labels.{label_kind};
ghost use Rattle.misp_elem.specs.Reading.{Reads, Gives, GivesAll, Answers, answer};
ghost use Rattle.misp_elem.specs.RowReading.{group_at, label_at, flags_at, fields_at, form_at, row_at, row_of};

use crate::fault::{BadField, DecodeFault, Stop};
use crate::key::{KeyForm, Place};
use crate::reading::Reader;
use crate::row::{Row, RowFields, RowForm};
use misp_ids::{GroupId, Label};
use std::alloc::Global;

/// What the labels of rows of this key may not be.
pub(super) fn barred(key: &KeyForm) -> &'static [u8]
    ensures { result.now ≡ barred_labels key.now }
{
    match key {
        KeyForm::Element { place, .. } => match place {
            Place::Event => &[5],
            _ => &[],
        },
        _ => &[0, 1, 2, 3, 4],
    }
}

impl Reader<'_> {
    #[tactic(auto, unfolding(crate::specs::RowReading::group_at))]
    fn group(&mut self) -> Result<Label, BadField>
        ensures { Reads result self.new (group_at self.old) }
    {
        let creator = self.org()?;
        let uuid = self.uid()?;
        Ok(Label::Group(GroupId { creator, uuid }))
    }

    #[tactic(auto, unfolding(crate::specs::RowReading::label_at))]
    pub(super) fn label(&mut self, barred: &[u8]) -> Result<Label, BadField>
        ensures { Reads result self.new (label_at barred.now self.old) }
    {
        let bad = self.bad();
        let kind = self.byte()?;
        if barred.contains(&kind) {
            return Err(bad);
        }
        match kind {
            0 => Ok(Label::Own),
            1 => Ok(Label::Community),
            2 => Ok(Label::Connected),
            3 => Ok(Label::All),
            4 => self.group(),
            5 => Ok(Label::Inherit),
            _ => Err(bad),
        }
    }

    #[tactic(auto, unfolding(crate::specs::RowReading::flags_at))]
    pub(super) fn flags(&mut self) -> Result<(bool, bool), BadField>
        ensures { Reads result self.new (flags_at self.old) }
    {
        let bad = self.bad();
        match self.byte()? {
            0 => Ok((false, false)),
            1 => Ok((true, false)),
            2 => Ok((false, true)),
            3 => Ok((true, true)),
            _ => Err(bad),
        }
    }

    #[tactic(auto, unfolding(crate::specs::RowReading::fields_at))]
    fn fields(&mut self, alloc: Global, form: RowForm) -> Result<RowFields, Stop>
        ensures { Gives result self.new (fields_at form self.old) }
    {
        let owner = self.org()?;
        let key = self.key()?;
        let stamp = self.stamp()?;
        let label = self.label(barred(&key))?;
        let (held, carried) = self.flags()?;
        let content = self.content(alloc, form, &key, label.kind(), (held, carried))?;
        Ok(RowFields {
            owner,
            key,
            stamp,
            label,
            held,
            carried,
            content,
        })
    }

    #[tactic(auto, unfolding(crate::specs::RowReading::form_at))]
    fn form(&mut self) -> Result<RowForm, BadField>
        ensures { Reads result self.new (form_at self.old) }
    {
        let bad = self.bad();
        match self.byte()? {
            1 => Ok(RowForm::First),
            2 => Ok(RowForm::Second),
            _ => Err(bad),
        }
    }

    #[tactic(auto, unfolding(crate::specs::RowReading::row_at))]
    fn row(&mut self, alloc: Global) -> Result<RowFields, Stop>
        ensures { Gives result self.new (row_at self.old) }
    {
        let form = self.form()?;
        self.fields(alloc, form)
    }
}

#[tactic(auto, unfolding(crate::specs::RowReading::row_of))]
fn whole_row(alloc: Global, bytes: &[u8]) -> Result<RowFields, Stop>
    ensures { GivesAll result (row_of bytes.now) }
{
    let mut reader = Reader { rest: bytes };
    let fields = reader.row(alloc)?;
    if reader.rest.is_empty() {
        return Ok(fields);
    }
    drop(fields);
    Err(Stop::Bad(reader.bad()))
}

/// The row that the bytes spell in one of the two forms, all of the bytes.
pub fn decode(alloc: Global, bytes: &[u8]) -> Result<Row, DecodeFault>
    // What is read is spelled so, in the second form, or in the first where that spells all of it.
    ensures found { IfOk result (λ r. IsRow r × spelling.Spells bytes.now r) }
    // What is spelled so is read, unless memory runs out.
    ensures only { (r : RowFields) → IsRow r → spelling.Spells bytes.now r →
        Answers result (Ok r) }
    // The place of a fault is that of the first field that is not of its form.
    ensures exact { Answers result (answer bytes.now (row_of bytes.now)) }
{
    match whole_row(alloc, bytes) {
        Ok(fields) => Ok(Row::of(fields)),
        Err(Stop::Bad(bad)) => Err(DecodeFault::BadRow {
            place: bytes.len().saturating_sub(bad.left),
        }),
        Err(Stop::NoMemory) => Err(DecodeFault::NoMemory),
    }
}
