//! Reading what the second form spells of an attribute besides.

ghost use Rattle.std.specs.Prelude.{◌≡◌};
ghost use Rattle.misp_elem.specs.Fields.{earliest};
ghost use Rattle.misp_elem.specs.Reading.{Reads, Gives};
ghost use Rattle.misp_elem.specs.ContentReading.{relation_at, seen_at};

use crate::fault::{BadField, Stop};
use crate::reading::Reader;
use crate::row::RowForm;
use misp_dates::Moment;
use misp_ids::Text;
use std::alloc::Global;

/// The earliest that a later moment may be.
pub(super) fn earliest(before: &Option<Moment>) -> u64
    ensures { result ≡ earliest before.now }
{
    match before {
        None => 0,
        Some(moment) => moment.get(),
    }
}

impl Reader<'_> {
    /// The part of an object, which the first form does not spell.
    #[tactic(auto, unfolding(crate::specs::ContentReading::relation_at))]
    pub(super) fn relation(
        &mut self,
        alloc: Global,
        form: RowForm,
        room: usize,
    ) -> Result<Text, Stop>
        ensures { Gives result self.new (relation_at form room self.old) }
    {
        match form {
            RowForm::First => Ok(Text::of(String::new(alloc))),
            RowForm::Second => self.text(alloc, 0, room),
        }
    }

    /// A moment, which the first form does not spell.
    #[tactic(auto, unfolding(crate::specs::ContentReading::seen_at))]
    pub(super) fn seen(&mut self, form: RowForm, least: u64) -> Result<Option<Moment>, BadField>
        ensures { Reads result self.new (seen_at form least self.old) }
    {
        match form {
            RowForm::First => Ok(None),
            RowForm::Second => self.optional_moment(least),
        }
    }
}
