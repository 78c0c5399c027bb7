//! Reading keys.

ghost use Rattle.std.specs.Prelude.{◌≡◌, List, IfOk, Ok};
ghost use Rattle.misp_elem.specs.declared.key.KeyForm.{KeyForm};
ghost use Rattle.misp_elem.specs.Key.{IsKey};
ghost use Rattle.misp_elem.specs.Spelling as spelling;
ghost use Rattle.misp_elem.specs.Reading.{Reads, ReadsAll, answer};
ghost use Rattle.misp_elem.specs.KeyReading.{place_at, proposal_at, element_at, reference_at, proposed_at, verdict_at, sighting_at, key_at, key_of};

use crate::fault::{BadField, DecodeFault};
use crate::key::{Key, KeyForm, Place, ProposalName};
use crate::reading::Reader;

impl Reader<'_> {
    #[tactic(auto, unfolding(crate::specs::KeyReading::place_at))]
    pub(super) fn place(&mut self, barred: &[u8]) -> Result<Place, BadField>
        ensures { Reads result self.new (place_at barred.now self.old) }
    {
        let bad = self.bad();
        let kind = self.byte()?;
        if barred.contains(&kind) {
            return Err(bad);
        }
        match kind {
            0 => Ok(Place::Event),
            1 => Ok(Place::Object(self.elem()?)),
            2 => Ok(Place::Attribute(self.elem()?)),
            3 => {
                let object = self.elem()?;
                let attribute = self.elem()?;
                Ok(Place::ObjectAttribute(object, attribute))
            }
            _ => Err(bad),
        }
    }

    #[tactic(auto, unfolding(crate::specs::KeyReading::proposal_at))]
    fn proposal(&mut self) -> Result<ProposalName, BadField>
        ensures { Reads result self.new (proposal_at self.old) }
    {
        let target = self.place(&[1])?;
        let at = self.inst()?;
        let by = self.org()?;
        let uuid = self.elem()?;
        Ok(ProposalName {
            target,
            at,
            by,
            uuid,
        })
    }

    #[tactic(auto, unfolding(crate::specs::KeyReading::element_at))]
    fn element(&mut self) -> Result<KeyForm, BadField>
        ensures { Reads result self.new (element_at self.old) }
    {
        let event = self.event()?;
        let place = self.place(&[])?;
        Ok(KeyForm::Element { event, place })
    }

    #[tactic(auto, unfolding(crate::specs::KeyReading::reference_at))]
    fn reference(&mut self) -> Result<KeyForm, BadField>
        ensures { Reads result self.new (reference_at self.old) }
    {
        let event = self.event()?;
        let object = self.elem()?;
        let target = self.place(&[0])?;
        let uuid = self.elem()?;
        Ok(KeyForm::Reference {
            event,
            object,
            target,
            uuid,
        })
    }

    #[tactic(auto, unfolding(crate::specs::KeyReading::proposed_at))]
    fn proposed(&mut self) -> Result<KeyForm, BadField>
        ensures { Reads result self.new (proposed_at self.old) }
    {
        let event = self.event()?;
        let name = self.proposal()?;
        Ok(KeyForm::Proposal { event, name })
    }

    #[tactic(auto, unfolding(crate::specs::KeyReading::verdict_at))]
    fn verdict(&mut self) -> Result<KeyForm, BadField>
        ensures { Reads result self.new (verdict_at self.old) }
    {
        let event = self.event()?;
        let name = self.proposal()?;
        let at = self.inst()?;
        let judge = self.org()?;
        Ok(KeyForm::Verdict {
            event,
            name,
            at,
            judge,
        })
    }

    #[tactic(auto, unfolding(crate::specs::KeyReading::sighting_at))]
    fn sighting(&mut self) -> Result<KeyForm, BadField>
        ensures { Reads result self.new (sighting_at self.old) }
    {
        let event = self.event()?;
        let target = self.place(&[0, 1])?;
        let at = self.inst()?;
        let by = self.org()?;
        let uuid = self.elem()?;
        Ok(KeyForm::Sighting {
            event,
            target,
            at,
            by,
            uuid,
        })
    }

    #[tactic(auto, unfolding(crate::specs::KeyReading::key_at))]
    pub(super) fn key(&mut self) -> Result<KeyForm, BadField>
        ensures { Reads result self.new (key_at self.old) }
    {
        let bad = self.bad();
        match self.byte()? {
            0 => self.element(),
            1 => self.reference(),
            2 => self.proposed(),
            3 => self.verdict(),
            4 => self.sighting(),
            _ => Err(bad),
        }
    }
}

#[tactic(auto, unfolding(crate::specs::KeyReading::key_of))]
fn whole_key(bytes: &[u8]) -> Result<KeyForm, BadField>
    ensures { ReadsAll result (key_of bytes.now) }
{
    let mut reader = Reader { rest: bytes };
    let form = reader.key()?;
    if !reader.rest.is_empty() {
        return Err(reader.bad());
    }
    Ok(form)
}

/// The key that the bytes spell, all of the bytes.
pub fn decode_key(bytes: &[u8]) -> Result<Key, DecodeFault>
    // What is read is spelled so.
    ensures found { IfOk result (λ k. IsKey k × (bytes.now ≡ spelling.key k)) }
    // What is spelled so is read.
    ensures only { (k : KeyForm) → IsKey k → bytes.now ≡ spelling.key k → result ≡ Ok k }
    // The place of a fault is that of the first field that is not of its form.
    ensures exact { result ≡ answer bytes.now (key_of bytes.now) }
{
    match whole_key(bytes) {
        Ok(form) => Ok(Key { form }),
        Err(bad) => Err(DecodeFault::BadRow {
            place: bytes.len().saturating_sub(bad.left),
        }),
    }
}
