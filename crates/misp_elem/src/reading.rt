//! Reading from left to right.

ghost use Rattle.std.specs.Prelude.{◌≡◌, length};
ghost use Rattle.misp_elem.specs.Reading.{Reads, byte_at, uid_at, elem_at, event_at, org_at, inst_at};

mod bodies;
mod contents;
mod fields;
mod keys;
mod rows;
mod seen;
mod tags;
mod values;
mod wire;

use crate::fault::BadField;
pub use keys::decode_key;
use misp_ids::{ElemId, EventId, InstId, OrgId, Uid};
pub use rows::decode;
use std::marker::Model;
pub use wire::decode_on_wire;

/// Bytes that are read from the left. A contract sees those that are left.
#[derive(Drop)]
struct Reader<'a> {
    rest: &'a [u8],
}

impl<'a> Model for Reader<'a> {
    ghost use Rattle.std.specs.Prelude.{ℕ, List};

    ghost Value = { List ℕ };

    ghost view = { λ r. r.rest.now };
}

impl Reader<'_> {
    /// The fault of a field that begins here.
    fn bad(&self) -> BadField
        ensures { result.left ≡ length self.now }
    {
        BadField {
            left: self.rest.len(),
        }
    }

    fn byte(&mut self) -> Result<u8, BadField>
        ensures { Reads result self.new (byte_at self.old) }
    {
        match self.rest {
            [] => Err(BadField { left: 0 }),
            [first, rest @ ..] => {
                self.rest = rest;
                Ok(*first)
            }
        }
    }

    fn uid(&mut self) -> Result<Uid, BadField>
        ensures { Reads result self.new (uid_at self.old) }
    {
        if self.rest.len() < 16 {
            return Err(self.bad());
        }
        let (front, rest) = self.rest.split_at(16);
        self.rest = rest;
        let mut number = [0; 16];
        number.copy_from_slice(front);
        Ok(Uid(u128::from_be_bytes(number)))
    }

    fn elem(&mut self) -> Result<ElemId, BadField>
        ensures { Reads result self.new (elem_at self.old) }
    {
        Ok(ElemId(self.uid()?))
    }

    fn event(&mut self) -> Result<EventId, BadField>
        ensures { Reads result self.new (event_at self.old) }
    {
        Ok(EventId(self.uid()?))
    }

    fn org(&mut self) -> Result<OrgId, BadField>
        ensures { Reads result self.new (org_at self.old) }
    {
        Ok(OrgId(self.uid()?))
    }

    #[tactic(auto, unfolding(crate::specs::Reading::inst_at))]
    fn inst(&mut self) -> Result<InstId, BadField>
        ensures { Reads result self.new (inst_at self.old) }
    {
        let bad = self.bad();
        let len = usize::from(self.byte()?);
        if self.rest.len() < len {
            return Err(bad);
        }
        let (name, rest) = self.rest.split_at(len);
        self.rest = rest;
        InstId::from_bytes(name).ok_or(bad)
    }
}
