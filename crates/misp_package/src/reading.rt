//! Reading packages from left to right.

ghost use Rattle.std.specs.Prelude.{◌≡◌, IfOk, Ok, None, length};
ghost use Rattle.std.specs.Int.{w32};
ghost use Rattle.misp_elem.specs.Prelude.{event_at};
ghost use Rattle.misp_elem.specs.Reading.{Answers, answer, number_at};
ghost use Rattle.misp_model.specs.Package.{IsPackage};
ghost use Rattle.misp_package.specs.Spelling.{spell_package};
ghost use Rattle.misp_package.specs.PackageReading.{Gives, GivesAll, count_at, form_at, framed_row_at, framed_rows_at, package_at, package_of_bytes, parts_at, rows_after};

use crate::writing::FORM;
use misp_elem::{DecodeFault, Key, Row, decode_on_wire};
use misp_ids::{EventId, Items, Uid};
use misp_model::{Package, PackageFields};
use std::alloc::{AllocError, AllocFailed, Global};
use std::marker::Model;

/// The most rows of a package.
const MOST_ROWS: u32 = 65;

/// Why reading stopped.
#[derive(Clone, Copy, PartialEq, Eq)]
pub enum Stop {
    NoMemory,
    /// So many bytes were left where the first field stands that is not of its form.
    Bad(usize),
}

impl From<AllocError> for Stop {
    ghost use Rattle.std.specs.Prelude.{◌≡◌};
    ghost use Rattle.misp_package.specs.declared.reading.Stop.TheVariants.{NoMemory};

    ghost from_gives = { λ _ stop. stop ≡ NoMemory };

    fn from(_error: AllocError) -> Stop {
        Stop::NoMemory
    }
}

impl<T: Drop> From<AllocFailed<T>> for Stop {
    ghost use Rattle.std.specs.Prelude.{◌≡◌};
    ghost use Rattle.misp_package.specs.declared.reading.Stop.TheVariants.{NoMemory};

    ghost from_gives = { λ _ stop. stop ≡ NoMemory };

    fn from(_error: AllocFailed<T>) -> Stop {
        Stop::NoMemory
    }
}

/// Bytes that are read from the left. A contract sees those that are left.
#[derive(Drop)]
pub struct Reader<'a> {
    pub rest: &'a [u8],
}

impl<'a> Model for Reader<'a> {
    ghost use Rattle.std.specs.Prelude.{ℕ, List};

    ghost Value = { List ℕ };

    ghost view = { λ r. r.rest.now };
}

impl Reader<'_> {
    /// The fault of a field that begins here.
    pub fn bad(&self) -> Stop
        ensures { result ≡ Stop.Bad (length self.now) }
    {
        Stop::Bad(self.rest.len())
    }

    /// What bytes of a form begin with.
    #[tactic(auto, unfolding(crate::specs::PackageReading::form_at))]
    pub fn form(&mut self, form: &[u8]) -> Result<(), Stop>
        ensures { Gives result self.new (form_at form.now self.old) }
    {
        if !self.rest.starts_with(form) {
            return Err(self.bad());
        }
        self.rest = &self.rest[form.len()..];
        Ok(())
    }

    /// Sixteen bytes.
    pub fn event(&mut self) -> Result<EventId, Stop>
        ensures { Gives result self.new (event_at self.old) }
    {
        if self.rest.len() < 16 {
            return Err(self.bad());
        }
        let (front, rest) = self.rest.split_at(16);
        self.rest = rest;
        let mut number = [0; 16];
        number.copy_from_slice(front);
        Ok(EventId(Uid(u128::from_be_bytes(number))))
    }

    /// Four bytes.
    pub fn u32(&mut self) -> Result<u32, Stop>
        ensures { Gives result self.new (number_at w32 self.old) }
    {
        if self.rest.len() < 4 {
            return Err(self.bad());
        }
        let (front, rest) = self.rest.split_at(4);
        self.rest = rest;
        Ok(u32::from_be_bytes([front[0], front[1], front[2], front[3]]))
    }

    /// A number of four bytes between these.
    #[tactic(auto, unfolding(crate::specs::PackageReading::count_at))]
    pub fn count(&mut self, least: u32, most: u32) -> Result<u32, Stop>
        ensures { Gives result self.new (count_at least most self.old) }
    {
        let bad = self.bad();
        let count = self.u32()?;
        if least <= count && count <= most {
            Ok(count)
        } else {
            Err(bad)
        }
    }

    // A number of parts, more than this part.
    #[tactic(auto, unfolding(crate::specs::PackageReading::parts_at))]
    fn parts(&mut self, part: u32) -> Result<u32, Stop>
        ensures { Gives result self.new (parts_at part self.old) }
    {
        let bad = self.bad();
        let parts = self.u32()?;
        if part < parts { Ok(parts) } else { Err(bad) }
    }

    // A row of the event after its length: the event's own where no key is before it, else one with
    // a key after that.
    #[tactic(auto, unfolding(crate::specs::PackageReading::framed_row_at))]
    fn row(&mut self, alloc: Global, event: EventId, before: Option<Key>) -> Result<Row, Stop>
        ensures { Gives result self.new (framed_row_at event before self.old) }
    {
        let bad = self.bad();
        let len = self.u32()? as usize;
        if self.rest.len() < len {
            return Err(bad);
        }
        let after_len = self.rest.len();
        let (row, rest) = self.rest.split_at(len);
        self.rest = rest;
        match decode_on_wire(alloc, row, event, before) {
            Ok(row) => Ok(row),
            Err(DecodeFault::BadRow { place }) => Err(Stop::Bad(after_len.saturating_sub(place))),
            Err(DecodeFault::NoMemory) => Err(Stop::NoMemory),
        }
    }

    // So many rows of the event, the first of which is the event's own.
    fn rows(&mut self, alloc: Global, event: EventId, count: u32) -> Result<Items<Row>, Stop>
        ensures { Gives result self.new (rows_after event None count self.old) }
    {
        let mut rows: Vec<Row> = Vec::with_capacity(alloc, count as usize)?;
        let mut before = None;
        for _ in 0..count {
            let row = self.row(alloc, event, before)?;
            before = Some(row.key);
            rows.push(row)?;
        }
        Ok(Items::of(rows))
    }

    // The rows of the event after their number.
    #[tactic(auto, unfolding(crate::specs::PackageReading::framed_rows_at))]
    fn framed_rows(&mut self, alloc: Global, event: EventId) -> Result<Items<Row>, Stop>
        ensures { Gives result self.new (framed_rows_at event self.old) }
    {
        let count = self.count(1, MOST_ROWS)?;
        self.rows(alloc, event, count)
    }

    // The fields of a package.
    #[tactic(auto, unfolding(crate::specs::PackageReading::package_at))]
    fn fields(&mut self, alloc: Global) -> Result<PackageFields, Stop>
        ensures { Gives result self.new (package_at self.old) }
    {
        self.form(FORM)?;
        let event = self.event()?;
        let part = self.u32()?;
        let parts = self.parts(part)?;
        let rows = self.framed_rows(alloc, event)?;
        Ok(PackageFields {
            event,
            part,
            parts,
            rows,
        })
    }
}

// The package that these bytes are, all of the bytes.
#[tactic(auto, unfolding(crate::specs::PackageReading::package_of_bytes))]
fn whole_package(alloc: Global, bytes: &[u8]) -> Result<PackageFields, Stop>
    ensures { GivesAll result (package_of_bytes bytes.now) }
{
    let mut reader = Reader { rest: bytes };
    let fields = reader.fields(alloc)?;
    if !reader.rest.is_empty() {
        return Err(reader.bad());
    }
    Ok(fields)
}

/// The package that the bytes spell, all of the bytes.
pub fn read_package(alloc: Global, bytes: &[u8]) -> Result<Package, DecodeFault>
    // What is read is spelled so.
    ensures found { IfOk result (λ p. IsPackage p × (bytes.now ≡ spell_package p)) }
    // What is spelled so is read, unless memory runs out.
    ensures only { (p : PackageFields) → IsPackage p → bytes.now ≡ spell_package p →
        Answers result (Ok p) }
    // The place of a fault is that of the first field that is not of its form.
    ensures exact { Answers result (answer bytes.now (package_of_bytes bytes.now)) }
{
    match whole_package(alloc, bytes) {
        Ok(fields) => Ok(Package::of(fields)),
        Err(Stop::Bad(left)) => Err(DecodeFault::BadRow {
            place: bytes.len().saturating_sub(left),
        }),
        Err(Stop::NoMemory) => Err(DecodeFault::NoMemory),
    }
}
