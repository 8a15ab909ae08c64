// Bytes, one after another.
ghost use Rattle.std.specs.Prelude.{◌≡◌, ◌+◌, ◌<◌, ◌≤◌, IfOk, nat_le, nat_lt};
ghost use Rattle.formula.specs.Grammar.{both};
ghost use Rattle.faults.specs.declared.layers.PortFault.TheVariants.{Record};
ghost use Rattle.faults.specs.declared.layers.RecordFault.TheVariants.{Byte};
ghost use Rattle.reading.specs.Reading.{byte, bytes};
ghost use Rattle.reader.specs.Reads.{Reads, Stays, counted, itself};

use crate::reader::Reader;
use faults::{ByteFault, PortFault};

impl<'a> Reader<'a> {
    // At the first byte of a sheet.
    pub fn new(sheet: &'a [u8]) -> Reader<'a>
        ensures { (result.rest.now ≡ sheet.now) × (result.place ≡ 0) }
    {
        Reader {
            rest: sheet,
            place: 0,
        }
    }

    // The byte that stands next.
    pub fn next_byte(&mut self) -> Result<u8, ByteFault>
        ensures read { Reads byte itself (λ e. Record (Byte e)) self.old self.new result }
        ensures stays { Stays self.old self.new result }
    {
        match self.rest {
            [] => Err(ByteFault::Ends(self.place)),
            [first, rest @ ..] => {
                self.rest = rest;
                self.place += 1;
                Ok(*first)
            }
        }
    }

    // The next `n` bytes.
    pub(crate) fn next_bytes(&mut self, n: usize) -> Result<&'a [u8], ByteFault>
        ensures { Reads (bytes n) (λ x. x.now) (λ e. Record (Byte e)) self.old self.new result }
    {
        let rest = self.rest;
        let Some((front, back)) = rest.split_at_checked(n) else {
            return Err(ByteFault::Ends(self.place + rest.len()));
        };
        self.rest = back;
        self.place += n;
        Ok(front)
    }

    // A byte from 1 to `most`; another is refused by this fault.
    pub(crate) fn next_counted(&mut self, most: u8, fault: PortFault) -> Result<u8, PortFault>
        ensures read { Reads (counted most fault) itself itself self.old self.new result }
        ensures limits { IfOk result (λ v. (0 < v) × (v ≤ most) × (self.new.place ≡ self.old.place + 1)) }
    {
        let value = self.next_byte()?;
        if !is_count(value, most) {
            return Err(fault);
        }
        Ok(value)
    }
}

// Whether a count is from 1 to `most`.
fn is_count(value: u8, most: u8) -> bool
    ensures { result ≡ both (nat_lt 0 value) (nat_le value most) }
{
    (1..=most).contains(&value)
}
