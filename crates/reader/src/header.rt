// The header of a sheet: the opening, the counts, and where the port starts.
ghost use Rattle.std.specs.Prelude.{◌≤◌, IfOk};
ghost use Rattle.faults.specs.declared.layers.PortFault.TheVariants.{Record};
ghost use Rattle.faults.specs.declared.layers.RecordFault.TheVariants.{Byte};
ghost use Rattle.port.specs.Numbers.{most_marks};
ghost use Rattle.reading.specs.Reading.{opening, count, start_stage, heading};
ghost use Rattle.reader.specs.Reads.{Reads, Stays, itself};

use crate::reader::Reader;
use faults::{ByteFault, PortFault};
use port::Header;

// The bytes that every sheet begins with.
const OPENING: [u8; 4] = *b"GATE";

// The most marks, operations and stages of a port.
const MARKS: u8 = 16;

const OPERATIONS: u8 = 32;

const STAGES: u8 = 16;

impl<'a> Reader<'a> {
    // The opening bytes.
    fn next_opening(&mut self) -> Result<&'a [u8], ByteFault>
        ensures { Reads opening (λ x. x.now) (λ e. Record (Byte e)) self.old self.new result }
    {
        let bytes = self.next_bytes(4)?;
        if bytes != OPENING.as_slice() {
            return Err(ByteFault::Opening);
        }
        Ok(bytes)
    }

    // A count from 1 to `most`.
    fn next_count(&mut self, most: u8) -> Result<u8, PortFault>
        ensures read { Reads (count most) itself itself self.old self.new result }
        ensures most { IfOk result (λ v. v ≤ most) }
    {
        let place = self.place;
        self.next_counted(most, PortFault::Count(place))
    }

    // The start stage, which is one of the stages.
    fn next_start_stage(&mut self, stages: u8) -> Result<u8, PortFault>
        ensures { Reads (start_stage stages) itself itself self.old self.new result }
    {
        let place = self.place;
        let value = self.next_byte()?;
        if value >= stages {
            return Err(PortFault::Count(place));
        }
        Ok(value)
    }

    // The header, but a refusal may leave the reader further on.
    fn take_header(&mut self) -> Result<Header, PortFault>
        ensures read { Reads heading itself itself self.old self.new result }
        ensures marks { IfOk result (λ h. h.marks ≤ most_marks) }
    {
        self.next_opening()?;
        let marks = self.next_count(MARKS)?;
        let operations = self.next_count(OPERATIONS)?;
        let stages = self.next_count(STAGES)?;
        let stage = self.next_start_stage(stages)?;
        let condition = self.next_byte()?;
        Ok(Header {
            marks,
            operations,
            stages,
            stage,
            condition,
        })
    }

    // The header of a sheet.
    pub fn next_header(&mut self) -> Result<Header, PortFault>
        ensures read { Reads heading itself itself self.old self.new result }
        ensures marks { IfOk result (λ h. h.marks ≤ most_marks) }
        ensures stays { Stays self.old self.new result }
    {
        let mut ahead = *self;
        let header = ahead.take_header()?;
        *self = ahead;
        Ok(header)
    }
}
