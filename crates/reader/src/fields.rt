// The fields of a record, each checked as it is read.
ghost use Rattle.std.specs.Prelude.{◌≡◌, ◌+◌, cond, IfOk, None, Some};
ghost use Rattle.faults.specs.declared.layers.PortFault.TheVariants.{Record};
ghost use Rattle.reading.specs.Reading.{number, field, minutes, text, whole_text};
ghost use Rattle.reader.specs.Reads.{Reads, Stays, itself};

use crate::reader::Reader;
use crate::text::{SheetText, TextAt};
use faults::{PortFault, RecordFault};

// The most bytes of a text.
const TEXT_BYTES: u8 = 63;

// Stays: a rule of the project: `present` is a parameter of public calls, a bit of the map byte. No value stands beside it: whether one is
// read is what it decides, so that an `Option` could hold nothing before the call.
// Stays: `next_number` and `next_minutes`, of one byte and of two: each is one definition to be believed, and one call for both would need
// one definition of both widths.
impl<'a> Reader<'a> {
    // A number of one byte, which is not 0 where it is present.
    pub(crate) fn next_number(&mut self, present: bool) -> Result<u8, RecordFault>
        ensures { Reads (number present) itself Record self.old self.new result }
    {
        if !present {
            return Ok(0);
        }
        let place = self.place;
        let value = self.next_byte()?;
        if value == 0 {
            return Err(RecordFault::Absent(place));
        }
        Ok(value)
    }

    // A number below a limit, but a refusal may leave the reader further on.
    fn take_field(&mut self, present: bool, map_place: usize, limit: usize) -> Result<u8, PortFault>
        ensures { Reads (field present map_place limit) itself itself self.old self.new result }
    {
        let place = if present { self.place } else { map_place };
        let value = self.next_number(present)?;
        if value as usize >= limit {
            return Err(PortFault::Missing(place));
        }
        Ok(value)
    }

    // A move's minutes, but a refusal may leave the reader further on.
    fn take_minutes(&mut self, present: bool) -> Result<u16, RecordFault>
        ensures { Reads (minutes present) itself Record self.old self.new result }
    {
        if !present {
            return Ok(0);
        }
        let place = self.place;
        let high = self.next_byte()?;
        let low = self.next_byte()?;
        let minutes = u16::from_be_bytes([high, low]);
        if minutes == 0 {
            return Err(RecordFault::Absent(place));
        }
        Ok(minutes)
    }

    // The bytes of a text that is present, which are not those of an absent one.
    fn next_whole_text(&mut self) -> Result<TextAt<'a>, PortFault>
        ensures read { Reads whole_text (λ t. t.bytes.now) itself self.old self.new result }
        ensures stands { IfOk result (λ t. t.place ≡ self.old.place + 1) }
    {
        let length_place = self.place;
        let length = self.next_counted(TEXT_BYTES, PortFault::Missing(length_place))?;
        let place = self.place;
        let bytes = self.next_bytes(length as usize)?;
        if bytes == b"1".as_slice() {
            return Err(PortFault::Record(RecordFault::Absent(length_place)));
        }
        Ok(TextAt { bytes, place })
    }

    // A text that is a formula over the marks, but a refusal may leave the reader further on.
    fn take_text(&mut self, present: bool, marks: u8) -> Result<SheetText<'a>, PortFault>
        ensures read { Reads (text present marks) (λ t. t.bytes.now) itself self.old self.new result }
        ensures stands { IfOk result (λ t. t.place ≡ cond present (Some (self.old.place + 1)) None) }
    {
        if !present {
            return Ok(SheetText {
                bytes: b"1",
                place: None,
            });
        }
        let found = self.next_whole_text()?;
        found.check(marks)?;
        Ok(SheetText {
            bytes: found.bytes,
            place: Some(found.place),
        })
    }

    // Stays: a `take_` beside each `next_` that reads more than a byte, here, in the header and in the records. One function that goes ahead
    // for all of them would take the step as a closure, whose clauses would have to be told again at each call.

    // A number below a limit. The map byte, at `map_place`, stands for a number that is absent.
    pub fn next_field(
        &mut self,
        present: bool,
        map_place: usize,
        limit: usize,
    ) -> Result<u8, PortFault>
        ensures read { Reads (field present map_place limit) itself itself self.old self.new result }
        ensures stays { Stays self.old self.new result }
    {
        let mut ahead = *self;
        let value = ahead.take_field(present, map_place, limit)?;
        *self = ahead;
        Ok(value)
    }

    // A move's minutes: two bytes, the high one first.
    pub fn next_minutes(&mut self, present: bool) -> Result<u16, RecordFault>
        ensures read { Reads (minutes present) itself Record self.old self.new result }
        ensures stays { Stays self.old self.new result }
    {
        let mut ahead = *self;
        let minutes = ahead.take_minutes(present)?;
        *self = ahead;
        Ok(minutes)
    }

    // A text that is a formula over the marks, and where its bytes begin; an absent one is `1`, and stands nowhere.
    pub fn next_text(&mut self, present: bool, marks: u8) -> Result<SheetText<'a>, PortFault>
        ensures read { Reads (text present marks) (λ t. t.bytes.now) itself self.old self.new result }
        ensures stands { IfOk result (λ t. t.place ≡ cond present (Some (self.old.place + 1)) None) }
        ensures stays { Stays self.old self.new result }
    {
        let mut ahead = *self;
        let text = ahead.take_text(present, marks)?;
        *self = ahead;
        Ok(text)
    }
}
