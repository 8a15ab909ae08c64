// The records of a sheet, each read against the port as far as it is known.
ghost use Rattle.std.specs.Prelude.{◌≡◌};
ghost use Rattle.records.specs.Drafts.{draft_model};
ghost use Rattle.records.specs.Kinds.{bit_number};
ghost use Rattle.records.specs.Entries.{entry_of, head_of, request_at};
ghost use Rattle.reading.specs.Reading.{low_limit, high_limit, condition as condition_read, move as move_read, request as request_read, head as head_read, present, entry as entry_read, field, text};
ghost use Rattle.reader.specs.Reads.{Reads, Stays, itself};

use crate::draft::Draft;
use crate::kinds::{Bit, Kind};
use faults::{ByteFault, PortFault, RecordFault};
use port::Move;
use reader::{Reader, SheetText};

// A record, with the texts of a request still in the sheet.
#[derive(Clone, Copy)]
pub enum Record<'a> {
    Condition(u16),
    Move(Move),
    Request(RequestAt<'a>),
}

// A request as the sheet has it.
// Stays: beside `Request`, which owns its texts. One type with the text as a parameter would put that parameter into each definition
// that speaks of a port's requests.
#[derive(Clone, Copy)]
pub struct RequestAt<'a> {
    pub from: u8,
    pub to: u8,
    pub keep: SheetText<'a>,
    pub reach: SheetText<'a>,
}

// How a record begins: its kind and its map, and where each stands.
#[derive(Clone, Copy)]
pub struct Head {
    pub kind: Kind,
    pub place: usize,
    pub map: u8,
    pub map_place: usize,
}

impl Head {
    // Whether the field of this bit is there.
    fn has(self, bit: Bit) -> bool
        ensures { result ≡ present self.map (bit_number bit) }
    {
        (self.map >> bit.number()) & 1 == 1
    }

    // The field of this bit: a number below a limit.
    fn field(self, reader: &mut Reader, bit: Bit, limit: usize) -> Result<u8, PortFault>
        ensures { Reads (field (present self.map (bit_number bit)) self.map_place limit) itself itself reader.old reader.new result }
    {
        reader.next_field(self.has(bit), self.map_place, limit)
    }

    // The field of this bit: a text over the marks.
    fn text<'a>(
        self,
        reader: &mut Reader<'a>,
        bit: Bit,
        marks: u8,
    ) -> Result<SheetText<'a>, PortFault>
        ensures { Reads (text (present self.map (bit_number bit)) marks) (λ t. t.bytes.now) itself reader.old reader.new result }
    {
        reader.next_text(self.has(bit), marks)
    }
}

impl Draft {
    // Stays: two limits of one line each, which two definitions tell.

    // The marks of a low byte that exist are those below this limit.
    fn low_limit(&self) -> usize
        ensures { result ≡ low_limit self.now.header.marks }
    {
        1 << self.header.marks.min(8)
    }

    // And of a high byte, those below this one.
    fn high_limit(&self) -> usize
        ensures { result ≡ high_limit self.now.header.marks }
    {
        1 << self.header.marks.saturating_sub(8)
    }
}

// Takes the beginning of a record apart. Its kind is judged before a map byte is looked for.
fn read_head(reader: &mut Reader, draft: &Draft) -> Result<Head, PortFault>
    ensures { Reads (head_read (draft_model draft.now)) head_of itself reader.old reader.new result }
{
    let place = reader.place;
    match reader.rest {
        [] => Err(PortFault::from(ByteFault::Ends(place))),
        [kind] => {
            draft.admit(*kind, place)?;
            Err(PortFault::from(ByteFault::Ends(place + 1)))
        }
        [kind, map, rest @ ..] => {
            let kind = draft.admit(*kind, place)?;
            let map_place = place + 1;
            if !kind.has_fields(*map) {
                return Err(PortFault::Record(RecordFault::Map(map_place)));
            }
            reader.rest = rest;
            reader.place = place + 2;
            Ok(Head {
                kind,
                place,
                map: *map,
                map_place,
            })
        }
    }
}

// Stays: the reader, the draft and the head as parameters of each: two are lent, one of them to be changed, and a struct of the three
// would live for one call.

// A condition: the low and the high byte of its marks.
fn read_condition(reader: &mut Reader, draft: &Draft, head: Head) -> Result<u16, PortFault>
    ensures { Reads (condition_read (draft_model draft.now) head.place head.map_place head.map) itself itself reader.old reader.new result }
{
    let low = head.field(reader, Bit::First, draft.low_limit())?;
    let high = head.field(reader, Bit::Second, draft.high_limit())?;
    let condition = u16::from_le_bytes([low, high]);
    if !draft.condition_rises(condition) {
        return Err(PortFault::Sequence(head.place));
    }
    Ok(condition)
}

// A move: its condition, operation, outcome and minutes.
fn read_move(reader: &mut Reader, draft: &Draft, head: Head) -> Result<Move, PortFault>
    ensures { Reads (move_read (draft_model draft.now) head.place head.map_place head.map) itself itself reader.old reader.new result }
{
    let conditions = draft.conditions.len();
    let operations = draft.header.operations as usize;
    let condition = head.field(reader, Bit::First, conditions)?;
    let operation = head.field(reader, Bit::Second, operations)?;
    let outcome = head.field(reader, Bit::Third, conditions)?;
    let minutes = reader.next_minutes(head.has(Bit::Fourth))?;
    let found = Move {
        condition,
        operation,
        outcome,
        minutes,
    };
    if !draft.move_rises(found) {
        return Err(PortFault::Sequence(head.place));
    }
    Ok(found)
}

// A request: its two stages and its two texts.
fn read_request<'a>(
    reader: &mut Reader<'a>,
    draft: &Draft,
    head: Head,
) -> Result<RequestAt<'a>, PortFault>
    ensures { Reads (request_read (draft_model draft.now) head.map_place head.map) request_at itself reader.old reader.new result }
{
    let stages = draft.header.stages as usize;
    let marks = draft.header.marks;
    let from = head.field(reader, Bit::First, stages)?;
    let to = head.field(reader, Bit::Second, stages)?;
    let keep = head.text(reader, Bit::Third, marks)?;
    let reach = head.text(reader, Bit::Fourth, marks)?;
    Ok(RequestAt {
        from,
        to,
        keep,
        reach,
    })
}

// The record that stands next, but a refusal may leave the reader further on.
fn take_record<'a>(reader: &mut Reader<'a>, draft: &Draft) -> Result<Record<'a>, PortFault>
    ensures { Reads (entry_read (draft_model draft.now)) entry_of itself reader.old reader.new result }
{
    let head = read_head(reader, draft)?;
    match head.kind {
        Kind::Condition => Ok(Record::Condition(read_condition(reader, draft, head)?)),
        Kind::Move => Ok(Record::Move(read_move(reader, draft, head)?)),
        Kind::Request => Ok(Record::Request(read_request(reader, draft, head)?)),
    }
}

// The record that stands next, as it may follow what was read already.
pub fn read_record<'a>(reader: &mut Reader<'a>, draft: &Draft) -> Result<Record<'a>, PortFault>
    ensures read { Reads (entry_read (draft_model draft.now)) entry_of itself reader.old reader.new result }
    ensures stays { Stays reader.old reader.new result }
{
    let mut ahead = *reader;
    let record = take_record(&mut ahead, draft)?;
    *reader = ahead;
    Ok(record)
}
