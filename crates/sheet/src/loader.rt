// Loads a sheet into a port.
ghost use Rattle.std.specs.Prelude.{◌≡◌, ℕ, ◌≤◌, length, OnOk};
ghost use Rattle.port.specs.Model.{Model, model_of};
ghost use Rattle.port.specs.Valid.{Valid};
ghost use Rattle.records.specs.Drafts.{draft_model};
ghost use Rattle.reading.specs.Theorems.{Grammatical, Only};
ghost use Rattle.sheet.specs.Loading.{HoldsPort, Loaded, TellsReading};
ghost use Rattle.reading.specs.Reading.{finish, held, reading, records};
ghost use Rattle.reading.specs.SheetOf.{sheet_of};

use crate::build::{add_record, seal};
use faults::{LoadError, PortFault};
use port::Port;
use reader::Reader;
use records::{Draft, read_record};
use std::alloc::Global;

// Reads records until the bytes end, and tells how many there are.
fn read_records(reader: &mut Reader, draft: &mut Draft, heap: Global) -> Result<usize, LoadError>
    ensures { (fuel : ℕ) → length reader.old.rest.now ≤ fuel → TellsReading (λ n. finish n (draft_model draft.new)) (records fuel 0 (draft_model draft.old) reader.old.place reader.old.rest.now) result }
{
    // Stays: the count by hand, since the records end where the bytes do, and no range or iterator tells when that is.
    let mut count = 0;
    while !reader.rest.is_empty() {
        let found = read_record(reader, draft).map_err(|fault| LoadError::Fault {
            fault,
            records: count,
        })?;
        add_record(draft, heap, found)?;
        count += 1;
    }
    Ok(count)
}

// What a sheet tells of a port.
fn read_draft(heap: Global, sheet: &[u8]) -> Result<Draft, LoadError>
    ensures { TellsReading (λ d. held (draft_model d)) (reading sheet.now) result }
{
    let mut reader = Reader::new(sheet);
    let mut draft = Draft::begin(&mut reader, heap)?;
    let records = read_records(&mut reader, &mut draft, heap)?;
    if !draft.start_exists() {
        return Err(LoadError::Fault {
            fault: PortFault::Start,
            records,
        });
    }
    Ok(draft)
}

// The port that a sheet tells.
fn read_port(heap: Global, sheet: &[u8]) -> Result<Port, LoadError>
    ensures { TellsReading (λ p. held (model_of p)) (reading sheet.now) result }
{
    Ok(seal(read_draft(heap, sheet)?))
}

// Puts the sheet's port in place of the one held. A sheet that is refused leaves that one as it was,
// and so does want of memory.
pub fn load(port: &mut Port, heap: Global, sheet: &[u8]) -> Result<(), LoadError>
    ensures read { Loaded sheet.now port.old port.new result }
    ensures written { OnOk result (Valid (model_of port.new) × (sheet.now ≡ sheet_of (model_of port.new))) }
    ensures only { OnOk result (Only sheet.now (model_of port.new)) }
    ensures accepts { (m : Model) → Valid m → sheet.now ≡ sheet_of m → HoldsPort m port.new result }
    ensures words { Grammatical }
{
    let read = read_port(heap, sheet)?;
    *port = read;
    Ok(())
}
