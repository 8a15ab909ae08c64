// Makes a port of what records tell.
ghost use Rattle.std.specs.Prelude.{◌≡◌, IfOk, OnOk};
ghost use Rattle.port.specs.Model.{model_of, request_model};
ghost use Rattle.port.specs.Valid.{Valid};
ghost use Rattle.records.specs.Drafts.{draft_model};
ghost use Rattle.reading.specs.Reading.{add};
ghost use Rattle.records.specs.Entries.{entry_of, request_at};

use port::{Port, Request, Text};
use reader::SheetText;
use records::{Draft, Record, RequestAt};
use std::alloc::{AllocError, Global};

// Stays: `owned_text`, `owned` and `seal` as functions. A `TryFrom` takes no allocator, and a `From` no `requires`.

// A text that owns its bytes.
fn owned_text(heap: Global, text: SheetText) -> Result<Text, AllocError>
    ensures { IfOk result (λ t. t.bytes.items ≡ text.entry.bytes.now) }
{
    let bytes = Vec::from_slice(heap, text.bytes)?;
    Ok(Text { bytes })
}

// A request that owns its texts.
fn owned(heap: Global, asked: RequestAt) -> Result<Request, AllocError>
    ensures { IfOk result (λ q. request_model q ≡ request_at asked.entry) }
{
    let keep = owned_text(heap, asked.keep)?;
    let reach = owned_text(heap, asked.reach)?;
    Ok(Request {
        from: asked.from,
        to: asked.to,
        keep,
        reach,
    })
}

// Adds what a record tells.
pub(crate) fn add_record(draft: &mut Draft, heap: Global, entry: Record) -> Result<(), AllocError>
    ensures header { draft.new.header ≡ draft.old.header }
    ensures added { OnOk result (draft_model draft.new ≡ add (draft_model draft.old) (entry_of entry.entry)) }
{
    match entry {
        Record::Condition(marks) => draft.conditions.push(marks)?,
        Record::Move(found) => draft.moves.push(found)?,
        Record::Request(asked) => {
            let request = owned(heap, asked)?;
            draft.requests.push(request)?
        }
    }
    Ok(())
}

// The port of a draft that keeps to every limit.
pub(crate) fn seal(draft: Draft) -> Port
    requires { Valid (draft_model draft) }
    ensures { model_of result ≡ draft_model draft }
{
    let Draft {
        header,
        conditions,
        moves,
        requests,
    } = draft;
    Port {
        header,
        conditions,
        moves,
        requests,
    }
}
