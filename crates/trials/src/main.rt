// Reads sheets in hex, one a line, and prints the page of each.
#![tactic(auto)]

use listing::page;
use std::alloc::{AllocError, Global};
use std::io::{BufRead, BufReader};

// The value of a hex digit.
fn digit(b: u8) -> Option<u8> {
    let value = char::from(b).to_digit(16)?;
    u8::try_from(value).ok()
}

// The bytes that a line of hex tells, or none where it is no hex.
// Stays: a rule of the project: nothing new is trusted, as the statements of the kit's crate for hex would be.
fn decode(heap: Global, line: &[u8]) -> Result<Option<Vec<u8>>, AllocError> {
    // This comes before any byte is kept, since a line may be of any length.
    if line.len() % 2 != 0 {
        return Ok(None);
    }
    let mut bytes = Vec::new(heap);
    for pair in line.chunks(2) {
        let [high, low] = pair else {
            return Ok(None);
        };
        let (Some(a), Some(b)) = (digit(*high), digit(*low)) else {
            return Ok(None);
        };
        bytes.push(a << 4 | b)?;
    }
    Ok(Some(bytes))
}

fn line_page(heap: Global, line: &[u8]) -> Result<String, AllocError> {
    match decode(heap, line)? {
        Some(sheet) => page(heap, &sheet),
        None => String::from_str(heap, "not hex\n"),
    }
}

fn run(rt: &HostRuntime) -> anyhow::Result<()> {
    let heap = rt.alloc();
    for (i, line) in BufReader::new(heap, rt.stdin())?.lines(heap).enumerate() {
        let line = line?;
        let text = line_page(heap, line.as_bytes())?;
        print!(rt; "sheet {i}\n{text}")?;
    }
    Ok(())
}

fn main(rt: HostRuntime) -> anyhow::Result<()> {
    run(&rt)
}
