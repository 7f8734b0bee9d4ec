// The record at an offset of a file: body length (2 bytes), kind (2 bytes), body.
ghost use Rattle.std.specs.Prelude.{◌≡◌};
ghost use Rattle.records.specs.Record.{record_at};

use crate::numbers::two_at;

// A whole record: its kind, its body's first offset and length, and the offset after it.
#[derive(Clone, Copy, Debug, PartialEq, Eq)]
pub struct Record {
    pub kind: u16,
    pub body: usize,
    pub length: usize,
    pub next: usize,
}

// A number that no kind of a file's records has.
#[derive(Clone, Copy, Debug, PartialEq, Eq)]
pub struct UnknownKind(pub u16);

// The record at an offset, if its head and its body are all there.
pub fn record_at(bytes: &[u8], at: usize) -> Option<Record>
    ensures { result ≡ record_at bytes.now at }
{
    if bytes.len() < 4 {
        return None;
    }
    if bytes.len() - 4 < at {
        return None;
    }
    let length = two_at(bytes, at) as usize;
    let kind = two_at(bytes, at + 2);
    let body = at + 4;
    if bytes.len() - body < length {
        return None;
    }
    Some(Record {
        kind,
        body,
        length,
        next: body + length,
    })
}
