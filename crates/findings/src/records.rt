// What was met on the record that a spreadsheet file is refused for: where the file ends, how the record ends, and its first fields.
// What is not looked for is not told; what is told stands there.
use crate::form::{ByteFault, byte, has_order_mark};
use crate::{Found, lines};

// What is wrong with a file or a record as a whole.
#[derive(Clone, Copy)]
pub enum RecordFault {
    EmptyFile,
    FileMark,
    NoEndRecord,
    AfterEndRecord,
    CutRecord,
    LfAlone,
    NoHeader,
}

// A record without its CR LF.
pub fn text_of(record: &[u8]) -> &[u8] {
    let text = lines::text_of(record);
    text.strip_suffix(b"\r").unwrap_or(text)
}

// Of where the file ends, and of how the record does.
fn end_found(above: &[u8], record: &[u8]) -> Option<RecordFault> {
    match record {
        [] if above.is_empty() => Some(RecordFault::EmptyFile),
        [] => Some(RecordFault::NoEndRecord),
        _ if lines::last_of(above) == Some(b"end,,,,,,,\r\n") => Some(RecordFault::AfterEndRecord),
        [.., b'\r', b'\n'] => None,
        [.., b'\n'] => Some(RecordFault::LfAlone),
        _ => Some(RecordFault::CutRecord),
    }
}

// Where the first label of a delivery or an internal is due.
fn label_place(record: &[u8]) -> Option<usize> {
    let starts: [&[u8]; 2] = [b"delivery,", b"internal,,,"];
    let start = starts.iter().find(|start| record.starts_with(start))?;
    Some(start.len())
}

// Of the record's first fields.
fn fields_found(record: &[u8]) -> Option<Found<'static>> {
    let kind_end = record.iter().position(|b| !b.is_ascii_lowercase())?;
    if let Some(b';') = record.get(kind_end) {
        return Some(byte(ByteFault::Semicolon, kind_end));
    }
    let at = label_place(record)?;
    match record.get(at) {
        Some(b'"') => None,
        _ => Some(byte(ByteFault::LabelDue, at)),
    }
}

// What was met on a record below the records above it.
pub fn found(above: &[u8], record: &[u8]) -> Option<Found<'static>> {
    if above.is_empty() && has_order_mark(record) {
        return Some(Found::Record(RecordFault::FileMark));
    }
    if let Some(fault) = end_found(above, record) {
        return Some(Found::Record(fault));
    }
    match fields_found(record) {
        None if above.is_empty() => Some(Found::Record(RecordFault::NoHeader)),
        x => x,
    }
}
