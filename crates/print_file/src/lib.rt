// The lines of a spreadsheet file as the report's text, in two passes over its records: what the call comes to, then the bytes.
// Contracts cite Room and Inked of write_fields, the texts of specs/RecordLines and what is judged in specs/Judging, and spreadsheet_lines and leaves of rules.
#![tactic(auto)]

ghost use Rattle.std.specs.Prelude.{◌≡◌, [], ◌+◌, ◌^◌, ◌≤◌, ◌<◌, length};
ghost use Rattle.rules.specs.Answers.{verdict_of, written_of};
ghost use Rattle.rules.specs.Calls.{spreadsheet_lines, leaves};
ghost use Rattle.rules.specs.Record.{chars};
ghost use Rattle.rules.specs.Report.{pair, internal};
ghost use Rattle.rules.specs.Spreadsheet.{headed, after};
ghost use Rattle.read_records.specs.Answers.{line_of};
ghost use Rattle.write_fields.specs.Inked.{Room, Inked};
ghost use Rattle.print_lines.specs.Lines.{printed};
ghost use Rattle.print_file.specs.RecordLines.{source_text, most_line};
ghost use Rattle.print_file.specs.Judging.{stage_of, due, lines_from, judged};

use read_records::Record;
use rules::{Label, Refusal};

// Lines.

// What ends a line: a source's label, its amounts and LF.
fn put_source(buf: &mut [u8], at: usize, source: Label, amounts: &[i64]) -> usize
    requires { Room buf.old at (source_text (chars source) amounts.now []) }
    ensures { Inked buf.old at buf.new result (source_text (chars source) amounts.now) }
{
    let p = write_fields::put_label(buf, at, source);
    let q = write_amounts::put_amounts(buf, p, b' ', amounts);
    write_fields::put_byte(buf, q, b'\n')
}

fn put_pair(
    buf: &mut [u8],
    at: usize,
    delivery: Label,
    number: i64,
    source: Label,
    amounts: &[i64],
) -> usize
    requires { Room buf.old at (printed (pair (chars delivery) number (chars source) amounts.now) []) }
    ensures { Inked buf.old at buf.new result (printed (pair (chars delivery) number (chars source) amounts.now)) }
{
    let p = write_fields::put_label(buf, at, delivery);
    let numbers = [number];
    let q = write_amounts::put_amounts(buf, p, b' ', &numbers);
    let r = write_fields::put_byte(buf, q, b' ');
    put_source(buf, r, source, amounts)
}

fn put_internal(buf: &mut [u8], at: usize, source: Label, amounts: &[i64]) -> usize
    requires { Room buf.old at (printed (internal (chars source) amounts.now) []) }
    ensures { Inked buf.old at buf.new result (printed (internal (chars source) amounts.now)) }
{
    let p = write_fields::put_bytes(buf, at, b"internal ");
    put_source(buf, p, source, amounts)
}

// The line of a record.
fn put_line(buf: &mut [u8], at: usize, x: &Record) -> usize
    requires { Room buf.old at (printed (line_of x.now) []) }
    ensures { Inked buf.old at buf.new result (printed (line_of x.now)) }
{
    match x {
        Record::Hour(amounts) => print_lines::put_header(buf, at, amounts),
        Record::Delivery {
            delivery,
            number,
            source,
            amounts,
        } => put_pair(buf, at, *delivery, *number, *source, amounts),
        Record::Internal { source, amounts } => put_internal(buf, at, *source, amounts),
        Record::End => print_lines::put_end(buf, at),
    }
}

// No line is longer.
const MOST_LINE: usize = 160;

// How long it is.
fn line_length(x: &Record) -> u64
    requires { length (printed (line_of x.now) []) ≤ most_line }
    ensures { result ≡ length (printed (line_of x.now) []) }
{
    let mut scratch = [0u8; MOST_LINE];
    put_line(&mut scratch, 0, x) as u64
}

// The order of records.

// How far a file is: its header passed, its hour too, internals begun, its end passed.
#[derive(Clone, Copy, PartialEq, Eq)]
enum Stage {
    Headed,
    Houred,
    Opened,
    Ended,
}

// How far a file is after a record, where that may come.
fn stage_after(stage: Stage, x: &Record) -> Option<Stage>
    ensures { due result ≡ after (stage_of stage) (line_of x.now) }
{
    match (stage, x) {
        (Stage::Headed, Record::Hour(_)) => Some(Stage::Houred),
        (Stage::Houred, Record::Delivery { .. }) => Some(Stage::Houred),
        (Stage::Houred | Stage::Opened, Record::Internal { .. }) => Some(Stage::Opened),
        (Stage::Houred | Stage::Opened, Record::End) => Some(Stage::Ended),
        _ => None,
    }
}

// The first pass.

// 16, then 14: of the records after the header, whose lines must have fewer bytes than `room`.
#[tactic(auto, using(crate::specs::Judging::judged_none, crate::specs::Judging::more_judged, crate::specs::Judging::short_judged, crate::specs::Judging::whole_judged))]
fn judge_records(file: &[u8], at: usize, room: u64) -> Result<(), Refusal>
    ensures { result ≡ judged (lines_from file.now headed 2 at) room }
{
    let mut left = room;
    let mut stage = Stage::Headed;
    let mut k: usize = 2;
    let mut p = at;
    while stage != Stage::Ended {
        let faulty = Refusal::FileRecord(k);
        let Some((x, next)) = read_records::record_at(file, p) else {
            return Err(faulty);
        };
        let Some(further) = stage_after(stage, &x) else {
            return Err(faulty);
        };
        stage = further;
        left = left.saturating_sub(line_length(&x));
        k += 1;
        p = next;
    }
    if p != file.len() {
        return Err(Refusal::FileRecord(k));
    }
    if left == 0 {
        return Err(Refusal::Short);
    }
    Ok(())
}

// The header, the first record.
const HEADER: &[u8] = b"kind,delivery,number,source,n1,n2,n3,n4\r\n";

// What a file and a buffer of so many bytes come to.
#[tactic(auto, using(crate::specs::Judging::header_non_zero, crate::specs::Judging::no_header, crate::specs::Judging::header_passed))]
fn judge(file: &[u8], size: u64) -> Result<(), Refusal>
    requires { size + 1 < 2 ^ 64 }
    ensures { result ≡ verdict_of (spreadsheet_lines file.now size) }
{
    let at = read_records::text_at(file, 0, HEADER).ok_or(Refusal::FileRecord(1))?;
    judge_records(file, at, size + 1)
}

// The second pass.

// The lines of a file that is accepted, and has room in the buffer; gives their length.
#[tactic(auto, using(crate::specs::Lines::accepted_fits, crate::specs::Lines::begin))]
fn put_lines(file: &[u8], out: &mut [u8]) -> usize
    requires { verdict_of (spreadsheet_lines file.now (length out.old)) ≡ Ok tt }
    ensures outcome { Ok result ≡ written_of (spreadsheet_lines file.now (length out.old)) }
    ensures bytes { out.new ≡ leaves (spreadsheet_lines file.now (length out.old)) out.old }
{
    let mut p = HEADER.len();
    let mut q: usize = 0;
    while let Some((x, next)) = read_records::record_at(file, p) {
        q = put_line(out, q, &x);
        p = next;
    }
    q
}

// The lines of a file as the report prints them, into a lent buffer: nothing changed where the file is refused or the buffer too short.
pub fn lines(file: &[u8], out: &mut [u8]) -> Result<usize, Refusal>
    ensures outcome { result ≡ written_of (spreadsheet_lines file.now (length out.old)) }
    ensures bytes { out.new ≡ leaves (spreadsheet_lines file.now (length out.old)) out.old }
{
    judge(file, out.len() as u64)?;
    Ok(put_lines(file, out))
}
