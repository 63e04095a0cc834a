// The lines of a report, each written with its LF at a place of a lent buffer, which gives the place after; and how long each is.
// Contracts cite Room and Inked of write_fields, and texts of specs/Lines made of the lines in rules' Report.
#![tactic(auto)]

ghost use Rattle.std.specs.Prelude.{◌≡◌, [], ◌^◌, ◌≤◌, ◌<◌, length};
ghost use Rattle.rules.specs.Refusals.{number_of, place_of};
ghost use Rattle.rules.specs.Report.{hour, end, refusal};
ghost use Rattle.write_fields.specs.Inked.{Room, Inked};
ghost use Rattle.write_fields.specs.Texts.{spaced_text};
ghost use Rattle.print_lines.specs.Lines.{part_text, tail_text, head_text, line_text, open_text, printed};

use rules::{InternalSequence, Refusal};

// A space and a number.
fn put_spaced(buf: &mut [u8], at: usize, v: u64) -> usize
    requires { Room buf.old at (spaced_text v []) }
    ensures { Inked buf.old at buf.new result (spaced_text v) }
{
    let p = write_fields::put_byte(buf, at, b' ');
    write_fields::put_number(buf, p, v)
}

// A label's own bytes, escapes unread, between quotes.
fn put_part(buf: &mut [u8], at: usize, part: &[u8]) -> usize
    requires { Room buf.old at (part_text part.now []) }
    ensures { Inked buf.old at buf.new result (part_text part.now) }
{
    let p = write_fields::put_byte(buf, at, b'"');
    let q = write_fields::put_bytes(buf, p, part);
    write_fields::put_byte(buf, q, b'"')
}

// What comes after a source's label: its quote, the amounts and LF.
fn put_tail(buf: &mut [u8], at: usize, amounts: &[i64]) -> usize
    requires { Room buf.old at (tail_text amounts.now []) }
    ensures { Inked buf.old at buf.new result (tail_text amounts.now) }
{
    let p = write_fields::put_byte(buf, at, b'"');
    let q = write_amounts::put_amounts(buf, p, b' ', amounts);
    write_fields::put_byte(buf, q, b'\n')
}

// The head that all pairs of a delivery share: its label, its number and the source's quote.
pub fn put_head(buf: &mut [u8], at: usize, delivery: &[u8], number: InternalSequence) -> usize
    requires { Room buf.old at (head_text delivery.now number []) }
    ensures { Inked buf.old at buf.new result (head_text delivery.now number) }
{
    let p = put_part(buf, at, delivery);
    let q = write_fields::put_spaced(buf, p, number.0);
    write_fields::put_two(buf, q, b' ', b'"')
}

// A line of a head, a source's label and amounts.
pub fn put_line(buf: &mut [u8], at: usize, head: &[u8], source: &[u8], amounts: &[i64]) -> usize
    requires { Room buf.old at (line_text head.now source.now amounts.now []) }
    ensures { Inked buf.old at buf.new result (line_text head.now source.now amounts.now) }
{
    let p = write_fields::put_bytes(buf, at, head);
    let q = write_fields::put_bytes(buf, p, source);
    put_tail(buf, q, amounts)
}

// What a source has left.
pub fn put_open(buf: &mut [u8], at: usize, source: &[u8], amounts: &[i64]) -> usize
    requires { Room buf.old at (open_text source.now amounts.now []) }
    ensures { Inked buf.old at buf.new result (open_text source.now amounts.now) }
{
    put_line(buf, at, b"internal \"", source, amounts)
}

pub fn put_header(buf: &mut [u8], at: usize, amounts: &[i64]) -> usize
    requires { Room buf.old at (printed (hour amounts.now) []) }
    ensures { Inked buf.old at buf.new result (printed (hour amounts.now)) }
{
    let p = write_fields::put_bytes(buf, at, b"hour");
    let q = write_amounts::put_amounts(buf, p, b' ', amounts);
    write_fields::put_byte(buf, q, b'\n')
}

pub fn put_end(buf: &mut [u8], at: usize) -> usize
    requires { Room buf.old at (printed end []) }
    ensures { Inked buf.old at buf.new result (printed end) }
{
    write_fields::put_bytes(buf, at, b"end\n")
}

pub fn put_refusal(buf: &mut [u8], at: usize, x: Refusal) -> usize
    requires { Room buf.old at (printed (refusal (number_of x) (place_of x)) []) }
    ensures { Inked buf.old at buf.new result (printed (refusal (number_of x) (place_of x))) }
{
    let number = refusals::number_of(x);
    let place = refusals::place_of(x) as u64;
    let p = write_fields::put_bytes(buf, at, b"refused");
    let q = put_spaced(buf, p, number);
    let r = put_spaced(buf, q, place);
    write_fields::put_byte(buf, r, b'\n')
}

// Lengths: of each text above, as many bytes as it has.

fn spaced_length(v: u64) -> usize
    ensures { (result ≡ length (spaced_text v [])) × (result ≤ 21) }
{
    write_fields::count_digits(v) + 1
}

pub fn line_length(head: &[u8], source: &[u8], amounts: &[i64]) -> usize
    requires { length (line_text head.now source.now amounts.now []) < 2 ^ 64 }
    ensures { result ≡ length (line_text head.now source.now amounts.now []) }
{
    head.len() + source.len() + write_amounts::amounts_length(amounts) + 2
}

pub fn open_length(source: &[u8], amounts: &[i64]) -> usize
    requires { length (open_text source.now amounts.now []) < 2 ^ 64 }
    ensures { result ≡ length (open_text source.now amounts.now []) }
{
    line_length(b"internal \"", source, amounts)
}

pub fn header_length(amounts: &[i64]) -> usize
    requires { length (printed (hour amounts.now) []) < 2 ^ 64 }
    ensures { result ≡ length (printed (hour amounts.now) []) }
{
    write_amounts::amounts_length(amounts) + 5
}

pub fn end_length() -> usize
    ensures { result ≡ length (printed end []) }
{
    4
}

pub fn refusal_length(x: Refusal) -> usize
    ensures { result ≡ length (printed (refusal (number_of x) (place_of x)) []) }
{
    let number = refusals::number_of(x);
    let place = refusals::place_of(x) as u64;
    spaced_length(number) + spaced_length(place) + 8
}
