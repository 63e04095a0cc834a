// The records of a spreadsheet file, each written with its CRLF at a place of a lent buffer, which gives the place after; and how long each is.
// Contracts cite Room and Inked of write_fields, the records of rules' Spreadsheet, and texts of specs/Records made of its fields.
#![tactic(auto)]

ghost use Rattle.std.specs.Prelude.{◌≡◌, [], ◌+◌, ◌≤◌, length};
ghost use Rattle.rules.specs.Record.{chars};
ghost use Rattle.rules.specs.Report.{hour, internal, end};
ghost use Rattle.rules.specs.Spreadsheet.{amount_fields, doubled, label_field, last_fields, record_text};
ghost use Rattle.write_fields.specs.Inked.{Room, Inked};
ghost use Rattle.write_records.specs.Records.{doubled_text, source_text, head_text, delivery_text, header_text, most_label, most_last};

use rules::{InternalSequence, Label};

// The fields n1 to n4.
const AMOUNT_FIELDS: usize = 4;

// A label's character, twice where it is a quote.
fn put_character(buf: &mut [u8], at: usize, c: u8) -> usize
    requires { Room buf.old at (doubled_text c []) }
    ensures { Inked buf.old at buf.new result (doubled_text c) }
{
    if c == b'"' {
        return write_fields::put_two(buf, at, b'"', b'"');
    }
    write_fields::put_byte(buf, at, c)
}

// A label's characters.
fn put_doubled(buf: &mut [u8], at: usize, label: Label) -> usize
    requires { Room buf.old at (doubled (chars label) []) }
    ensures { Inked buf.old at buf.new result (doubled (chars label)) }
{
    let mut p = at;
    for c in write_fields::characters(&label) {
        p = put_character(buf, p, *c);
    }
    p
}

// A label's field after its comma.
pub fn put_label(buf: &mut [u8], at: usize, l: Label) -> usize
    requires { Room buf.old at (label_field (chars l) []) }
    ensures { Inked buf.old at buf.new result (label_field (chars l)) }
{
    let p = write_fields::put_two(buf, at, b',', b'"');
    let q = put_doubled(buf, p, l);
    write_fields::put_byte(buf, q, b'"')
}

// Amounts from n1 on, a comma for each field that is left, and CRLF.
pub fn put_last(buf: &mut [u8], at: usize, amounts: &[i64]) -> usize
    requires { (length amounts.now ≤ amount_fields) × Room buf.old at (last_fields amounts.now []) }
    ensures { Inked buf.old at buf.new result (last_fields amounts.now) }
{
    let p = write_amounts::put_amounts(buf, at, b',', amounts);
    let ends = [b',', b',', b',', b',', b'\r', b'\n'];
    let n = amounts.len();
    write_fields::put_bytes(buf, p, &ends[n..])
}

// What ends a record: a source's label and amounts.
fn put_source(buf: &mut [u8], at: usize, source: Label, amounts: &[i64]) -> usize
    requires { (length amounts.now ≤ amount_fields) × Room buf.old at (source_text (chars source) amounts.now []) }
    ensures { Inked buf.old at buf.new result (source_text (chars source) amounts.now) }
{
    let p = put_label(buf, at, source);
    put_last(buf, p, amounts)
}

pub fn put_header(buf: &mut [u8], at: usize) -> usize
    requires { Room buf.old at (header_text []) }
    ensures { Inked buf.old at buf.new result header_text }
{
    write_fields::put_bytes(buf, at, b"kind,delivery,number,source,n1,n2,n3,n4\r\n")
}

pub fn put_hour(buf: &mut [u8], at: usize, amounts: &[i64]) -> usize
    requires { (length amounts.now ≤ amount_fields) × Room buf.old at (record_text (hour amounts.now) []) }
    ensures { Inked buf.old at buf.new result (record_text (hour amounts.now)) }
{
    let p = write_fields::put_bytes(buf, at, b"hour,,,");
    put_last(buf, p, amounts)
}

// What all records of a delivery share: its kind, label and number.
pub fn put_head(buf: &mut [u8], at: usize, delivery: Label, number: InternalSequence) -> usize
    requires { Room buf.old at (head_text (chars delivery) number []) }
    ensures { Inked buf.old at buf.new result (head_text (chars delivery) number) }
{
    let p = write_fields::put_bytes(buf, at, b"delivery");
    let q = put_label(buf, p, delivery);
    let r = write_fields::put_byte(buf, q, b',');
    write_fields::put_number(buf, r, u64::from(number.0))
}

// A delivery with a source, after the head.
pub fn put_delivery(buf: &mut [u8], at: usize, head: &[u8], source: Label, amounts: &[i64]) -> usize
    requires { (length amounts.now ≤ amount_fields) × Room buf.old at (delivery_text head.now (chars source) amounts.now []) }
    ensures { Inked buf.old at buf.new result (delivery_text head.now (chars source) amounts.now) }
{
    let p = write_fields::put_bytes(buf, at, head);
    put_source(buf, p, source, amounts)
}

pub fn put_internal(buf: &mut [u8], at: usize, source: Label, amounts: &[i64]) -> usize
    requires { (length amounts.now ≤ amount_fields) × Room buf.old at (record_text (internal (chars source) amounts.now) []) }
    ensures { Inked buf.old at buf.new result (record_text (internal (chars source) amounts.now)) }
{
    let p = write_fields::put_bytes(buf, at, b"internal,,");
    put_source(buf, p, source, amounts)
}

pub fn put_end(buf: &mut [u8], at: usize) -> usize
    requires { Room buf.old at (record_text end []) }
    ensures { Inked buf.old at buf.new result (record_text end) }
{
    write_fields::put_bytes(buf, at, b"end,,,,,,,\r\n")
}

// Lengths: of each text above, as many bytes as it has.

fn character_length(c: u8) -> usize
    ensures { (result ≡ length (doubled_text c [])) × (result ≤ 2) }
{
    if c != b'"' {
        return 1;
    }
    2
}

pub fn label_length(l: Label) -> usize
    ensures { (result ≡ length (label_field (chars l) [])) × (result ≤ most_label) }
{
    let mut size: usize = 3;
    for c in write_fields::characters(&l) {
        size += character_length(*c);
    }
    size
}

pub fn last_length(amounts: &[i64]) -> usize
    requires { length amounts.now ≤ amount_fields }
    ensures { (result ≡ length (last_fields amounts.now [])) × (result ≤ most_last) }
{
    write_amounts::amounts_length(amounts) + (AMOUNT_FIELDS - amounts.len()) + 2
}

fn source_length(source: Label, amounts: &[i64]) -> usize
    requires { length amounts.now ≤ amount_fields }
    ensures { (result ≡ length (source_text (chars source) amounts.now [])) × (result ≤ most_label + most_last) }
{
    label_length(source) + last_length(amounts)
}

pub fn header_length() -> usize
    ensures { result ≡ length (header_text []) }
{
    41
}

pub fn hour_length(amounts: &[i64]) -> usize
    requires { length amounts.now ≤ amount_fields }
    ensures { (result ≡ length (record_text (hour amounts.now) [])) × (result ≤ 7 + most_last) }
{
    7 + last_length(amounts)
}

pub fn delivery_length(head: &[u8], source: Label, amounts: &[i64]) -> usize
    requires { length amounts.now ≤ amount_fields }
    ensures { (result ≡ length (delivery_text head.now (chars source) amounts.now [])) × (result ≤ length head.now + most_label + most_last) }
{
    head.len() + source_length(source, amounts)
}

pub fn internal_length(source: Label, amounts: &[i64]) -> usize
    requires { length amounts.now ≤ amount_fields }
    ensures { (result ≡ length (record_text (internal (chars source) amounts.now) [])) × (result ≤ 10 + most_label + most_last) }
{
    10 + source_length(source, amounts)
}

pub fn end_length() -> usize
    ensures { result ≡ length (record_text end []) }
{
    12
}
