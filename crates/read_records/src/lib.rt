// Reads the records of a spreadsheet file, each at a place of it; where one stands, the answer has it and the place after it.
// The contracts cite rules' Spreadsheet for what stands in the file, and Answers for what an answer says.
#![tactic(auto)]

ghost use Rattle.std.specs.Prelude.{◌≡◌, false, ◌≤◌, drop};
ghost use Rattle.rules.specs.Spreadsheet.{amount_fields, text_at, quoted, label_at, above as aboveAt, below as belowAt, signed_at, number_field_at, numbers_at, last_fields_at, hour_at, delivery_at, internal_at, end_at, record_at};
ghost use Rattle.read_records.specs.Answers.{NonZero, passed, signed_field, character_then, label_field, judged, amounts_field, field_of};

use rules::Label;

// The fields n1 to n4.
pub const AMOUNTS: usize = 4;

// How many of them each kind of record has.
pub const HOUR_COUNT: usize = AMOUNTS;

pub const PAIR_COUNT: usize = 3;

pub const OPEN_COUNT: usize = 2;

// A record, with the fields that its kind has.
#[derive(Clone, Copy)]
pub enum Record {
    Hour([i64; HOUR_COUNT]),
    Delivery {
        delivery: Label,
        number: i64,
        source: Label,
        amounts: [i64; PAIR_COUNT],
    },
    Internal {
        source: Label,
        amounts: [i64; OPEN_COUNT],
    },
    End,
}

// Bytes, none of them 0, that must stand at a place.
#[tactic(auto, using(crate::proofs::Texts::non_zero, crate::proofs::Texts::text_end, crate::proofs::Texts::text_more, crate::proofs::Texts::text_missing))]
pub fn text_at(s: &[u8], at: usize, text: &[u8]) -> Option<usize>
    requires { NonZero text.now }
    ensures { passed result ≡ text_at s.now at text.now }
{
    let mut p = at;
    for b in text {
        p = read_fields::byte(s, p, *b)?;
    }
    Some(p)
}

// Numbers.

fn above(v: u64, next: usize) -> Option<(i64, usize)>
    ensures { signed_field result ≡ aboveAt v next }
{
    let z = i64::try_from(v).ok()?;
    Some((z, next))
}

fn below(v: u64, next: usize) -> Option<(i64, usize)>
    ensures { signed_field result ≡ belowAt v next }
{
    if v == 0 {
        return None;
    }
    let z = 0i64.checked_sub_unsigned(v)?;
    Some((z, next))
}

// A number with its sign where it is below 0. Without its sign it is cut above every number of 64 signed bits.
#[tactic(auto, unfolding(rules::specs::Spreadsheet::signed_at))]
fn signed_at(s: &[u8], at: usize) -> Option<(i64, usize)>
    ensures { signed_field result ≡ signed_at s.now at }
{
    if read_fields::peek(s, at) == b'-' {
        let (v, next) = read_fields::number_up_to::<{ u64::MAX }>(s, at + 1)?;
        return below(v, next);
    }
    let (v, next) = read_fields::number_up_to::<{ u64::MAX }>(s, at)?;
    above(v, next)
}

// A comma, and a number after it.
#[tactic(auto, using(crate::proofs::Texts::passed_step), unfolding(rules::specs::Spreadsheet::number_field_at))]
fn number_field_at(s: &[u8], at: usize) -> Option<(i64, usize)>
    ensures { signed_field result ≡ number_field_at s.now at }
{
    let p = read_fields::byte(s, at, b',')?;
    signed_at(s, p)
}

// Labels.

// internal: what comes next inside the quotes, two quotes being one; no character at the closing quote
#[tactic(auto, using(crate::proofs::Labels::quoted_none, crate::proofs::Labels::quoted_plain, crate::proofs::Labels::quoted_closed, crate::proofs::Labels::quoted_doubled))]
fn character_at(s: &[u8], at: usize) -> Option<(Option<u8>, usize)>
    ensures { character_then s.now result ≡ quoted false at (drop at s.now) }
{
    let b = read_fields::peek(s, at);
    if b != b'"' {
        if !read_fields::is_character(b) {
            return None;
        }
        return Some((Some(b), at + 1));
    }
    if read_fields::peek(s, at + 1) != b'"' {
        return Some((None, at + 1));
    }
    Some((Some(b'"'), at + 2))
}

// A label from behind its opening quote on.
#[tactic(auto, using(crate::proofs::Labels::label_empty, crate::proofs::Labels::label_closed, crate::proofs::Labels::label_full))]
fn quoted_at(s: &[u8], at: usize) -> Option<(Label, usize)>
    ensures { label_field result ≡ judged (quoted false at (drop at s.now)) }
{
    let mut bytes = [0u8; 16];
    let mut n: usize = 0;
    let mut p = at;
    // no `for`: the character that is read tells where the next one stands
    loop {
        let (character, next) = character_at(s, p)?;
        let Some(c) = character else {
            if n == 0 {
                return None;
            }
            let len = n as u8;
            return Some((Label { len, bytes }, next));
        };
        if n == 16 {
            return None;
        }
        bytes[n] = c;
        n += 1;
        p = next;
    }
}

// A comma, and a label between quotes after it.
#[tactic(auto, unfolding(rules::specs::Spreadsheet::label_at))]
fn label_at(s: &[u8], at: usize) -> Option<(Label, usize)>
    ensures { label_field result ≡ label_at s.now at }
{
    let p = text_at(s, at, b",\"")?;
    quoted_at(s, p)
}

// The last fields.

// internal: N numbers, each after its comma
#[tactic(auto, using(crate::proofs::Amounts::amounts_none, crate::proofs::Amounts::amounts_more, crate::proofs::Amounts::amounts_all))]
fn numbers_at<const N: usize>(s: &[u8], at: usize) -> Option<([i64; N], usize)>
    ensures { amounts_field result ≡ numbers_at N s.now at }
{
    let mut amounts = [0i64; N];
    let mut p = at;
    for i in 0..N {
        let (z, next) = number_field_at(s, p)?;
        amounts[i] = z;
        p = next;
    }
    Some((amounts, p))
}

// N amounts, the commas of those that are not used, and CRLF.
#[tactic(auto, using(crate::proofs::Amounts::ends_part, crate::proofs::Amounts::ends_non_zero), unfolding(rules::specs::Spreadsheet::last_fields_at))]
fn last_fields_at<const N: usize>(s: &[u8], at: usize) -> Option<([i64; N], usize)>
    requires { N ≤ amount_fields }
    ensures { amounts_field result ≡ last_fields_at N s.now at }
{
    let (amounts, p) = numbers_at(s, at)?;
    let ends: &[u8] = b",,,,\r\n";
    let next = text_at(s, p, &ends[N..])?;
    Some((amounts, next))
}

// Records.

#[tactic(auto, unfolding(rules::specs::Spreadsheet::hour_at))]
fn hour_at(s: &[u8], at: usize) -> Option<(Record, usize)>
    ensures { field_of result ≡ hour_at s.now at }
{
    let p = text_at(s, at, b"hour,,,")?;
    let (amounts, next) = last_fields_at(s, p)?;
    Some((Record::Hour(amounts), next))
}

#[tactic(auto, unfolding(rules::specs::Spreadsheet::delivery_at))]
fn delivery_at(s: &[u8], at: usize) -> Option<(Record, usize)>
    ensures { field_of result ≡ delivery_at s.now at }
{
    let p = text_at(s, at, b"delivery")?;
    let (delivery, q) = label_at(s, p)?;
    let (number, r) = number_field_at(s, q)?;
    let (source, t) = label_at(s, r)?;
    let (amounts, next) = last_fields_at(s, t)?;
    let record = Record::Delivery {
        delivery,
        number,
        source,
        amounts,
    };
    Some((record, next))
}

#[tactic(auto, unfolding(rules::specs::Spreadsheet::internal_at))]
fn internal_at(s: &[u8], at: usize) -> Option<(Record, usize)>
    ensures { field_of result ≡ internal_at s.now at }
{
    let p = text_at(s, at, b"internal,,")?;
    let (source, q) = label_at(s, p)?;
    let (amounts, next) = last_fields_at(s, q)?;
    Some((Record::Internal { source, amounts }, next))
}

#[tactic(auto, unfolding(rules::specs::Spreadsheet::end_at))]
fn end_at(s: &[u8], at: usize) -> Option<(Record, usize)>
    ensures { field_of result ≡ end_at s.now at }
{
    let p = text_at(s, at, b"end,,,")?;
    let (_, next) = last_fields_at::<0>(s, p)?;
    Some((Record::End, next))
}

// The record from a place on, by the first letter of its kind.
#[tactic(auto, unfolding(rules::specs::Spreadsheet::record_at))]
pub fn record_at(s: &[u8], at: usize) -> Option<(Record, usize)>
    ensures { field_of result ≡ record_at s.now at }
{
    match read_fields::peek(s, at) {
        b'h' => hour_at(s, at),
        b'd' => delivery_at(s, at),
        b'i' => internal_at(s, at),
        _ => end_at(s, at),
    }
}
