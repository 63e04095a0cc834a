// Reads the fields of a deck's line: numbers, bases and labels, each at a place; where one stands, the answer has it and the place after it.
// The contracts cite rules' Fields and Record for what stands in the deck, and Answers for how that is answered.
#![tactic(auto)]

ghost use Rattle.std.specs.Prelude.{◌≡◌, false, ◌≤◌, ◌<◌, length, get_or, IfSome};
ghost use Rattle.rules.specs.Fields.{is_digit, is_character, is_escaped, byte_at, number_at, label_end, unescape, spaced_number, spaced_basis, basis_at, spaced_label};
ghost use Rattle.rules.specs.Record.{label_of};
ghost use Rattle.read_fields.specs.Answers.{step_of, DigitOf, number_cut, number_field, basis_field, end_of, label_field};

use rules::{Basis, Label};

// Where a label's own bytes start and end.
#[derive(Clone, Copy)]
pub struct Place {
    pub from: usize,
    pub upto: usize,
}

// Above every range.
const CUT: u64 = 1_000_000;

// The byte at a place; past the end a 0.
pub fn peek(s: &[u8], at: usize) -> u8
    ensures { result ≡ get_or s.now at 0 }
{
    s.get(at).copied().unwrap_or(0)
}

// One byte, not 0, that must stand at a place.
#[tactic(auto, using(crate::proofs::Bytes::byte_inside), unfolding(rules::specs::Fields::byte_at))]
pub fn byte(s: &[u8], at: usize, b: u8) -> Option<usize>
    requires { 0 < b }
    ensures { result ≡ step_of (byte_at s.now at b) }
{
    if peek(s, at) != b {
        return None;
    }
    Some(at + 1)
}

// Numbers.

pub fn is_digit(b: u8) -> bool
    ensures { result ≡ is_digit b }
{
    b.is_ascii_digit()
}

// The first of digits without a leading zero.
#[tactic(auto, using(crate::proofs::Numbers::number_steps))]
pub fn first_digit(s: &[u8], at: usize) -> Option<(u8, usize)>
    ensures digit { DigitOf s.now (number_at s.now at) result }
    ensures within { IfSome result (λ x. x.1 ≤ length s.now) }
{
    let first = peek(s, at);
    if !is_digit(first) {
        return None;
    }
    if first == b'0' {
        let second = peek(s, at + 1);
        if is_digit(second) {
            return None;
        }
        return Some((0, at + 1));
    }
    Some((first - b'0', at + 1))
}

// Digits without a leading zero; the number is cut at MOST.
#[tactic(auto, using(crate::proofs::Numbers::cut_steps))]
pub fn number_up_to<const MOST: u64>(s: &[u8], at: usize) -> Option<(u64, usize)>
    ensures { result ≡ number_cut MOST (number_at s.now at) }
{
    let (digit, start) = first_digit(s, at)?;
    let mut v = u64::from(digit).min(MOST);
    for i in start..s.len() {
        let b = s[i];
        if !is_digit(b) {
            return Some((v, i));
        }
        v = v
            .saturating_mul(10)
            .saturating_add(u64::from(b - b'0'))
            .min(MOST);
    }
    Some((v, s.len()))
}

// The same, cut above every range.
pub fn number(s: &[u8], at: usize) -> Option<(u32, usize)>
    ensures { result ≡ number_field (number_at s.now at) }
{
    let (v, next) = number_up_to::<CUT>(s, at)?;
    Some((v as u32, next))
}

// A space, and a number after it.
#[tactic(auto, using(crate::proofs::Bytes::told_after), unfolding(rules::specs::Fields::spaced_number))]
pub fn spaced_number(s: &[u8], at: usize) -> Option<(u32, usize)>
    ensures { result ≡ number_field (spaced_number s.now at) }
{
    let p = byte(s, at, b' ')?;
    number(s, p)
}

// Bases.

#[tactic(auto, using(crate::proofs::Numbers::basis_number), unfolding(rules::specs::Fields::basis_at))]
fn basis_at(s: &[u8], at: usize) -> Option<(Basis, usize)>
    ensures { result ≡ basis_field (basis_at s.now at) }
{
    match peek(s, at) {
        b'L' => Some((Basis::Low, at + 1)),
        b'G' => Some((Basis::Generation, at + 1)),
        _ => {
            let (v, next) = number(s, at)?;
            Some((Basis::Mwh(v), next))
        }
    }
}

// A space, and a basis after it.
#[tactic(auto, using(crate::proofs::Bytes::told_after), unfolding(rules::specs::Fields::spaced_basis))]
pub fn spaced_basis(s: &[u8], at: usize) -> Option<(Basis, usize)>
    ensures { result ≡ basis_field (spaced_basis s.now at) }
{
    let p = byte(s, at, b' ')?;
    basis_at(s, p)
}

// Labels.

pub fn is_character(c: u8) -> bool
    ensures { result ≡ is_character c }
{
    matches!(c, b' '..=b'~')
}

fn is_escaped(c: u8) -> bool
    ensures { result ≡ is_escaped c }
{
    matches!(c, b'"' | b'\\')
}

// A label at the start of a part of a deck: the index of its closing quote.
#[tactic(auto, using(crate::proofs::Labels::label_steps))]
pub fn read_label(part: &[u8]) -> Option<usize>
    ensures { result ≡ end_of (label_end part.now) }
{
    let mut bytes = part.iter();
    let Some(b'"') = bytes.next() else {
        return None;
    };
    let mut n: usize = 0;
    while let Some(b) = bytes.next() {
        if *b == b'"' {
            return (1..=16)
                .contains(&n)
                .then_some(part.len() - bytes.len() - 1);
        }
        if *b == b'\\' {
            if !is_escaped(*bytes.next()?) {
                return None;
            }
        } else if !is_character(*b) {
            return None;
        }
        n += 1;
    }
    None
}

// A space, and a label after it: the part of the deck from the opening quote on is handed to the label reader.
#[tactic(auto, using(crate::proofs::Labels::label_told, crate::proofs::Bytes::step_inside, crate::proofs::Labels::end_inside))]
pub fn spaced_label(s: &[u8], at: usize) -> Option<(Place, usize)>
    ensures { result ≡ label_field (spaced_label s.now at) }
{
    let d = byte(s, at, b' ')?;
    let upto = d + read_label(&s[d..])?;
    let label = Place { from: d + 1, upto };
    Some((label, upto + 1))
}

// The characters of a label's own bytes.
#[tactic(auto, using(crate::proofs::Characters::filled_steps))]
pub fn label_at(part: &[u8]) -> Label
    requires { length (unescape false part.now) ≤ 16 }
    ensures { result ≡ label_of (unescape false part.now) }
{
    let mut bytes = [0; 16];
    let mut n: usize = 0;
    let mut escaped = false;
    for b in part {
        escaped = *b == b'\\' && !escaped;
        if !escaped {
            bytes[n] = *b;
            n += 1;
        }
    }
    Label {
        len: n as u8,
        bytes,
    }
}
