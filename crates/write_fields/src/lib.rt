// Writers of bytes, numbers, labels and bases: each writes at a place of a lent buffer and gives the place after.
// Contracts cite Room and Inked of specs/Inked, and texts of specs/Texts made of those in rules/specs/Fields.
#![tactic(auto)]

ghost use Rattle.std.specs.Prelude.{◌≡◌, [], ◌∷◌, ◌++◌, ◌+◌, ◌≤◌, ◌<◌, length};
ghost use Rattle.rules.specs.Fields.{digits, basis_text};
ghost use Rattle.rules.specs.Record.{chars};
ghost use Rattle.write_fields.specs.Inked.{Room, Inked};
ghost use Rattle.write_fields.specs.Texts.{four_at, eight_at, from_text, two_digits, number_text, spaced_text, numbers_text, character_text, escape_text, quoted_text};

use rules::{Basis, Label};

pub fn put_byte(buf: &mut [u8], at: usize, b: u8) -> usize
    requires { Room buf.old at (b ∷ []) }
    ensures { Inked buf.old at buf.new result (λ rest. b ∷ rest) }
{
    buf[at] = b;
    at + 1
}

pub fn put_two(buf: &mut [u8], at: usize, a: u8, b: u8) -> usize
    requires { Room buf.old at (a ∷ b ∷ []) }
    ensures { Inked buf.old at buf.new result (λ rest. a ∷ b ∷ rest) }
{
    let p = put_byte(buf, at, a);
    put_byte(buf, p, b)
}

// Four bytes of a part, from a place of it on: all are read before any is written, so that they go as one.
fn copy_four(buf: &mut [u8], at: usize, src: &[u8], i: usize) -> usize
    requires { (i + 4 ≤ length src.now) × Room buf.old at (four_at src.now i []) }
    ensures { Inked buf.old at buf.new result (four_at src.now i) }
{
    let a = src[i];
    let b = src[i + 1];
    let c = src[i + 2];
    let d = src[i + 3];
    let p = put_two(buf, at, a, b);
    put_two(buf, p, c, d)
}

// Eight in the same way.
fn copy_eight(buf: &mut [u8], at: usize, src: &[u8], i: usize) -> usize
    requires { (i + 8 ≤ length src.now) × Room buf.old at (eight_at src.now i []) }
    ensures { Inked buf.old at buf.new result (eight_at src.now i) }
{
    let a = src[i];
    let b = src[i + 1];
    let c = src[i + 2];
    let d = src[i + 3];
    let e = src[i + 4];
    let f = src[i + 5];
    let g = src[i + 6];
    let h = src[i + 7];
    let p = put_two(buf, at, a, b);
    let q = put_two(buf, p, c, d);
    let r = put_two(buf, q, e, f);
    put_two(buf, r, g, h)
}

// The last byte of a part, where one is left.
fn copy_last(buf: &mut [u8], at: usize, src: &[u8], i: usize) -> usize
    requires { (length src.now < i + 2) × Room buf.old at (from_text src.now i []) }
    ensures { Inked buf.old at buf.new result (from_text src.now i) }
{
    if src.len() <= i {
        return at;
    }
    put_byte(buf, at, src[i])
}

// What is left of a part below four bytes.
fn copy_few(buf: &mut [u8], at: usize, src: &[u8], i: usize) -> usize
    requires { (i ≤ length src.now) × (length src.now < i + 4) × Room buf.old at (from_text src.now i []) }
    ensures { Inked buf.old at buf.new result (from_text src.now i) }
{
    if src.len() - i < 2 {
        return copy_last(buf, at, src, i);
    }
    let a = src[i];
    let b = src[i + 1];
    let p = put_two(buf, at, a, b);
    copy_last(buf, p, src, i + 2)
}

// What is left of a part below eight bytes.
fn copy_rest(buf: &mut [u8], at: usize, src: &[u8], i: usize) -> usize
    requires { (i ≤ length src.now) × (length src.now < i + 8) × Room buf.old at (from_text src.now i []) }
    ensures { Inked buf.old at buf.new result (from_text src.now i) }
{
    if src.len() - i < 4 {
        return copy_few(buf, at, src, i);
    }
    let p = copy_four(buf, at, src, i);
    copy_few(buf, p, src, i + 4)
}

// A part, eight bytes at a time as long as there are eight.
pub fn put_bytes(buf: &mut [u8], at: usize, src: &[u8]) -> usize
    requires { Room buf.old at src.now }
    ensures { Inked buf.old at buf.new result (λ rest. src.now ++ rest) }
{
    let mut p = at;
    let mut i = 0;
    while 8 <= src.len() - i {
        p = copy_eight(buf, p, src, i);
        i += 8;
    }
    copy_rest(buf, p, src, i)
}

// How many digits a number has: one more than the powers of ten, from 1 on, that are not above its tenth.
pub fn count_digits(v: u64) -> usize
    ensures { (result ≡ length (digits v)) × (result ≤ 20) }
{
    let tenth = v / 10;
    let mut power: u64 = 1;
    let mut n: usize = 0;
    // no `for`: how many turns there are is the answer
    while power <= tenth {
        power *= 10;
        n += 1;
    }
    n + 1
}

// Two digits of a number below 100.
fn put_digits(buf: &mut [u8], at: usize, v: u64) -> usize
    requires { (v < 100) × Room buf.old at (two_digits v []) }
    ensures { Inked buf.old at buf.new result (two_digits v) }
{
    let tens = (v / 10) as u8;
    let ones = (v % 10) as u8;
    put_two(buf, at, b'0' + tens, b'0' + ones)
}

// A number below 10000.
fn put_few(buf: &mut [u8], at: usize, v: u64) -> usize
    requires { (v < 10000) × Room buf.old at (number_text v []) }
    ensures { Inked buf.old at buf.new result (number_text v) }
{
    if v < 10 {
        return put_byte(buf, at, b'0' + (v as u8));
    }
    if v < 100 {
        return put_digits(buf, at, v);
    }
    if v < 1000 {
        let p = put_byte(buf, at, b'0' + ((v / 100) as u8));
        return put_digits(buf, p, v % 100);
    }
    let p = put_digits(buf, at, v / 100);
    put_digits(buf, p, v % 100)
}

// A number's digits, the last four after the others.
fn put_many(buf: &mut [u8], at: usize, v: u64) -> usize
    requires { Room buf.old at (number_text v []) }
    ensures { Inked buf.old at buf.new result (number_text v) }
{
    if v < 10000 {
        return put_few(buf, at, v);
    }
    let p = put_many(buf, at, v / 10000);
    let last = v % 10000;
    let q = put_digits(buf, p, last / 100);
    put_digits(buf, q, last % 100)
}

// A number's digits; most numbers have one.
pub fn put_number(buf: &mut [u8], at: usize, v: u64) -> usize
    requires { Room buf.old at (number_text v []) }
    ensures { Inked buf.old at buf.new result (number_text v) }
{
    if v < 10 {
        return put_byte(buf, at, b'0' + (v as u8));
    }
    put_many(buf, at, v)
}

// A space and a number.
pub fn put_spaced(buf: &mut [u8], at: usize, v: u32) -> usize
    requires { Room buf.old at (spaced_text v []) }
    ensures { Inked buf.old at buf.new result (spaced_text v) }
{
    let p = put_byte(buf, at, b' ');
    put_number(buf, p, u64::from(v))
}

// Numbers, each after a space.
pub fn put_numbers(buf: &mut [u8], at: usize, vs: &[u32]) -> usize
    requires { Room buf.old at (numbers_text vs.now []) }
    ensures { Inked buf.old at buf.new result (numbers_text vs.now) }
{
    let mut p = at;
    for v in vs {
        p = put_spaced(buf, p, *v);
    }
    p
}

// A label's character, with its backslash where it has one.
fn put_character(buf: &mut [u8], at: usize, c: u8) -> usize
    requires { Room buf.old at (character_text c []) }
    ensures { Inked buf.old at buf.new result (character_text c) }
{
    if c == b'"' {
        return put_two(buf, at, b'\\', c);
    }
    if c == b'\\' {
        return put_two(buf, at, b'\\', c);
    }
    put_byte(buf, at, c)
}

// A label's characters.
pub fn characters(l: &Label) -> &[u8]
    ensures { (result.now ≡ chars l.now) × (length result.now ≤ 16) }
{
    let n = usize::from(l.len);
    &l.bytes[..n.min(16)]
}

fn put_escaped(buf: &mut [u8], at: usize, l: Label) -> usize
    requires { Room buf.old at (escape_text (chars l) []) }
    ensures { Inked buf.old at buf.new result (escape_text (chars l)) }
{
    let mut p = at;
    for c in characters(&l) {
        p = put_character(buf, p, *c);
    }
    p
}

// A label between its quotes.
pub fn put_label(buf: &mut [u8], at: usize, l: Label) -> usize
    requires { Room buf.old at (quoted_text (chars l) []) }
    ensures { Inked buf.old at buf.new result (quoted_text (chars l)) }
{
    let p = put_byte(buf, at, b'"');
    let q = put_escaped(buf, p, l);
    put_byte(buf, q, b'"')
}

pub fn put_basis(buf: &mut [u8], at: usize, x: Basis) -> usize
    requires { Room buf.old at (basis_text x ++ []) }
    ensures { Inked buf.old at buf.new result (λ rest. basis_text x ++ rest) }
{
    match x {
        Basis::Low => put_byte(buf, at, b'L'),
        Basis::Generation => put_byte(buf, at, b'G'),
        Basis::Mwh(v) => put_number(buf, at, u64::from(v)),
    }
}
