// Signed numbers and lists of amounts, each number after a byte that leads it: a space in the report, a comma in a spreadsheet file.
// Contracts cite Room and Inked of write_fields, and texts of specs/Amounts made of signed_text in rules' Report.
#![tactic(auto)]

ghost use Rattle.std.specs.Prelude.{◌≡◌, [], true, ◌^◌, ◌≤◌, ◌<◌, nat_abs, length};
ghost use Rattle.write_fields.specs.Inked.{Room, Inked};
ghost use Rattle.write_amounts.specs.Amounts.{signed_after, amounts_after, signed_size, amounts_size, zeros_after, AllZero};

// A signed number without its sign.
fn size_of(v: i64) -> u64
    ensures { result ≡ nat_abs v }
{
    if v < 0 {
        return (0 - (v + 1)) as u64 + 1;
    }
    v as u64
}

// A signed number after its byte.
fn put_signed(buf: &mut [u8], at: usize, lead: u8, v: i64) -> usize
    requires { Room buf.old at (signed_after lead v []) }
    ensures { Inked buf.old at buf.new result (signed_after lead v) }
{
    if v < 0 {
        let p = write_fields::put_two(buf, at, lead, b'-');
        return write_fields::put_number(buf, p, size_of(v));
    }
    let p = write_fields::put_byte(buf, at, lead);
    write_fields::put_number(buf, p, size_of(v))
}

// Whether all amounts are 0, as most pairs' are.
fn are_zero(amounts: &[i64]) -> bool
    ensures { result ≡ true → AllZero amounts.now }
{
    amounts.iter().all(|v| *v == 0)
}

// n amounts of 0, each after its byte.
fn put_zeros(buf: &mut [u8], at: usize, lead: u8, n: usize) -> usize
    requires { Room buf.old at (zeros_after lead n []) }
    ensures { Inked buf.old at buf.new result (zeros_after lead n) }
{
    let mut p = at;
    for _ in 0..n {
        p = write_fields::put_two(buf, p, lead, b'0');
    }
    p
}

// Amounts, each after its byte.
pub fn put_amounts(buf: &mut [u8], at: usize, lead: u8, amounts: &[i64]) -> usize
    requires { Room buf.old at (amounts_after lead amounts.now []) }
    ensures { Inked buf.old at buf.new result (amounts_after lead amounts.now) }
{
    if are_zero(amounts) {
        return put_zeros(buf, at, lead, amounts.len());
    }
    let mut p = at;
    for v in amounts {
        p = put_signed(buf, p, lead, *v);
    }
    p
}

// Lengths: of both texts, as many bytes as each has.

fn signed_length(v: i64) -> usize
    ensures { (result ≡ signed_size v) × (result ≤ 22) }
{
    let n = write_fields::count_digits(size_of(v));
    if v < 0 {
        return n + 2;
    }
    n + 1
}

pub fn amounts_length(amounts: &[i64]) -> usize
    requires { amounts_size amounts.now < 2 ^ 64 }
    ensures { result ≡ amounts_size amounts.now }
{
    let mut size: usize = 0;
    for v in amounts {
        size += signed_length(*v);
    }
    size
}
