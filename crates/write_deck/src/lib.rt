// Writing an hour record as a deck: 15, then 14; line by line into a buffer of the writer's own, and over to a lent one where it fits.
// Contracts cite Room and Inked of write_fields, and line_text, deck_text, valid, writing and leaves of rules.
#![tactic(auto)]

ghost use Rattle.std.specs.Prelude.{◌≡◌, true, [], ◌++◌, ◌≤◌, length, drop};
ghost use Rattle.rules.specs.Lines.{line_text};
ghost use Rattle.rules.specs.Record.{chars, source_line, delivery_line, end_line};
ghost use Rattle.rules.specs.Writing.{deck_text, valid};
ghost use Rattle.rules.specs.Calls.{writing, leaves};
ghost use Rattle.rules.specs.Answers.{written_of};
ghost use Rattle.write_fields.specs.Inked.{Room, Inked, up_to};
ghost use Rattle.write_deck.specs.Lines.{name_text, entry_text, head_line_of, unit_fields, direct_line_of};
ghost use Rattle.write_deck.specs.Deck.{source_text, delivery_text, direct_text};

use rules::{Basis, Delivery, Hour, Label, Plant, Refusal, Source, Unit};

// A space and a label.
fn put_name(buf: &mut [u8], at: usize, l: Label) -> usize
    requires { Room buf.old at (name_text (chars l) []) }
    ensures { Inked buf.old at buf.new result (name_text (chars l)) }
{
    let p = write_fields::put_byte(buf, at, b' ');
    write_fields::put_label(buf, p, l)
}

// A line of a letter, numbers and a label.
fn put_entry(buf: &mut [u8], at: usize, letter: u8, vs: &[u32], l: Label) -> usize
    requires { Room buf.old at (entry_text letter vs.now (chars l) []) }
    ensures { Inked buf.old at buf.new result (entry_text letter vs.now (chars l)) }
{
    let p = write_fields::put_byte(buf, at, letter);
    let q = write_fields::put_numbers(buf, p, vs);
    let r = put_name(buf, q, l);
    write_fields::put_byte(buf, r, b'\n')
}

fn put_head(buf: &mut [u8], at: usize, losses: u32) -> usize
    requires { Room buf.old at (line_text (head_line_of losses) []) }
    ensures { Inked buf.old at buf.new result (line_text (head_line_of losses)) }
{
    let p = write_fields::put_byte(buf, at, b'H');
    let q = write_fields::put_spaced(buf, p, losses);
    write_fields::put_byte(buf, q, b'\n')
}

fn put_end(buf: &mut [u8], at: usize) -> usize
    requires { Room buf.old at (line_text end_line []) }
    ensures { Inked buf.old at buf.new result (line_text end_line) }
{
    write_fields::put_two(buf, at, b'E', b'\n')
}

fn unit_fields(u: Unit) -> [u32; 10]
    ensures { result ≡ unit_fields u }
{
    let curve = u.curve;
    [
        u.g,
        u.h,
        u.n,
        u.o,
        u.e,
        curve.k(),
        curve.a(),
        curve.b(),
        curve.c(),
        curve.r(),
    ]
}

fn put_source(buf: &mut [u8], at: usize, x: Source) -> usize
    requires { Room buf.old at (line_text (source_line x) []) }
    ensures { Inked buf.old at buf.new result (line_text (source_line x)) }
{
    let p = x.plant;
    let l = x.label;
    match p {
        Plant::Unit(u) => {
            let vs = unit_fields(u);
            put_entry(buf, at, b'U', &vs, l)
        }
        Plant::Purchase { g, rate } => {
            let vs = [g, rate];
            put_entry(buf, at, b'P', &vs, l)
        }
        Plant::Fixed { g } => {
            let vs = [g];
            put_entry(buf, at, b'F', &vs, l)
        }
    }
}

fn put_delivery(buf: &mut [u8], at: usize, x: Delivery) -> usize
    requires { Room buf.old at (line_text (delivery_line x) []) }
    ensures { Inked buf.old at buf.new result (line_text (delivery_line x)) }
{
    let s = x.sequence;
    let l = x.label;
    let vs = [s.0, x.kind, x.block, x.mwh];
    put_entry(buf, at, b'T', &vs, l)
}

fn put_direct(
    buf: &mut [u8],
    at: usize,
    x: Basis,
    percent: u32,
    unit: Label,
    delivery: Label,
) -> usize
    requires { Room buf.old at (line_text (direct_line_of x percent (chars unit) (chars delivery)) []) }
    ensures { Inked buf.old at buf.new result (line_text (direct_line_of x percent (chars unit) (chars delivery))) }
{
    let p = write_fields::put_two(buf, at, b'D', b' ');
    let q = write_fields::put_basis(buf, p, x);
    let r = write_fields::put_spaced(buf, q, percent);
    let s = put_name(buf, r, unit);
    let t = put_name(buf, s, delivery);
    write_fields::put_byte(buf, t, b'\n')
}

fn put_sources(buf: &mut [u8], at: usize, h: Hour) -> usize
    requires { (valid h ≡ true) × Room buf.old at (up_to (source_text h) h.nsources []) }
    ensures { Inked buf.old at buf.new result (up_to (source_text h) h.nsources) }
{
    let n = h.nsources;
    let mut p = at;
    for i in 0..n {
        let x = h.sources[i];
        p = put_source(buf, p, x);
    }
    p
}

fn put_deliveries(buf: &mut [u8], at: usize, h: Hour) -> usize
    requires { (valid h ≡ true) × Room buf.old at (up_to (delivery_text h) h.ndeliveries []) }
    ensures { Inked buf.old at buf.new result (up_to (delivery_text h) h.ndeliveries) }
{
    let n = h.ndeliveries;
    let mut p = at;
    for i in 0..n {
        let x = h.deliveries[i];
        p = put_delivery(buf, p, x);
    }
    p
}

fn put_directs(buf: &mut [u8], at: usize, h: Hour) -> usize
    requires { (valid h ≡ true) × Room buf.old at (up_to (direct_text h) h.ndirects []) }
    ensures { Inked buf.old at buf.new result (up_to (direct_text h) h.ndirects) }
{
    let n = h.ndirects;
    let mut p = at;
    for i in 0..n {
        let x = h.directs[i];
        let s = x.source;
        let d = x.delivery;
        let basis = x.basis;
        let source = h.sources[s];
        let delivery = h.deliveries[d];
        let unit = source.label;
        let name = delivery.label;
        p = put_direct(buf, p, basis, x.percent, unit, name);
    }
    p
}

// The whole deck, from the buffer's start on; gives its length.
pub fn put_deck(buf: &mut [u8], h: Hour) -> usize
    requires { (valid h ≡ true) × (length (deck_text h) ≤ length buf.old) }
    ensures size { result ≡ length (deck_text h) }
    ensures bytes { buf.new ≡ deck_text h ++ drop (length (deck_text h)) buf.old }
{
    let p = put_head(buf, 0, h.losses);
    let q = put_sources(buf, p, h);
    let r = put_deliveries(buf, q, h);
    let s = put_directs(buf, r, h);
    put_end(buf, s)
}

// The deck of a valid hour into a lent buffer: 14, and nothing changed, where that is too short.
fn write_valid(h: Hour, out: &mut [u8]) -> Result<usize, Refusal>
    requires { valid h ≡ true }
    ensures outcome { result ≡ written_of (writing h (length out.old)) }
    ensures bytes { out.new ≡ leaves (writing h (length out.old)) out.old }
{
    let mut deck = [0u8; 8192];
    let n = put_deck(&mut deck, h);
    if out.len() < n {
        return Err(Refusal::Short);
    }
    write_fields::put_bytes(out, 0, &deck[0..n]);
    Ok(n)
}

// How many bytes the deck has, or why it was not written.
pub fn write(h: Hour, out: &mut [u8]) -> Result<usize, Refusal>
    ensures outcome { result ≡ written_of (writing h (length out.old)) }
    ensures bytes { out.new ≡ leaves (writing h (length out.old)) out.old }
{
    if !record::valid(h) {
        return Err(Refusal::NoDeck);
    }
    write_valid(h, out)
}
