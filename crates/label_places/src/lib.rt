// Where a label's own bytes stand in its deck: as the part of the deck, and as one number. Its place comes from the one pass that reads the deck.
// The contracts cite rules' Calls and Places, also by a label's class (Classes), and Stands for a place that is a label's.
#![tactic(auto)]

ghost use Rattle.std.specs.Prelude.{◌≡◌, ◌+◌, ◌-◌, ◌≤◌, ◌++◌, length};
ghost use Rattle.rules.specs.Answers.{written_of};
ghost use Rattle.rules.specs.Calls.{leaves, source_part, delivery_part};
ghost use Rattle.rules.specs.Places.{source_start, delivery_start, place_code, source_place, delivery_place, labelling};
ghost use Rattle.write_fields.specs.Inked.{Inked};
ghost use Rattle.label_places.specs.Classes.{part_of, start_of, place_of};
ghost use Rattle.label_places.specs.Codes.{codes, CodesFit};
ghost use Rattle.label_places.specs.Stands.{Stands};

use deck::Place;
use rules::Refusal;

// Above every length: a place as one number is its start times this, and its length.
const LENGTHS: u64 = 4_294_967_296;

// Whose labels are asked for.
#[derive(Clone, Copy)]
pub enum Class {
    Source,
    Delivery,
}

// Where the label of entry i of a class stands; at the deck's start, without bytes, for an entry that the deck lacks, and for a refused deck.
fn place_at(s: &[u8], class: Class, i: usize) -> Place
    ensures { Stands s.now (start_of class s.now i) (part_of class s.now i) result }
{
    let nowhere = Place { from: 0, upto: 0 };
    if 32 <= i {
        return nowhere;
    }
    let Ok(x) = deck::scan(s) else {
        return nowhere;
    };
    match class {
        Class::Source => x.sources[i],
        Class::Delivery => x.deliveries[i],
    }
}

// The part of the deck at the own bytes of that label.
pub fn label<'a>(s: &'a [u8], class: Class, i: usize) -> &'a [u8]
    ensures bytes { result.now ≡ part_of class s.now i }
    ensures place { result.ref_ptr ≡ (s.entry.ref_ptr.0, start_of class s.now i + s.entry.ref_ptr.1) }
{
    let p = place_at(s, class, i);
    deck::part_at(s, p)
}

// The part of the deck at the own bytes of source i's label.
pub fn source_label<'a>(s: &'a [u8], i: usize) -> &'a [u8]
    ensures bytes { result.now ≡ source_part s.now i }
    ensures place { result.ref_ptr ≡ (s.entry.ref_ptr.0, source_start s.now i + s.entry.ref_ptr.1) }
{
    label(s, Class::Source, i)
}

// The same of delivery j.
pub fn delivery_label<'a>(s: &'a [u8], j: usize) -> &'a [u8]
    ensures bytes { result.now ≡ delivery_part s.now j }
    ensures place { result.ref_ptr ≡ (s.entry.ref_ptr.0, delivery_start s.now j + s.entry.ref_ptr.1) }
{
    label(s, Class::Delivery, j)
}

// Places as numbers.

fn code_of(p: Place) -> u64
    requires { (p.from ≤ p.upto) × (p.upto ≤ 8192) }
    ensures { result ≡ place_code p.from (p.upto - p.from) }
{
    let n = p.upto - p.from;
    p.from as u64 * LENGTHS + n as u64
}

// Where the own bytes of that label stand in the deck.
pub fn place(s: &[u8], class: Class, i: usize) -> u64
    ensures { result ≡ place_of class s.now i }
{
    let p = place_at(s, class, i);
    code_of(p)
}

// Where the own bytes of source i's label stand in the deck.
pub fn source_place(s: &[u8], i: usize) -> u64
    ensures { result ≡ source_place s.now i }
{
    place(s, Class::Source, i)
}

// The same of delivery j.
pub fn delivery_place(s: &[u8], j: usize) -> u64
    ensures { result ≡ delivery_place s.now j }
{
    place(s, Class::Delivery, j)
}

// All places at once.

// The codes of the first n places, put from a number on.
fn put_codes(out: &mut [u64], at: usize, places: &[Place; 32], n: usize)
    requires { CodesFit at places.now n out.old }
    ensures { Inked out.old at out.new (at + n) (λ rest. codes places.now n ++ rest) }
{
    for i in 0..n {
        out[at + i] = code_of(places[i]);
    }
}

// Each source's place in deck order, and then each delivery's, into lent numbers: 1 to 11, then 14.
pub fn all_places(s: &[u8], out: &mut [u64]) -> Result<usize, Refusal>
    ensures outcome { result ≡ written_of (labelling s.now (length out.old)) }
    ensures places { out.new ≡ leaves (labelling s.now (length out.old)) out.old }
{
    let x = deck::scan(s)?;
    let n = x.hour.nsources;
    let m = x.hour.ndeliveries;
    if out.len() < n + m {
        return Err(Refusal::Short);
    }
    put_codes(out, 0, &x.sources, n);
    put_codes(out, n, &x.deliveries, m);
    Ok(n + m)
}
