// Every public call of Barleyhood, with what it promises on each input: an equation for its result and for all lent memory.
// The definitions cited are rules' (crates/rules/specs); an answer is Ok of an accepted outcome, or its refusal.
#![tactic(auto)]

pub mod linked;

ghost use Rattle.std.specs.Prelude.{◌≡◌, ◌+◌, length};
ghost use Rattle.rules.specs.Answers.{verdict_of, written_of, answer_of};
ghost use Rattle.rules.specs.Calls as calls;
ghost use Rattle.rules.specs.Calls.{writing, reconstruction, reporting, deck_spreadsheet, spreadsheet_lines, leaves, source_part, delivery_part};
ghost use Rattle.rules.specs.Places.{source_start, delivery_start, labelling};
ghost use Rattle.rules.specs.Reading.{reading};
ghost use Rattle.rules.specs.Refusals.{number_of, place_of};
ghost use Rattle.rules.specs.Units.{curve_made, cost_asked};
ghost use Rattle.rules.specs.Writing as given;

use label_places::Class;
pub use rules::{
    Basis, Delivery, Direct, HeatCurve, Hour, InputSequence, InternalSequence, Label, Plant,
    Refusal, Source, Unit,
};

// Decks.

// The hour that a deck's bytes state, or the refusal 1 to 11.
pub fn read(s: &[u8]) -> Result<Hour, Refusal>
    ensures { result ≡ answer_of (reading s.now) }
{
    deck::read(s)
}

// Whether a deck is accepted.
pub fn check(s: &[u8]) -> Result<(), Refusal>
    ensures { result ≡ verdict_of (reading s.now) }
{
    deck::check_deck(s)
}

// The label of source i, as the part of the deck at the label's own bytes between the quotes, escapes unread; an empty one at the deck's start where there is none.
pub fn source_label<'a>(s: &'a [u8], i: usize) -> &'a [u8]
    ensures bytes { result.now ≡ source_part s.now i }
    ensures place { result.ref_ptr ≡ (s.entry.ref_ptr.0, source_start s.now i + s.entry.ref_ptr.1) }
{
    label_places::label(s, Class::Source, i)
}

// The same of delivery j.
pub fn delivery_label<'a>(s: &'a [u8], j: usize) -> &'a [u8]
    ensures bytes { result.now ≡ delivery_part s.now j }
    ensures place { result.ref_ptr ≡ (s.entry.ref_ptr.0, delivery_start s.now j + s.entry.ref_ptr.1) }
{
    label_places::label(s, Class::Delivery, j)
}

// Where all labels stand, each source's in deck order and then each delivery's, into lent numbers: where its own bytes start, times 2^32, and how many they are. 1 to 11, then 14.
pub fn labels(s: &[u8], out: &mut [u64]) -> Result<usize, Refusal>
    ensures outcome { result ≡ written_of (labelling s.now (length out.old)) }
    ensures places { out.new ≡ leaves (labelling s.now (length out.old)) out.old }
{
    label_places::all_places(s, out)
}

// The deck's report as text into lent bytes: 14 where it does not fit. A deck that is refused has a report too.
pub fn report(s: &[u8], out: &mut [u8]) -> Result<usize, Refusal>
    ensures outcome { result ≡ written_of (reporting s.now (length out.old)) }
    ensures bytes { out.new ≡ leaves (reporting s.now (length out.old)) out.old }
{
    print_report::report(s, out)
}

// The allocations of the deck's hour as a spreadsheet file into lent bytes: 1 to 11, then 12 or 13, then 14.
pub fn deck_spreadsheet(s: &[u8], out: &mut [u8]) -> Result<usize, Refusal>
    ensures outcome { result ≡ written_of (deck_spreadsheet s.now (length out.old)) }
    ensures bytes { out.new ≡ leaves (deck_spreadsheet s.now (length out.old)) out.old }
{
    write_spreadsheet::deck_spreadsheet(s, out)
}

// Hour records.

// Whether some deck gives the record; where none does, the calls below refuse it with 15.
pub fn valid(h: Hour) -> bool
    ensures { result ≡ given.valid h }
{
    record::valid(h)
}

// The record written as a deck into lent bytes: 15, then 14.
pub fn write(h: Hour, out: &mut [u8]) -> Result<usize, Refusal>
    ensures outcome { result ≡ written_of (writing h (length out.old)) }
    ensures bytes { out.new ≡ leaves (writing h (length out.old)) out.old }
{
    write_deck::write(h, out)
}

// The hour's cells into lent ones, by the plain rule, one MWh at a time: 15, then 14, then the first group that meets 12 or 13.
pub fn plain(h: Hour, out: &mut [i64]) -> Result<usize, Refusal>
    ensures outcome { result ≡ written_of (reconstruction h (length out.old)) }
    ensures cells { out.new ≡ leaves (reconstruction h (length out.old)) out.old }
{
    reconstruct::plain(h, out)
}

// The same, by a search for the price.
pub fn price(h: Hour, out: &mut [i64]) -> Result<usize, Refusal>
    ensures outcome { result ≡ written_of (reconstruction h (length out.old)) }
    ensures cells { out.new ≡ leaves (reconstruction h (length out.old)) out.old }
{
    reconstruct::price(h, out)
}

// The hour's allocations as a spreadsheet file into lent bytes: 15, then 12 or 13, then 14.
pub fn spreadsheet(h: Hour, out: &mut [u8]) -> Result<usize, Refusal>
    ensures outcome { result ≡ written_of (calls.spreadsheet h (length out.old)) }
    ensures bytes { out.new ≡ leaves (calls.spreadsheet h (length out.old)) out.old }
{
    write_spreadsheet::spreadsheet(h, out)
}

// Spreadsheet files.

// The lines of a file, as the report prints them, into lent bytes: 16, then 14.
pub fn spreadsheet_lines(file: &[u8], out: &mut [u8]) -> Result<usize, Refusal>
    ensures outcome { result ≡ written_of (spreadsheet_lines file.now (length out.old)) }
    ensures bytes { out.new ≡ leaves (spreadsheet_lines file.now (length out.old)) out.old }
{
    print_file::lines(file, out)
}

// Curves and costs.

// A curve, only from coefficients within their ranges; else 3.
pub fn curve(k: u32, a: u32, b: u32, c: u32, r: u32) -> Result<HeatCurve, Refusal>
    ensures { result ≡ answer_of (curve_made (record { k = k; a = a; b = b; c = c; r = r })) }
{
    HeatCurve::new(k, a, b, c, r)
}

// W at a level of 0 to 2,000; else 3.
pub fn cost(c: HeatCurve, m: u32) -> Result<u64, Refusal>
    ensures { result ≡ answer_of (cost_asked c m) }
{
    curve::cost_asked(c, m)
}

// Refusals.

pub fn number_of(r: Refusal) -> u64
    ensures { result ≡ number_of r }
{
    refusals::number_of(r)
}

pub fn place_of(r: Refusal) -> usize
    ensures { result ≡ place_of r }
{
    refusals::place_of(r)
}
