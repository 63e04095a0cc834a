// The calls for C: on numbers and slices, each a pointer and a length. include/barleyhood.h says what a caller needs to know; barleyhood_c exports them.
// An answer is a count or refusals' code_of of a refusal, which is 2^32 or more, or a label's place. The contracts cite rules' definitions, and Linked for the answer.
ghost use Rattle.std.specs.Prelude.{◌≡◌, length};
ghost use Rattle.rules.specs.Calls.{reporting, deck_spreadsheet, spreadsheet_lines, leaves};
ghost use Rattle.rules.specs.Places.{source_place, delivery_place, labelling};
ghost use Rattle.rules.specs.Reading.{reading};
ghost use Rattle.barleyhood.specs.Linked.{check_code, sources_code, deliveries_code, cells_of_deck, written_code, answer_code};

use label_places::Class;
use rules::Refusal;

// 0 for a deck that is accepted.
pub fn barleyhood_check(s: &[u8]) -> u64
    ensures { result ≡ check_code (reading s.now) }
{
    match deck::check_deck(s) {
        Ok(()) => 0,
        Err(r) => refusals::code_of(r),
    }
}

// How many sources the deck has.
pub fn barleyhood_sources(s: &[u8]) -> u64
    ensures { result ≡ sources_code (reading s.now) }
{
    match deck::read(s) {
        Ok(h) => h.nsources as u64,
        Err(r) => refusals::code_of(r),
    }
}

// How many deliveries it has.
pub fn barleyhood_deliveries(s: &[u8]) -> u64
    ensures { result ≡ deliveries_code (reading s.now) }
{
    match deck::read(s) {
        Ok(h) => h.ndeliveries as u64,
        Err(r) => refusals::code_of(r),
    }
}

// How many were written, or the refusal's code.
fn written_code(x: Result<usize, Refusal>) -> u64
    ensures { result ≡ answer_code x }
{
    match x {
        Ok(n) => n as u64,
        Err(r) => refusals::code_of(r),
    }
}

// The cells of the deck's hour by a search for the price, and how many they are.
pub fn barleyhood_price(s: &[u8], out: &mut [i64]) -> u64
    ensures code { result ≡ written_code (cells_of_deck s.now (length out.old)) }
    ensures cells { out.new ≡ leaves (cells_of_deck s.now (length out.old)) out.old }
{
    match deck::read(s) {
        Ok(h) => written_code(reconstruct::cells_of(h, true, out)),
        Err(r) => refusals::code_of(r),
    }
}

// The same, by the plain rule.
pub fn barleyhood_plain(s: &[u8], out: &mut [i64]) -> u64
    ensures code { result ≡ written_code (cells_of_deck s.now (length out.old)) }
    ensures cells { out.new ≡ leaves (cells_of_deck s.now (length out.old)) out.old }
{
    match deck::read(s) {
        Ok(h) => written_code(reconstruct::cells_of(h, false, out)),
        Err(r) => refusals::code_of(r),
    }
}

// The deck's report as text, and how many bytes it has.
pub fn barleyhood_report(s: &[u8], out: &mut [u8]) -> u64
    ensures code { result ≡ written_code (reporting s.now (length out.old)) }
    ensures bytes { out.new ≡ leaves (reporting s.now (length out.old)) out.old }
{
    written_code(print_report::report(s, out))
}

// Where the own bytes of source i's label stand in the deck.
pub fn barleyhood_source_label(s: &[u8], i: usize) -> u64
    ensures { result ≡ source_place s.now i }
{
    label_places::place(s, Class::Source, i)
}

// The same of delivery j.
pub fn barleyhood_delivery_label(s: &[u8], j: usize) -> u64
    ensures { result ≡ delivery_place s.now j }
{
    label_places::place(s, Class::Delivery, j)
}

// The places of all labels, each source's and then each delivery's, and how many they are.
pub fn barleyhood_labels(s: &[u8], out: &mut [u64]) -> u64
    ensures code { result ≡ written_code (labelling s.now (length out.old)) }
    ensures places { out.new ≡ leaves (labelling s.now (length out.old)) out.old }
{
    written_code(label_places::all_places(s, out))
}

// The allocations of the deck's hour as a spreadsheet file, and how many bytes it has.
pub fn barleyhood_spreadsheet(s: &[u8], out: &mut [u8]) -> u64
    ensures code { result ≡ written_code (deck_spreadsheet s.now (length out.old)) }
    ensures bytes { out.new ≡ leaves (deck_spreadsheet s.now (length out.old)) out.old }
{
    written_code(write_spreadsheet::deck_spreadsheet(s, out))
}

// The lines of a file as the report prints them, and how many bytes they have.
pub fn barleyhood_spreadsheet_lines(file: &[u8], out: &mut [u8]) -> u64
    ensures code { result ≡ written_code (spreadsheet_lines file.now (length out.old)) }
    ensures bytes { out.new ≡ leaves (spreadsheet_lines file.now (length out.old)) out.old }
{
    written_code(print_file::lines(file, out))
}
