// The C names: each export calls the library's function of that name, under the same contract. include/barleyhood.h says what a caller needs to know.
#![tactic(auto)]

ghost use Rattle.std.specs.Prelude.{◌≡◌, length};
ghost use Rattle.rules.specs.Calls.{reporting, deck_spreadsheet, spreadsheet_lines, leaves};
ghost use Rattle.rules.specs.Places.{source_place, delivery_place, labelling};
ghost use Rattle.rules.specs.Reading.{reading};
ghost use Rattle.barleyhood.specs.Linked.{check_code, sources_code, deliveries_code, cells_of_deck, written_code};

use barleyhood::linked;

// 0 for a deck that is accepted.
#[unsafe(no_mangle)]
pub extern "C" fn barleyhood_check(s: &[u8]) -> u64
    ensures { result ≡ check_code (reading s.now) }
{
    linked::barleyhood_check(s)
}

// How many sources the deck has.
#[unsafe(no_mangle)]
pub extern "C" fn barleyhood_sources(s: &[u8]) -> u64
    ensures { result ≡ sources_code (reading s.now) }
{
    linked::barleyhood_sources(s)
}

// How many deliveries it has.
#[unsafe(no_mangle)]
pub extern "C" fn barleyhood_deliveries(s: &[u8]) -> u64
    ensures { result ≡ deliveries_code (reading s.now) }
{
    linked::barleyhood_deliveries(s)
}

// The cells of the deck's hour by a search for the price, and how many they are.
#[unsafe(no_mangle)]
pub extern "C" fn barleyhood_price(s: &[u8], out: &mut [i64]) -> u64
    ensures code { result ≡ written_code (cells_of_deck s.now (length out.old)) }
    ensures cells { out.new ≡ leaves (cells_of_deck s.now (length out.old)) out.old }
{
    linked::barleyhood_price(s, out)
}

// The same, by the plain rule.
#[unsafe(no_mangle)]
pub extern "C" fn barleyhood_plain(s: &[u8], out: &mut [i64]) -> u64
    ensures code { result ≡ written_code (cells_of_deck s.now (length out.old)) }
    ensures cells { out.new ≡ leaves (cells_of_deck s.now (length out.old)) out.old }
{
    linked::barleyhood_plain(s, out)
}

// The deck's report as text, and how many bytes it has.
#[unsafe(no_mangle)]
pub extern "C" fn barleyhood_report(s: &[u8], out: &mut [u8]) -> u64
    ensures code { result ≡ written_code (reporting s.now (length out.old)) }
    ensures bytes { out.new ≡ leaves (reporting s.now (length out.old)) out.old }
{
    linked::barleyhood_report(s, out)
}

// Where the own bytes of source i's label stand in the deck.
#[unsafe(no_mangle)]
pub extern "C" fn barleyhood_source_label(s: &[u8], i: usize) -> u64
    ensures { result ≡ source_place s.now i }
{
    linked::barleyhood_source_label(s, i)
}

// The same of delivery j.
#[unsafe(no_mangle)]
pub extern "C" fn barleyhood_delivery_label(s: &[u8], j: usize) -> u64
    ensures { result ≡ delivery_place s.now j }
{
    linked::barleyhood_delivery_label(s, j)
}

// The places of all labels, each source's and then each delivery's, and how many they are.
#[unsafe(no_mangle)]
pub extern "C" fn barleyhood_labels(s: &[u8], out: &mut [u64]) -> u64
    ensures code { result ≡ written_code (labelling s.now (length out.old)) }
    ensures places { out.new ≡ leaves (labelling s.now (length out.old)) out.old }
{
    linked::barleyhood_labels(s, out)
}

// The allocations of the deck's hour as a spreadsheet file, and how many bytes it has.
#[unsafe(no_mangle)]
pub extern "C" fn barleyhood_spreadsheet(s: &[u8], out: &mut [u8]) -> u64
    ensures code { result ≡ written_code (deck_spreadsheet s.now (length out.old)) }
    ensures bytes { out.new ≡ leaves (deck_spreadsheet s.now (length out.old)) out.old }
{
    linked::barleyhood_spreadsheet(s, out)
}

// The lines of a file as the report prints them, and how many bytes they have.
#[unsafe(no_mangle)]
pub extern "C" fn barleyhood_spreadsheet_lines(file: &[u8], out: &mut [u8]) -> u64
    ensures code { result ≡ written_code (spreadsheet_lines file.now (length out.old)) }
    ensures bytes { out.new ≡ leaves (spreadsheet_lines file.now (length out.old)) out.old }
{
    linked::barleyhood_spreadsheet_lines(file, out)
}
