// A refusal in words, for a clerk: what is wrong, where, what was found there and what to do. All words are in `table`, what is found is told by `findings`.
// No contract says which words: that is tested. What is refused is decided by the proved reader and the proved groups.
#![tactic(auto)]

mod table;
mod text;

ghost use Rattle.std.specs.Prelude.{◌≡◌, true, ◌≤◌, length};
ghost use Rattle.rules.specs.Writing.{valid};

use deck::ScannedDeck;
use findings::form::Letter;
use findings::{Found, Part, entries, form, lines, outside, records, shortage};
use read_fields::Place;
use rules::{InternalSequence, Key, Refusal};
use std::fmt;
use std::fmt::Write;
use text::Text;

// The most bytes of a line that are shown.
const MOST_SHOWN: usize = 80;

// The first line: number, place, and what is wrong.
fn put_head(text: &mut Text, r: Refusal) -> fmt::Result {
    write!(text, "refused {}", refusals::number_of(r))?;
    let place = refusals::place_of(r);
    if place != 0 {
        write!(text, ", {} {place}", table::place(r))?;
    }
    writeln!(text, ": {}", table::when(r))
}

// The last line: what to do.
fn put_tail(text: &mut Text, r: Refusal) -> fmt::Result {
    writeln!(text, "what to do: {}", table::advice(r))
}

fn put_found(text: &mut Text, x: Found) -> fmt::Result {
    text.write_str("found: ")?;
    table::put_found(text, x)?;
    text.write_str("\n")
}

// What was found, where something was.
fn put_any(text: &mut Text, found: Option<Found>) -> fmt::Result {
    match found {
        Some(x) => put_found(text, x),
        None => Ok(()),
    }
}

// The bytes of a line or a record, a long one cut; nothing where deck or file ends before it.
fn put_shown(text: &mut Text, what: &str, line: &[u8], bytes: &[u8]) -> fmt::Result {
    if line.is_empty() {
        return Ok(());
    }
    write!(text, "the {what}: ")?;
    match bytes.split_at_checked(MOST_SHOWN) {
        Some((front, [_, ..])) => writeln!(text, "{} ..", Part(front)),
        _ if bytes.is_empty() => text.write_str("(empty)\n"),
        _ => writeln!(text, "{}", Part(bytes)),
    }
}

// The form of a line, where its letter has one.
fn put_form(text: &mut Text, line: &[u8]) -> fmt::Result {
    match line.first().copied().and_then(Letter::of) {
        Some(letter) => writeln!(text, "its form: {}", table::form(letter)),
        None => Ok(()),
    }
}

// What was found on a line, below the lines above it.
fn line_found<'a>(above: &'a [u8], line: &'a [u8], r: Refusal) -> Option<Found<'a>> {
    match r {
        Refusal::Form(_) => Some(form::found(above, line)),
        Refusal::Unplaced(_) => Some(Found::Unplaced),
        Refusal::Range(_) => Some(Found::Outside(outside::found(lines::entry_of(line)?)?)),
        _ => entries::found(above, lines::entry_of(line)?, r),
    }
}

// What more there is to say of it.
fn put_more(text: &mut Text, above: &[u8], line: &[u8], r: Refusal) -> fmt::Result {
    match r {
        Refusal::Form(_) => put_form(text, line),
        Refusal::Names(_) => put_any(text, entries::no_delivery(above, line)),
        _ => Ok(()),
    }
}

fn put_line(text: &mut Text, deck: &[u8], r: Refusal) -> fmt::Result {
    let (above, line) = lines::line_at(deck, refusals::place_of(r));
    put_shown(text, "line", line, lines::text_of(line))?;
    put_any(text, line_found(above, line, r))?;
    put_more(text, above, line, r)
}

// What was found in a deck that is refused where it is read.
fn put_reading(text: &mut Text, deck: &[u8], r: Refusal) -> fmt::Result {
    match r {
        Refusal::TooLong => Ok(()),
        Refusal::Overdrawn => put_found(text, entries::sums(deck)),
        _ => put_line(text, deck, r),
    }
}

fn put_refused(text: &mut Text, deck: &[u8], r: Refusal) -> fmt::Result {
    put_head(text, r)?;
    put_reading(text, deck, r)?;
    put_tail(text, r)
}

// How many MWh a group is short of, and the labels of its deliveries.
fn put_short(
    text: &mut Text,
    deck: &[u8],
    places: &[Place],
    keys: &[Key],
    group: InternalSequence,
    short: u64,
) -> fmt::Result {
    text.write_str("found: ")?;
    table::put_found(text, Found::Short(short))?;
    for (place, key) in places.iter().zip(keys) {
        if key.number == group {
            write!(text, " \"{}\"", lines::part(deck, *place))?;
        }
    }
    text.write_str("\n")
}

// A deck whose hour is reconstructed: nothing, or the group that is refused.
fn put_hour(text: &mut Text, deck: &[u8], x: ScannedDeck) -> fmt::Result
    requires { valid x.hour ≡ true }
{
    let h = x.hour;
    let m = h.ndeliveries;
    let keys = sequence::keys(&h.deliveries, m);
    let mwhs = members::list_mwhs(&h.deliveries, m);
    let mut led = [0; 32];
    let mut kept = [0; 1024];
    let mut states = groups::blank_states();
    let Err(r) = groups::take_turns(h, keys, true, &mwhs, &mut led, &mut kept, &mut states) else {
        return Ok(());
    };
    let (Refusal::NoRoom(group) | Refusal::NoHeadroom(group)) = r else {
        return Ok(());
    };
    let short = shortage::short_of(group, &keys, &mwhs, &kept, &states);
    put_head(text, r)?;
    put_short(text, deck, &x.deliveries, &keys, group, short)?;
    put_tail(text, r)
}

fn put_deck(text: &mut Text, deck: &[u8]) -> fmt::Result {
    match deck::scan(deck) {
        Ok(x) => put_hour(text, deck, x),
        Err(r) => put_refused(text, deck, r),
    }
}

// A file that is refused for its record k. No file has a record 0: it is shown as an empty line.
fn put_file(text: &mut Text, file: &[u8], k: usize) -> fmt::Result {
    let r = Refusal::FileRecord(k);
    put_head(text, r)?;
    let (above, record) = match k {
        0 if !file.is_empty() => lines::line_at(b"\n", 1),
        _ => lines::line_at(file, k),
    };
    put_shown(text, "record", record, records::text_of(record))?;
    put_any(text, records::found(above, record))?;
    put_tail(text, r)
}

// A refusal of a number, without its place.
fn refusal_of(number: usize) -> Option<Refusal> {
    match number {
        1 => Some(Refusal::TooLong),
        2 => Some(Refusal::Form(0)),
        3 => Some(Refusal::Range(0)),
        4 => Some(Refusal::Full(0)),
        5 => Some(Refusal::Used(0)),
        6 => Some(Refusal::Levels(0)),
        7 => Some(Refusal::Names(0)),
        8 => Some(Refusal::OtherBasis(0)),
        9 => Some(Refusal::Percents(0)),
        10 => Some(Refusal::Overdrawn),
        11 => Some(Refusal::Unplaced(0)),
        12 => Some(Refusal::NoRoom(InternalSequence(0))),
        13 => Some(Refusal::NoHeadroom(InternalSequence(0))),
        14 => Some(Refusal::Short),
        15 => Some(Refusal::NoDeck),
        16 => Some(Refusal::FileRecord(0)),
        _ => None,
    }
}

fn put_number(text: &mut Text, number: usize) -> fmt::Result {
    let Some(r) = refusal_of(number) else {
        return write!(text, "refused {number}: \nwhat to do: \n");
    };
    put_head(text, r)?;
    put_tail(text, r)
}

// More bytes than the words of any refusal have.
pub const WORDS: usize = 4096;

// The words of a deck's refusal as lines, each with LF, into the lent bytes, and how many bytes they are; 0 for a deck whose hour is reconstructed.
// What does not fit is cut off.
pub fn explain(s: &[u8], out: &mut [u8]) -> usize
    ensures { result ≤ length out.old }
{
    text::put(out, |text| put_deck(text, s))
}

// The words of a spreadsheet file's refusal, 16 at record k, in the same way.
pub fn explain_record(file: &[u8], k: usize, out: &mut [u8]) -> usize
    ensures { result ≤ length out.old }
{
    text::put(out, |text| put_file(text, file, k))
}

// The words of a refusal by its number alone: for a deck that is not at hand. A number that no refusal has gets both lines, without words.
pub fn explain_number(number: usize, out: &mut [u8]) -> usize
    ensures { result ≤ length out.old }
{
    text::put(out, |text| put_number(text, number))
}
