// A deck's lines, each with its LF, and what a line of its form says.
use crate::Part;
use ranges::UnitNumbers;
use read_fields::Place;
use rules::Basis;

pub fn ends_line(b: &u8) -> bool {
    *b == b'\n'
}

// Line k, counted from 1, and the lines above it; no bytes where the deck ends before it.
pub fn line_at(deck: &[u8], k: usize) -> (&[u8], &[u8]) {
    let start = deck
        .split_inclusive(ends_line)
        .take(k.saturating_sub(1))
        .fold(0, |at: usize, line| at.saturating_add(line.len()));
    let (above, rest) = deck.split_at(start.min(deck.len()));
    (above, rest.split_inclusive(ends_line).next().unwrap_or(b""))
}

// The last of the lines above.
pub fn last_of(above: &[u8]) -> Option<&[u8]> {
    above.split_inclusive(ends_line).next_back()
}

// A line without its LF.
pub fn text_of(line: &[u8]) -> &[u8] {
    line.strip_suffix(b"\n").unwrap_or(line)
}

// A line of its form: its numbers and its labels.
#[derive(Clone, Copy)]
pub enum Entry<'a> {
    Head {
        losses: u32,
    },
    Unit {
        numbers: UnitNumbers,
        label: Part<'a>,
    },
    Purchase {
        g: u32,
        rate: u32,
        label: Part<'a>,
    },
    Fixed {
        g: u32,
        label: Part<'a>,
    },
    Delivery {
        sequence: u32,
        kind: u32,
        block: u32,
        mwh: u32,
        label: Part<'a>,
    },
    Direct {
        basis: Basis,
        percent: u32,
        unit: Part<'a>,
        delivery: Part<'a>,
    },
}

// The part at a place.
pub fn part(line: &[u8], place: Place) -> Part<'_> {
    Part(line.get(place.from..place.upto).unwrap_or(b""))
}

fn head(line: &[u8]) -> Option<Entry<'_>> {
    let x = read_lines::head(line, 1)?;
    Some(Entry::Head { losses: x.losses })
}

fn unit(line: &[u8]) -> Option<Entry<'_>> {
    let x = read_lines::unit(line, 1)?;
    Some(Entry::Unit {
        numbers: x.numbers,
        label: part(line, x.label),
    })
}

fn purchase(line: &[u8]) -> Option<Entry<'_>> {
    let x = read_lines::purchase(line, 1)?;
    Some(Entry::Purchase {
        g: x.g,
        rate: x.rate,
        label: part(line, x.label),
    })
}

fn fixed(line: &[u8]) -> Option<Entry<'_>> {
    let x = read_lines::fixed(line, 1)?;
    Some(Entry::Fixed {
        g: x.g,
        label: part(line, x.label),
    })
}

fn delivery(line: &[u8]) -> Option<Entry<'_>> {
    let x = read_lines::delivery(line, 1)?;
    Some(Entry::Delivery {
        sequence: x.sequence,
        kind: x.kind,
        block: x.block,
        mwh: x.mwh,
        label: part(line, x.label),
    })
}

fn direct(line: &[u8]) -> Option<Entry<'_>> {
    let x = read_lines::direct(line, 1)?;
    Some(Entry::Direct {
        basis: x.basis,
        percent: x.percent,
        unit: part(line, x.unit),
        delivery: part(line, x.delivery),
    })
}

// What a line says, where it is of its form.
pub fn entry_of(line: &[u8]) -> Option<Entry<'_>> {
    match line.first()? {
        b'H' => head(line),
        b'U' => unit(line),
        b'P' => purchase(line),
        b'F' => fixed(line),
        b'T' => delivery(line),
        b'D' => direct(line),
        _ => None,
    }
}
