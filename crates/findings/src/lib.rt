// What is found in a refused deck or file, to be put in words, and the parts of the deck that the words name.
// No contract says what is found: that is tested (tests/words). Internal: words calls it.
#![tactic(auto)]

pub mod entries;
pub mod form;
pub mod lines;
pub mod outside;
pub mod records;
pub mod shortage;

use entries::Class;
use form::{ByteFault, LineFault};
use outside::Quantity;
use records::RecordFault;
use rules::Basis;
use std::fmt;
use std::fmt::Write;

// A part of a deck or file. It is shown byte by byte, one that no line has as a question mark.
#[derive(Clone, Copy, PartialEq, Eq)]
pub struct Part<'a>(pub &'a [u8]);

fn shown(b: u8) -> char {
    if read_fields::is_character(b) {
        char::from(b)
    } else {
        '?'
    }
}

impl fmt::Display for Part<'_> {
    fn fmt<W: fmt::Write>(&self, f: &mut fmt::Formatter<W>) -> fmt::Result {
        for b in self.0 {
            f.write_char(shown(*b))?;
        }
        Ok(())
    }
}

// A level that a unit's line names.
#[derive(Clone, Copy)]
pub enum Level {
    Start,
    EmergencyLow,
    OilPointLow,
    NormalLow,
    Generation,
    High,
}

// A label that no line above has, and the first line whose label looks like it, with that label.
#[derive(Clone, Copy)]
pub struct Missing<'a> {
    pub label: Part<'a>,
    pub like: Option<(usize, Part<'a>)>,
}

// What is found. Lines, and bytes of a line, are counted from 1.
#[derive(Clone, Copy)]
pub enum Found<'a> {
    Line(LineFault),
    Byte(ByteFault, usize),
    Outside(Quantity),
    Full(Class),
    Used {
        label: Part<'a>,
        line: usize,
    },
    Above {
        lower: (Level, u32),
        upper: (Level, u32),
    },
    NoUnit(Missing<'a>),
    OtherSource {
        label: Part<'a>,
        line: usize,
    },
    NoDelivery(Missing<'a>),
    OtherBasis {
        unit: Part<'a>,
        line: usize,
        first: Basis,
        basis: Basis,
    },
    HighBasis {
        unit: Part<'a>,
        basis: Basis,
        high: u32,
    },
    Percents {
        unit: Part<'a>,
        sum: u64,
    },
    Sums {
        losses: u64,
        delivered: u64,
        over: u64,
        generated: u64,
    },
    Unplaced,
    Short(u64),
    Record(RecordFault),
}
