// All words of refusals. README.md, man/report.1 and the header say the same of what is wrong and what to do, and tests/refusals holds them to these.
use crate::text::Text;
use findings::entries::Class;
use findings::form::{ByteFault, Letter, LineFault};
use findings::outside::Quantity;
use findings::records::RecordFault;
use findings::{Found, Level, Missing};
use rules::{Basis, Refusal};
use std::fmt;
use std::fmt::Write;

// What is wrong.
pub fn when(r: Refusal) -> &'static str {
    match r {
        Refusal::TooLong => "the deck has more than 8,192 bytes",
        Refusal::Form(_) => "a line is not of its form or out of order, or LF or E is missing",
        Refusal::Range(_) => "a number is outside its range",
        Refusal::Full(_) => "the thirty-third source, delivery or D line",
        Refusal::Used(_) => "a label is already used in its class",
        Refusal::Levels(_) =>
            "a unit's levels are not start <= emergency <= oil <= normal low <= generation <= high",
        Refusal::Names(_) => "a D line names no unit, or no delivery",
        Refusal::OtherBasis(_) =>
            "a D line has another basis than the unit's earlier ones, or a number not below its high",
        Refusal::Percents(_) => "a unit's percents pass 100",
        Refusal::Overdrawn => "losses and deliveries are above generation",
        Refusal::Unplaced(_) => "sequence 0, and no delivery to place it by",
        Refusal::NoRoom(_) => "the sources have too little room for a group",
        Refusal::NoHeadroom(_) => "too little headroom for a group's credit",
        Refusal::Short => "the lent buffer is too short (calls only)",
        Refusal::NoDeck => "the hour record is one that no deck gives (calls only)",
        Refusal::FileRecord(_) =>
            "a record of a spreadsheet file is not of its form, missing or out of order",
    }
}

// What to do.
pub fn advice(r: Refusal) -> &'static str {
    match r {
        Refusal::TooLong => "see that one deck and not several was sent",
        Refusal::Form(_) =>
            "look at that line: a second space, a leading zero, a quote or backslash without \\; where the last line is named plus one, the deck is cut off",
        Refusal::Range(_) => "correct the number",
        Refusal::Full(_) => "nothing: such an hour is not for this package; do not split its deck",
        Refusal::Used(_) => "give the source or delivery its own label",
        Refusal::Levels(_) => "check the unit's data; a unit below its normal low is not a U line",
        Refusal::Names(_) => "compare the labels, spaces too",
        Refusal::OtherBasis(_) => "use one basis for a unit, a number below its high",
        Refusal::Percents(_) => "correct the percents",
        Refusal::Overdrawn => "a source is missing, or a delivery too many",
        Refusal::Unplaced(_) => "give one delivery a number",
        Refusal::NoRoom(_) =>
            "the group's deliveries are more than can be unloaded; check them and the D lines",
        Refusal::NoHeadroom(_) => "the group's D lines take more than it is due; check them",
        Refusal::Short =>
            "lend 4,160 cells, 131,072 bytes for a report, 147,456 for a spreadsheet file, or 64 numbers for labels",
        Refusal::NoDeck => "make records by reading decks",
        Refusal::FileRecord(_) =>
            "have the file written anew from its deck; one that a spreadsheet program opened and saved is no longer as it was written",
    }
}

// What the place of a refusal is.
pub fn place(r: Refusal) -> &'static str {
    match r {
        Refusal::NoRoom(_) | Refusal::NoHeadroom(_) => "group",
        Refusal::FileRecord(_) => "record",
        _ => "line",
    }
}

// The form of a line.
pub fn form(letter: Letter) -> &'static str {
    match letter {
        Letter::Head => "H losses",
        Letter::Unit => "U g h n o e k A B C R \"label\"",
        Letter::Purchase => "P g rate \"label\"",
        Letter::Fixed => "F g \"label\"",
        Letter::Delivery => "T sequence type block MWh \"label\"",
        Letter::Direct => "D basis percent \"unit\" \"delivery\"",
        Letter::End => "E",
    }
}

// What was found.

fn line_fault(x: LineFault) -> &'static str {
    match x {
        LineFault::EmptyDeck => "the deck is empty",
        LineFault::NoEnd => "the deck ends before its E line: it is cut off",
        LineFault::AfterEnd => "something stands after the E line, be it an empty line",
        LineFault::OrderMark =>
            "the deck begins with a byte order mark (bytes EF BB BF): save it without one",
        LineFault::EmptyLine => "the line is empty",
        LineFault::SpaceFirst => "the line begins with a space",
        LineFault::SmallLetter =>
            "the line's letter is a small one: it is written H, U, P, F, T, D or E",
        LineFault::NoLetter => "no line begins so: its letter is H, U, P, F, T, D or E",
        LineFault::NoHead => "the first line is not the H line",
        LineFault::SecondHead => "a second H line stands there: a deck has one hour",
        LineFault::LateDelivery =>
            "a T line stands after a D line: all T lines come before the first D line",
        LineFault::LateSource =>
            "a source stands after a T or D line: all sources come before the first T line",
        LineFault::NoLineEnd => "the last line does not end in LF",
        LineFault::BreaksOff => "the deck breaks off within this line",
        LineFault::FewFields => "the line ends before all its fields",
        LineFault::FieldMissing => "a space stands at the line's end, and a field is missing",
        LineFault::NotOfForm => "the line is not of its form",
    }
}

fn put_byte_fault(text: &mut Text, x: ByteFault, n: usize) -> fmt::Result {
    match x {
        ByteFault::CarriageReturn => write!(
            text,
            "byte {n} is a carriage return (a Windows line end): lines end in LF alone"
        ),
        ByteFault::Tab => write!(text, "byte {n} is a tab"),
        ByteFault::Control => write!(text, "byte {n} is a control byte"),
        ByteFault::HighByte => write!(
            text,
            "byte {n} is an accented letter or another byte above 126"
        ),
        ByteFault::Point => write!(
            text,
            "byte {n} is a decimal point or a comma: numbers are whole, in digits alone"
        ),
        ByteFault::SpaceDue => write!(text, "a space is due at byte {n}"),
        ByteFault::LeadingZero => write!(text, "a leading zero stands at byte {n}"),
        ByteFault::Sign => write!(text, "byte {n} is a sign: numbers have none"),
        ByteFault::NumberDue => write!(text, "a number is due at byte {n}"),
        ByteFault::SmallBasis => write!(text, "byte {n} is a small letter: the basis is L or G"),
        ByteFault::BasisDue => write!(text, "a basis, L, G or a number, is due at byte {n}"),
        ByteFault::LabelDue => write!(text, "a label between double quotes is due at byte {n}"),
        ByteFault::SecondSpace => write!(
            text,
            "byte {n} is a second space: fields are one space apart"
        ),
        ByteFault::Unclosed => write!(text, "nothing closes the quote at byte {n}"),
        ByteFault::Backslash => write!(
            text,
            "byte {n} is a backslash: in a label only \\\" and \\\\ may have one"
        ),
        ByteFault::EmptyLabel => write!(text, "a label without characters stands at byte {n}"),
        ByteFault::LongLabel => write!(
            text,
            "a label of more than 16 characters stands at byte {n}"
        ),
        ByteFault::SpaceLast => write!(text, "byte {n} is a space at the line's end"),
        ByteFault::PastFields => write!(text, "byte {n} stands after the line's last field"),
        ByteFault::PastLabel => write!(
            text,
            "byte {n} stands after the line's last field (a quote within a label is written \\\")"
        ),
        ByteFault::Semicolon => write!(
            text,
            "byte {n} is a semicolon: fields stand between commas"
        ),
    }
}

fn quantity(x: Quantity) -> &'static str {
    match x {
        Quantity::Losses => "the losses are",
        Quantity::Generation => "g, the generation, is",
        Quantity::High => "h, the high, is",
        Quantity::NormalLow => "n, the normal low, is",
        Quantity::OilPointLow => "o, the oil point low, is",
        Quantity::EmergencyLow => "e, the emergency low, is",
        Quantity::Start => "k, the curve's start, is",
        Quantity::A => "A is",
        Quantity::B => "B is",
        Quantity::C => "C is",
        Quantity::R => "R is",
        Quantity::G => "g is",
        Quantity::Rate => "the rate is",
        Quantity::Sequence => "the sequence is",
        Quantity::Type => "the type is",
        Quantity::Block => "the block is",
        Quantity::Mwh => "the MWh are",
        Quantity::Basis => "the basis is",
        Quantity::Percent => "the percent is",
    }
}

fn put_outside(text: &mut Text, x: Quantity) -> fmt::Result {
    let range = x.range();
    write!(
        text,
        "{} not within {} to {}",
        quantity(x),
        range.start(),
        range.end()
    )
}

fn class(x: Class) -> &'static str {
    match x {
        Class::Sources | Class::Units => "sources",
        Class::Deliveries => "deliveries",
        Class::Directs => "D lines",
    }
}

fn level(x: Level) -> &'static str {
    match x {
        Level::Start => "start",
        Level::EmergencyLow => "emergency low",
        Level::OilPointLow => "oil point low",
        Level::NormalLow => "normal low",
        Level::Generation => "generation",
        Level::High => "high",
    }
}

fn put_missing(text: &mut Text, letter: char, x: Missing) -> fmt::Result {
    write!(text, "no {letter} line has the label \"{}\"", x.label)?;
    let Some((line, other)) = x.like else {
        return Ok(());
    };
    write!(
        text,
        "; line {line} has \"{other}\", another label: spaces and small letters count"
    )
}

// A basis as it is written in a deck.
#[derive(Clone, Copy)]
struct Written(Basis);

impl fmt::Display for Written {
    fn fmt<W: fmt::Write>(&self, f: &mut fmt::Formatter<W>) -> fmt::Result {
        match self.0 {
            Basis::Low => f.write_str("L"),
            Basis::Generation => f.write_str("G"),
            Basis::Mwh(v) => write!(f, "{v}"),
        }
    }
}

fn record_fault(x: RecordFault) -> &'static str {
    match x {
        RecordFault::EmptyFile => "the file is empty",
        RecordFault::FileMark => "the file begins with a byte order mark (bytes EF BB BF)",
        RecordFault::NoEndRecord => "the file ends before its end record: it is cut off",
        RecordFault::AfterEndRecord => "something stands after the end record, be it an empty line",
        RecordFault::CutRecord =>
            "the file ends within this record: it is cut off, or its last CR LF is missing",
        RecordFault::LfAlone => "the record ends in LF alone: records end in CR LF",
        RecordFault::NoHeader =>
            "the first record is not the header, kind,delivery,number,source,n1,n2,n3,n4",
    }
}

pub fn put_found(text: &mut Text, x: Found) -> fmt::Result {
    match x {
        Found::Line(fault) => text.write_str(line_fault(fault)),
        Found::Byte(fault, n) => put_byte_fault(text, fault, n),
        Found::Outside(x) => put_outside(text, x),
        Found::Full(x) => write!(text, "32 {} stand above it", class(x)),
        Found::Used { label, line } => write!(
            text,
            "line {line} has the label \"{label}\" already"
        ),
        Found::Above { lower, upper } => write!(
            text,
            "the {} {} is above the {} {}",
            level(lower.0),
            lower.1,
            level(upper.0),
            upper.1
        ),
        Found::NoUnit(x) => put_missing(text, 'U', x),
        Found::OtherSource { label, line } => write!(
            text,
            "no U line has the label \"{label}\"; line {line} has it, and is no unit"
        ),
        Found::NoDelivery(x) => put_missing(text, 'T', x),
        Found::OtherBasis {
            unit,
            line,
            first,
            basis,
        } => write!(
            text,
            "unit \"{unit}\": line {line} has the basis {} for it, this line {}",
            Written(first),
            Written(basis)
        ),
        Found::HighBasis { unit, basis, high } => write!(
            text,
            "unit \"{unit}\": the basis {} is not below its high {high}",
            Written(basis)
        ),
        Found::Percents { unit, sum } => write!(
            text,
            "with this line the percents of unit \"{unit}\" come to {sum}"
        ),
        Found::Sums {
            losses,
            delivered,
            over,
            generated,
        } => write!(
            text,
            "losses {losses} and deliveries {delivered} are {over} MWh above generation {generated}"
        ),
        Found::Unplaced => text.write_str("no T line has a sequence of 1 to 99"),
        Found::Short(mwh) => write!(text, "{mwh} MWh short for the deliveries"),
        Found::Record(fault) => text.write_str(record_fault(fault)),
    }
}
