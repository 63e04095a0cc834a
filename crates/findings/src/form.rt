// What was met on a line that is refused with 2. The line is gone through field by field as its letter wants, up to the first byte that does not fit.
// What is said is of that byte, or of the line's letter, and so is never other than it stands.
use crate::{Found, lines};

// What is wrong with a deck or a line as a whole.
#[derive(Clone, Copy)]
pub enum LineFault {
    EmptyDeck,
    NoEnd,
    AfterEnd,
    OrderMark,
    EmptyLine,
    SpaceFirst,
    SmallLetter,
    NoLetter,
    NoHead,
    SecondHead,
    LateDelivery,
    LateSource,
    NoLineEnd,
    BreaksOff,
    FewFields,
    FieldMissing,
    NotOfForm,
}

// What is wrong at one byte of a line or a record.
#[derive(Clone, Copy)]
pub enum ByteFault {
    CarriageReturn,
    Tab,
    Control,
    HighByte,
    Point,
    SpaceDue,
    LeadingZero,
    Sign,
    NumberDue,
    SmallBasis,
    BasisDue,
    LabelDue,
    SecondSpace,
    Unclosed,
    Backslash,
    EmptyLabel,
    LongLabel,
    SpaceLast,
    PastFields,
    PastLabel,
    Semicolon,
}

// A fault at a place of a line, which is counted from 0.
pub fn byte(fault: ByteFault, at: usize) -> Found<'static> {
    Found::Byte(fault, at.saturating_add(1))
}

// Letters.

#[derive(Clone, Copy, PartialEq, Eq)]
pub enum Letter {
    Head,
    Unit,
    Purchase,
    Fixed,
    Delivery,
    Direct,
    End,
}

// Where lines of a letter stand among the others.
#[derive(Clone, Copy, PartialEq, Eq, PartialOrd, Ord)]
enum Turn {
    Head,
    Sources,
    Deliveries,
    Directs,
    End,
}

#[derive(Clone, Copy)]
enum Field {
    Number,
    Basis,
    Label,
}

impl Letter {
    pub fn of(b: u8) -> Option<Letter> {
        match b {
            b'H' => Some(Letter::Head),
            b'U' => Some(Letter::Unit),
            b'P' => Some(Letter::Purchase),
            b'F' => Some(Letter::Fixed),
            b'T' => Some(Letter::Delivery),
            b'D' => Some(Letter::Direct),
            b'E' => Some(Letter::End),
            _ => None,
        }
    }

    fn turn(self) -> Turn {
        match self {
            Letter::Head => Turn::Head,
            Letter::Unit | Letter::Purchase | Letter::Fixed => Turn::Sources,
            Letter::Delivery => Turn::Deliveries,
            Letter::Direct => Turn::Directs,
            Letter::End => Turn::End,
        }
    }

    fn fields(self) -> &'static [Field] {
        match self {
            Letter::Head => &[Field::Number],
            Letter::Unit => &[
                Field::Number,
                Field::Number,
                Field::Number,
                Field::Number,
                Field::Number,
                Field::Number,
                Field::Number,
                Field::Number,
                Field::Number,
                Field::Number,
                Field::Label,
            ],
            Letter::Purchase => &[Field::Number, Field::Number, Field::Label],
            Letter::Fixed => &[Field::Number, Field::Label],
            Letter::Delivery => &[
                Field::Number,
                Field::Number,
                Field::Number,
                Field::Number,
                Field::Label,
            ],
            Letter::Direct => &[Field::Basis, Field::Number, Field::Label, Field::Label],
            Letter::End => &[],
        }
    }
}

// Bytes.

// Bytes that no line has anywhere.
fn strange(b: u8) -> Option<ByteFault> {
    match b {
        b'\n' | b' '..=b'~' => None,
        b'\r' => Some(ByteFault::CarriageReturn),
        b'\t' => Some(ByteFault::Tab),
        0..=31 => Some(ByteFault::Control),
        _ => Some(ByteFault::HighByte),
    }
}

// A byte that does not fit, as it is told where a line can have it; where the deck ends before it, that is told.
fn met(line: &[u8], at: usize, end: LineFault, otherwise: Found<'static>) -> Found<'static> {
    let Some(b) = line.get(at) else {
        return Found::Line(end);
    };
    strange(*b).map_or(otherwise, |fault| byte(fault, at))
}

// Whether a point or comma stands between two digits.
fn splits_number(line: &[u8], at: usize) -> bool {
    match line.get(at.saturating_sub(1)..) {
        Some([a, b'.' | b',', b, ..]) => a.is_ascii_digit() && b.is_ascii_digit(),
        _ => false,
    }
}

// Whether nothing but spaces stands from a place to the line's end; a carriage return may close them.
fn only_spaces(line: &[u8], at: usize) -> bool {
    line.iter()
        .skip(at)
        .all(|b| matches!(*b, b' ' | b'\r' | b'\n'))
}

fn is_after_quote(line: &[u8], at: usize) -> bool {
    line.get(..at).is_some_and(|before| before.ends_with(b"\""))
}

// Fields: the place after each, or what is met instead.

fn space_due(line: &[u8], at: usize) -> Found<'static> {
    if splits_number(line, at) {
        return byte(ByteFault::Point, at);
    }
    if let Some(b'\n') = line.get(at) {
        return Found::Line(LineFault::FewFields);
    }
    byte(ByteFault::SpaceDue, at)
}

// After the space that stands before a field: the field that is due.
fn field_due(line: &[u8], at: usize, due: ByteFault) -> Found<'static> {
    if only_spaces(line, at) {
        return Found::Line(LineFault::FieldMissing);
    }
    if let Some(b' ') = line.get(at) {
        return byte(ByteFault::SecondSpace, at);
    }
    byte(due, at)
}

fn field_met(line: &[u8], at: usize, due: ByteFault) -> Found<'static> {
    met(line, at, LineFault::BreaksOff, field_due(line, at, due))
}

fn number_due(line: &[u8], at: usize) -> ByteFault {
    match line.get(at) {
        Some(b'-' | b'+') => ByteFault::Sign,
        _ => ByteFault::NumberDue,
    }
}

fn basis_due(line: &[u8], at: usize) -> ByteFault {
    match line.get(at) {
        Some(b'l' | b'g') => ByteFault::SmallBasis,
        _ => ByteFault::BasisDue,
    }
}

fn number_end(line: &[u8], at: usize, due: ByteFault) -> Result<usize, Found<'static>> {
    if let Some((_, next)) = read_fields::number(line, at) {
        return Ok(next);
    }
    match line.get(at) {
        Some(b'0'..=b'9') => Err(byte(ByteFault::LeadingZero, at)),
        _ => Err(field_met(line, at, due)),
    }
}

fn basis_end(line: &[u8], at: usize) -> Result<usize, Found<'static>> {
    match line.get(at) {
        Some(b'L' | b'G') => Ok(at + 1),
        _ => number_end(line, at, basis_due(line, at)),
    }
}

// Of a label that is malformed: the first byte in it that is no character, its opening quote where it is never closed, or how long it is.
// It is gone through by places, as an escape has two bytes and a fault is told by its place: an iterator would need a flag beside it.
fn label_fault(line: &[u8], quote: usize) -> Found<'static> {
    let mut at = quote.saturating_add(1);
    let first = at;
    while let Some(b) = line.get(at) {
        match b {
            b'\n' => break,
            b'"' if at == first => return byte(ByteFault::EmptyLabel, quote),
            b'"' => return byte(ByteFault::LongLabel, quote),
            b'\\' => match line.get(at + 1) {
                Some(b'"' | b'\\') => at += 1,
                _ => return byte(ByteFault::Backslash, at),
            },
            _ => {
                if let Some(fault) = strange(*b) {
                    return byte(fault, at);
                }
            }
        }
        at += 1;
    }
    byte(ByteFault::Unclosed, quote)
}

// A label after the space before it.
fn label_end(line: &[u8], space: usize, at: usize) -> Result<usize, Found<'static>> {
    if let Some((_, next)) = read_fields::spaced_label(line, space) {
        return Ok(next);
    }
    match line.get(at) {
        Some(b'"') => Err(label_fault(line, at)),
        _ => Err(field_met(line, at, ByteFault::LabelDue)),
    }
}

// A space, and a field after it.
fn field_end(line: &[u8], space: usize, kind: Field) -> Result<usize, Found<'static>> {
    let Some(b' ') = line.get(space) else {
        let due = space_due(line, space);
        return Err(met(line, space, LineFault::BreaksOff, due));
    };
    let at = space + 1;
    match kind {
        Field::Number => number_end(line, at, number_due(line, at)),
        Field::Basis => basis_end(line, at),
        Field::Label => label_end(line, space, at),
    }
}

fn end_due(line: &[u8], at: usize) -> Found<'static> {
    if only_spaces(line, at) {
        return byte(ByteFault::SpaceLast, at);
    }
    if splits_number(line, at) {
        return byte(ByteFault::Point, at);
    }
    match line.get(at) {
        Some(b' ') => byte(ByteFault::PastFields, at),
        _ if is_after_quote(line, at) => byte(ByteFault::PastLabel, at),
        _ => byte(ByteFault::PastFields, at),
    }
}

// The fields of a line, from its letter on, and its LF.
fn fields_fit(line: &[u8], letter: Letter) -> Result<(), Found<'static>> {
    let mut at = 1;
    for kind in letter.fields() {
        at = field_end(line, at, *kind)?;
    }
    match line.get(at) {
        Some(b'\n') => Ok(()),
        _ => Err(met(line, at, LineFault::NoLineEnd, end_due(line, at))),
    }
}

// The line's letter.

pub fn has_order_mark(line: &[u8]) -> bool {
    line.starts_with(b"\xef\xbb\xbf")
}

// Of a line that begins with none of the letters.
fn no_letter(b: u8) -> Found<'static> {
    match b {
        b'\n' => Found::Line(LineFault::EmptyLine),
        b' ' => Found::Line(LineFault::SpaceFirst),
        b'h' | b'u' | b'p' | b'f' | b't' | b'd' | b'e' => Found::Line(LineFault::SmallLetter),
        _ => strange(b).map_or(Found::Line(LineFault::NoLetter), |fault| byte(fault, 0)),
    }
}

// Of a line whose letter has no turn after the letter of the line above.
fn out_of_order(letter: Letter, above: Option<Letter>) -> Option<LineFault> {
    match above {
        None if letter == Letter::Head => None,
        None => Some(LineFault::NoHead),
        Some(_) if letter == Letter::Head => Some(LineFault::SecondHead),
        Some(other) if other.turn() <= letter.turn() => None,
        Some(_) if letter == Letter::Delivery => Some(LineFault::LateDelivery),
        Some(_) => Some(LineFault::LateSource),
    }
}

fn letter_above(above: &[u8]) -> Option<Letter> {
    Letter::of(*lines::last_of(above)?.first()?)
}

// The letter of a line, where it has its turn.
fn letter_of(above: &[u8], line: &[u8]) -> Result<Letter, Found<'static>> {
    let Some(first) = line.first() else {
        return Err(Found::Line(match above {
            [] => LineFault::EmptyDeck,
            _ => LineFault::NoEnd,
        }));
    };
    let before = letter_above(above);
    if before == Some(Letter::End) {
        return Err(Found::Line(LineFault::AfterEnd));
    }
    if above.is_empty() && has_order_mark(line) {
        return Err(Found::Line(LineFault::OrderMark));
    }
    let letter = Letter::of(*first).ok_or(no_letter(*first))?;
    match out_of_order(letter, before) {
        Some(fault) => Err(Found::Line(fault)),
        None => Ok(letter),
    }
}

fn fitted(above: &[u8], line: &[u8]) -> Result<(), Found<'static>> {
    fields_fit(line, letter_of(above, line)?)
}

// What was met on a line below the lines above it.
pub fn found(above: &[u8], line: &[u8]) -> Found<'static> {
    match fitted(above, line) {
        Ok(()) => Found::Line(LineFault::NotOfForm),
        Err(x) => x,
    }
}
