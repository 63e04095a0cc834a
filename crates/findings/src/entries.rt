// What is wrong with a line of its form whose numbers are in their ranges (4 to 9), told from the lines above it; and the sums of 10.
use crate::lines::{Entry, ends_line, entry_of};
use crate::{Found, Level, Missing, Part};
use rules::{Basis, Refusal};

// Lines whose labels are told apart: the units are among the sources.
#[derive(Clone, Copy)]
pub enum Class {
    Sources,
    Units,
    Deliveries,
    Directs,
}

impl Class {
    fn of(e: Entry) -> Class {
        match e {
            Entry::Delivery { .. } => Class::Deliveries,
            Entry::Direct { .. } => Class::Directs,
            _ => Class::Sources,
        }
    }

    // The label of a line of this class; a D line has its unit's.
    fn label_of<'a>(self, e: Entry<'a>) -> Option<Part<'a>> {
        match (self, e) {
            (Class::Sources | Class::Units, Entry::Unit { label, .. })
            | (Class::Sources, Entry::Purchase { label, .. } | Entry::Fixed { label, .. })
            | (Class::Deliveries, Entry::Delivery { label, .. })
            | (Class::Directs, Entry::Direct { unit: label, .. }) => Some(label),
            _ => None,
        }
    }
}

// The first line of a class above whose label is so, by its number.
fn first_above<'a, F: Fn(Part<'a>) -> bool>(
    above: &'a [u8],
    class: Class,
    is_so: F,
) -> Option<(usize, Entry<'a>)>
    requires { F.IsAlwaysCallable is_so }
{
    (1..)
        .zip(above.split_inclusive(ends_line))
        .filter_map(|(n, line)| Some((n, entry_of(line)?)))
        .find(|(_, e)| class.label_of(*e).is_some_and(|label| is_so(label)))
}

fn named<'a>(above: &'a [u8], class: Class, label: Part<'a>) -> Option<(usize, Entry<'a>)> {
    first_above(above, class, |its| its == label)
}

fn is_no_space(b: &&u8) -> bool {
    **b != b' '
}

// Whether two labels differ in nothing but spaces and small letters.
fn is_alike(a: Part, b: Part) -> bool {
    let a = a.0.iter().filter(is_no_space).map(u8::to_ascii_uppercase);
    let b = b.0.iter().filter(is_no_space).map(u8::to_ascii_uppercase);
    a.eq(b)
}

// What the lines have of an amount.
fn total<'a, F: Fn(Entry<'a>) -> u32>(lines: &'a [u8], amount: F) -> u64
    requires { F.IsAlwaysCallable amount }
{
    lines
        .split_inclusive(ends_line)
        .filter_map(entry_of)
        .map(|e| u64::from(amount(e)))
        .fold(0, u64::saturating_add)
}

// 5.
fn used<'a>(above: &'a [u8], e: Entry<'a>) -> Option<Found<'a>> {
    let class = Class::of(e);
    let label = class.label_of(e)?;
    let (line, _) = named(above, class, label)?;
    Some(Found::Used { label, line })
}

// 6.
fn levels(e: Entry) -> Option<Found<'static>> {
    let Entry::Unit { numbers: x, .. } = e else {
        return None;
    };
    let rising = [
        (Level::Start, x.k),
        (Level::EmergencyLow, x.e),
        (Level::OilPointLow, x.o),
        (Level::NormalLow, x.n),
        (Level::Generation, x.g),
        (Level::High, x.h),
    ];
    let [lower, upper] = rising
        .array_windows::<2>()
        .find(|[lower, upper]| upper.1 < lower.1)?;
    Some(Found::Above {
        lower: *lower,
        upper: *upper,
    })
}

// 7: the unit or the delivery that a D line names; nothing where it is there.

// The first line whose label looks like one, and that label.
fn like<'a>(above: &'a [u8], class: Class, label: Part<'a>) -> Option<(usize, Part<'a>)> {
    let (line, e) = first_above(above, class, |its| is_alike(its, label))?;
    Some((line, class.label_of(e)?))
}

fn missing<'a>(above: &'a [u8], class: Class, label: Part<'a>) -> Missing<'a> {
    Missing {
        label,
        like: like(above, class, label),
    }
}

fn no_unit<'a>(above: &'a [u8], label: Part<'a>) -> Option<Found<'a>> {
    if named(above, Class::Units, label).is_some() {
        return None;
    }
    Some(match named(above, Class::Sources, label) {
        Some((line, _)) => Found::OtherSource { label, line },
        None => Found::NoUnit(missing(above, Class::Units, label)),
    })
}

pub fn no_delivery<'a>(above: &'a [u8], line: &'a [u8]) -> Option<Found<'a>> {
    let Entry::Direct { delivery, .. } = entry_of(line)? else {
        return None;
    };
    if named(above, Class::Deliveries, delivery).is_some() {
        return None;
    }
    Some(Found::NoDelivery(missing(above, Class::Deliveries, delivery)))
}

// 8.

fn high_basis<'a>(above: &'a [u8], unit: Part<'a>, basis: Basis) -> Option<Found<'a>> {
    let (_, Entry::Unit { numbers, .. }) = named(above, Class::Units, unit)? else {
        return None;
    };
    Some(Found::HighBasis {
        unit,
        basis,
        high: numbers.h,
    })
}

fn bases<'a>(above: &'a [u8], unit: Part<'a>, basis: Basis) -> Option<Found<'a>> {
    match named(above, Class::Directs, unit) {
        Some((line, Entry::Direct { basis: first, .. })) if first != basis => {
            Some(Found::OtherBasis {
                unit,
                line,
                first,
                basis,
            })
        }
        _ => high_basis(above, unit, basis),
    }
}

// 9.
fn percents<'a>(above: &'a [u8], unit: Part<'a>, percent: u32) -> Found<'a> {
    let before = total(above, |e| match e {
        Entry::Direct {
            unit: its,
            percent,
            ..
        } if its == unit => percent,
        _ => 0,
    });
    Found::Percents {
        unit,
        sum: before.saturating_add(u64::from(percent)),
    }
}

// 10.
pub fn sums(deck: &[u8]) -> Found<'static> {
    let losses = total(deck, |e| match e {
        Entry::Head { losses } => losses,
        _ => 0,
    });
    let delivered = total(deck, |e| match e {
        Entry::Delivery { mwh, .. } => mwh,
        _ => 0,
    });
    let generated = total(deck, |e| match e {
        Entry::Unit { numbers, .. } => numbers.g,
        Entry::Purchase { g, .. } | Entry::Fixed { g, .. } => g,
        _ => 0,
    });
    Found::Sums {
        losses,
        delivered,
        over: losses.saturating_add(delivered).saturating_sub(generated),
        generated,
    }
}

// Of a D line.
fn direct_found<'a>(above: &'a [u8], e: Entry<'a>, r: Refusal) -> Option<Found<'a>> {
    let Entry::Direct {
        basis,
        percent,
        unit,
        ..
    } = e
    else {
        return None;
    };
    match r {
        Refusal::Names(_) => no_unit(above, unit),
        Refusal::OtherBasis(_) => bases(above, unit, basis),
        Refusal::Percents(_) => Some(percents(above, unit, percent)),
        _ => None,
    }
}

// Of a line below the lines above it, by its refusal.
pub fn found<'a>(above: &'a [u8], e: Entry<'a>, r: Refusal) -> Option<Found<'a>> {
    match r {
        Refusal::Full(_) => Some(Found::Full(Class::of(e))),
        Refusal::Used(_) => used(above, e),
        Refusal::Levels(_) => levels(e),
        _ => direct_found(above, e, r),
    }
}
