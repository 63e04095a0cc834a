// Which number of a line is outside its range (3).
use crate::lines::Entry;
use rules::{Basis, HeatCurve};
use std::ops::RangeInclusive;

// What a line's number tells. `G` is what a purchase or a fixed source generates.
#[derive(Clone, Copy)]
pub enum Quantity {
    Losses,
    Generation,
    High,
    NormalLow,
    OilPointLow,
    EmergencyLow,
    Start,
    A,
    B,
    C,
    R,
    G,
    Rate,
    Sequence,
    Type,
    Block,
    Mwh,
    Basis,
    Percent,
}

impl Quantity {
    pub fn range(self) -> RangeInclusive<u32> {
        match self {
            Quantity::Losses => 0..=ranges::MOST_LOSSES,
            Quantity::Generation
            | Quantity::High
            | Quantity::NormalLow
            | Quantity::OilPointLow
            | Quantity::EmergencyLow => ranges::LEAST_LEVEL..=ranges::MOST_LEVEL,
            Quantity::Start => HeatCurve::LEAST_START..=HeatCurve::MOST_START,
            Quantity::A => 0..=HeatCurve::MOST_A,
            Quantity::B => 0..=HeatCurve::MOST_B,
            Quantity::C => 0..=HeatCurve::MOST_C,
            Quantity::R => 0..=HeatCurve::MOST_RATE,
            Quantity::G | Quantity::Mwh => 0..=ranges::MOST_ENERGY,
            Quantity::Rate => 0..=ranges::MOST_PURCHASE_RATE,
            Quantity::Sequence => 0..=ranges::MOST_SEQUENCE,
            Quantity::Type => ranges::LEAST_TYPE..=ranges::MOST_TYPE,
            Quantity::Block => ranges::LEAST_BLOCK..=ranges::MOST_BLOCK,
            Quantity::Basis => ranges::LEAST_BASIS..=ranges::MOST_BASIS,
            Quantity::Percent => ranges::LEAST_PERCENT..=ranges::MOST_PERCENT,
        }
    }
}

fn first_outside(numbers: &[(Quantity, u32)]) -> Option<Quantity> {
    let (quantity, _) = numbers.iter().find(|(what, x)| !what.range().contains(x))?;
    Some(*quantity)
}

fn of_direct(basis: Basis, percent: u32) -> Option<Quantity> {
    match basis {
        Basis::Mwh(v) => first_outside(&[(Quantity::Basis, v), (Quantity::Percent, percent)]),
        Basis::Low | Basis::Generation => first_outside(&[(Quantity::Percent, percent)]),
    }
}

// The first number of a line that is outside its range.
pub fn found(e: Entry) -> Option<Quantity> {
    match e {
        Entry::Head { losses } => first_outside(&[(Quantity::Losses, losses)]),
        Entry::Unit { numbers: x, .. } => first_outside(&[
            (Quantity::Generation, x.g),
            (Quantity::High, x.h),
            (Quantity::NormalLow, x.n),
            (Quantity::OilPointLow, x.o),
            (Quantity::EmergencyLow, x.e),
            (Quantity::Start, x.k),
            (Quantity::A, x.a),
            (Quantity::B, x.b),
            (Quantity::C, x.c),
            (Quantity::R, x.r),
        ]),
        Entry::Purchase { g, rate, .. } => {
            first_outside(&[(Quantity::G, g), (Quantity::Rate, rate)])
        }
        Entry::Fixed { g, .. } => first_outside(&[(Quantity::G, g)]),
        Entry::Delivery {
            sequence,
            kind,
            block,
            mwh,
            ..
        } => first_outside(&[
            (Quantity::Sequence, sequence),
            (Quantity::Type, kind),
            (Quantity::Block, block),
            (Quantity::Mwh, mwh),
        ]),
        Entry::Direct { basis, percent, .. } => of_direct(basis, percent),
    }
}
