// Whether the numbers of a line are in document 01's ranges (3); a unit is made of its line's numbers only where they are.
// Contracts cite rules' Ranges and Lines, and Inside: a line's ranges as a test of its entry's numbers. Internal: the deck's crates call it.
#![tactic(auto)]

ghost use Rattle.std.specs.Prelude.{◌≡◌};
ghost use Rattle.rules.specs.Ranges.{inside, ◌to◌, unit_level, basis_mwh};
ghost use Rattle.rules.specs.Lines.{basis_inside};
ghost use Rattle.rules.specs.declared.Plant.TheVariants.{Unit as U, Purchase as P, Fixed as F};
ghost use Rattle.ranges.specs.Inside.{levels_inside, plant_inside, judged, delivery_inside, direct_inside, losses_inside};

use rules::{Basis, HeatCurve, Plant, Unit};

pub const MOST_LOSSES: u32 = 64_000;

pub const LEAST_LEVEL: u32 = 1;

pub const MOST_LEVEL: u32 = 2000;

pub const MOST_ENERGY: u32 = 2000;

pub const MOST_PURCHASE_RATE: u32 = 999_999;

pub const MOST_SEQUENCE: u32 = 99;

pub const LEAST_TYPE: u32 = 1;

pub const MOST_TYPE: u32 = 9;

pub const LEAST_BLOCK: u32 = 1;

pub const MOST_BLOCK: u32 = 9;

pub const LEAST_BASIS: u32 = 1;

pub const MOST_BASIS: u32 = 1999;

pub const LEAST_PERCENT: u32 = 1;

pub const MOST_PERCENT: u32 = 100;

// The ten numbers of a unit's line, as they were read.
#[derive(Clone, Copy)]
pub struct UnitNumbers {
    pub g: u32,
    pub h: u32,
    pub n: u32,
    pub o: u32,
    pub e: u32,
    pub k: u32,
    pub a: u32,
    pub b: u32,
    pub c: u32,
    pub r: u32,
}

fn within(least: u32, most: u32, x: u32) -> bool
    ensures { result ≡ inside (least to most) x }
{
    least <= x && x <= most
}

fn up_to(most: u32, x: u32) -> bool
    ensures { result ≡ inside (0 to most) x }
{
    x <= most
}

fn is_level(x: u32) -> bool
    ensures { result ≡ inside unit_level x }
{
    within(LEAST_LEVEL, MOST_LEVEL, x)
}

fn levels_in_range(g: u32, h: u32, n: u32, o: u32, e: u32) -> bool
    ensures { result ≡ levels_inside g h n o e }
{
    is_level(g) && is_level(h) && is_level(n) && is_level(o) && is_level(e)
}

// A unit only of numbers that are in their ranges: the levels here, the curve's by the curve.
#[tactic(auto, unfolding(rules::specs::Lines::ranged, crate::specs::Inside::plant_inside))]
pub fn judge_unit(x: UnitNumbers) -> Option<Unit>
    ensures { result ≡ judged x }
{
    if !levels_in_range(x.g, x.h, x.n, x.o, x.e) {
        return None;
    }
    let curve = HeatCurve::new(x.k, x.a, x.b, x.c, x.r).ok()?;
    Some(Unit {
        g: x.g,
        h: x.h,
        n: x.n,
        o: x.o,
        e: x.e,
        curve,
    })
}

#[tactic(auto, unfolding(rules::specs::Lines::ranged, crate::specs::Inside::plant_inside))]
fn unit_in_range(u: Unit) -> bool
    ensures { result ≡ plant_inside (U u) }
{
    levels_in_range(u.g, u.h, u.n, u.o, u.e) && u.curve.is_inside()
}

#[tactic(auto, unfolding(rules::specs::Lines::ranged, crate::specs::Inside::plant_inside))]
fn purchase_in_range(g: u32, rate: u32) -> bool
    ensures { result ≡ plant_inside (P g rate) }
{
    up_to(MOST_ENERGY, g) && up_to(MOST_PURCHASE_RATE, rate)
}

#[tactic(auto, unfolding(rules::specs::Lines::ranged, crate::specs::Inside::plant_inside))]
fn fixed_in_range(g: u32) -> bool
    ensures { result ≡ plant_inside (F g) }
{
    up_to(MOST_ENERGY, g)
}

// The same of a plant at hand.
pub fn plant_in_range(p: Plant) -> bool
    ensures { result ≡ plant_inside p }
{
    match p {
        Plant::Unit(u) => unit_in_range(u),
        Plant::Purchase { g, rate } => purchase_in_range(g, rate),
        Plant::Fixed { g } => fixed_in_range(g),
    }
}

#[tactic(auto, unfolding(rules::specs::Lines::ranged, crate::specs::Inside::delivery_inside))]
pub fn delivery_in_range(sequence: u32, kind: u32, block: u32, mwh: u32) -> bool
    ensures { result ≡ delivery_inside sequence kind block mwh }
{
    up_to(MOST_SEQUENCE, sequence)
        && within(LEAST_TYPE, MOST_TYPE, kind)
        && within(LEAST_BLOCK, MOST_BLOCK, block)
        && up_to(MOST_ENERGY, mwh)
}

fn basis_in_range(b: Basis) -> bool
    ensures { result ≡ basis_inside basis_mwh b }
{
    match b {
        Basis::Low | Basis::Generation => true,
        Basis::Mwh(v) => within(LEAST_BASIS, MOST_BASIS, v),
    }
}

#[tactic(auto, unfolding(rules::specs::Lines::ranged, crate::specs::Inside::direct_inside))]
pub fn direct_in_range(b: Basis, percent: u32) -> bool
    ensures { result ≡ direct_inside b percent }
{
    basis_in_range(b) && within(LEAST_PERCENT, MOST_PERCENT, percent)
}

#[tactic(auto, unfolding(rules::specs::Lines::ranged, crate::specs::Inside::losses_inside))]
pub fn losses_in_range(losses: u32) -> bool
    ensures { result ≡ losses_inside losses }
{
    up_to(MOST_LOSSES, losses)
}
