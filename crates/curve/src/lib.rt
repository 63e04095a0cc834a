// Costs in grains, lows, room and headroom of a source, and its open energy lowered or raised.
// The contracts cite rules' Units and Group, merit's NumbersStaySmall for what fits, and specs/ for the enums.
#![tactic(auto)]

ghost use Rattle.std.specs.Prelude.{◌≡◌, ◌+◌, ◌-◌, ◌*◌, ◌/◌, ◌≤◌, ◌<◌, max};
ghost use Rattle.rules.specs.Answers.{answer_of};
ghost use Rattle.rules.specs.Units.{heat, curve_cost, cost, movable, normal_low, cost_asked};
ghost use Rattle.rules.specs.Group.{level, changed, dearer_average, open_cost, room, headroom, with_open, lowered as loweredBy, raised as raisedBy};
ghost use Rattle.merit.specs.NumbersStaySmall.{CurveSmall, PlantSmall, Small};
ghost use Rattle.curve.specs.Rungs.{rung_of, low_at};

use rules::{HeatCurve, Plant, Refusal, Running};

// The ladder's rungs.
#[derive(Clone, Copy)]
pub enum Rung {
    Normal,
    Oil,
    Emergency,
    Last,
}

// The highest level that a cost may be asked at.
pub const MOST_LEVEL: u32 = 2000;

// x less y, or 0 where x is below it.
fn less(x: u32, y: u32) -> u32
    ensures { result ≡ x - y }
{
    if x < y {
        return 0;
    }
    x - y
}

fn greater(x: u32, y: u32) -> u32
    ensures { result ≡ max x y }
{
    if x < y {
        return y;
    }
    x
}

// x·m/y rounded down, 0 for y = 0. The product is at most 10^14·4,000.
fn part(x: u64, m: u32, y: u32) -> u64
    requires { (x ≤ 100_000_000_000_000) × (m ≤ 4000) }
    ensures { result ≡ x * m / y }
{
    if y == 0 {
        return 0;
    }
    x * m as u64 / y as u64
}

// The cost from a curve's start up. The sum is at most 2,385,991,998, the product 10^14.
fn heat_of(a: u32, b: u32, c: u32, r: u32, m: u32) -> u64
    requires { CurveSmall (record { k = 0; a = a; b = b; c = c; r = r }) × (m ≤ 4000) }
    ensures { (result ≡ heat (record { k = 0; a = a; b = b; c = c; r = r }) m) × (result ≤ 100_000_000_000_000) }
{
    let l = m as u64;
    let sum = 2 * a as u64 + 2 * b as u64 * l + c as u64 * l * l;
    sum * r as u64
}

fn heat_at(c: HeatCurve, m: u32) -> u64
    requires { CurveSmall c × (m ≤ 4000) }
    ensures { (result ≡ heat c m) × (result ≤ 100_000_000_000_000) }
{
    heat_of(c.a(), c.b(), c.c(), c.r(), m)
}

pub fn curve_cost(c: HeatCurve, m: u32) -> u64
    requires { CurveSmall c × (m ≤ 4000) }
    ensures { (result ≡ curve_cost c m) × (result ≤ 100_000_000_000_000) }
{
    let k = c.k();
    if k <= m {
        return heat_at(c, m);
    }
    part(heat_at(c, k), m, k)
}

// W(m). A purchase's product is at most 8·10^12.
pub fn plant_cost(p: Plant, m: u32) -> u64
    requires { PlantSmall p × (m ≤ 4000) }
    ensures { (result ≡ cost p m) × (result ≤ 100_000_000_000_000) }
{
    match p {
        Plant::Unit(u) => {
            let c = u.curve;
            curve_cost(c, m)
        }
        Plant::Purchase { g: _, rate } => rate as u64 * 2000 * m as u64,
        Plant::Fixed { g: _ } => 0,
    }
}

// W as changed.
pub fn changed_cost(s: Running, m: u32) -> u64
    requires { Small s × (m ≤ 4000) }
    ensures { (result ≡ changed s m) × (result ≤ 100_000_000_000_000) }
{
    let p = s.plant;
    let b = s.b;
    if !s.based {
        return plant_cost(p, m);
    }
    if b < m {
        return plant_cost(p, m);
    }
    part(plant_cost(p, b), m, b)
}

// A rung's low; the last step has none.
pub fn low_at(p: Plant, x: Rung) -> u32
    ensures { result ≡ low_at x p }
{
    match p {
        Plant::Unit(u) => match x {
            Rung::Normal => u.n,
            Rung::Oil => u.o,
            Rung::Emergency => u.e,
            Rung::Last => 0,
        },
        Plant::Purchase { g: _, rate: _ } => 0,
        Plant::Fixed { g: _ } => 0,
    }
}

// Whether s has the higher W(n)/n. The products are at most 10^14·2,000.
pub fn dearer_average(s: Running, t: Running) -> bool
    requires small { Small s × Small t }
    requires lows { (normal_low s.plant ≤ 2000) × (normal_low t.plant ≤ 2000) }
    ensures { result ≡ dearer_average s t }
{
    let p = s.plant;
    let q = t.plant;
    let m = low_at(p, Rung::Normal);
    let n = low_at(q, Rung::Normal);
    let x = changed_cost(s, m) * n as u64;
    let y = changed_cost(t, n) * m as u64;
    y < x
}

// What the open energy costs. d + v is at most 4,000.
pub fn open_cost(s: Running) -> u64
    requires { Small s × (level s ≤ 4000) }
    ensures { result ≡ open_cost s }
{
    let all = changed_cost(s, s.d + s.v);
    let taken = changed_cost(s, s.d);
    if all < taken {
        return 0;
    }
    all - taken
}

// The cost at a level; refused with 3 where the level or a number of the curve is outside its range.
pub fn cost_asked(c: HeatCurve, m: u32) -> Result<u64, Refusal>
    ensures { result ≡ answer_of (cost_asked c m) }
{
    if !c.is_inside() {
        return Err(Refusal::Range(0));
    }
    if MOST_LEVEL < m {
        return Err(Refusal::Range(0));
    }
    Ok(curve_cost(c, m))
}

fn may_move(p: Plant) -> bool
    ensures { result ≡ movable p }
{
    match p {
        Plant::Unit(_) => true,
        Plant::Purchase { g: _, rate: _ } => true,
        Plant::Fixed { g: _ } => false,
    }
}

// By how many MWh a source may still be lowered.
pub fn room_of(s: Running, x: Rung) -> u32
    ensures { result ≡ room (rung_of x) s }
{
    let p = s.plant;
    if !may_move(p) {
        return 0;
    }
    let floor = less(greater(s.b, low_at(p, x)), s.d);
    less(s.v, floor)
}

// By how many MWh a source may still be raised. v + d may be past 32 bits, so d is compared with what is left after v.
pub fn headroom_of(s: Running) -> u32
    ensures { result ≡ headroom s }
{
    let p = s.plant;
    match p {
        Plant::Unit(u) => {
            if s.d < less(u.e, s.v) {
                return 0;
            }
            less(less(u.h, s.v), s.d)
        }
        Plant::Purchase { g, rate: _ } => less(g, s.v),
        Plant::Fixed { g: _ } => 0,
    }
}

fn with_open(s: Running, v: u32) -> Running
    ensures { result ≡ with_open s v }
{
    let p = s.plant;
    Running {
        plant: p,
        v: v,
        d: s.d,
        b: s.b,
        based: s.based,
        percent: s.percent,
    }
}

pub fn lowered(s: Running, x: u32) -> Running
    requires { x ≤ s.v }
    ensures { result ≡ loweredBy s x }
{
    with_open(s, s.v - x)
}

pub fn raised(s: Running, x: u32) -> Running
    requires { s.v + x < 4_294_967_296 }
    ensures { result ≡ raisedBy s x }
{
    with_open(s, s.v + x)
}
