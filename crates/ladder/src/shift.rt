// Sources moved by an engine, down (up is false) or up: each source's line of merit, what the one or the other engine takes, and a source after it.
// The contracts cite dispatch's `Lined` and `Taken`, rules' `lowered` and `raised`, and specs/ for a source that may be moved.
ghost use Rattle.std.specs.Prelude.{true, false, ◌≡◌, ◌≤◌, replicate};
ghost use Rattle.rules.specs.Words.{sum_to};
ghost use Rattle.rules.specs.Group.{level};
ghost use Rattle.cutoff.specs.Lines.{lanes, at};
ghost use Rattle.merit.specs.PricesRise.{price};
ghost use Rattle.merit.specs.NumbersStaySmall.{PlantSmall};
ghost use Rattle.dispatch.specs.LinesOfPrices.{Lined};
ghost use Rattle.dispatch.specs.Taken.{Sources, Taken};
ghost use Rattle.ladder.specs.Ready.{step_of, Ready, Within, shifted};

use cutoff::LANES;
use rules::{Plant, Running};

// How far a plant's price moves with each MWh.
pub fn step_of(p: Plant) -> u64
    requires { PlantSmall p }
    ensures { result ≡ step_of p }
{
    match p {
        Plant::Unit(u) => {
            let k = u.curve;
            dispatch::step_of(k.c() as u64, k.r() as u64)
        }
        Plant::Purchase { g: _, rate: _ } => 0,
        Plant::Fixed { g: _ } => 0,
    }
}

// One more than the merit of a source's first MWh, where it is to fall by at most cap.
fn down_top(s: Running, cap: u64) -> u64
    requires ready { Ready s }
    requires room { Within false s cap }
    ensures { Lined false (price s.plant) (level s) result (step_of s.plant) cap }
{
    let p = s.plant;
    match p {
        Plant::Unit(u) => {
            let k = u.curve;
            dispatch::unload_top(
                k.b() as u64,
                k.c() as u64,
                k.r() as u64,
                (s.v + s.d) as u64,
                cap,
            )
        }
        Plant::Purchase { g: _, rate } => dispatch::unload_top(
            1000 * (rate as u64),
            0,
            1,
            cap,
            cap,
        ),
        Plant::Fixed { g: _ } => dispatch::unload_top(0, 0, 0, cap, cap),
    }
}

// The same where it is to rise.
fn up_top(s: Running, cap: u64) -> u64
    requires ready { Ready s }
    requires room { Within true s cap }
    ensures { Lined true (price s.plant) (level s) result (step_of s.plant) cap }
{
    let p = s.plant;
    match p {
        Plant::Unit(u) => {
            let k = u.curve;
            dispatch::credit_top(
                k.b() as u64,
                k.c() as u64,
                k.r() as u64,
                (s.v + s.d) as u64,
                cap,
            )
        }
        Plant::Purchase { g: _, rate } => dispatch::credit_top(1000 * (rate as u64), 0, 1, 0, cap),
        Plant::Fixed { g: _ } => dispatch::credit_top(0, 0, 0, 0, cap),
    }
}

// The one or the other.
pub fn top_of(up: bool, s: Running, cap: u64) -> u64
    requires ready { Ready s }
    requires room { Within up s cap }
    ensures { Lined up (price s.plant) (level s) result (step_of s.plant) cap }
{
    if up {
        return up_top(s, cap);
    }
    down_top(s, cap)
}

// What the one or the other engine takes.
pub fn take(
    by_price: bool,
    up: bool,
    one: &[u64; LANES],
    step: &[u64; LANES],
    cap: &[u64; LANES],
    n: usize,
    total: u64,
    taken: &mut [u64; LANES],
)
    requires sources { Sources one.now step.now cap.now n }
    requires room { total ≤ sum_to (at cap.now) n }
    requires blank { taken.old ≡ replicate lanes 0 }
    ensures { Taken up one.now step.now cap.now n total taken.new }
{
    if by_price {
        dispatch::price(up, one, step, cap, n, total, taken);
        return;
    }
    dispatch::plain(up, one, step, cap, n, total, taken);
}

// One source moved by k MWh.
pub fn shift_one(up: bool, s: Running, k: u64) -> Running
    requires ready { Ready s }
    requires room { Within up s k }
    ensures { result ≡ shifted up s k }
{
    let x = k as u32;
    if up {
        return curve::raised(s, x);
    }
    curve::lowered(s, x)
}
