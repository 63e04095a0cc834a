// One group: a D line's direct allocation, and the remainder of the group by either engine.
// The contracts cite rules' Group: `directed`, `unload`, `credit` and `remainder`.
#![tactic(auto)]

pub mod first;

ghost use Rattle.std.specs.Prelude.{◌≡◌, ◌+◌, ◌≤◌};
ghost use Rattle.rules.specs.Answers.{verdict_of};
ghost use Rattle.rules.specs.Group.{basis, basic, directed, remainder};
ghost use Rattle.merit.specs.LevelNeverBelowB.{Sound};
ghost use Rattle.merit.specs.NumbersStaySmall.{Small};
ghost use Rattle.ladder.specs.Ready.{AllReady};
ghost use Rattle.group.specs.Settling.{states_of, tries, way_at, Short, outcome};

use curve::Rung;
use cutoff::LANES;
use ladder::Way;
use rules::{Basis, Direct, InternalSequence, Plant, Refusal, Running};

fn basis_of(x: Basis, p: Plant) -> u32
    ensures { result ≡ basis x p }
{
    match x {
        Basis::Low => curve::low_at(p, Rung::Normal),
        Basis::Generation => p.generation(),
        Basis::Mwh(m) => m,
    }
}

// b, set at the unit's first line.
fn basic_of(s: Running, x: Basis) -> u32
    ensures { result ≡ basic s x }
{
    if s.based {
        return s.b;
    }
    let p = s.plant;
    let most = basis_of(x, p);
    if s.v < most {
        return s.v;
    }
    most
}

// A source after one D line.
pub fn allocate(s: Running, line: Direct) -> Running
    requires sound { Sound s × Small s }
    requires percents { s.percent + line.percent ≤ 100 }
    ensures { result ≡ directed s line }
{
    let x = line.basis;
    let b = basic_of(s, x);
    let percent = s.percent + line.percent;
    let mwh = b * percent / 100;
    s.with_direct(mwh, b, percent)
}

// How many ways by prices a remainder has: three rungs down, or one up.
fn tries_of(up: bool) -> usize
    ensures { result ≡ tries up }
{
    if up {
        return 1;
    }
    3
}

// The i-th of them: normal lows first in every group, then the ladder's rungs in their order.
fn way_at(up: bool, i: usize) -> Way
    ensures { result ≡ way_at up i }
{
    if up {
        return Way::Up;
    }
    if i == 0 {
        return Way::Down(Rung::Normal);
    }
    if i == 1 {
        return Way::Down(Rung::Oil);
    }
    Way::Down(Rung::Emergency)
}

// Where none of them has room: the last step, or 12; for a credit 13.
fn settle_last(
    number: InternalSequence,
    up: bool,
    n: usize,
    total: u64,
    states: &mut [Running; 32],
) -> Result<(), Refusal>
    requires all_ready { AllReady states.old n }
    requires short { Short up n states.old total (tries up) }
    ensures verdict { result ≡ verdict_of (outcome up number n states.old total) }
    ensures states { states.new ≡ states_of states.old (outcome up number n states.old total) }
{
    if up {
        return Err(Refusal::NoHeadroom(number));
    }
    if ladder::rooms(Way::Down(Rung::Last), states, n) < total {
        return Err(Refusal::NoRoom(number));
    }
    let lowered = ladder::rooms(Way::Down(Rung::Emergency), states, n);
    ladder::below_emergency(states, n, total - lowered);
    Ok(())
}

// The group's remainder, its total less what its D lines took: by the first way with room. Where it is refused the states stay.
pub fn settle(
    number: InternalSequence,
    n: usize,
    total: u64,
    took: u64,
    by_price: bool,
    states: &mut [Running; 32],
) -> Result<(), Refusal>
    requires { AllReady states.old n }
    ensures verdict { result ≡ verdict_of (remainder number n total took states.old) }
    ensures states { states.new ≡ states_of states.old (remainder number n total took states.old) }
{
    let up = total < took;
    let rest = numbers::distance(total, took);
    let mut one: [u64; LANES] = [0; LANES];
    let mut step: [u64; LANES] = [0; LANES];
    let mut cap: [u64; LANES] = [0; LANES];
    for tried in 0..tries_of(up) {
        let way = way_at(up, tried);
        let mut sum: u64 = 0;
        for i in 0..n {
            let s = states[i];
            step[i] = ladder::shift::step_of(s.plant);
            sum += ladder::set_line(way, &mut one, &mut cap, i, s);
        }
        if rest <= sum {
            let mut taken: [u64; LANES] = [0; LANES];
            ladder::shift::take(by_price, up, &one, &step, &cap, n, rest, &mut taken);
            for k in 0..n {
                let t = taken[k];
                if 0 < t {
                    states[k] = ladder::shift::shift_one(up, states[k], t);
                }
            }
            return Ok(());
        }
    }
    settle_last(number, up, n, rest, states)
}
