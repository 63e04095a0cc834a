// The search for a mark: a merit such that no more MWh than the total have it or a better one, and few are then left to take.
// Only the stock at the mark and the number of rounds are proved; `guess` says where to look. Internal: `dispatch` takes what is left.
#![tactic(auto)]

ghost use Rattle.std.specs.Prelude.{◌≡◌};
ghost use Rattle.rules.specs.Words.{sum_to};
ghost use Rattle.cutoff.specs.Lines.{Scaled, Scales, Table, Marked, stock, stock_at};

mod guess;

// How many lines of merit an engine has room for: one for each source today.
pub const LANES: usize = 32;

// One more than the best merit of all.
pub const ABOVE_ALL: u64 = 281_474_976_710_657;

// A step's reciprocal is this by the step, and one more.
pub const WHOLE: u64 = 1_099_511_627_776;

// Rounds at the most.
const ROUNDS: u64 = 64;

// The MWh at and above a mark, and how fast they grow below it.
#[derive(Clone, Copy)]
pub struct Offer {
    pub sum: u64,
    pub slope: u64,
}

// A mark, and the MWh at and above it.
#[derive(Clone, Copy)]
pub struct Mark {
    pub merit: u64,
    pub sum: u64,
}

// How many of a source's MWh have a merit of at least p: a product for a division, and one test.
pub fn count(one: u64, step: u64, span: u64, inv: u64, p: u64) -> u64
    requires { Scaled step span inv }
    ensures { result ≡ stock one step span inv p }
{
    let w = numbers::least(span, numbers::less(one, p));
    let q = w * inv / WHOLE;
    if q * step < w { q + 1 } else { q }
}

// A source's part of the slope: its reciprocal where the mark lies in its span.
fn tilt(one: u64, step: u64, span: u64, inv: u64, p: u64) -> u64 {
    let a = if numbers::less(one, p) < span { inv } else { 0 };
    let b = if p <= one { a } else { 0 };
    if 0 < step { b } else { 0 }
}

// What all sources have at and above p.
fn supply(
    one: &[u64; LANES],
    step: &[u64; LANES],
    span: &[u64; LANES],
    inv: &[u64; LANES],
    n: usize,
    p: u64,
) -> Offer
    requires { Scales step.now span.now inv.now n }
    ensures { result.sum ≡ sum_to (stock_at one.now step.now span.now inv.now p) n }
{
    let mut sum: u64 = 0;
    let mut slope: u64 = 0;
    for i in 0..n {
        let o = one[i];
        let d = step[i];
        let w = span[i];
        let v = inv[i];
        sum += count(o, d, w, v, p);
        slope = std::num::wrapping_add_u64(slope, tilt(o, d, w, v, p));
    }
    Offer {
        sum: sum,
        slope: slope,
    }
}

// A mark with no more than the total at and above it, and nearly that: within 64 rounds, from the fifteenth on by halves.
pub fn find_mark(
    one: &[u64; LANES],
    step: &[u64; LANES],
    span: &[u64; LANES],
    inv: &[u64; LANES],
    cap: &[u64; LANES],
    n: usize,
    total: u64,
) -> Mark
    requires { Table one.now step.now span.now inv.now cap.now n }
    ensures { Marked one.now step.now span.now inv.now n total result.merit result.sum }
{
    let mut g = guess::first(one, span, inv, cap, n, total);
    let mut best = Mark {
        merit: ABOVE_ALL,
        sum: 0,
    };
    let mut round: u64 = 0;
    // Counted by hand: the edit rounds_not_counted, which leaves the counting out, must stay one that can be made.
    while round < ROUNDS {
        if guess::enough(g, total, round) {
            return best;
        }
        let t = guess::mark(one, span, cap, n, g, total, round);
        let m = t.mark;
        let e = supply(one, step, span, inv, n, m);
        if e.sum <= total {
            best = Mark {
                merit: m,
                sum: e.sum,
            };
            g = guess::lower(g, t, e, total);
        } else {
            g = guess::upper(g, t, e, total);
        }
        round += 1;
    }
    best
}
