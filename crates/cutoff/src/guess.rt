// Where to look for the mark next. Nothing is promised of a guess: a poor one costs a round and no MWh.
ghost use Rattle.std.specs.Prelude.{◌≤◌};
ghost use Rattle.cutoff.specs.Lines.{lanes};

use crate::{ABOVE_ALL, LANES, Offer, WHOLE};

// Farther than any mark is from another.
const FAR: u64 = 1_125_899_906_842_624;

// More MWh than these are not divided by: their products would pass 64 bits.
const MOST_PART: u64 = 131_072;

const MOST_NEED: u64 = 8_388_608;

// From so many sources on the search stops later before the total, and may leave more.
const MANY: usize = 16;

// What the search knows: at lo there are more MWh than the total, at hi no more, and `spare` of one merit are next below hi. `next` is a mark to try.
// The slope is to stop `short` MWh before the total, and where it leads nowhere `many` may be left.
#[derive(Clone, Copy)]
pub struct Guess {
    pub lo: u64,
    pub over: u64,
    pub hi: u64,
    pub held: u64,
    pub spare: u64,
    pub next: u64,
    pub short: u64,
    pub many: u64,
}

// A mark to try, and the MWh of one merit next below it, where they were looked for.
#[derive(Clone, Copy)]
pub struct Trial {
    pub mark: u64,
    pub spare: u64,
}

// Of the sources with one merit, where those next below and above a mark begin, and the MWh of those that begin at it.
#[derive(Clone, Copy)]
pub struct Flats {
    pub below: u64,
    pub level: u64,
    pub above: u64,
}

// A mark between two, by the MWh at each.
fn between(lo: u64, hi: u64, part: u64, whole: u64) -> u64 {
    if whole == 0 {
        return lo;
    }
    if MOST_PART < part {
        return lo;
    }
    let d = numbers::less(hi, lo) / 64;
    if WHOLE < d {
        return lo;
    }
    numbers::less(hi, d * (part * 64 / whole) + 1)
}

fn mean(sum: u64, count: u64) -> u64 {
    if count == 0 {
        return 0;
    }
    sum / count
}

// A mark by the ends of all merits and their middle, above which half of the MWh are taken to be.
fn by_thirds(lo: u64, middle: u64, hi: u64, total: u64, over: u64) -> u64 {
    let twice = std::num::wrapping_add_u64(total, total);
    if twice < over {
        return between(middle, hi, twice, over);
    }
    between(lo, middle, twice - over, over)
}

// Where merits begin and end, and the MWh of all sources.
fn ends(one: &[u64; LANES], span: &[u64; LANES], cap: &[u64; LANES], n: usize, total: u64) -> Guess
    requires { n ≤ lanes }
{
    let mut lo: u64 = ABOVE_ALL;
    let mut hi: u64 = 0;
    let mut over: u64 = 0;
    let mut middles: u64 = 0;
    let mut count: u64 = 0;
    for i in 0..n {
        let o = one[i];
        let w = span[i];
        let end = if w == 0 {
            ABOVE_ALL
        } else {
            numbers::less(o, w)
        };
        lo = if end < lo { end } else { lo };
        hi = if hi < o { o } else { hi };
        over = std::num::wrapping_add_u64(over, cap[i]);
        middles = std::num::wrapping_add_u64(middles, numbers::less(o, w / 2));
        count = std::num::wrapping_add_u64(count, numbers::least(w, 1));
    }
    let short: u64 = if n < MANY { 1 } else { 3 };
    Guess {
        lo: lo,
        over: over,
        hi: hi,
        held: 0,
        spare: 0,
        next: by_thirds(lo, mean(middles, count), hi, total, over),
        short: numbers::least(short, total / 32 + 1),
        many: if n < MANY { 8 } else { 32 },
    }
}

// The slope at the best merit, and as its sum the MWh of sources with that merit alone.
fn top(
    one: &[u64; LANES],
    span: &[u64; LANES],
    inv: &[u64; LANES],
    cap: &[u64; LANES],
    n: usize,
    p: u64,
) -> Offer
    requires { n ≤ lanes }
{
    let mut sum: u64 = 0;
    let mut slope: u64 = 0;
    for i in 0..n {
        let o = one[i];
        let w = span[i];
        let v = inv[i];
        let k = cap[i];
        let s = if w == 1 { 0 } else { v };
        let l = if w == 1 { k } else { 0 };
        slope = std::num::wrapping_add_u64(slope, if o == p { s } else { 0 });
        sum = std::num::wrapping_add_u64(sum, if o == p { l } else { 0 });
    }
    Offer {
        sum: sum,
        slope: slope,
    }
}

// The first guess: by the ends, or for few MWh by the slope at the best merit.
pub fn first(
    one: &[u64; LANES],
    span: &[u64; LANES],
    inv: &[u64; LANES],
    cap: &[u64; LANES],
    n: usize,
    total: u64,
) -> Guess
    requires { n ≤ lanes }
{
    let g = ends(one, span, cap, n, total);
    if g.over / 32 <= total {
        return g;
    }
    let t = top(one, span, inv, cap, n, g.hi);
    lower(
        g,
        Trial {
            mark: g.hi,
            spare: t.sum,
        },
        Offer {
            sum: 0,
            slope: t.slope,
        },
        total,
    )
}

fn flats_at(one: &[u64; LANES], span: &[u64; LANES], cap: &[u64; LANES], n: usize, p: u64) -> Flats
    requires { n ≤ lanes }
{
    let mut below: u64 = 0;
    let mut level: u64 = 0;
    let mut above: u64 = FAR;
    for i in 0..n {
        let o = if span[i] == 1 { one[i] } else { 0 };
        let b = if o < p { o } else { 0 };
        let a = if p < o { o } else { FAR };
        let k = if o == p { cap[i] } else { 0 };
        below = if below < b { b } else { below };
        above = if a < above { a } else { above };
        level = std::num::wrapping_add_u64(level, k);
    }
    Flats {
        below: below,
        level: level,
        above: above,
    }
}

fn inside(g: Guess, p: u64) -> bool {
    if g.lo < p {
        return p < g.hi;
    }
    false
}

// Whether the rest is left to single steps: a few MWh, after some rounds more, and what is spare.
pub fn enough(g: Guess, total: u64, round: u64) -> bool {
    if numbers::less(g.hi, g.lo) <= 1 {
        return true;
    }
    let rest = numbers::less(numbers::less(total, g.held), g.spare);
    if rest <= std::num::wrapping_add_u64(6, numbers::less(round, 3)) {
        return true;
    }
    if inside(g, g.next) {
        return false;
    }
    if round == 0 {
        return false;
    }
    rest <= g.many
}

fn middle(g: Guess) -> u64 {
    std::num::wrapping_add_u64(g.lo, numbers::less(g.hi, g.lo) / 2)
}

// A mark, or where a source of one merit begins near it.
fn near(g: Guess, f: Flats, p: u64) -> u64 {
    if 0 < f.level {
        return p;
    }
    if g.lo < f.below {
        return f.below;
    }
    if f.above < g.hi {
        return f.above;
    }
    p
}

fn within(g: Guess, p: u64) -> u64 {
    if inside(g, p) {
        return p;
    }
    middle(g)
}

// The mark to try: that of the guess, if it lies inside; else by the MWh at lo and hi and by halves in turn, and after 14 rounds by halves.
pub fn mark(
    one: &[u64; LANES],
    span: &[u64; LANES],
    cap: &[u64; LANES],
    n: usize,
    g: Guess,
    total: u64,
    round: u64,
) -> Trial
    requires { n ≤ lanes }
{
    if 13 < round {
        return Trial {
            mark: middle(g),
            spare: 0,
        };
    }
    if inside(g, g.next) {
        return Trial {
            mark: g.next,
            spare: 0,
        };
    }
    let by = between(
        g.lo,
        g.hi,
        numbers::less(total, g.held),
        numbers::less(g.over, g.held),
    );
    let p = if round % 2 == 0 { middle(g) } else { by };
    let m = within(g, near(g, flats_at(one, span, cap, n, p), p));
    let f = flats_at(one, span, cap, n, m);
    Trial {
        mark: m,
        spare: f.level,
    }
}

// How far a mark must move for so many MWh at a slope.
fn way(need: u64, slope: u64) -> u64 {
    if slope == 0 {
        return FAR;
    }
    if MOST_NEED < need {
        return FAR;
    }
    need * WHOLE / slope
}

// What is known after a mark held no more than the total, and after it held more. The next mark is by the slope.
pub fn lower(g: Guess, t: Trial, e: Offer, total: u64) -> Guess {
    let need = numbers::less(
        numbers::less(total, e.sum),
        std::num::wrapping_add_u64(t.spare, g.short),
    );
    let next = numbers::less(t.mark, std::num::wrapping_add_u64(way(need, e.slope), 1));
    Guess {
        lo: g.lo,
        over: g.over,
        hi: t.mark,
        held: e.sum,
        spare: t.spare,
        next: next,
        short: g.short,
        many: g.many,
    }
}

pub fn upper(g: Guess, t: Trial, e: Offer, total: u64) -> Guess {
    let need = std::num::wrapping_add_u64(numbers::less(e.sum, total), g.short);
    let next = std::num::wrapping_add_u64(t.mark, way(need, e.slope));
    Guess {
        lo: t.mark,
        over: e.sum,
        hi: g.hi,
        held: g.held,
        spare: g.spare,
        next: next,
        short: g.short,
        many: g.many,
    }
}
