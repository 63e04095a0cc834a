// Two engines with one promise, for unloading (up is false) and credits (up is true): the total is taken of sources with room, the best MWh first.
// A source enters as a falling line of merit, in three arrays. `plain` takes one MWh at a time; `price` leaves out sources that cannot compete, finds
// a mark, takes all above it at once, and the rest by blocks. The definitions are in specs/ and in `cutoff`. Internal: they know no hour, and the caller gives lines and room.
#![tactic(auto)]

ghost use Rattle.std.specs.Prelude.{true, false, ◌≡◌, ◌+◌, ◌*◌, ◌≤◌, ◌<◌, ◌^◌, length, replicate};
ghost use Rattle.rules.specs.Words.{sum_to};
ghost use Rattle.cutoff.specs.Lines.{lanes, at, Falls, Source, Table, Scales};
ghost use Rattle.dispatch.specs.LinesOfPrices.{Numbers, Lined, line_price};
ghost use Rattle.dispatch.specs.Taken.{Sources, Taken, Next, Left, Small, Highest, Turn, Turns, Going, Level, Block, Above};
ghost use Rattle.dispatch.specs.Rivals.{Bar, Places, Rivals, Gathered, Spread};

use cutoff::{ABOVE_ALL, LANES, WHOLE};

// With fewer sources than these leaving some out does not pay.
const MANY: usize = 12;

// What counts the MWh of a line above a mark.
#[derive(Clone, Copy)]
struct Shape {
    span: u64,
    inv: u64,
}

// The price of the m-th MWh.
fn price_at(b: u64, c: u64, r: u64, m: u64) -> u64
    requires numbers { Numbers b c r }
    requires level { (0 < m) × (m ≤ 2000) }
    ensures { (result ≡ line_price b c r m) × (result ≤ 2 ^ 47) }
{
    (2 * b + c * (2 * m - 1)) * r
}

// How far it moves with each MWh.
pub fn step_of(c: u64, r: u64) -> u64
    requires { (c ≤ 99) × (r ≤ 39_996) }
    ensures { result ≡ 2 * c * r }
{
    2 * c * r
}

// One more than the merit of a source's first MWh when its level is to fall by at most cap, and when it is to rise; 0 where it has none.
pub fn unload_top(b: u64, c: u64, r: u64, level: u64, cap: u64) -> u64
    requires numbers { Numbers b c r }
    requires room { (cap ≤ level) × (level ≤ 2000) }
    ensures { Lined false (line_price b c r) level result (2 * c * r) cap }
{
    if cap == 0 {
        return 0;
    }
    price_at(b, c, r, level) + 1
}

pub fn credit_top(b: u64, c: u64, r: u64, level: u64, cap: u64) -> u64
    requires numbers { Numbers b c r }
    requires room { level + cap ≤ 2000 }
    ensures { Lined true (line_price b c r) level result (2 * c * r) cap }
{
    if cap == 0 {
        return 0;
    }
    ABOVE_ALL - price_at(b, c, r, level + 1)
}

// One more than the merit of a source's next MWh; 0 where it has none.
fn next(one: u64, step: u64, cap: u64, k: u64) -> u64
    requires { Falls one step cap }
    ensures { Next one step cap k result }
{
    if k < cap { one - step * k } else { 0 }
}

// The same of each source's next MWh.
fn find_left(
    one: &[u64; LANES],
    step: &[u64; LANES],
    cap: &[u64; LANES],
    taken: &[u64; LANES],
    n: usize,
    left: &mut [u64; LANES],
)
    requires sources { Sources one.now step.now cap.now n }
    requires long { length left.old ≡ lanes }
    ensures { Left one.now step.now cap.now taken.now n left.new }
{
    for i in 0..n {
        let m = next(one[i], step[i], cap[i], taken[i]);
        left[i] = m;
    }
}

// The source with the best next MWh; n where none has any.
fn choose(up: bool, left: &[u64; LANES], n: usize) -> usize
    requires n_le_lanes { n ≤ lanes }
    requires small { Small left.now n }
    ensures { Highest up left.now n result }
{
    let more: u64 = if up { 0 } else { 1 };
    let mut best = n;
    let mut bar: u64 = 1;
    for i in 0..n {
        let m = left[i];
        if bar <= m {
            best = i;
            bar = m + more;
        }
    }
    best
}

// The plain engine: one MWh at a time.
pub fn plain(
    up: bool,
    one: &[u64; LANES],
    step: &[u64; LANES],
    cap: &[u64; LANES],
    n: usize,
    total: u64,
    taken: &mut [u64; LANES],
)
    requires sources { Sources one.now step.now cap.now n }
    requires room { total ≤ sum_to (at cap.now) n }
    requires blank { taken.old ≡ replicate lanes 0 }
    ensures { Taken up one.now step.now cap.now n total taken.new }
{
    let mut left: [u64; LANES] = [0; LANES];
    find_left(one, step, cap, taken, n, &mut left);
    for moved in 0..total {
        let i = choose(up, &left, n);
        let k = taken[i] + 1;
        taken[i] = k;
        let m = next(one[i], step[i], cap[i], k);
        left[i] = m;
    }
}

// What each source has at and above the mark, and one more than the merit of its next MWh.
fn take_above(
    one: &[u64; LANES],
    step: &[u64; LANES],
    span: &[u64; LANES],
    inv: &[u64; LANES],
    cap: &[u64; LANES],
    n: usize,
    mark: u64,
    taken: &mut [u64; LANES],
    left: &mut [u64; LANES],
)
    requires sources { Sources one.now step.now cap.now n }
    requires scales { Scales step.now span.now inv.now n }
    requires long { (length taken.old ≡ lanes) × (length left.old ≡ lanes) }
    ensures above { Above one.now step.now span.now inv.now n mark taken.old taken.new }
    ensures left { Left one.now step.now cap.now taken.new n left.new }
{
    for i in 0..n {
        let o = one[i];
        let d = step[i];
        let k = cutoff::count(o, d, span[i], inv[i], mark);
        let m = next(o, d, cap[i], k);
        taken[i] = k;
        left[i] = m;
    }
}

// How much the best source gives at once: all of one merit.
fn block(step: u64, cap: u64, k: u64, rest: u64) -> u64
    requires { (k < cap) × (0 < rest) }
    ensures { Block step cap k rest result }
{
    if 0 < step {
        return 1;
    }
    numbers::least(rest, cap - k)
}

// The i-th source in the turn at a tie.
fn turn(up: bool, n: usize, i: usize) -> usize
    requires { i < n }
    ensures { Turn up n i result }
{
    if up { n - 1 - i } else { i }
}

// What the i-th has of the merit m.
fn take_turn(
    up: bool,
    one: &[u64; LANES],
    step: &[u64; LANES],
    cap: &[u64; LANES],
    n: usize,
    m: u64,
    total: u64,
    sum: u64,
    i: usize,
    taken: &mut [u64; LANES],
    left: &mut [u64; LANES],
) -> u64
    requires sources { Sources one.now step.now cap.now n }
    requires turns { Turns up one.now step.now cap.now n m total sum i taken.old left.old }
    requires more { (i < n) × (sum < total) }
    ensures turns_2 { Turns up one.now step.now cap.now n m total result (i + 1) taken.new left.new }
    ensures most { sum ≤ result }
{
    let a = turn(up, n, i);
    if left[a] < m {
        return sum;
    }
    let k = taken[a];
    let g = block(step[a], cap[a], k, total - sum);
    taken[a] = k + g;
    let x = next(one[a], step[a], cap[a], k + g);
    left[a] = x;
    sum + g
}

// Where many MWh are left: all that have the merit m, the best there is, in their turn.
fn take_level(
    up: bool,
    one: &[u64; LANES],
    step: &[u64; LANES],
    cap: &[u64; LANES],
    n: usize,
    m: u64,
    total: u64,
    sum: u64,
    taken: &mut [u64; LANES],
    left: &mut [u64; LANES],
) -> u64
    requires sources { Sources one.now step.now cap.now n }
    requires level { Level up one.now step.now cap.now n m total sum taken.old left.old }
    ensures going { Going up one.now step.now cap.now n total result taken.new left.new }
    ensures most { sum ≤ result }
{
    if total - sum <= 6 {
        return sum;
    }
    let mut s = sum;
    for i in 0..n {
        if s == total {
            return s;
        }
        s = take_turn(up, one, step, cap, n, m, total, s, i, taken, left);
    }
    s
}

// Of all these sources: what is above a mark at once, and the rest block by block.
fn take_best(
    up: bool,
    one: &[u64; LANES],
    step: &[u64; LANES],
    span: &[u64; LANES],
    inv: &[u64; LANES],
    cap: &[u64; LANES],
    n: usize,
    total: u64,
    taken: &mut [u64; LANES],
)
    requires table { Table one.now step.now span.now inv.now cap.now n }
    requires room { total ≤ sum_to (at cap.now) n }
    requires blank { taken.old ≡ replicate lanes 0 }
    ensures { Taken up one.now step.now cap.now n total taken.new }
{
    let p = cutoff::find_mark(one, step, span, inv, cap, n, total);
    let mut left: [u64; LANES] = [0; LANES];
    take_above(one, step, span, inv, cap, n, p.merit, taken, &mut left);
    let mut sum = p.sum;
    // no `for`: a turn takes as many MWh as the best source gives at once
    while sum < total {
        let a = choose(up, &left, n);
        let m = left[a];
        let k = taken[a];
        let g = block(step[a], cap[a], k, total - sum);
        taken[a] = k + g;
        let x = next(one[a], step[a], cap[a], k + g);
        left[a] = x;
        sum = take_level(up, one, step, cap, n, m, total, sum + g, taken, &mut left);
    }
}

// By the reciprocal of its step; all at once where it has none.
fn shaped(one: u64, step: u64, cap: u64) -> Shape
    requires { Falls one step cap }
    ensures { Source one step result.span result.inv cap }
{
    if step == 0 {
        return Shape {
            span: numbers::least(1, cap),
            inv: numbers::less(cap, 1) * WHOLE,
        };
    }
    Shape {
        span: step * cap,
        inv: WHOLE / step + 1,
    }
}

// The same of each source.
fn scale(
    one: &[u64; LANES],
    step: &[u64; LANES],
    cap: &[u64; LANES],
    n: usize,
    span: &mut [u64; LANES],
    inv: &mut [u64; LANES],
)
    requires sources { Sources one.now step.now cap.now n }
    requires long { (length span.old ≡ lanes) × (length inv.old ≡ lanes) }
    ensures { Table one.now step.now span.new inv.new cap.now n }
{
    for i in 0..n {
        let s = shaped(one[i], step[i], cap[i]);
        span[i] = s.span;
        inv[i] = s.inv;
    }
}

// The search among all these sources.
fn take_scaled(
    up: bool,
    one: &[u64; LANES],
    step: &[u64; LANES],
    cap: &[u64; LANES],
    n: usize,
    total: u64,
    taken: &mut [u64; LANES],
)
    requires sources { Sources one.now step.now cap.now n }
    requires room { total ≤ sum_to (at cap.now) n }
    requires blank { taken.old ≡ replicate lanes 0 }
    ensures { Taken up one.now step.now cap.now n total taken.new }
{
    let mut span: [u64; LANES] = [0; LANES];
    let mut inv: [u64; LANES] = [0; LANES];
    scale(one, step, cap, n, &mut span, &mut inv);
    take_best(up, one, step, &span, &inv, cap, n, total, taken);
}

// The merit, plus 1, of the last MWh of a source that has room for the whole total, the best there is; 0 where there is none.
fn best_last(
    one: &[u64; LANES],
    step: &[u64; LANES],
    cap: &[u64; LANES],
    n: usize,
    total: u64,
) -> u64
    requires { Sources one.now step.now cap.now n }
    ensures { Bar one.now step.now cap.now n total result }
{
    let last = numbers::less(total, 1);
    let mut bar: u64 = 0;
    for i in 0..n {
        let m = next(one[i], step[i], cap[i], last);
        if bar < m {
            bar = m;
        }
    }
    bar
}

// The same; 0 also for so few sources that leaving some out does not pay.
fn bar_of(one: &[u64; LANES], step: &[u64; LANES], cap: &[u64; LANES], n: usize, total: u64) -> u64
    requires { Sources one.now step.now cap.now n }
    ensures { Bar one.now step.now cap.now n total result }
{
    if n < MANY {
        return 0;
    }
    best_last(one, step, cap, n, total)
}

// The places of the sources that reach the bar, and how many they are.
fn find_rivals(bar: u64, one: &[u64; LANES], n: usize, places: &mut [usize; LANES]) -> usize
    requires n_le_lanes { n ≤ lanes }
    requires long { length places.old ≡ lanes }
    ensures { Rivals bar one.now n places.new result }
{
    let mut m = 0;
    for i in 0..n {
        places[m] = i;
        if bar <= one[i] {
            m += 1;
        }
    }
    m
}

// What stands at these places, close together.
fn gather(all: &[u64; LANES], places: &[usize; LANES], m: usize, few: &mut [u64; LANES])
    requires places { Places lanes places.now m }
    requires long { length few.old ≡ lanes }
    ensures { Gathered all.now places.now m few.new }
{
    for k in 0..m {
        let i = places[k];
        let x = all[i];
        few[k] = x;
    }
}

// And back: 0 at every other place.
fn spread(few: &[u64; LANES], places: &[usize; LANES], m: usize, all: &mut [u64; LANES])
    requires places { Places lanes places.now m }
    requires blank { all.old ≡ replicate lanes 0 }
    ensures { Spread few.now places.now m all.new }
{
    for k in 0..m {
        let i = places[k];
        let x = few[k];
        all[i] = x;
    }
}

// The engine by price. Where a source has room for the whole total, those whose first MWh is below its last have no part and are left out; where it alone is left, it gives all.
pub fn price(
    up: bool,
    one: &[u64; LANES],
    step: &[u64; LANES],
    cap: &[u64; LANES],
    n: usize,
    total: u64,
    taken: &mut [u64; LANES],
)
    requires sources { Sources one.now step.now cap.now n }
    requires room { total ≤ sum_to (at cap.now) n }
    requires blank { taken.old ≡ replicate lanes 0 }
    ensures { Taken up one.now step.now cap.now n total taken.new }
{
    let bar = bar_of(one, step, cap, n, total);
    if bar == 0 {
        take_scaled(up, one, step, cap, n, total, taken);
        return;
    }
    let mut places: [usize; LANES] = [0; LANES];
    let m = find_rivals(bar, one, n, &mut places);
    if m == 1 {
        let i = places[0];
        taken[i] = total;
        return;
    }
    let mut o: [u64; LANES] = [0; LANES];
    let mut d: [u64; LANES] = [0; LANES];
    let mut c: [u64; LANES] = [0; LANES];
    gather(one, &places, m, &mut o);
    gather(step, &places, m, &mut d);
    gather(cap, &places, m, &mut c);
    let mut few: [u64; LANES] = [0; LANES];
    take_scaled(up, &o, &d, &c, m, total, &mut few);
    spread(&few, &places, m, taken);
}
