// What moved: where a group found each source and where it left it, in one number; and the group's four amounts of the source, told from that number and the source's state at the hour's end.
// The contracts cite specs/: MovesKept for the numbers, ToldIsTaken for the amounts.
#![tactic(auto)]

ghost use Rattle.std.specs.Prelude.{false, map, ◌≡◌, ◌-◌, ◌≤◌, ◌<◌};
ghost use Rattle.merit.specs.NumbersStaySmall.{Small};
ghost use Rattle.rules.specs.Group.{changed, less};
ghost use Rattle.rules.specs.Hour.{items};
ghost use Rattle.moves.specs.MovesKept.{standing, d_of, before, after, Stands, Low, kept_at};
ghost use Rattle.moves.specs.ToldIsTaken.{told, amount_of};

use rules::Running;

// A pair's cells: how many items a group has of each source.
pub const PAIR_CELLS: usize = 4;

// D and level are below this, each, and a standing below its square.
const STEP: u64 = 4096;

const STANDINGS: u64 = STEP * STEP;

// What a group took of a source, an item of it: its size, and whether it is below 0.
#[derive(Clone, Copy)]
pub struct Taken {
    pub size: u64,
    pub minus: bool,
}

fn standing_of(s: Running) -> u64
    requires { Stands s }
    ensures { result ≡ standing s }
{
    u64::from(s.d) + u64::from(s.v + s.d) * STEP
}

// A source went from one state to another: where it stood when its group began stays, where it stands now is new.
// A move is one number, 0 where there is none: as an Option of a struct it would make the table, which is cleared for every hour, a quarter larger.
pub fn keep(kept: &mut [u64; 1024], at: usize, from: Running, to: Running)
    requires { (at < 1024) × Stands from × Stands to }
    ensures { kept.new ≡ kept_at kept.old at from to }
{
    let x = kept[at];
    let first = if x == 0 {
        standing_of(from)
    } else {
        x % STANDINGS
    };
    kept[at] = first + standing_of(to) * STANDINGS;
}

// Whether a source stands elsewhere than before.
pub fn has_moved(x: u64) -> bool
    ensures { result ≡ false → before x ≡ after x }
{
    x % STANDINGS != x / STANDINGS
}

// How much D has grown.
pub fn direct_mwh(x: u64) -> u64
    ensures { result ≡ d_of (after x) - d_of (before x) }
{
    (x / STANDINGS % STEP).saturating_sub(x % STANDINGS % STEP)
}

// What D costs more, W as changed in the end.
fn direct_cost(e: Running, from: u32, to: u32) -> u64
    requires { Small e × (from ≤ 4000) × (to ≤ 4000) }
    ensures { result ≡ changed e to - changed e from }
{
    if from == to {
        return 0;
    }
    curve::changed_cost(e, to).saturating_sub(curve::changed_cost(e, from))
}

// Before less after.
fn less(before: u64, after: u64) -> Taken
    ensures { amount_of result ≡ less before after }
{
    Taken {
        size: before.abs_diff(after),
        minus: before < after,
    }
}

// What never falls.
fn more(size: u64) -> Taken
    ensures { amount_of result ≡ record { minus = false; size = size } }
{
    Taken { size, minus: false }
}

// The four amounts, in the order of rules' items.
pub fn told(e: Running, x: u64) -> [Taken; PAIR_CELLS]
    requires { Small e × Low x }
    ensures { map amount_of result ≡ map (told e x) items }
{
    let first = x % STANDINGS;
    let last = x / STANDINGS;
    let d0 = first % STEP;
    let l0 = first / STEP;
    let d1 = last % STEP;
    let l1 = last / STEP;
    let w0 = curve::plant_cost(e.plant, l0 as u32);
    let w1 = curve::plant_cost(e.plant, l1 as u32);
    [
        more(direct_mwh(x)),
        less(l0, l1),
        more(direct_cost(e, d0 as u32, d1 as u32)),
        less(w0, w1),
    ]
}
