// The members of a group: its MWh, its first member, and the members' shares of what it takes, written into the hour's cells.
// The contracts cite `up_to` of rules' Group and specs/, which has them in the hour's words; a group's amounts are told by its row of the table that `moves` keeps.
#![tactic(auto)]

mod live;
mod shares;

ghost use Rattle.std.specs.Prelude.{◌≡◌, ℕ, ◌+◌, ◌*◌, ◌≤◌, ◌<◌, length};
ghost use Rattle.rules.specs.Group.{Amount, up_to};
ghost use Rattle.rules.specs.Hour.{counted, key_at, pair_width};
ghost use Rattle.members.specs.MwhsListed.{Mwhs};
ghost use Rattle.members.specs.Leads.{Lead, AllGiven, AllShared};
ghost use Rattle.members.specs.Live.{row_width, Listed};
ghost use Rattle.members.specs.Rows.{RowReady, RowFits, Row};
ghost use Rattle.members.specs.Members.{MwhsSmall, scheduled_in, RowsGiven, RowsReady, RowsWritten};

use live::{Live, Placed, ROW_CELLS};
use rules::{Delivery, Key, Running};

// The first n deliveries' MWh in a table.
pub fn list_mwhs(ts: &[Delivery; 32], n: usize) -> [u64; 32]
    requires { n ≤ 32 }
    ensures { Mwhs ts.now n result }
{
    let mut mwhs = [0; 32];
    for (j, t) in ts[..n].iter().enumerate() {
        mwhs[j] = u64::from(t.mwh);
    }
    mwhs
}

// The group's MWh.
pub fn total_of(mwhs: &[u64; 32], n: usize, keys: &[Key; 32], key: Key) -> u64
    requires { MwhsSmall mwhs.now n }
    ensures { (result ≡ scheduled_in mwhs.now keys.now key n) × (result ≤ 64_000) }
{
    let mut sum: u64 = 0;
    for j in 0..n {
        if keys[j] == key {
            sum += mwhs[j];
        }
    }
    sum
}

// The group's first member in deck order.
pub fn lead_of(keys: &[Key; 32], n: usize, key: Key) -> usize
    requires { (n ≤ 32) × (0 < counted keys.now key n) }
    ensures { Lead keys.now n key result }
{
    keys[..n].iter().position(|x| *x == key).unwrap()
}

// What the members so far have of a size; with all of the group's MWh, all of it.
fn part(total: u64, size: u64, count: u64, mwh: u64) -> u64
    requires { (size ≤ 100_000_000_000_000) × (mwh ≤ 64_000) × (0 < count) }
    ensures { result ≡ up_to total size count mwh }
{
    if mwh == total {
        return size;
    }
    shares::part_up_to(total, size, count, mwh)
}

// One member's cells at the places of a group's amounts.
fn share_row(
    cells: &mut [i64],
    at: usize,
    live: &[Placed],
    had: &mut [u64; ROW_CELLS],
    total: u64,
    count: u64,
    mwh: u64,
)
    requires { RowReady at total count mwh live.now had.old cells.old }
    ensures { (width : ℕ) → (a : ℕ → Amount) → RowFits at width total count mwh a had.old cells.old → Listed a width live.now → Row at total count mwh a had.old cells.old width had.new cells.new }
{
    for p in live {
        let with = part(total, p.amount.size, count, mwh);
        cells[at + p.place] = shares::share_of(p.amount.minus, with, had[p.place]);
        had[p.place] = with;
    }
}

// The rows of one group's members in deck order, where 0 stood. The group's first member leads it.
fn share_rows(
    cells: &mut [i64],
    width: usize,
    n: usize,
    mwhs: &[u64; 32],
    keys: &[Key; 32],
    lead: usize,
    total: u64,
    live: &[Placed],
)
    requires { (lead < 32) × RowsReady width n mwhs.now keys.now (key_at keys.now lead) total live.now cells.old }
    ensures { (a : ℕ → Amount) → RowsGiven width n mwhs.now keys.now (key_at keys.now lead) total a cells.old → Listed a width live.now → RowsWritten width n mwhs.now keys.now (key_at keys.now lead) total a cells.old cells.new }
{
    let mut had: [u64; ROW_CELLS] = [0; ROW_CELLS];
    let key = keys[lead];
    let mut count: u64 = 0;
    let mut mwh: u64 = 0;
    for j in 0..n {
        if keys[j] == key {
            count += 1;
            mwh += mwhs[j];
            share_row(cells, j * width, live, &mut had, total, count, mwh);
        }
    }
}

// The rows of all groups, whose amounts the table of moves and the states at the hour's end tell. A delivery that leads a group has one more than its MWh in led, the others have 0.
pub fn share_all(
    cells: &mut [i64],
    sources: usize,
    n: usize,
    mwhs: &[u64; 32],
    keys: &[Key; 32],
    led: &[u64; 32],
    states: &[Running; 32],
    kept: &[u64; 1024],
)
    requires { AllGiven sources n mwhs.now keys.now led.now states.now kept.now cells.old }
    ensures { AllShared sources n mwhs.now keys.now led.now states.now kept.now cells.old cells.new }
{
    let width = sources * moves::PAIR_CELLS;
    let mut live = Live::new();
    for j in 0..n {
        let t = led[j];
        if 0 < t {
            live.clear();
            for i in 0..sources {
                let x = kept[j * 32 + i];
                if moves::has_moved(x) {
                    live.push_items(i * moves::PAIR_CELLS, moves::told(states[i], x));
                }
            }
            share_rows(cells, width, n, mwhs, keys, j, t - 1, live.as_slice());
        }
    }
}
