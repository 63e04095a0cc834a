// Document 01's whole hour: every group in its turn, by either engine, and the answer's cells into a lent buffer.
// The promise cites rules' Calls: reconstruction, cells_for for the part below 15, and leaves for the buffer; and Answers. The other contracts cite specs/.
#![tactic(auto)]

ghost use Rattle.std.specs.Prelude.{true, map, ◌≡◌, ◌≤◌, pos, length};
ghost use Rattle.ladder.specs.Ready.{Ready};
ghost use Rattle.rules.specs.Answers.{written_of};
ghost use Rattle.rules.specs.Calls.{cells_for, reconstruction, leaves};
ghost use Rattle.rules.specs.Group.{open_amount};
ghost use Rattle.rules.specs.Hour.{open_items, open_width};
ghost use Rattle.rules.specs.Writing.{valid};
ghost use Rattle.sequence.specs.Placings.{placings};
ghost use Rattle.reconstruct.specs.CellsCleared.{Cleared};
ghost use Rattle.reconstruct.specs.CellsWritten.{AmountsFit, AmountsPut, OpenFits, OpenPut};

use rules::{Hour, Key, Refusal, Running};

// A source's open cells.
pub const OPEN_CELLS: usize = 2;

pub fn cell(x: u64) -> i64
    requires { x ≤ 100_000_000_000_000 }
    ensures { result ≡ pos x }
{
    x as i64
}

// A source's open MWh and open cost, in the order of rules' open items.
fn open_amounts(s: Running) -> [u64; OPEN_CELLS]
    requires { Ready s }
    ensures { result ≡ map (λ item. open_amount item s) open_items }
{
    [s.v as u64, curve::open_cost(s)]
}

// They are put from a place on.
fn put_amounts(cells: &mut [i64], at: usize, amounts: [u64; OPEN_CELLS])
    requires { AmountsFit at amounts cells.old }
    ensures { AmountsPut at amounts open_width cells.old cells.new }
{
    for (item, amount) in amounts.iter().enumerate() {
        cells[at + item] = cell(*amount);
    }
}

// Each source's, from a place on.
fn put_open(cells: &mut [i64], at: usize, states: &[Running])
    requires { OpenFits states.now at cells.old }
    ensures { OpenPut states.now at (length states.now) cells.old cells.new }
{
    for (i, s) in states.iter().enumerate() {
        put_amounts(cells, at + i * OPEN_CELLS, open_amounts(*s));
    }
}

// The cells of a valid hour whose deliveries have these keys, by either engine: 14, then the first group that meets 12 or 13.
pub fn fill(h: Hour, keys: [Key; 32], by_price: bool, out: &mut [i64]) -> Result<usize, Refusal>
    requires { (valid h ≡ true) × (keys ≡ placings h.deliveries h.ndeliveries) }
    ensures outcome { result ≡ written_of (cells_for h (length out.old)) }
    ensures cells { out.new ≡ leaves (cells_for h (length out.old)) out.old }
{
    let n = h.nsources;
    let m = h.ndeliveries;
    let pairs = m * (n * moves::PAIR_CELLS);
    let count = pairs + n * OPEN_CELLS;
    if out.len() < count {
        return Err(Refusal::Short);
    }
    let mwhs = members::list_mwhs(&h.deliveries, m);
    let mut led: [u64; 32] = [0; 32];
    let mut kept: [u64; 1024] = [0; 1024];
    let mut states = groups::blank_states();
    groups::take_turns(h, keys, by_price, &mwhs, &mut led, &mut kept, &mut states)?;
    out[..pairs].fill(0);
    members::share_all(out, n, m, &mwhs, &keys, &led, &states, &kept);
    put_open(out, pairs, &states[..n]);
    Ok(count)
}

// The cells of a valid hour: of one that a deck gave.
pub fn cells_of(h: Hour, by_price: bool, out: &mut [i64]) -> Result<usize, Refusal>
    requires { valid h ≡ true }
    ensures outcome { result ≡ written_of (cells_for h (length out.old)) }
    ensures cells { out.new ≡ leaves (cells_for h (length out.old)) out.old }
{
    let keys = sequence::keys(&h.deliveries, h.ndeliveries);
    fill(h, keys, by_price, out)
}

// Of any hour record: 15, and then its cells.
fn tried(h: Hour, by_price: bool, out: &mut [i64]) -> Result<usize, Refusal>
    ensures outcome { result ≡ written_of (reconstruction h (length out.old)) }
    ensures cells { out.new ≡ leaves (reconstruction h (length out.old)) out.old }
{
    if !record::valid(h) {
        return Err(Refusal::NoDeck);
    }
    cells_of(h, by_price, out)
}

// By the plain rule, one MWh at a time.
pub fn plain(h: Hour, out: &mut [i64]) -> Result<usize, Refusal>
    ensures outcome { result ≡ written_of (reconstruction h (length out.old)) }
    ensures cells { out.new ≡ leaves (reconstruction h (length out.old)) out.old }
{
    tried(h, false, out)
}

// By a search for the price.
pub fn price(h: Hour, out: &mut [i64]) -> Result<usize, Refusal>
    ensures outcome { result ≡ written_of (reconstruction h (length out.old)) }
    ensures cells { out.new ≡ leaves (reconstruction h (length out.old)) out.old }
{
    tried(h, true, out)
}
