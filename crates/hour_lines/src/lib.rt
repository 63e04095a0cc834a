// The cells of an hour, and the amounts of its lines: the header's of the hour's sums, a pair's and a source's of the cells.
// The contracts cite rules' Hour, Calls and Report, and LineAmounts for the cells from a place on.
#![tactic(auto)]

ghost use Rattle.std.specs.Prelude.{◌≡◌, true, ◌+◌, ◌≤◌, ◌+ℤ◌, length};
ghost use Rattle.rules.specs.Answers.{written_of};
ghost use Rattle.rules.specs.Hour.{pair_width, open_width, cell_count, answer};
ghost use Rattle.rules.specs.Report.{hour_amounts, pair_amounts, open_amounts};
ghost use Rattle.rules.specs.Writing.{valid};
ghost use Rattle.rules.specs.Calls.{leaves};
ghost use Rattle.balance.specs.CellsFit.{SmallCell};
ghost use Rattle.sequence.specs.Placings.{placings};
ghost use Rattle.hour_lines.specs.LineAmounts.{SmallFirst, pair_from, open_from};

use moves::PAIR_CELLS;
use reconstruct::OPEN_CELLS;
use rules::{Hour, Key, Refusal};

// As many cells as an hour has at most, and as many as a small one may have.
pub const MOST_CELLS: usize = 32 * (32 * PAIR_CELLS) + 32 * OPEN_CELLS;

pub const FEW_CELLS: usize = 512;

// The cells of a valid hour, whose deliveries have these keys.
pub fn fill_cells(h: Hour, keys: [Key; 32], cells: &mut [i64]) -> Result<usize, Refusal>
    requires { (valid h ≡ true) × (keys ≡ placings h.deliveries h.ndeliveries) × (cell_count h ≤ length cells.old) }
    ensures outcome { result ≡ written_of (answer h) }
    ensures cells { cells.new ≡ leaves (answer h) cells.old }
{
    reconstruct::fill(h, keys, true, cells)
}

// How many amounts each line has.
pub const HOUR_AMOUNTS: usize = 4;

pub const PAIR_AMOUNTS: usize = 3;

pub const OPEN_AMOUNTS: usize = OPEN_CELLS;

// The header's: the internal load is what is left of the generation.
pub fn hour_amounts(generation: u64, losses: u64, deliveries: u64) -> [i64; HOUR_AMOUNTS]
    requires { (losses + deliveries ≤ generation) × (generation ≤ 100_000_000_000_000) }
    ensures { result ≡ hour_amounts generation losses deliveries }
{
    let load = generation - (losses + deliveries);
    [
        reconstruct::cell(generation),
        reconstruct::cell(losses),
        reconstruct::cell(deliveries),
        reconstruct::cell(load),
    ]
}

// A pair's costs in one sum.
fn both_costs(direct: i64, incremental: i64) -> i64
    requires { SmallCell direct × SmallCell incremental }
    ensures { result ≡ direct +ℤ incremental }
{
    direct + incremental
}

// What a pair's line prints of the pair's cells, which stand from a place on.
pub fn pair_amounts_at(cells: &[i64], k: usize) -> [i64; PAIR_AMOUNTS]
    requires { SmallFirst cells.now (k + pair_width) }
    ensures { result ≡ pair_amounts (pair_from cells.now k) }
{
    [
        cells[k],
        cells[k + 1],
        both_costs(cells[k + 2], cells[k + 3]),
    ]
}

// What an open line prints of the source's.
pub fn open_amounts_at(cells: &[i64], k: usize) -> [i64; OPEN_AMOUNTS]
    requires { SmallFirst cells.now (k + open_width) }
    ensures { result ≡ open_amounts (open_from cells.now k) }
{
    [cells[k], cells[k + 1]]
}
