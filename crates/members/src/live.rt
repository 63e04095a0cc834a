// The amounts of a group that are not 0, in the order of their places.
ghost use Rattle.std.specs.Prelude.{◌≡◌, ◌≤◌, ◌<◌, ◌+◌, ℕ, take, length};
ghost use Rattle.rules.specs.Group.{Amount};
ghost use Rattle.rules.specs.Hour.{pair_width};
ghost use Rattle.members.specs.Live.{row_width, Listed, Items, pushed};

use moves::{PAIR_CELLS, Taken};

// A row's cells: a pair's, of each of 32 sources.
pub const ROW_CELLS: usize = 32 * PAIR_CELLS;

// An amount, and its place in a row.
#[derive(Clone, Copy)]
pub struct Placed {
    pub place: usize,
    pub amount: Taken,
}

#[derive(Drop)]
pub struct Live {
    placed: [Placed; ROW_CELLS],
    len: usize,
    ghost within: { len ≤ row_width },
}

impl Live {
    pub fn new() -> Live
        ensures { result.len ≡ 0 }
    {
        let amount = Taken {
            size: 0,
            minus: false,
        };
        Live {
            placed: [Placed { place: 0, amount }; ROW_CELLS],
            len: 0,
        }
    }

    pub fn clear(&mut self)
        ensures { self.new.len ≡ 0 }
    {
        self.len = 0;
    }

    pub fn as_slice(&self) -> &[Placed]
        ensures { result.now ≡ take self.now.len self.now.placed }
    {
        &self.placed[..self.len]
    }

    // An amount at a place after theirs.
    fn push(&mut self, place: usize, amount: Taken)
        requires { self.old.len < row_width }
        ensures few { self.new.len ≤ self.old.len + 1 }
        ensures listed { take self.new.len self.new.placed ≡ pushed (take self.old.len self.old.placed) place amount }
    {
        self.placed[self.len] = Placed { place, amount };
        if amount.size != 0 {
            self.len += 1;
        }
    }

    // One source's amounts, item by item, from a place on.
    pub fn push_items(&mut self, from: usize, amounts: [Taken; PAIR_CELLS])
        requires { (self.old.len ≤ from) × (from + pair_width ≤ row_width) }
        ensures few { self.new.len ≤ from + pair_width }
        ensures listed { (a : ℕ → Amount) → Items a from amounts → Listed a from (take self.old.len self.old.placed) → Listed a (from + pair_width) (take self.new.len self.new.placed) }
    {
        for (item, amount) in amounts.iter().enumerate() {
            self.push(from + item, *amount);
        }
    }
}
