// For timing: one group's remainder from the states at the hour's start, over and over.
ghost use Rattle.std.specs.Prelude.{◌≡◌, map};
ghost use Rattle.rules.specs.Group.{opened};
ghost use Rattle.ladder.specs.Ready.{AllReady};

use rules::{Hour, InternalSequence, Running, Source};

// Every source at the hour's start.
fn open_all(sources: [Source; 32]) -> [Running; 32]
    ensures { result ≡ map (λ s. opened s.plant) sources }
{
    let mut states = groups::blank_states();
    for i in 0..32 {
        states[i] = groups::open(sources[i].plant);
    }
    states
}

// One more than the sum of one level of each result, of each source in turn, so that no result can be left out.
fn repeat(
    states: [Running; 32],
    n: usize,
    total: u64,
    took: u64,
    by_price: bool,
    times: usize,
) -> u64
    requires { AllReady states n }
{
    let mut sum: u64 = 1;
    for turn in 0..times {
        let mut after = states;
        let _ = group::settle(InternalSequence(0), n, total, took, by_price, &mut after);
        sum = std::num::wrapping_add_u64(sum, after[turn % 32].v as u64);
    }
    sum
}

// The level of each source, where 32 are lent.
fn put_levels(states: &[Running; 32], levels: &mut [u64]) {
    if levels.len() < 32 {
        return;
    }
    for i in 0..32 {
        levels[i] = states[i].v as u64;
    }
}

// The sum of so many results, and the levels after one; 0, and no level, where the remainder is refused.
pub fn settle_often(
    h: Hour,
    total: u64,
    took: u64,
    by_price: bool,
    times: usize,
    levels: &mut [u64],
) -> u64 {
    if !record::valid(h) {
        return 0;
    }
    let sources = h.sources;
    let states = open_all(sources);
    let mut after = states;
    let Ok(()) = group::settle(
        InternalSequence(0),
        h.nsources,
        total,
        took,
        by_price,
        &mut after,
    ) else {
        return 0;
    };
    put_levels(&after, levels);
    repeat(states, h.nsources, total, took, by_price, times)
}
