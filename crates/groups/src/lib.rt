// Every group of an hour in its turn, by either engine: the states in the end, and where each group found and left each source.
// The contracts cite specs/: GroupTurns for where a run stands, RowKept and MovesOfGroups for what the table keeps.
#![tactic(auto)]

ghost use Rattle.std.specs.Prelude.{true, ◌≡◌, ◌<◌, replicate};
ghost use Rattle.rules.specs.Group.{opened};
ghost use Rattle.rules.specs.Writing.{valid};
ghost use Rattle.members.specs.Members.{MwhsOf};
ghost use Rattle.ladder.specs.Ready.{AllReady};
ghost use Rattle.groups.specs.RowKept.{Carried};
ghost use Rattle.groups.specs.StatesOpened.{no_plant};
ghost use Rattle.groups.specs.GroupTurns.{KeysOf, Blank, Turned};

use rules::{Hour, Key, Plant, Refusal, Running};

// A source at the hour's start.
pub fn open(p: Plant) -> Running
    ensures { result ≡ opened p }
{
    Running {
        plant: p,
        v: p.generation(),
        d: 0,
        b: 0,
        based: false,
        percent: 0,
    }
}

// The states before any source is opened.
pub fn blank_states() -> [Running; 32]
    ensures { result ≡ replicate 32 (opened no_plant) }
{
    [open(Plant::Fixed { g: 0 }); 32]
}

// Where each source went.
fn keep_all(kept: &mut [u64; 1024], lead: usize, from: &[Running; 32], to: &[Running; 32], n: usize)
    requires { (lead < 32) × AllReady from.now n × AllReady to.now n }
    ensures { Carried lead n from.now kept.old to.now kept.new }
{
    for i in 0..n {
        moves::keep(kept, lead * 32 + i, from[i], to[i]);
    }
}

// Every key that a delivery has, in its turn: its D lines and its remainder; the first refusal ends the run.
// Where each source went is kept in the row of the group's first member, and one more than the group's MWh beside that member.
// The lines of a remainder's first way are kept, and renewed where a source changes. The states lent are those in the end, whatever they were.
pub fn take_turns(
    h: Hour,
    keys: [Key; 32],
    by_price: bool,
    mwhs: &[u64; 32],
    led: &mut [u64; 32],
    kept: &mut [u64; 1024],
    states: &mut [Running; 32],
) -> Result<(), Refusal>
    requires { (valid h ≡ true) × KeysOf h keys × MwhsOf h mwhs.now × Blank led.old kept.old }
    ensures { Turned h keys result states.new led.new kept.new }
{
    let n = h.nsources;
    *states = blank_states();
    let mut step: [u64; 32] = [0; 32];
    let mut down: [u64; 32] = [0; 32];
    let mut room: [u64; 32] = [0; 32];
    let mut above: [u64; 32] = [0; 32];
    let mut head: [u64; 32] = [0; 32];
    for a in 0..n {
        let source = h.sources[a];
        let p = source.plant;
        let s = open(p);
        states[a] = s;
        step[a] = ladder::shift::step_of(p);
        group::first::renew(&mut down, &mut room, &mut above, &mut head, a, s);
    }
    let mut next = sequence::next_after(&keys, h.ndeliveries, sequence::BEFORE_ALL);
    while let Some(key) = next {
        let lead = members::lead_of(&keys, h.ndeliveries, key);
        let k = h.ndirects;
        let mut took: u64 = 0;
        for q in 0..k {
            let line = h.directs[q];
            let source = line.source;
            let delivery = line.delivery;
            let its = keys[delivery];
            if its == key {
                let s = states[source];
                let t = group::allocate(s, line);
                took += (t.d - s.d) as u64;
                moves::keep(kept, lead * 32 + source, s, t);
                states[source] = t;
                group::first::renew(&mut down, &mut room, &mut above, &mut head, source, t);
            }
        }
        let total = members::total_of(mwhs, h.ndeliveries, &keys, key);
        let up = total < took;
        let rest = numbers::distance(total, took);
        let mut taken: [u64; 32] = [0; 32];
        let enough = group::first::take_first(
            by_price, up, &step, &down, &room, &above, &head, n, rest, &mut taken,
        );
        if enough {
            for i in 0..n {
                let m = taken[i];
                if 0 < m {
                    let t = states[i];
                    let u = ladder::shift::shift_one(up, t, m);
                    moves::keep(kept, lead * 32 + i, t, u);
                    states[i] = u;
                    group::first::renew(&mut down, &mut room, &mut above, &mut head, i, u);
                }
            }
        } else {
            let before = *states;
            group::settle(key.number, n, total, took, by_price, states)?;
            keep_all(kept, lead, &before, states, n);
            group::first::line_up(
                states, n, &mut step, &mut down, &mut room, &mut above, &mut head,
            );
        }
        led[lead] = total + 1;
        next = sequence::next_after(&keys, h.ndeliveries, key);
    }
    Ok(())
}
