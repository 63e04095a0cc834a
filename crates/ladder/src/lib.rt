// A remainder's ways: the room of a source and of all, by each, and a source's line; and the ladder's last step.
// The contracts cite rules' Group: `all`, `plain`, `last_step` and `to_emergency`, and specs/ for what an engine makes of a way's lines.
#![tactic(auto)]

pub mod shift;

ghost use Rattle.std.specs.Prelude.{◌≡◌, ◌+◌, ◌≤◌, ◌<◌};
ghost use Rattle.cutoff.specs.Lines.{lanes};
ghost use Rattle.rules.specs.Group.{all, room, emergency, last, unit_room, plain, last_step, to_emergency};
ghost use Rattle.ladder.specs.Ready.{Ready, AllReady};
ghost use Rattle.ladder.specs.Ways.{way_of, up_of, LineSet};
ghost use Rattle.ladder.specs.LastStep.{before, Chosen};

use curve::Rung;
use cutoff::LANES;
use rules::{Plant, Running};

// Down by a rung of the ladder, or up for a credit.
#[derive(Clone, Copy)]
pub enum Way {
    Down(Rung),
    Up,
}

// By how many MWh a source may still be moved.
pub fn room_by(way: Way, s: Running) -> u64
    requires { Ready s }
    ensures { (result ≡ (way_of way).room s) × (result ≤ 2000) }
{
    match way {
        Way::Down(x) => curve::room_of(s, x) as u64,
        Way::Up => curve::headroom_of(s) as u64,
    }
}

fn up_of(way: Way) -> bool
    ensures { result ≡ up_of way }
{
    match way {
        Way::Down(_) => false,
        Way::Up => true,
    }
}

// The top of a source's line and its room, put in their places.
pub fn set_line(
    way: Way,
    one: &mut [u64; LANES],
    cap: &mut [u64; LANES],
    i: usize,
    s: Running,
) -> u64
    requires i_lt_lanes { i < lanes }
    requires ready { Ready s }
    ensures { LineSet way s i one.old cap.old one.new cap.new result }
{
    let room = room_by(way, s);
    let top = shift::top_of(up_of(way), s, room);
    one[i] = top;
    cap[i] = room;
    room
}

// By how many the first n together.
pub fn rooms(way: Way, states: &[Running; 32], n: usize) -> u64
    requires { AllReady states.now n }
    ensures { result ≡ all (way_of way).room states.now n }
{
    let mut sum: u64 = 0;
    for i in 0..n {
        sum += room_by(way, states[i]);
    }
    sum
}

// Each source at its emergency floor, where it is above it.
fn to_emergency(states: &mut [Running; 32])
    requires { AllReady states.old 32 }
    ensures { states.new ≡ to_emergency states.old }
{
    for i in 0..32 {
        let s = states[i];
        let room = room_by(Way::Down(Rung::Emergency), s);
        states[i] = shift::shift_one(false, s, room);
    }
}

// By how many MWh the last step may lower a source: a unit alone.
fn unit_room(s: Running) -> u64
    requires { Ready s }
    ensures { (result ≡ unit_room s) × (result ≤ 2000) }
{
    let p = s.plant;
    match p {
        Plant::Unit(_) => curve::room_of(s, Rung::Last) as u64,
        Plant::Purchase { g: _, rate: _ } => 0,
        Plant::Fixed { g: _ } => 0,
    }
}

// Whether a source is lowered before the one found so far, if one was.
fn goes_before(s: Running, found: bool, other: Running) -> bool
    requires { Ready s × Ready other }
    ensures { result ≡ before found s other }
{
    if unit_room(s) == 0 {
        return false;
    }
    if found {
        return curve::dearer_average(s, other);
    }
    true
}

// The source with room whose average is highest, a tie to the earlier; n where none has room.
fn dearest(states: &[Running; 32], n: usize) -> usize
    requires { AllReady states.now n }
    ensures { Chosen states.now n result }
{
    let mut best = n;
    let mut other = states[0];
    for i in 0..n {
        let s = states[i];
        if goes_before(s, best < n, other) {
            best = i;
            other = s;
        }
    }
    best
}

// One source after another, each by all that it has or that is left.
fn last_step(states: &mut [Running; 32], n: usize, total: u64)
    requires all_ready { AllReady states.old n }
    requires room { total ≤ all unit_room states.old n }
    ensures { states.new ≡ plain last_step n states.old total }
{
    let mut rest = total;
    // no `for`: a turn takes as many MWh as the dearest source has
    while 0 < rest {
        let i = dearest(states, n);
        let s = states[i];
        let room = unit_room(s);
        let k = numbers::least(room, rest);
        states[i] = shift::shift_one(false, s, k);
        rest -= k;
    }
}

// The last step from the emergency floors, with what these leave of the remainder.
pub fn below_emergency(states: &mut [Running; 32], n: usize, total: u64)
    requires all_ready { AllReady states.old n }
    requires room { total + all (room emergency) states.old n ≤ all (room last) states.old n }
    ensures { states.new ≡ plain last_step n (to_emergency states.old) total }
{
    to_emergency(states);
    last_step(states, n, total);
}
