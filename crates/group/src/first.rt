// A remainder's first way by lines that the caller keeps from group to group: down to the normal lows, or up.
// The contracts cite specs/FirstWay.
ghost use Rattle.std.specs.Prelude.{◌≡◌, ◌<◌, length, replicate};
ghost use Rattle.rules.specs.Words.{sum_to};
ghost use Rattle.cutoff.specs.Lines.{lanes, at};
ghost use Rattle.dispatch.specs.Taken.{Sources};
ghost use Rattle.ladder.specs.Ready.{Ready, AllReady};
ghost use Rattle.group.specs.FirstWay.{pick, RoomsSmall, FirstTaken, Renewed, FirstLines};

use curve::Rung;
use cutoff::LANES;
use ladder::Way;
use rules::Running;

fn sum_of(cap: &[u64; LANES], n: usize) -> u64
    requires { RoomsSmall cap.now n }
    ensures { result ≡ sum_to (at cap.now) n }
{
    let mut sum: u64 = 0;
    for i in 0..n {
        sum += cap[i];
    }
    sum
}

// What it takes of each source, where it has room for the rest; whether it has.
fn take_within(
    by_price: bool,
    up: bool,
    one: &[u64; LANES],
    step: &[u64; LANES],
    cap: &[u64; LANES],
    n: usize,
    rest: u64,
    taken: &mut [u64; LANES],
) -> bool
    requires sources { Sources one.now step.now cap.now n }
    requires blank { taken.old ≡ replicate lanes 0 }
    ensures { FirstTaken up one.now step.now cap.now n rest result taken.new }
{
    if sum_of(cap, n) < rest {
        return false;
    }
    ladder::shift::take(by_price, up, one, step, cap, n, rest, taken);
    true
}

// Of the lines down, or of those up.
pub fn take_first(
    by_price: bool,
    up: bool,
    step: &[u64; LANES],
    down: &[u64; LANES],
    room: &[u64; LANES],
    above: &[u64; LANES],
    head: &[u64; LANES],
    n: usize,
    rest: u64,
    taken: &mut [u64; LANES],
) -> bool
    requires sources { Sources (pick up down.now above.now) step.now (pick up room.now head.now) n }
    requires blank { taken.old ≡ replicate lanes 0 }
    ensures { FirstTaken up (pick up down.now above.now) step.now (pick up room.now head.now) n rest result taken.new }
{
    if up {
        return take_within(by_price, up, above, step, head, n, rest, taken);
    }
    take_within(by_price, up, down, step, room, n, rest, taken)
}

// Both lines of source i.
pub fn renew(
    down: &mut [u64; LANES],
    room: &mut [u64; LANES],
    above: &mut [u64; LANES],
    head: &mut [u64; LANES],
    i: usize,
    s: Running,
)
    requires { (i < lanes) × Ready s }
    ensures { Renewed s i down.old room.old above.old head.old down.new room.new above.new head.new }
{
    ladder::set_line(Way::Down(Rung::Normal), down, room, i, s);
    ladder::set_line(Way::Up, above, head, i, s);
}

// All lines.
pub fn line_up(
    states: &[Running; 32],
    n: usize,
    step: &mut [u64; LANES],
    down: &mut [u64; LANES],
    room: &mut [u64; LANES],
    above: &mut [u64; LANES],
    head: &mut [u64; LANES],
)
    requires all_ready { AllReady states.now n }
    requires long { (length step.old ≡ lanes) × (length down.old ≡ lanes) × (length room.old ≡ lanes) × (length above.old ≡ lanes) × (length head.old ≡ lanes) }
    ensures { FirstLines states.now step.new down.new room.new above.new head.new n }
{
    for i in 0..n {
        let s = states[i];
        step[i] = ladder::shift::step_of(s.plant);
        renew(down, room, above, head, i, s);
    }
}
