// Each delivery's key, its internal number: ten times its input number, or a place beside those of deliveries that have one; and the key whose turn comes next.
// The contracts cite rules' Sequences and Hour, `placings` of specs/, rules' `numbered` of each delivery, and NextKey.
#![tactic(auto)]

ghost use Rattle.std.specs.Prelude.{◌≡◌, ◌≤◌, ℕ, Bool, length};
ghost use Rattle.std.specs.Fn.{FnReturnsAt};
ghost use Rattle.std.proofs.Math.Option.{some};
ghost use Rattle.rules.specs.Sequences.{times_ten, matches, before, after, rule_a, rule_b, rule_c, rule_d, rule_e, placed, numbered};
ghost use Rattle.rules.specs.Hour.{goes_before};
ghost use Rattle.rules.specs.declared.Delivery.{Delivery};
ghost use Rattle.sequence.specs.Matches.{option_of, Tests, Picks};
ghost use Rattle.sequence.specs.Placings.{Placeable, placings};
ghost use Rattle.sequence.specs.NextKey.{Next};

use rules::{Delivery, InputSequence, InternalSequence, Key};

const NO_NUMBER: InternalSequence = InternalSequence(0);

// Before every key that a delivery has.
pub const BEFORE_ALL: Key = Key {
    number: InternalSequence(1000),
};

// Numbers are made by these three alone.

fn times_ten(s: InputSequence) -> InternalSequence
    requires { s.0 ≤ 99 }
    ensures { result ≡ times_ten s }
{
    InternalSequence(10 * s.0)
}

// A least match - 1.
fn one_before(x: InternalSequence) -> InternalSequence
    ensures { some result ≡ before (some x) }
{
    InternalSequence(x.0.saturating_sub(1))
}

// A greatest match + 1.
fn one_after(x: InternalSequence) -> InternalSequence
    requires { x.0 ≤ 990 }
    ensures { some result ≡ after (some x) }
{
    InternalSequence(x.0 + 1)
}

// Of the deliveries that have a number and fit, the number that `pick` leaves.
fn best_match<
    F: Fn(&Delivery) -> bool,
    P: Fn(InternalSequence, InternalSequence) -> InternalSequence,
>(ts: &[Delivery], fits: F, pick: P) -> Option<InternalSequence>
    requires ranged { Placeable ts.now (length ts.now) }
    requires tests { F.IsAlwaysCallable fits }
    requires picks { P.IsAlwaysCallable pick }
    ensures { (p : Delivery → Bool) → (f : ℕ → ℕ → ℕ) → Tests (FnReturnsAt F.Fn fits) p → Picks (P.post pick) f → result ≡ option_of (matches f p ts.now (length ts.now)) }
{
    let mut found = None;
    for o in ts {
        if o.sequence.0 != 0 && fits(o) {
            let number = times_ten(o.sequence);
            found = Some(match found {
                Some(x) => pick(x, number),
                None => number,
            });
        }
    }
    found
}

// a) same type and block: least match - 1.
fn rule_a(ts: &[Delivery], t: &Delivery) -> Option<InternalSequence>
    requires { Placeable ts.now (length ts.now) }
    ensures { result ≡ option_of (rule_a ts.now (length ts.now) t.now) }
{
    best_match(ts, |o| o.kind == t.kind && o.block == t.block, Ord::min).map(one_before)
}

// b) same type, block + 1: least match - 1.
fn rule_b(ts: &[Delivery], t: &Delivery) -> Option<InternalSequence>
    requires { Placeable ts.now (length ts.now) × (t.now.block ≤ 99) }
    ensures { result ≡ option_of (rule_b ts.now (length ts.now) t.now) }
{
    let block = t.block + 1;
    best_match(ts, |o| o.kind == t.kind && o.block == block, Ord::min).map(one_before)
}

// c) same type, block - 1, skipped where that is 0: greatest match + 1.
fn rule_c(ts: &[Delivery], t: &Delivery) -> Option<InternalSequence>
    requires { Placeable ts.now (length ts.now) }
    ensures { result ≡ option_of (rule_c ts.now (length ts.now) t.now) }
{
    let block = t.block.saturating_sub(1);
    best_match(
        ts,
        |o| o.kind == t.kind && block != 0 && o.block == block,
        Ord::max,
    )
    .map(one_after)
}

// d) same type: least match - 1.
fn rule_d(ts: &[Delivery], t: &Delivery) -> Option<InternalSequence>
    requires { Placeable ts.now (length ts.now) }
    ensures { result ≡ option_of (rule_d ts.now (length ts.now) t.now) }
{
    best_match(ts, |o| o.kind == t.kind, Ord::min).map(one_before)
}

// e) any: least - 1.
fn rule_e(ts: &[Delivery]) -> Option<InternalSequence>
    requires { Placeable ts.now (length ts.now) }
    ensures { result ≡ option_of (rule_e ts.now (length ts.now)) }
{
    best_match(ts, |_| true, Ord::min).map(one_before)
}

// The number of a delivery to be placed: the first rule that finds any decides.
fn place(ts: &[Delivery], t: &Delivery) -> Option<InternalSequence>
    requires { Placeable ts.now (length ts.now) × (t.now.block ≤ 99) }
    ensures { result ≡ option_of (placed ts.now (length ts.now) t.now) }
{
    rule_a(ts, t)
        .or_else(|| rule_b(ts, t))
        .or_else(|| rule_c(ts, t))
        .or_else(|| rule_d(ts, t))
        .or_else(|| rule_e(ts))
}

fn number(ts: &[Delivery], t: &Delivery) -> Option<InternalSequence>
    requires { Placeable ts.now (length ts.now) × (t.now.block ≤ 99) × (t.now.sequence.0 ≤ 99) }
    ensures { result ≡ option_of (numbered ts.now (length ts.now) t.now) }
{
    if t.sequence.0 == 0 {
        return place(ts, t);
    }
    Some(times_ten(t.sequence))
}

// The keys of the first n deliveries, and none past them.
pub fn keys(ts: &[Delivery; 32], n: usize) -> [Key; 32]
    requires { Placeable ts.now n }
    ensures { result ≡ placings ts.now n }
{
    let numbered = &ts[..n];
    let mut placed = [Key { number: NO_NUMBER }; 32];
    for (j, t) in numbered.iter().enumerate() {
        placed[j] = Key {
            number: number(numbered, t).unwrap_or(NO_NUMBER),
        };
    }
    placed
}

// Whether x's turn comes before y's.
fn goes_before(x: Key, y: Key) -> bool
    ensures { result ≡ goes_before x y }
{
    y.number < x.number
}

// The first key after x that one of the first n deliveries has.
pub fn next_after(keys: &[Key; 32], n: usize, x: Key) -> Option<Key>
    requires { n ≤ 32 }
    ensures { Next keys.now n x result }
{
    keys[..n]
        .iter()
        .copied()
        .filter(|y| goes_before(x, *y))
        .max_by_key(|y| y.number)
}
