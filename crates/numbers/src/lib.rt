// Of two numbers: the one less the other, the lesser, and how far apart they are. Internal: every crate of code may call it.
#![tactic(auto)]

ghost use Rattle.std.specs.Prelude.{◌≡◌, ◌+◌, ◌-◌, min};

// a less b, or 0 where a is below it.
pub fn less(a: u64, b: u64) -> u64
    ensures { result ≡ a - b }
{
    if a < b { 0 } else { a - b }
}

pub fn least(a: u64, b: u64) -> u64
    ensures { result ≡ min a b }
{
    if b < a { b } else { a }
}

pub fn distance(a: u64, b: u64) -> u64
    ensures { result ≡ (a - b) + (b - a) }
{
    if a < b { b - a } else { a - b }
}
