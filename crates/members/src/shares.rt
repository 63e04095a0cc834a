// The members' shares of a group's amount, from running sums.
// The contracts cite `up_to` and `signed` of rules' Group; `member_share` in specs/ has rules' `share` in these words.
ghost use Rattle.std.specs.Prelude.{◌≡◌, ◌-◌, ◌≤◌};
ghost use Rattle.rules.specs.Group.{up_to, signed};

// What the first c members, with m MWh of the group's x, have of an amount. The product is at most 10^14·64,000.
pub fn part_up_to(x: u64, size: u64, c: u64, m: u64) -> u64
    requires { (size ≤ 100_000_000_000_000) × (m ≤ 64_000) }
    ensures { result ≡ up_to x size c m }
{
    if 0 < x {
        return size * m / x;
    }
    if c == 0 {
        return 0;
    }
    size
}

fn with_sign(minus: bool, size: u64) -> i64
    requires { size ≤ 100_000_000_000_000 }
    ensures { result ≡ signed minus size }
{
    let x = size as i64;
    if minus { -x } else { x }
}

// A member's share: what all have with it, less what they had before it.
pub fn share_of(minus: bool, with: u64, before: u64) -> i64
    requires { (before ≤ with) × (with ≤ 100_000_000_000_000) }
    ensures { result ≡ signed minus (with - before) }
{
    with_sign(minus, with - before)
}
