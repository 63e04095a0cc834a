// A refusal's number and place, and both in one number. The contracts cite rules' Refusals, and Codes.
#![tactic(auto)]

ghost use Rattle.std.specs.Prelude.{◌≡◌};
ghost use Rattle.rules.specs.Refusals.{number_of, place_of};
ghost use Rattle.refusals.specs.Codes.{code_of};

use rules::Refusal;

// Above every place that a refusal of a call has.
const PLACES: u64 = 4_294_967_296;

pub fn number_of(r: Refusal) -> u64
    ensures { result ≡ number_of r }
{
    match r {
        Refusal::TooLong => 1,
        Refusal::Form(_) => 2,
        Refusal::Range(_) => 3,
        Refusal::Full(_) => 4,
        Refusal::Used(_) => 5,
        Refusal::Levels(_) => 6,
        Refusal::Names(_) => 7,
        Refusal::OtherBasis(_) => 8,
        Refusal::Percents(_) => 9,
        Refusal::Overdrawn => 10,
        Refusal::Unplaced(_) => 11,
        Refusal::NoRoom(_) => 12,
        Refusal::NoHeadroom(_) => 13,
        Refusal::Short => 14,
        Refusal::NoDeck => 15,
        Refusal::FileRecord(_) => 16,
    }
}

pub fn place_of(r: Refusal) -> usize
    ensures { result ≡ place_of r }
{
    match r {
        Refusal::Form(line)
        | Refusal::Range(line)
        | Refusal::Full(line)
        | Refusal::Used(line)
        | Refusal::Levels(line)
        | Refusal::Names(line)
        | Refusal::OtherBasis(line)
        | Refusal::Percents(line)
        | Refusal::Unplaced(line) => line,
        Refusal::NoRoom(x) | Refusal::NoHeadroom(x) => x.0 as usize,
        Refusal::FileRecord(n) => n,
        Refusal::TooLong | Refusal::Overdrawn | Refusal::Short | Refusal::NoDeck => 0,
    }
}

// Both in one number.
pub fn code_of(r: Refusal) -> u64
    ensures { result ≡ code_of r }
{
    let number = number_of(r);
    let place = place_of(r) as u64;
    number * PLACES + place % PLACES
}
