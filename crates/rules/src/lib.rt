// The types of document 01: an hour record, a source's running state, and a refusal, with the methods that are asked for by name.
// The rules over them are in specs/, as definitions that compute; all other code stands in the crates above.
#![tactic(auto)]

ghost use Rattle.std.specs.Prelude.{◌≡◌, ◌+◌, ◌-◌, ◌*◌, ◌/◌, ◌≤◌};
ghost use Rattle.rules.specs.Units.{generation, curve_inside, curve_made};
ghost use Rattle.rules.specs.Group.{based_on, renewed};
ghost use Rattle.rules.specs.Answers.{answer_of};

// The curve's start k, its coefficients A, B and C in thousandths, and the rate R. Its fields are closed: `new` alone makes one.
#[derive(Clone, Copy, PartialEq, Eq)]
pub struct HeatCurve {
    k: u32,
    a: u32,
    b: u32,
    c: u32,
    r: u32,
}

impl HeatCurve {
    pub const LEAST_START: u32 = 1;

    pub const MOST_START: u32 = 2000;

    pub const MOST_A: u32 = 999_999;

    pub const MOST_B: u32 = 99_999;

    pub const MOST_C: u32 = 99;

    pub const MOST_RATE: u32 = 39_996;

    // Whether coefficients are within these ranges.
    fn inside(k: u32, a: u32, b: u32, c: u32, r: u32) -> bool
        ensures { result ≡ curve_inside (record { k = k; a = a; b = b; c = c; r = r }) }
    {
        HeatCurve::LEAST_START <= k
            && k <= HeatCurve::MOST_START
            && a <= HeatCurve::MOST_A
            && b <= HeatCurve::MOST_B
            && c <= HeatCurve::MOST_C
            && r <= HeatCurve::MOST_RATE
    }

    // A curve only from coefficients within these ranges.
    pub fn new(k: u32, a: u32, b: u32, c: u32, r: u32) -> Result<HeatCurve, Refusal>
        ensures { result ≡ answer_of (curve_made (record { k = k; a = a; b = b; c = c; r = r })) }
    {
        if !HeatCurve::inside(k, a, b, c, r) {
            return Err(Refusal::Range(0));
        }
        Ok(HeatCurve { k, a, b, c, r })
    }

    // The same of a curve at hand, for the test of 15: no contract sees that its fields are closed.
    pub fn is_inside(self) -> bool
        ensures { result ≡ curve_inside self }
    {
        HeatCurve::inside(self.k, self.a, self.b, self.c, self.r)
    }

    pub fn k(self) -> u32
        ensures { result ≡ self.k }
    {
        self.k
    }

    pub fn a(self) -> u32
        ensures { result ≡ self.a }
    {
        self.a
    }

    pub fn b(self) -> u32
        ensures { result ≡ self.b }
    {
        self.b
    }

    pub fn c(self) -> u32
        ensures { result ≡ self.c }
    {
        self.c
    }

    pub fn r(self) -> u32
        ensures { result ≡ self.r }
    {
        self.r
    }
}

// A unit's levels, generation, high, normal low, oil point low and emergency low, and its curve.
#[derive(Clone, Copy, PartialEq, Eq)]
pub struct Unit {
    pub g: u32,
    pub h: u32,
    pub n: u32,
    pub o: u32,
    pub e: u32,
    pub curve: HeatCurve,
}

#[derive(Clone, Copy, PartialEq, Eq)]
pub enum Plant {
    Unit(Unit),
    Purchase { g: u32, rate: u32 },
    Fixed { g: u32 },
}

impl Plant {
    pub fn generation(self) -> u32
        ensures { result ≡ generation self }
    {
        match self {
            Plant::Unit(u) => u.g,
            Plant::Purchase { g, rate: _ } => g,
            Plant::Fixed { g } => g,
        }
    }
}

// A label's characters, and zeros after them.
#[derive(Clone, Copy, PartialEq, Eq)]
pub struct Label {
    pub len: u8,
    pub bytes: [u8; 16],
}

#[derive(Clone, Copy, PartialEq, Eq)]
pub struct Source {
    pub plant: Plant,
    pub label: Label,
}

// The number on a T line; 0 means "to be placed".
#[derive(Clone, Copy, PartialEq, Eq, PartialOrd, Ord)]
pub struct InputSequence(pub u32);

#[derive(Clone, Copy, PartialEq, Eq, PartialOrd, Ord)]
pub struct InternalSequence(pub u32);

// What makes a group: deliveries of one key are its members.
#[derive(Clone, Copy, PartialEq, Eq)]
pub struct Key {
    pub number: InternalSequence,
}

#[derive(Clone, Copy, PartialEq, Eq)]
pub struct Delivery {
    pub sequence: InputSequence,
    pub kind: u32,
    pub block: u32,
    pub mwh: u32,
    pub label: Label,
}

#[derive(Clone, Copy, PartialEq, Eq)]
pub enum Basis {
    Low,
    Generation,
    Mwh(u32),
}

// A D line: which source and which delivery it names, from 0.
#[derive(Clone, Copy, PartialEq, Eq)]
pub struct Direct {
    pub basis: Basis,
    pub percent: u32,
    pub source: usize,
    pub delivery: usize,
}

// One hour; the entries past each count are blank.
#[derive(Clone, Copy, PartialEq, Eq)]
pub struct Hour {
    pub losses: u32,
    pub nsources: usize,
    pub ndeliveries: usize,
    pub ndirects: usize,
    pub sources: [Source; 32],
    pub deliveries: [Delivery; 32],
    pub directs: [Direct; 32],
}

// A source's running state: its plant, open energy v, directly taken d, basic amount b and whether it is set,
// and the percent total so far.
#[derive(Clone, Copy, PartialEq, Eq)]
pub struct Running {
    pub plant: Plant,
    pub v: u32,
    pub d: u32,
    pub b: u32,
    pub based: bool,
    pub percent: u32,
}

impl Running {
    // The state after a direct allocation: mwh taken in all, the percent total's part of the basic amount b.
    pub fn with_direct(self, mwh: u32, b: u32, percent: u32) -> Running
        requires { (mwh ≡ b * percent / 100) × (self.d ≤ mwh) × (mwh ≤ self.v + self.d) }
        ensures { result ≡ renewed (based_on self b) percent }
    {
        let p = self.plant;
        Running {
            plant: p,
            v: self.v - (mwh - self.d),
            d: mwh,
            b: b,
            based: true,
            percent: percent,
        }
    }
}

// Why a call refuses, 1 to 16 in their order, with the line, the internal number or the record that it names.
#[derive(Clone, Copy, PartialEq, Eq)]
pub enum Refusal {
    TooLong,
    Form(usize),
    Range(usize),
    Full(usize),
    Used(usize),
    Levels(usize),
    Names(usize),
    OtherBasis(usize),
    Percents(usize),
    Overdrawn,
    Unplaced(usize),
    NoRoom(InternalSequence),
    NoHeadroom(InternalSequence),
    Short,
    NoDeck,
    FileRecord(usize),
}
