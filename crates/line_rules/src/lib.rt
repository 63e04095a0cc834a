// Document 01's rules 2 to 9 tried in their order on one more line of a growing hour, and 10 and 11 at its end.
// Contracts cite rules' Reading, and of this crate Spellings (labels as numbers), Tried (2 to 9 on tables kept beside the hour) and Totalled (10 and 11 on totals kept beside it). Internal: the deck's crates and the test of 15 call it.
#![tactic(auto)]

ghost use Rattle.std.specs.Prelude.{◌≡◌, ◌&&◌, ◌+◌, ◌≤◌, ◌<◌, get_or, set, IfSome};
ghost use Rattle.rules.specs.Answers.{verdict_of};
ghost use Rattle.rules.specs.Units.{generation, ordered, levelled};
ghost use Rattle.rules.specs.Reading.{generated, delivered};
ghost use Rattle.line_rules.specs.Spellings.{half_of, spelling_of, same_spelling, spelling_found};
ghost use Rattle.line_rules.specs.Tried.{entry_of, Few, next_line, label_tried, source_tried, delivery_tried, unit_high, basis_code, code_leaves, below_most, pair_found, direct_tried, above_one, above_all, generated_to, delivered_to};
ghost use Rattle.line_rules.specs.Totalled.{source_totalled, delivery_totalled, finished_by};

use rules::{Basis, Delivery, Direct, Hour, InputSequence, Label, Plant, Refusal, Source, Unit};

// The sixteen bytes of a label as two numbers.
#[derive(Clone, Copy)]
pub struct Spelling {
    pub lo: u64,
    pub hi: u64,
}

// How many entries of each class the hour so far has.
#[derive(Clone, Copy)]
pub struct Counts {
    pub sources: usize,
    pub deliveries: usize,
    pub directs: usize,
}

#[derive(Clone, Copy)]
pub struct DirectLine {
    pub basis: Basis,
    pub percent: u32,
    pub unit: Spelling,
    pub delivery: Spelling,
}

// What 10 and 11 ask of the entries so far: the sums of what they generate and take, and whether a delivery has a number of its own.
#[derive(Clone, Copy)]
pub struct Totals {
    pub generated: u64,
    pub delivered: u64,
    pub numbered: bool,
}

fn byte(b: u8) -> u64
    ensures { (result ≡ b) × (result < 256) }
{
    b as u64
}

pub fn wide(x: u32) -> u64
    ensures { (result ≡ x) × (result < above_one) }
{
    x as u64
}

// Eight of a label's bytes to the base 256.
fn half_of(bytes: [u8; 16], from: usize) -> u64
    requires { from ≤ 8 }
    ensures { result ≡ half_of bytes from }
{
    let mut half: u64 = 0;
    for i in 0..8 {
        half = half * 256 + byte(bytes[from + i]);
    }
    half
}

pub fn spelling_of(l: Label) -> Spelling
    ensures { result ≡ spelling_of l }
{
    Spelling {
        lo: half_of(l.bytes, 0),
        hi: half_of(l.bytes, 8),
    }
}

fn same_spelling(a: Spelling, b: Spelling) -> bool
    ensures { result ≡ same_spelling a b }
{
    a.lo == b.lo && a.hi == b.hi
}

// The first of n places of the tables where a spelling stands.
pub fn find_spelling(lo: &[u64; 32], hi: &[u64; 32], n: usize, k: Spelling) -> Option<usize>
    requires { n ≤ 32 }
    ensures found { result ≡ spelling_found lo.now hi.now n k }
    ensures within { IfSome result (λ i. i < n) }
{
    for i in 0..n {
        let here = Spelling {
            lo: lo[i],
            hi: hi[i],
        };
        if same_spelling(here, k) {
            return Some(i);
        }
    }
    None
}

fn in_order(u: Unit) -> bool
    ensures { result ≡ ordered u }
{
    u.curve.k() <= u.e && u.e <= u.o && u.o <= u.n && u.n <= u.g && u.g <= u.h
}

fn in_levels(p: Plant) -> bool
    ensures { result ≡ levelled p }
{
    match p {
        Plant::Unit(u) => in_order(u),
        Plant::Purchase { .. } | Plant::Fixed { .. } => true,
    }
}

pub fn next_line(n: Counts) -> usize
    requires { Few n }
    ensures { result ≡ next_line n }
{
    n.sources + n.deliveries + n.directs + 2
}

// 3 to 5, of a line whose class has n entries.
#[tactic(auto, unfolding(crate::specs::Tried::label_tried))]
fn take_label(
    line: usize,
    ranged: bool,
    n: usize,
    spelling: Spelling,
    lo: &[u64; 32],
    hi: &[u64; 32],
) -> Result<(), Refusal>
    requires { n ≤ 32 }
    ensures { result ≡ verdict_of (label_tried line ranged n spelling lo.now hi.now) }
{
    if !ranged {
        return Err(Refusal::Range(line));
    }
    if 32 <= n {
        return Err(Refusal::Full(line));
    }
    if find_spelling(lo, hi, n, spelling).is_some() {
        return Err(Refusal::Used(line));
    }
    Ok(())
}

// A source line: 2 to 6.
#[tactic(auto, unfolding(crate::specs::Tried::source_tried))]
pub fn take_source(
    n: Counts,
    ranged: bool,
    plant: Plant,
    spelling: Spelling,
    lo: &[u64; 32],
    hi: &[u64; 32],
) -> Result<(), Refusal>
    requires { Few n }
    ensures { result ≡ verdict_of (source_tried n ranged plant spelling lo.now hi.now) }
{
    let line = next_line(n);
    if n.deliveries + n.directs != 0 {
        return Err(Refusal::Form(line));
    }
    take_label(line, ranged, n.sources, spelling, lo, hi)?;
    if !in_levels(plant) {
        return Err(Refusal::Levels(line));
    }
    Ok(())
}

// A T line: 2 to 5.
#[tactic(auto, unfolding(crate::specs::Tried::delivery_tried))]
pub fn take_delivery(
    n: Counts,
    ranged: bool,
    spelling: Spelling,
    lo: &[u64; 32],
    hi: &[u64; 32],
) -> Result<(), Refusal>
    requires { Few n }
    ensures { result ≡ verdict_of (delivery_tried n ranged spelling lo.now hi.now) }
{
    let line = next_line(n);
    if n.directs != 0 {
        return Err(Refusal::Form(line));
    }
    take_label(line, ranged, n.deliveries, spelling, lo, hi)
}

// A unit's high; 0 for a source that is no unit.
pub fn unit_high(p: Plant) -> u32
    ensures { result ≡ unit_high p }
{
    match p {
        Plant::Unit(u) => u.h,
        Plant::Purchase { .. } | Plant::Fixed { .. } => 0,
    }
}

pub fn basis_code(b: Basis) -> u64
    ensures { result ≡ basis_code b }
{
    match b {
        Basis::Low => 1,
        Basis::Generation => 2,
        Basis::Mwh(v) => wide(v) + 3,
    }
}

fn below_most(b: Basis, most: u32) -> bool
    ensures { result ≡ below_most b most }
{
    match b {
        Basis::Low | Basis::Generation => true,
        Basis::Mwh(v) => v < most,
    }
}

fn code_leaves(code: u64, b: Basis) -> bool
    ensures { result ≡ code_leaves code b }
{
    code == 0 || code == basis_code(b)
}

// The basis of a unit's earlier D lines, or none yet, and a number below its high (8).
pub fn basis_allowed(b: Basis, code: u64, most: u32) -> bool
    ensures { result ≡ (code_leaves code b && below_most b most) }
{
    code_leaves(code, b) && below_most(b, most)
}

// The tables after one entry more.

pub fn keep_spelling(i: usize, k: Spelling, lo: &mut [u64; 32], hi: &mut [u64; 32])
    requires { i < 32 }
    ensures lo { lo.new ≡ set lo.old i k.lo }
    ensures hi { hi.new ≡ set hi.old i k.hi }
{
    lo[i] = k.lo;
    hi[i] = k.hi;
}

// A source: its spelling, and the high of a unit.
pub fn keep_source(
    i: usize,
    k: Spelling,
    p: Plant,
    lo: &mut [u64; 32],
    hi: &mut [u64; 32],
    high: &mut [u32; 32],
)
    requires { i < 32 }
    ensures lo { lo.new ≡ set lo.old i k.lo }
    ensures hi { hi.new ≡ set hi.old i k.hi }
    ensures high { high.new ≡ set high.old i (unit_high p) }
{
    keep_spelling(i, k, lo, hi);
    high[i] = unit_high(p);
}

pub fn keep_direct(x: Direct, based: &mut [u64; 32], percents: &mut [u32; 32])
    requires { (x.source < 32) × (get_or percents.old x.source 0 + x.percent ≤ 100) }
    ensures based { based.new ≡ set based.old x.source (basis_code x.basis) }
    ensures percents { percents.new ≡ set percents.old x.source (get_or percents.old x.source 0 + x.percent) }
{
    let i = x.source;
    based[i] = basis_code(x.basis);
    percents[i] += x.percent;
}

// The unit and the delivery that a D line names (7).
#[tactic(auto, unfolding(crate::specs::Tried::pair_found))]
fn find_pair(
    n: Counts,
    x: DirectLine,
    slo: &[u64; 32],
    shi: &[u64; 32],
    tlo: &[u64; 32],
    thi: &[u64; 32],
    high: &[u32; 32],
) -> Option<(usize, usize)>
    requires { Few n }
    ensures found { result ≡ pair_found n x slo.now shi.now tlo.now thi.now high.now }
    ensures within { IfSome result (λ p. (p.0 < n.sources) × (p.1 < n.deliveries)) }
{
    let i = find_spelling(slo, shi, n.sources, x.unit)?;
    if high[i] == 0 {
        return None;
    }
    let j = find_spelling(tlo, thi, n.deliveries, x.delivery)?;
    Some((i, j))
}

// A D line: 3, 4 and 7 to 9.
#[tactic(auto, unfolding(crate::specs::Tried::direct_tried))]
pub fn take_direct(
    n: Counts,
    ranged: bool,
    x: DirectLine,
    slo: &[u64; 32],
    shi: &[u64; 32],
    tlo: &[u64; 32],
    thi: &[u64; 32],
    high: &[u32; 32],
    based: &[u64; 32],
    percents: &[u32; 32],
) -> Result<Direct, Refusal>
    requires { Few n }
    ensures { result ≡ entry_of (direct_tried n ranged x (record { slo = slo.entry.now; shi = shi.now; tlo = tlo.now; thi = thi.now; high = high.now; based = based.now; percents = percents.now })) }
{
    let line = next_line(n);
    if !ranged {
        return Err(Refusal::Range(line));
    }
    if 32 <= n.directs {
        return Err(Refusal::Full(line));
    }
    let Some((i, j)) = find_pair(n, x, slo, shi, tlo, thi, high) else {
        return Err(Refusal::Names(line));
    };
    if !basis_allowed(x.basis, based[i], high[i]) {
        return Err(Refusal::OtherBasis(line));
    }
    if 100 < wide(percents[i]) + wide(x.percent) {
        return Err(Refusal::Percents(line));
    }
    Ok(Direct {
        basis: x.basis,
        percent: x.percent,
        source: i,
        delivery: j,
    })
}

// One source more.
pub fn add_source(t: Totals, p: Plant) -> Totals
    requires { t.generated ≤ above_all }
    ensures { (result ≡ source_totalled t p) × (result.generated ≤ t.generated + above_one) }
{
    Totals {
        generated: t.generated + wide(p.generation()),
        ..t
    }
}

// One delivery more.
pub fn add_delivery(t: Totals, x: Delivery) -> Totals
    requires { t.delivered ≤ above_all }
    ensures { (result ≡ delivery_totalled t x) × (result.delivered ≤ t.delivered + above_one) }
{
    Totals {
        delivered: t.delivered + wide(x.mwh),
        numbered: t.numbered || x.sequence.0 != 0,
        ..t
    }
}

fn generated_by(sources: [Source; 32], n: usize) -> u64
    requires { n ≤ 32 }
    ensures { (result ≡ generated_to sources n) × (result ≤ above_all) }
{
    let mut sum: u64 = 0;
    for i in 0..n {
        sum += wide(sources[i].plant.generation());
    }
    sum
}

pub fn sum_generated(h: Hour) -> u64
    requires { h.nsources ≤ 32 }
    ensures { (result ≡ generated h) × (result ≤ above_all) }
{
    generated_by(h.sources, h.nsources)
}

fn delivered_to(deliveries: [Delivery; 32], n: usize) -> u64
    requires { n ≤ 32 }
    ensures { (result ≡ delivered_to deliveries n) × (result ≤ above_all) }
{
    let mut sum: u64 = 0;
    for i in 0..n {
        sum += wide(deliveries[i].mwh);
    }
    sum
}

pub fn sum_delivered(h: Hour) -> u64
    requires { h.ndeliveries ≤ 32 }
    ensures { (result ≡ delivered h) × (result ≤ above_all) }
{
    delivered_to(h.deliveries, h.ndeliveries)
}

// After E: 10 and 11. Where no delivery has a number of its own, the first of all is the first without.
#[tactic(auto, unfolding(crate::specs::Totalled::finished_by))]
pub fn finish(n: Counts, losses: u32, t: Totals) -> Result<(), Refusal>
    requires { Few n × (t.delivered ≤ above_all) }
    ensures { result ≡ finished_by n losses t }
{
    if t.generated < wide(losses) + t.delivered {
        return Err(Refusal::Overdrawn);
    }
    if n.deliveries == 0 || t.numbered {
        return Ok(());
    }
    Err(Refusal::Unplaced(n.sources + 2))
}
