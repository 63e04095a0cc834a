// Reads a whole deck in one pass, line by line, and tells where each label's own bytes stand in it.
// A struct holds the deck and its place, and goes on by the lines; each line is read by functions on slice and place.
// The contracts cite rules' Reading for what a deck comes to and Places for where a line starts, Answers for what says it, Steps for the line at hand, FirstLine for the first line, and
// Entries for what is kept of the others.
#![tactic(auto)]

ghost use Rattle.std.specs.Prelude.{◌≡◌, List, ℕ, ◌+◌, ◌<◌, ◌≤◌, length, get_or, set, IfOk, MatchResult};
ghost use Rattle.rules.specs.Answers.{answer_of, verdict_of};
ghost use Rattle.rules.specs.Lines.{T, D, U, P, F, places_at};
ghost use Rattle.rules.specs.Record.{started, with_source, with_delivery, with_direct, label_of};
ghost use Rattle.rules.specs.Refusals.{accepted};
ghost use Rattle.rules.specs.declared.Hour.{Hour};
ghost use Rattle.rules.specs.Fields.{byte_at, chars_at};
ghost use Rattle.rules.specs.Reading.{reading, lines_from};
ghost use Rattle.rules.specs.Places.{line_start};
ghost use Rattle.read_fields.specs.Answers.{step_of};
ghost use Rattle.read_lines.specs.Answers.{unit_line, purchase_line, fixed_line, delivery_line, direct_line};
ghost use Rattle.read_lines.specs.Cut.{LabelStands};
ghost use Rattle.line_rules.specs.Spellings.{spelling_of};
ghost use Rattle.line_rules.specs.Tried.{Few, next_line, unit_high, basis_code, above_one, above_all};
ghost use Rattle.line_rules.specs.Totalled.{finished_by};
ghost use Rattle.deck.specs.Answers.{place_at, bytes_of, Scanned};
ghost use Rattle.deck.specs.Entries.{NextSource, NextDelivery, KeepsAll};
ghost use Rattle.deck.specs.FirstLine.{head_step, head_moved};
ghost use Rattle.deck.specs.Steps.{unit_source, purchase_source, fixed_source, plant_from, source_from, delivery_step, direct_step, end_verdict};

use line_rules::{Counts, Totals};
pub use read_fields::Place;
use read_lines::{DeliveryLine, DirectLine, FixedLine, HeadLine, PurchaseLine, UnitLine};
use rules::{Basis, Delivery, Direct, Hour, InputSequence, Label, Plant, Refusal, Source};

const NOWHERE: Place = Place { from: 0, upto: 0 };

// What a deck comes to, and where the labels of its sources and deliveries stand; past the counts a place holds no bytes.
#[derive(Clone, Copy)]
pub struct ScannedDeck {
    pub hour: Hour,
    pub sources: [Place; 32],
    pub deliveries: [Place; 32],
}

// The deck that is read, and the place reached in it.
#[derive(Clone, Copy)]
struct Reader<'a> {
    deck: &'a [u8],
    at: usize,
}

// What is kept of the entries that are read.
trait Entries {
    // of the hour that was read of a deck so far
    ghost keeps: { List ℕ → Hour → Self → Type 0 };

    // One source more, the i-th, whose label stands at a place.
    fn push_source(&mut self, i: usize, x: Source, p: Place)
        requires { i < 32 }
        ensures { (s : List ℕ) (h : Hour) → NextSource s h i x p → keeps s h self.old → keeps s (with_source h x) self.new };

    fn push_delivery(&mut self, j: usize, x: Delivery, p: Place)
        requires { j < 32 }
        ensures { (s : List ℕ) (h : Hour) → NextDelivery s h j x p → keeps s h self.old → keeps s (with_delivery h x) self.new };

    fn push_direct(&mut self, k: usize, x: Direct)
        requires { k < 32 }
        ensures { (s : List ℕ) (h : Hour) → k ≡ h.ndirects → keeps s h self.old → keeps s (with_direct h x) self.new };
}

// The whole hour, with the places of its labels.
impl Entries for ScannedDeck {
    ghost keeps = { KeepsAll };

    fn push_source(&mut self, i: usize, x: Source, p: Place) {
        self.hour.sources[i] = x;
        self.hour.nsources = i + 1;
        self.sources[i] = p;
    }

    fn push_delivery(&mut self, j: usize, x: Delivery, p: Place) {
        self.hour.deliveries[j] = x;
        self.hour.ndeliveries = j + 1;
        self.deliveries[j] = p;
    }

    fn push_direct(&mut self, k: usize, x: Direct) {
        self.hour.directs[k] = x;
        self.hour.ndirects = k + 1;
    }
}

// Nothing, where the verdict alone is asked for.
impl Entries for () {
    ghost keeps = { λ s h x. Unit {0} };

    fn push_source(&mut self, i: usize, x: Source, p: Place) {}

    fn push_delivery(&mut self, j: usize, x: Delivery, p: Place) {}

    fn push_direct(&mut self, k: usize, x: Direct) {}
}

// A source line: whether its numbers are in their ranges, the plant that they make, where its label's own bytes stand, and the place after it.
// The plant is no Option: 2 comes before 3, so the rules are asked about a line out of range too (line_rules::take_source).
#[derive(Clone, Copy)]
struct SourceLine {
    ranged: bool,
    plant: Plant,
    label: Place,
    next: usize,
}

// A source or T line that is taken: its entry, the place of its label, the totals with it, and the place after the line.
#[derive(Clone, Copy)]
struct Step<T> {
    entry: T,
    place: Place,
    totals: Totals,
    next: usize,
}

// A D line that is taken.
#[derive(Clone, Copy)]
struct DirectStep {
    entry: Direct,
    next: usize,
}

// Blanks.

const BLANK_LABEL: Label = Label {
    len: 0,
    bytes: [0u8; 16],
};

const BLANK_SOURCE: Source = Source {
    plant: Plant::Fixed { g: 0 },
    label: BLANK_LABEL,
};

const BLANK_DELIVERY: Delivery = Delivery {
    sequence: InputSequence(0),
    kind: 0,
    block: 0,
    mwh: 0,
    label: BLANK_LABEL,
};

const BLANK_DIRECT: Direct = Direct {
    basis: Basis::Low,
    percent: 0,
    source: 0,
    delivery: 0,
};

// The hour that an H line starts.
fn start(losses: u32) -> Hour
    ensures { result ≡ started losses }
{
    Hour {
        losses,
        nsources: 0,
        ndeliveries: 0,
        ndirects: 0,
        sources: [BLANK_SOURCE; 32],
        deliveries: [BLANK_DELIVERY; 32],
        directs: [BLANK_DIRECT; 32],
    }
}

// The part of the deck at a place.
pub fn part_at<'a>(s: &'a [u8], p: Place) -> &'a [u8]
    requires { (p.from ≤ p.upto) × (p.upto ≤ length s.now) }
    ensures bytes { result.now ≡ bytes_of s.now p }
    ensures place { result.ref_ptr ≡ (s.entry.ref_ptr.0, p.from + s.entry.ref_ptr.1) }
{
    &s[p.from..p.upto]
}

// The label whose own bytes stand at a place.
fn label_at(s: &[u8], p: Place) -> Label
    requires { LabelStands s.now (place_at p) }
    ensures { result ≡ label_of (chars_at s.now (place_at p)) }
{
    read_fields::label_at(part_at(s, p))
}

// Source lines, each from the place after its letter.

// A unit only where its numbers are in their ranges; where they are not, 2 or 3 refuses the line, whatever stands for it.
fn unit_at(s: &[u8], at: usize) -> Option<SourceLine>
    ensures { result ≡ unit_source (unit_line (places_at s.now at U)) }
{
    let UnitLine {
        numbers,
        label,
        next,
    } = read_lines::unit(s, at)?;
    let (ranged, plant) = match ranges::judge_unit(numbers) {
        Some(u) => (true, Plant::Unit(u)),
        None => (false, Plant::Fixed { g: 0 }),
    };
    Some(SourceLine {
        ranged,
        plant,
        label,
        next,
    })
}

fn purchase_at(s: &[u8], at: usize) -> Option<SourceLine>
    ensures { result ≡ purchase_source (purchase_line (places_at s.now at P)) }
{
    let PurchaseLine {
        g,
        rate,
        label,
        next,
    } = read_lines::purchase(s, at)?;
    let plant = Plant::Purchase { g, rate };
    let ranged = ranges::plant_in_range(plant);
    Some(SourceLine {
        ranged,
        plant,
        label,
        next,
    })
}

fn fixed_at(s: &[u8], at: usize) -> Option<SourceLine>
    ensures { result ≡ fixed_source (fixed_line (places_at s.now at F)) }
{
    let FixedLine { g, label, next } = read_lines::fixed(s, at)?;
    let plant = Plant::Fixed { g };
    let ranged = ranges::plant_in_range(plant);
    Some(SourceLine {
        ranged,
        plant,
        label,
        next,
    })
}

// By the letter; a line of no letter is malformed.
fn plant_at(s: &[u8], at: usize, letter: u8) -> Option<SourceLine>
    ensures { result ≡ plant_from s.now at letter }
{
    match letter {
        b'U' => unit_at(s, at),
        b'P' => purchase_at(s, at),
        b'F' => fixed_at(s, at),
        _ => None,
    }
}

// A source line, tried with its label, and kept in the tables where it is taken.
fn source_at(
    s: &[u8],
    at: usize,
    letter: u8,
    n: Counts,
    totals: Totals,
    lo: &mut [u64; 32],
    hi: &mut [u64; 32],
    high: &mut [u32; 32],
) -> Result<Step<Source>, Refusal>
    requires { Few n × (totals.generated ≤ above_all) }
    ensures step { result ≡ source_from s.now at letter n totals lo.old hi.old }
    ensures most { IfOk result (λ x. x.totals.generated ≤ totals.generated + above_one) }
    ensures lo { MatchResult result (λ x. lo.new ≡ set lo.old n.sources (spelling_of x.entry.label).lo) (λ r. lo.new ≡ lo.old) }
    ensures hi { MatchResult result (λ x. hi.new ≡ set hi.old n.sources (spelling_of x.entry.label).hi) (λ r. hi.new ≡ hi.old) }
    ensures high { MatchResult result (λ x. high.new ≡ set high.old n.sources (unit_high x.entry.plant)) (λ r. high.new ≡ high.old) }
{
    let line = plant_at(s, at, letter).ok_or(Refusal::Form(line_rules::next_line(n)))?;
    let label = label_at(s, line.label);
    let spelling = line_rules::spelling_of(label);
    line_rules::take_source(n, line.ranged, line.plant, spelling, lo, hi)?;
    line_rules::keep_source(n.sources, spelling, line.plant, lo, hi, high);
    Ok(Step {
        entry: Source {
            plant: line.plant,
            label,
        },
        place: line.label,
        totals: line_rules::add_source(totals, line.plant),
        next: line.next,
    })
}

// A T line, from the place after its letter.
fn delivery_at(
    s: &[u8],
    at: usize,
    n: Counts,
    totals: Totals,
    lo: &mut [u64; 32],
    hi: &mut [u64; 32],
) -> Result<Step<Delivery>, Refusal>
    requires { Few n × (totals.delivered ≤ above_all) }
    ensures step { result ≡ delivery_step s.now n totals lo.old hi.old (delivery_line (places_at s.now at T)) }
    ensures most { IfOk result (λ x. x.totals.delivered ≤ totals.delivered + above_one) }
    ensures lo { MatchResult result (λ x. lo.new ≡ set lo.old n.deliveries (spelling_of x.entry.label).lo) (λ r. lo.new ≡ lo.old) }
    ensures hi { MatchResult result (λ x. hi.new ≡ set hi.old n.deliveries (spelling_of x.entry.label).hi) (λ r. hi.new ≡ hi.old) }
{
    let line = read_lines::delivery(s, at).ok_or(Refusal::Form(line_rules::next_line(n)))?;
    let label = label_at(s, line.label);
    let spelling = line_rules::spelling_of(label);
    let ranged = ranges::delivery_in_range(line.sequence, line.kind, line.block, line.mwh);
    line_rules::take_delivery(n, ranged, spelling, lo, hi)?;
    line_rules::keep_spelling(n.deliveries, spelling, lo, hi);
    let entry = Delivery {
        sequence: InputSequence(line.sequence),
        kind: line.kind,
        block: line.block,
        mwh: line.mwh,
        label,
    };
    Ok(Step {
        entry,
        place: line.label,
        totals: line_rules::add_delivery(totals, entry),
        next: line.next,
    })
}

// A D line, from the place after its letter.
fn direct_at(
    s: &[u8],
    at: usize,
    n: Counts,
    slo: &[u64; 32],
    shi: &[u64; 32],
    tlo: &[u64; 32],
    thi: &[u64; 32],
    high: &[u32; 32],
    based: &mut [u64; 32],
    percents: &mut [u32; 32],
) -> Result<DirectStep, Refusal>
    requires { Few n }
    ensures step { result ≡ direct_step s.now n (record { slo = slo.entry.now; shi = shi.now; tlo = tlo.now; thi = thi.now; high = high.now; based = based.old; percents = percents.old }) (direct_line (places_at s.now at D)) }
    ensures based { MatchResult result (λ x. based.new ≡ set based.old x.entry.source (basis_code x.entry.basis)) (λ r. based.new ≡ based.old) }
    ensures percents { MatchResult result (λ x. percents.new ≡ set percents.old x.entry.source (get_or percents.old x.entry.source 0 + x.entry.percent)) (λ r. percents.new ≡ percents.old) }
{
    let line = read_lines::direct(s, at).ok_or(Refusal::Form(line_rules::next_line(n)))?;
    let unit = line_rules::spelling_of(label_at(s, line.unit));
    let delivery = line_rules::spelling_of(label_at(s, line.delivery));
    let ranged = ranges::direct_in_range(line.basis, line.percent);
    let x = line_rules::DirectLine {
        basis: line.basis,
        percent: line.percent,
        unit,
        delivery,
    };
    let entry = line_rules::take_direct(n, ranged, x, slo, shi, tlo, thi, high, based, percents)?;
    line_rules::keep_direct(entry, based, percents);
    Ok(DirectStep {
        entry,
        next: line.next,
    })
}

// The E line at a place, after which nothing stands; then 10 and 11.
fn end_at(s: &[u8], at: usize, n: Counts, losses: u32, totals: Totals) -> Result<(), Refusal>
    requires { Few n × (totals.delivered ≤ above_all) }
    ensures { result ≡ end_verdict (length s.now) (next_line n) (finished_by n losses totals) (step_of (byte_at s.now at 10)) }
{
    let line = line_rules::next_line(n);
    let p = read_fields::byte(s, at, b'\n').ok_or(Refusal::Form(line))?;
    if p != s.len() {
        return Err(Refusal::Form(line + 1));
    }
    line_rules::finish(n, losses, totals)
}

impl<'a> Reader<'a> {
    // 1, then the first line at its place, from its letter on: the losses.
    fn head(&mut self) -> Result<u32, Refusal>
        ensures line { head_moved result self.new.at ≡ head_step self.old.deck.now self.old.at }
        ensures deck { self.new.deck ≡ self.old.deck }
    {
        if 8192 < self.deck.len() {
            return Err(Refusal::TooLong);
        }
        let p = read_fields::byte(self.deck, self.at, b'H').ok_or(Refusal::Form(1))?;
        let HeadLine { losses, next } = read_lines::head(self.deck, p).ok_or(Refusal::Form(1))?;
        if !ranges::losses_in_range(losses) {
            return Err(Refusal::Range(1));
        }
        self.at = next;
        Ok(losses)
    }

    // The lines from its place on, after the first one: each entry is kept as it is taken, with the tables and the totals of those before it beside.
    fn rows<K: Entries>(mut self, losses: u32, kept: &mut K) -> Result<(), Refusal>
        requires { (self.at ≡ line_start self.deck.now 1) × K.keeps self.deck.now (started losses) kept.old }
        ensures verdict { result ≡ verdict_of (lines_from (length self.entry.deck.now) self.entry.deck.now (started losses) self.entry.at) }
        ensures kept { (h : Hour) → lines_from (length self.entry.deck.now) self.entry.deck.now (started losses) self.entry.at ≡ accepted h → K.keeps self.entry.deck.now h kept.new }
    {
        let mut n = Counts {
            sources: 0,
            deliveries: 0,
            directs: 0,
        };
        let mut totals = Totals {
            generated: 0,
            delivered: 0,
            numbered: false,
        };
        let mut slo = [0u64; 32];
        let mut shi = [0u64; 32];
        let mut tlo = [0u64; 32];
        let mut thi = [0u64; 32];
        let mut high = [0u32; 32];
        let mut based = [0u64; 32];
        let mut percents = [0u32; 32];
        // no `for`: the reader goes on by as many bytes as the line has
        while self.at < self.deck.len() {
            let letter = self.deck[self.at];
            let at = self.at + 1;
            match letter {
                b'D' => {
                    let x = direct_at(
                        self.deck,
                        at,
                        n,
                        &slo,
                        &shi,
                        &tlo,
                        &thi,
                        &high,
                        &mut based,
                        &mut percents,
                    )?;
                    kept.push_direct(n.directs, x.entry);
                    n.directs += 1;
                    self.at = x.next;
                }
                b'T' => {
                    let x = delivery_at(self.deck, at, n, totals, &mut tlo, &mut thi)?;
                    kept.push_delivery(n.deliveries, x.entry, x.place);
                    n.deliveries += 1;
                    totals = x.totals;
                    self.at = x.next;
                }
                b'E' => return end_at(self.deck, at, n, losses, totals),
                _ => {
                    let x = source_at(
                        self.deck, at, letter, n, totals, &mut slo, &mut shi, &mut high,
                    )?;
                    kept.push_source(n.sources, x.entry, x.place);
                    n.sources += 1;
                    totals = x.totals;
                    self.at = x.next;
                }
            }
        }
        Err(Refusal::Form(line_rules::next_line(n)))
    }
}

// One pass over the deck: 1, then the first faulty line with the least of 2 to 9, then 10 and 11.
pub fn scan(s: &[u8]) -> Result<ScannedDeck, Refusal>
    ensures { Scanned s.now (reading s.now) result }
{
    let mut r = Reader { deck: s, at: 0 };
    let losses = r.head()?;
    let mut x = ScannedDeck {
        hour: start(losses),
        sources: [NOWHERE; 32],
        deliveries: [NOWHERE; 32],
    };
    r.rows(losses, &mut x)?;
    Ok(x)
}

pub fn read(s: &[u8]) -> Result<Hour, Refusal>
    ensures { result ≡ answer_of (reading s.now) }
{
    let x = scan(s)?;
    Ok(x.hour)
}

// The verdict alone: no entry is kept, and no hour is made.
pub fn check_deck(s: &[u8]) -> Result<(), Refusal>
    ensures { result ≡ verdict_of (reading s.now) }
{
    let mut r = Reader { deck: s, at: 0 };
    let losses = r.head()?;
    r.rows(losses, &mut ())
}
