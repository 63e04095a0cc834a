// The test of 15: whether a deck gives an hour record, by the functions that try a deck's lines.
// The contract of valid cites rules' Writing; the others cite Own, the test place by place.
#![tactic(auto)]

mod shape;

ghost use Rattle.std.specs.Prelude.{◌≡◌, ◌&&◌, ◌+◌, ◌≤◌, ◌<◌, ltb, get_or, IsTrue};
ghost use Rattle.rules.specs.Writing as writing;
ghost use Rattle.line_rules.specs.Spellings.{spelling_of};
ghost use Rattle.line_rules.specs.Tried.{Few, unit_high, basis_code};
ghost use Rattle.record.specs.Own.{source_ruled, delivery_ruled, direct_own, set_if, source_stands, delivery_stands, direct_stands, few_entries};

use line_rules::{Counts, Spelling, Totals};
use rules::{Delivery, Direct, Hour, Plant, Source};

// A source with a label, after i others.
fn source_given(i: usize, p: Plant, spelling: Spelling, lo: &[u64; 32], hi: &[u64; 32]) -> bool
    requires { i ≤ 32 }
    ensures { result ≡ source_ruled i p spelling lo.now hi.now }
{
    let n = Counts {
        sources: i,
        deliveries: 0,
        directs: 0,
    };
    line_rules::take_source(n, ranges::plant_in_range(p), p, spelling, lo, hi).is_ok()
}

// A delivery with a label, after n sources and j others.
fn delivery_given(
    n: usize,
    j: usize,
    x: Delivery,
    spelling: Spelling,
    lo: &[u64; 32],
    hi: &[u64; 32],
) -> bool
    requires { (n ≤ 32) × (j ≤ 32) }
    ensures { result ≡ delivery_ruled n j x spelling lo.now hi.now }
{
    let ranged = ranges::delivery_in_range(x.sequence.0, x.kind, x.block, x.mwh);
    let c = Counts {
        sources: n,
        deliveries: j,
        directs: 0,
    };
    line_rules::take_delivery(c, ranged, spelling, lo, hi).is_ok()
}

// A D entry after n others: no two labels are the same, so its line names what stands at its places.
#[tactic(auto, unfolding(crate::specs::Own::direct_own))]
fn direct_given(
    n: Counts,
    x: Direct,
    high: &[u32; 32],
    based: &[u64; 32],
    percents: &[u32; 32],
) -> bool
    requires { Few n }
    ensures own { result ≡ direct_own n x high.now based.now percents.now }
    ensures within { IsTrue result → (x.source < 32) × (get_or percents.now x.source 0 + x.percent ≤ 100) }
{
    let s = x.source;
    s < n.sources
        && x.delivery < n.deliveries
        && ranges::direct_in_range(x.basis, x.percent)
        && n.directs < 32
        && high[s] != 0
        && line_rules::basis_allowed(x.basis, based[s], high[s])
        && line_rules::wide(percents[s]) + line_rules::wide(x.percent) <= 100
}

// A place of each class, after those before it: below the count its entry is let through and kept, from there on it is blank.

#[tactic(auto, unfolding(crate::specs::Own::source_stands, crate::specs::Own::source_own))]
fn source_stands(
    n: Counts,
    i: usize,
    x: Source,
    lo: &mut [u64; 32],
    hi: &mut [u64; 32],
    high: &mut [u32; 32],
) -> bool
    requires { i < 32 }
    ensures value { result ≡ source_stands n i x lo.old hi.old }
    ensures lo { lo.new ≡ set_if (ltb i n.sources && result) lo.old i (spelling_of x.label).lo }
    ensures hi { hi.new ≡ set_if (ltb i n.sources && result) hi.old i (spelling_of x.label).hi }
    ensures high { high.new ≡ set_if (ltb i n.sources && result) high.old i (unit_high x.plant) }
{
    if n.sources <= i {
        return shape::is_blank_source(x);
    }
    if !shape::is_label(x.label) {
        return false;
    }
    let k = line_rules::spelling_of(x.label);
    if !source_given(i, x.plant, k, lo, hi) {
        return false;
    }
    line_rules::keep_source(i, k, x.plant, lo, hi, high);
    true
}

#[tactic(auto, unfolding(crate::specs::Own::delivery_stands, crate::specs::Own::delivery_own))]
fn delivery_stands(n: Counts, j: usize, x: Delivery, lo: &mut [u64; 32], hi: &mut [u64; 32]) -> bool
    requires { Few n × (j < 32) }
    ensures value { result ≡ delivery_stands n j x lo.old hi.old }
    ensures lo { lo.new ≡ set_if (ltb j n.deliveries && result) lo.old j (spelling_of x.label).lo }
    ensures hi { hi.new ≡ set_if (ltb j n.deliveries && result) hi.old j (spelling_of x.label).hi }
{
    if n.deliveries <= j {
        return shape::is_blank_delivery(x);
    }
    if !shape::is_label(x.label) {
        return false;
    }
    let k = line_rules::spelling_of(x.label);
    if !delivery_given(n.sources, j, x, k, lo, hi) {
        return false;
    }
    line_rules::keep_spelling(j, k, lo, hi);
    true
}

#[tactic(auto, unfolding(crate::specs::Own::direct_stands))]
fn direct_stands(
    n: Counts,
    k: usize,
    x: Direct,
    high: &[u32; 32],
    based: &mut [u64; 32],
    percents: &mut [u32; 32],
) -> bool
    requires { Few n × (k < 32) }
    ensures value { result ≡ direct_stands n k x high.now based.old percents.old }
    ensures based { based.new ≡ set_if (ltb k n.directs && result) based.old x.source (basis_code x.basis) }
    ensures percents { percents.new ≡ set_if (ltb k n.directs && result) percents.old x.source (get_or percents.old x.source 0 + x.percent) }
{
    if n.directs <= k {
        return shape::is_blank_direct(x);
    }
    let before = Counts { directs: k, ..n };
    if !direct_given(before, x, high, based, percents) {
        return false;
    }
    line_rules::keep_direct(x, based, percents);
    true
}

#[tactic(auto, unfolding(crate::specs::Own::few_entries))]
fn few_entries(n: Counts) -> bool
    ensures tested { result ≡ few_entries n }
    ensures few { IsTrue result → Few n }
{
    n.sources <= 32 && n.deliveries <= 32 && n.directs <= 32
}

// Whether some deck gives the record (15): every place stands, and 10 and 11 are kept; a blank adds nothing to the totals.
// It owns the loops, so that the hour is not copied.
pub fn valid(h: Hour) -> bool
    ensures { result ≡ writing.valid h }
{
    let n = Counts {
        sources: h.nsources,
        deliveries: h.ndeliveries,
        directs: h.ndirects,
    };
    if !few_entries(n) {
        return false;
    }
    if !ranges::losses_in_range(h.losses) {
        return false;
    }
    let mut totals = Totals {
        generated: 0,
        delivered: 0,
        numbered: false,
    };
    let mut slo = [0u64; 32];
    let mut shi = [0u64; 32];
    let mut high = [0u32; 32];
    for i in 0..32 {
        let x = h.sources[i];
        if !source_stands(n, i, x, &mut slo, &mut shi, &mut high) {
            return false;
        }
        totals = line_rules::add_source(totals, x.plant);
    }
    let mut tlo = [0u64; 32];
    let mut thi = [0u64; 32];
    for j in 0..32 {
        let x = h.deliveries[j];
        if !delivery_stands(n, j, x, &mut tlo, &mut thi) {
            return false;
        }
        totals = line_rules::add_delivery(totals, x);
    }
    let mut based = [0u64; 32];
    let mut percents = [0u32; 32];
    for k in 0..32 {
        let x = h.directs[k];
        if !direct_stands(n, k, x, &high, &mut based, &mut percents) {
            return false;
        }
    }
    line_rules::finish(n, h.losses, totals).is_ok()
}
