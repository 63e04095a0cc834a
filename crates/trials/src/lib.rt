// For tests from C: a deck's hour reconstructed into lent cells by either rule, written anew as a deck and as a spreadsheet file, also from a record that is
// spoiled in one field; and for timing one hour and one group.
// An answer is the number of cells or bytes, or refusals' code of a refusal.
#![tactic(auto)]

mod rebuilding;
mod settling;

ghost use Rattle.std.specs.Prelude.{◌<◌};

use rules::{
    Basis, Delivery, Direct, HeatCurve, Hour, InputSequence, Label, Plant, Refusal, Source, Unit,
};

fn answer_code(x: Result<usize, Refusal>) -> u64 {
    match x {
        Ok(n) => n as u64,
        Err(r) => refusals::code_of(r),
    }
}

fn answered(h: Hour, out: &mut [i64], by_price: bool) -> u64 {
    if by_price {
        return answer_code(reconstruct::price(h, out));
    }
    answer_code(reconstruct::plain(h, out))
}

#[unsafe(no_mangle)]
pub extern "C" fn trial_cells(deck: &[u8], by_price: bool, out: &mut [i64]) -> u64 {
    match deck::read(deck) {
        Ok(h) => answered(h, out, by_price),
        Err(r) => refusals::code_of(r),
    }
}

fn written(h: Hour, out: &mut [u8]) -> u64 {
    answer_code(write_deck::write(h, out))
}

#[unsafe(no_mangle)]
pub extern "C" fn trial_written(deck: &[u8], out: &mut [u8]) -> u64 {
    match deck::read(deck) {
        Ok(h) => written(h, out),
        Err(r) => refusals::code_of(r),
    }
}

fn filed(h: Hour, out: &mut [u8]) -> u64 {
    answer_code(write_spreadsheet::spreadsheet(h, out))
}

#[unsafe(no_mangle)]
pub extern "C" fn trial_spreadsheet(deck: &[u8], out: &mut [u8]) -> u64 {
    match deck::read(deck) {
        Ok(h) => filed(h, out),
        Err(r) => refusals::code_of(r),
    }
}

// Spoiled records: each field out of its range, so that no deck gives the record.

// The hour of a deck; a blank one where it is refused.
fn hour_of(deck: &[u8]) -> Hour {
    let label = Label {
        len: 0,
        bytes: [0; 16],
    };
    match deck::read(deck) {
        Ok(h) => h,
        Err(_) => Hour {
            losses: 0,
            nsources: 0,
            ndeliveries: 0,
            ndirects: 0,
            sources: [Source {
                plant: Plant::Fixed { g: 0 },
                label,
            }; 32],
            deliveries: [Delivery {
                sequence: InputSequence(0),
                kind: 0,
                block: 0,
                mwh: 0,
                label,
            }; 32],
            directs: [Direct {
                basis: Basis::Low,
                percent: 0,
                source: 0,
                delivery: 0,
            }; 32],
        },
    }
}

fn spoiled_label(l: Label, field: usize) -> Label {
    let mut b = l.bytes;
    if field == 0 {
        return Label { len: 17, bytes: b };
    }
    if field == 1 {
        b[0] = 31;
        return Label {
            len: l.len,
            bytes: b,
        };
    }
    b[15] = 127;
    Label {
        len: l.len,
        bytes: b,
    }
}

// A unit whose curve starts above its emergency low: a curve outside its ranges cannot be made.
fn late_unit(u: Unit) -> Unit {
    let mut x = u;
    let c = u.curve;
    let Ok(late) = HeatCurve::new(2000, c.a(), c.b(), c.c(), c.r()) else {
        x.g = 2001;
        return x;
    };
    x.e = 1999;
    x.curve = late;
    x
}

fn spoiled_unit(u: Unit, field: usize) -> Unit {
    let mut x = u;
    if field == 0 {
        x.g = 2001;
        return x;
    }
    if field == 1 {
        x.h = 2001;
        return x;
    }
    if field == 2 {
        x.n = 0;
        return x;
    }
    if field == 3 {
        x.o = 0;
        return x;
    }
    if field == 4 {
        x.e = 0;
        return x;
    }
    late_unit(u)
}

fn spoiled_as_unit(p: Plant, field: usize) -> Plant {
    match p {
        Plant::Unit(u) => Plant::Unit(spoiled_unit(u, field)),
        Plant::Purchase { g: _, rate: _ } => Plant::Fixed { g: 2001 },
        Plant::Fixed { g: _ } => Plant::Fixed { g: 2001 },
    }
}

fn spoiled_plant(p: Plant, field: usize) -> Plant {
    if field < 6 {
        return spoiled_as_unit(p, field);
    }
    if field == 6 {
        return Plant::Purchase { g: 2001, rate: 1 };
    }
    if field == 7 {
        return Plant::Purchase {
            g: 1,
            rate: 1_000_000,
        };
    }
    Plant::Fixed { g: 2001 }
}

// Fields 0 to 8 of its plant, then 3 of its label.
fn spoiled_source(s: Source, field: usize) -> Source {
    let p = s.plant;
    let l = s.label;
    if field < 9 {
        return Source {
            plant: spoiled_plant(p, field),
            label: l,
        };
    }
    Source {
        plant: p,
        label: spoiled_label(l, field - 9),
    }
}

fn spoiled_delivery(t: Delivery, field: usize) -> Delivery {
    let mut x = t;
    if field == 0 {
        let q = InputSequence(100);
        x.sequence = q;
        return x;
    }
    if field == 1 {
        x.kind = 10;
        return x;
    }
    if field == 2 {
        x.block = 10;
        return x;
    }
    if field == 3 {
        x.mwh = 2001;
        return x;
    }
    if field < 7 {
        let l = spoiled_label(t.label, field - 4);
        x.label = l;
    }
    x
}

fn spoiled_direct(d: Direct, field: usize) -> Direct {
    let mut x = d;
    if field == 0 {
        return Direct {
            basis: Basis::Mwh(2000),
            percent: d.percent,
            source: d.source,
            delivery: d.delivery,
        };
    }
    if field == 1 {
        x.percent = 101;
        return x;
    }
    if field == 2 {
        x.source = 32;
        return x;
    }
    x.delivery = 32;
    x
}

fn spoiled_counts(h: Hour, field: usize) -> Hour {
    let mut x = h;
    if field == 0 {
        x.losses = 64_001;
        return x;
    }
    if field == 1 {
        x.nsources = 33;
        return x;
    }
    if field == 2 {
        x.ndeliveries = 33;
        return x;
    }
    x.ndirects = 33;
    x
}

// Fields 0 to 11 of a source, then 7 of a delivery, 4 of a D line, 4 of the hour itself.
fn spoiled(h: Hour, field: usize, at: usize) -> Hour
    requires { at < 32 }
{
    let mut x = h;
    if field < 12 {
        let s = h.sources[at];
        x.sources[at] = spoiled_source(s, field);
        return x;
    }
    if field < 19 {
        let t = h.deliveries[at];
        x.deliveries[at] = spoiled_delivery(t, field - 12);
        return x;
    }
    if field < 23 {
        let d = h.directs[at];
        x.directs[at] = spoiled_direct(d, field - 19);
        return x;
    }
    spoiled_counts(h, field - 23)
}

#[unsafe(no_mangle)]
pub extern "C" fn trial_spoiled(
    deck: &[u8],
    field: usize,
    at: usize,
    by_price: bool,
    out: &mut [i64],
) -> u64 {
    answered(spoiled(hour_of(deck), field, at % 32), out, by_price)
}

#[unsafe(no_mangle)]
pub extern "C" fn trial_spoiled_written(
    deck: &[u8],
    field: usize,
    at: usize,
    out: &mut [u8],
) -> u64 {
    written(spoiled(hour_of(deck), field, at % 32), out)
}

#[unsafe(no_mangle)]
pub extern "C" fn trial_spoiled_spreadsheet(
    deck: &[u8],
    field: usize,
    at: usize,
    out: &mut [u8],
) -> u64 {
    filed(spoiled(hour_of(deck), field, at % 32), out)
}

// The hour's cells so many times over: 0 where the deck is refused.
#[unsafe(no_mangle)]
pub extern "C" fn trial_price(deck: &[u8], out: &mut [i64], times: usize) -> u64 {
    match deck::read(deck) {
        Ok(h) => rebuilding::rebuild_often(h, out, true, times),
        Err(_) => 0,
    }
}

#[unsafe(no_mangle)]
pub extern "C" fn trial_plain(deck: &[u8], out: &mut [i64], times: usize) -> u64 {
    match deck::read(deck) {
        Ok(h) => rebuilding::rebuild_often(h, out, false, times),
        Err(_) => 0,
    }
}

// One group: 0 where the deck or the group is refused.
#[unsafe(no_mangle)]
pub extern "C" fn trial_settle(
    deck: &[u8],
    total: u64,
    took: u64,
    by_price: bool,
    times: usize,
    levels: &mut [u64],
) -> u64 {
    match deck::read(deck) {
        Ok(h) => settling::settle_often(h, total, took, by_price, times, levels),
        Err(_) => 0,
    }
}
