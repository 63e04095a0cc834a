// The report of a deck as text, line by line straight into a lent buffer: its length is found first where the buffer may be too short for it.
// Contracts cite Room and Inked of write_fields, the rows of specs/Rows and their amounts in LineAmounts of hour_lines, and report, reporting and leaves of rules.
#![tactic(auto)]

ghost use Rattle.std.specs.Prelude.{◌≡◌, [], ◌++◌, ◌+◌, ◌*◌, ◌^◌, ◌≤◌, ◌<◌, length, drop};
ghost use Rattle.rules.specs.Answers.{written_of};
ghost use Rattle.rules.specs.Refusals.{number_of, place_of};
ghost use Rattle.rules.specs.Hour.{pair_width, open_width};
ghost use Rattle.rules.specs.Report.{refusal, report};
ghost use Rattle.rules.specs.Calls.{into, reporting, leaves};
ghost use Rattle.write_fields.specs.Inked.{Room, Inked, up_to};
ghost use Rattle.print_lines.specs.Lines.{printed};
ghost use Rattle.hour_lines.specs.LineAmounts.{SmallFirst};
ghost use Rattle.print_report.specs.Rows.{Held, ShortLabels, row_text, row_at, open_at};
ghost use Rattle.print_report.specs.HourRows.{Answered};
ghost use Rattle.print_report.specs.Printing.{ReadDeck};
ghost use Rattle.hour_lines.specs.HourRun.{Ended};

use deck::{Place, ScannedDeck};
use hour_lines::{FEW_CELLS, MOST_CELLS};
use moves::PAIR_CELLS;
use reconstruct::OPEN_CELLS;
use rules::{Key, Refusal};

// Room for what all lines of a delivery begin with.
const MOST_HEAD: usize = 64;

// No report is longer.
const MOST_REPORT: usize = 131072;

// A delivery with each source: the sources' labels at their places in the deck, the pairs' cells from a place on.
fn put_row(
    buf: &mut [u8],
    at: usize,
    deck: &[u8],
    sources: [Place; 32],
    n: usize,
    cells: &[i64],
    base: usize,
    head: &[u8],
) -> usize
    requires { (n ≤ 32) × Held deck.now sources × SmallFirst cells.now (base + n * pair_width) × Room buf.old at (row_text deck.now sources n cells.now base head.now []) }
    ensures { Inked buf.old at buf.new result (row_text deck.now sources n cells.now base head.now) }
{
    let mut p = at;
    for i in 0..n {
        let place = sources[i];
        let source = deck::part_at(deck, place);
        let amounts = hour_lines::pair_amounts_at(cells, base + i * PAIR_CELLS);
        p = print_lines::put_line(buf, p, head, source, &amounts);
    }
    p
}

// Every delivery with each source.
fn put_rows(
    buf: &mut [u8],
    at: usize,
    deck: &[u8],
    sources: [Place; 32],
    n: usize,
    deliveries: [Place; 32],
    m: usize,
    keys: [Key; 32],
    cells: &[i64],
) -> usize
    requires { (n ≤ 32) × (m ≤ 32) × Held deck.now sources × Held deck.now deliveries × ShortLabels deck.now deliveries m × SmallFirst cells.now (m * (n * pair_width)) × Room buf.old at (up_to (row_at deck.now sources n deliveries keys cells.now) m []) }
    ensures { Inked buf.old at buf.new result (up_to (row_at deck.now sources n deliveries keys cells.now) m) }
{
    let mut p = at;
    for j in 0..m {
        let place = deliveries[j];
        let delivery = deck::part_at(deck, place);
        let x = keys[j];
        let mut head = [0u8; MOST_HEAD];
        let k = print_lines::put_head(&mut head, 0, delivery, x.number);
        p = put_row(
            buf,
            p,
            deck,
            sources,
            n,
            cells,
            j * (n * PAIR_CELLS),
            &head[0..k],
        );
    }
    p
}

// What each source has left, its cells from a place on.
fn put_opens(
    buf: &mut [u8],
    at: usize,
    deck: &[u8],
    sources: [Place; 32],
    n: usize,
    cells: &[i64],
    base: usize,
) -> usize
    requires { (n ≤ 32) × Held deck.now sources × SmallFirst cells.now (base + n * open_width) × Room buf.old at (up_to (open_at deck.now sources cells.now base) n []) }
    ensures { Inked buf.old at buf.new result (up_to (open_at deck.now sources cells.now base) n) }
{
    let mut p = at;
    for i in 0..n {
        let place = sources[i];
        let source = deck::part_at(deck, place);
        let amounts = hour_lines::open_amounts_at(cells, base + i * OPEN_CELLS);
        p = print_lines::put_open(buf, p, source, &amounts);
    }
    p
}

// The report of a deck whose hour was reconstructed, from the buffer's start on; gives its length.
fn put_hour(buf: &mut [u8], deck: &[u8], x: ScannedDeck, keys: [Key; 32], cells: &[i64]) -> usize
    requires { Answered deck.now x keys cells.now × (length (report deck.now) ≤ length buf.old) }
    ensures size { result ≡ length (report deck.now) }
    ensures bytes { buf.new ≡ report deck.now ++ drop (length (report deck.now)) buf.old }
{
    let h = x.hour;
    let sources = x.sources;
    let deliveries = x.deliveries;
    let n = h.nsources;
    let m = h.ndeliveries;
    let generation = line_rules::sum_generated(h);
    let delivered = line_rules::sum_delivered(h);
    let amounts = hour_lines::hour_amounts(generation, h.losses as u64, delivered);
    let p = print_lines::put_header(buf, 0, &amounts);
    let q = put_rows(buf, p, deck, sources, n, deliveries, m, keys, cells);
    let r = put_opens(buf, q, deck, sources, n, cells, m * (n * PAIR_CELLS));
    print_lines::put_end(buf, r)
}

// Lengths: of each text above, as many bytes as it has.

fn row_length(
    deck: &[u8],
    sources: [Place; 32],
    n: usize,
    cells: &[i64],
    base: usize,
    head: &[u8],
) -> usize
    requires { (n ≤ 32) × Held deck.now sources × SmallFirst cells.now (base + n * pair_width) × (length (row_text deck.now sources n cells.now base head.now []) < 2 ^ 64) }
    ensures { result ≡ length (row_text deck.now sources n cells.now base head.now []) }
{
    let mut size: usize = 0;
    for i in 0..n {
        let place = sources[i];
        let source = deck::part_at(deck, place);
        let amounts = hour_lines::pair_amounts_at(cells, base + i * PAIR_CELLS);
        size += print_lines::line_length(head, source, &amounts);
    }
    size
}

fn rows_length(
    deck: &[u8],
    sources: [Place; 32],
    n: usize,
    deliveries: [Place; 32],
    m: usize,
    keys: [Key; 32],
    cells: &[i64],
) -> usize
    requires { (n ≤ 32) × (m ≤ 32) × Held deck.now sources × Held deck.now deliveries × ShortLabels deck.now deliveries m × SmallFirst cells.now (m * (n * pair_width)) × (length (up_to (row_at deck.now sources n deliveries keys cells.now) m []) < 2 ^ 64) }
    ensures { result ≡ length (up_to (row_at deck.now sources n deliveries keys cells.now) m []) }
{
    let mut size: usize = 0;
    for j in 0..m {
        let place = deliveries[j];
        let delivery = deck::part_at(deck, place);
        let x = keys[j];
        let mut head = [0u8; MOST_HEAD];
        let k = print_lines::put_head(&mut head, 0, delivery, x.number);
        size += row_length(deck, sources, n, cells, j * (n * PAIR_CELLS), &head[0..k]);
    }
    size
}

fn opens_length(deck: &[u8], sources: [Place; 32], n: usize, cells: &[i64], base: usize) -> usize
    requires { (n ≤ 32) × Held deck.now sources × SmallFirst cells.now (base + n * open_width) × (length (up_to (open_at deck.now sources cells.now base) n []) < 2 ^ 64) }
    ensures { result ≡ length (up_to (open_at deck.now sources cells.now base) n []) }
{
    let mut size: usize = 0;
    for i in 0..n {
        let place = sources[i];
        let source = deck::part_at(deck, place);
        let amounts = hour_lines::open_amounts_at(cells, base + i * OPEN_CELLS);
        size += print_lines::open_length(source, &amounts);
    }
    size
}

fn hour_length(deck: &[u8], x: ScannedDeck, keys: [Key; 32], cells: &[i64]) -> usize
    requires { Answered deck.now x keys cells.now }
    ensures { result ≡ length (report deck.now) }
{
    let h = x.hour;
    let sources = x.sources;
    let deliveries = x.deliveries;
    let n = h.nsources;
    let m = h.ndeliveries;
    let generation = line_rules::sum_generated(h);
    let delivered = line_rules::sum_delivered(h);
    let amounts = hour_lines::hour_amounts(generation, h.losses as u64, delivered);
    let header = print_lines::header_length(&amounts);
    let rows = rows_length(deck, sources, n, deliveries, m, keys, cells);
    let opens = opens_length(deck, sources, n, cells, m * (n * PAIR_CELLS));
    header + rows + opens + print_lines::end_length()
}

// A refusal's line into a lent buffer: nothing changed where that is too short.
fn hand_refusal(out: &mut [u8], x: Refusal) -> Result<usize, Refusal>
    ensures outcome { result ≡ written_of (into (length out.old) (printed (refusal (number_of x) (place_of x)) [])) }
    ensures bytes { out.new ≡ leaves (into (length out.old) (printed (refusal (number_of x) (place_of x)) [])) out.old }
{
    if out.len() < print_lines::refusal_length(x) {
        return Err(Refusal::Short);
    }
    Ok(print_lines::put_refusal(out, 0, x))
}

// An hour's report into a lent buffer that may be too short for it.
fn hand_hour(
    out: &mut [u8],
    deck: &[u8],
    x: ScannedDeck,
    keys: [Key; 32],
    cells: &[i64],
) -> Result<usize, Refusal>
    requires { Answered deck.now x keys cells.now }
    ensures outcome { result ≡ written_of (reporting deck.now (length out.old)) }
    ensures bytes { out.new ≡ leaves (reporting deck.now (length out.old)) out.old }
{
    if out.len() < hour_length(deck, x, keys, cells) {
        return Err(Refusal::Short);
    }
    Ok(put_hour(out, deck, x, keys, cells))
}

// The report of a deck that was read, of what its reconstruction answered and left in the cells.
fn print_answer(
    out: &mut [u8],
    deck: &[u8],
    x: ScannedDeck,
    keys: [Key; 32],
    end: Result<usize, Refusal>,
    cells: &[i64],
) -> Result<usize, Refusal>
    requires { ReadDeck deck.now x keys × Ended x.hour end cells.now }
    ensures outcome { result ≡ written_of (reporting deck.now (length out.old)) }
    ensures bytes { out.new ≡ leaves (reporting deck.now (length out.old)) out.old }
{
    if let Err(r) = end {
        return hand_refusal(out, r);
    }
    if out.len() < MOST_REPORT {
        return hand_hour(out, deck, x, keys, cells);
    }
    Ok(put_hour(out, deck, x, keys, cells))
}

// The report of a deck into a lent buffer: nothing changed where that is too short.
pub fn report(deck: &[u8], out: &mut [u8]) -> Result<usize, Refusal>
    ensures outcome { result ≡ written_of (reporting deck.now (length out.old)) }
    ensures bytes { out.new ≡ leaves (reporting deck.now (length out.old)) out.old }
{
    let x = match deck::scan(deck) {
        Ok(x) => x,
        Err(r) => return hand_refusal(out, r),
    };
    let h = x.hour;
    let keys = sequence::keys(&h.deliveries, h.ndeliveries);
    let count = h.ndeliveries * (h.nsources * PAIR_CELLS) + h.nsources * OPEN_CELLS;
    if count <= FEW_CELLS {
        let mut cells = [0i64; FEW_CELLS];
        let end = hour_lines::fill_cells(h, keys, &mut cells);
        return print_answer(out, deck, x, keys, end, &cells);
    }
    let mut cells = [0i64; MOST_CELLS];
    let end = hour_lines::fill_cells(h, keys, &mut cells);
    print_answer(out, deck, x, keys, end, &cells)
}
