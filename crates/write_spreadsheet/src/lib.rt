// The spreadsheet file of an hour, record by record straight into a lent buffer: its length is found first where the buffer may be too short for it.
// Contracts cite Room and Inked of write_fields, the rows of specs/Rows and the file of specs/HourFile, and file_for, spreadsheet, deck_spreadsheet and leaves of rules.
#![tactic(auto)]

ghost use Rattle.std.specs.Prelude.{◌≡◌, true, [], ◌++◌, ◌+◌, ◌*◌, ◌^◌, ◌≤◌, ◌<◌, length, drop};
ghost use Rattle.rules.specs.Answers.{written_of};
ghost use Rattle.rules.specs.Hour.{pair_width, open_width};
ghost use Rattle.rules.specs.Reading.{generated, delivered};
ghost use Rattle.rules.specs.Report.{hour_amounts};
ghost use Rattle.rules.specs.Writing.{valid};
ghost use Rattle.rules.specs.Calls as calls;
ghost use Rattle.rules.specs.Calls.{into, file_for, deck_spreadsheet, leaves};
ghost use Rattle.sequence.specs.Placings.{placings};
ghost use Rattle.write_fields.specs.Inked.{Room, Inked, up_to};
ghost use Rattle.hour_lines.specs.LineAmounts.{SmallFirst};
ghost use Rattle.hour_lines.specs.HourCells.{Answered};
ghost use Rattle.hour_lines.specs.HourRun.{Ended};
ghost use Rattle.write_spreadsheet.specs.Rows.{ShortLabels, row_text, row_at, open_at, source_labels, delivery_labels};
ghost use Rattle.write_spreadsheet.specs.HourFile.{hour_file};

use hour_lines::{FEW_CELLS, HOUR_AMOUNTS, MOST_CELLS};
use moves::PAIR_CELLS;
use reconstruct::OPEN_CELLS;
use rules::{Hour, Key, Label, Refusal};

// Room for what all records of a delivery begin with.
const MOST_HEAD: usize = 64;

// No file is longer.
const MOST_FILE: usize = 147456;

// Labels, apart from the hour that is too long to be handed to each row.

fn source_labels(h: Hour) -> [Label; 32]
    requires { h.nsources ≤ 32 }
    ensures { result ≡ source_labels h h.nsources }
{
    let n = h.nsources;
    let none = Label {
        len: 0,
        bytes: [0; 16],
    };
    let mut labels: [Label; 32] = [none; 32];
    for i in 0..n {
        let x = h.sources[i];
        let l = x.label;
        labels[i] = l;
    }
    labels
}

fn delivery_labels(h: Hour) -> [Label; 32]
    requires { h.ndeliveries ≤ 32 }
    ensures { result ≡ delivery_labels h h.ndeliveries }
{
    let m = h.ndeliveries;
    let none = Label {
        len: 0,
        bytes: [0; 16],
    };
    let mut labels: [Label; 32] = [none; 32];
    for j in 0..m {
        let x = h.deliveries[j];
        let l = x.label;
        labels[j] = l;
    }
    labels
}

// A delivery with each source, the pairs' cells from a place on.
fn put_row(
    buf: &mut [u8],
    at: usize,
    sources: [Label; 32],
    n: usize,
    cells: &[i64],
    base: usize,
    head: &[u8],
) -> usize
    requires { (n ≤ 32) × SmallFirst cells.now (base + n * pair_width) × Room buf.old at (row_text sources n cells.now base head.now []) }
    ensures { Inked buf.old at buf.new result (row_text sources n cells.now base head.now) }
{
    let mut p = at;
    for i in 0..n {
        let source = sources[i];
        let amounts = hour_lines::pair_amounts_at(cells, base + i * PAIR_CELLS);
        p = write_records::put_delivery(buf, p, head, source, &amounts);
    }
    p
}

// Every delivery with each source.
fn put_rows(
    buf: &mut [u8],
    at: usize,
    sources: [Label; 32],
    n: usize,
    deliveries: [Label; 32],
    m: usize,
    keys: [Key; 32],
    cells: &[i64],
) -> usize
    requires { (n ≤ 32) × (m ≤ 32) × ShortLabels deliveries m × SmallFirst cells.now (m * (n * pair_width)) × Room buf.old at (up_to (row_at sources n deliveries keys cells.now) m []) }
    ensures { Inked buf.old at buf.new result (up_to (row_at sources n deliveries keys cells.now) m) }
{
    let mut p = at;
    for j in 0..m {
        let delivery = deliveries[j];
        let x = keys[j];
        let mut head = [0u8; MOST_HEAD];
        let k = write_records::put_head(&mut head, 0, delivery, x.number);
        p = put_row(buf, p, sources, n, cells, j * (n * PAIR_CELLS), &head[0..k]);
    }
    p
}

// What each source has left, its cells from a place on.
fn put_opens(
    buf: &mut [u8],
    at: usize,
    sources: [Label; 32],
    n: usize,
    cells: &[i64],
    base: usize,
) -> usize
    requires { (n ≤ 32) × SmallFirst cells.now (base + n * open_width) × Room buf.old at (up_to (open_at sources cells.now base) n []) }
    ensures { Inked buf.old at buf.new result (up_to (open_at sources cells.now base) n) }
{
    let mut p = at;
    for i in 0..n {
        let source = sources[i];
        let amounts = hour_lines::open_amounts_at(cells, base + i * OPEN_CELLS);
        p = write_records::put_internal(buf, p, source, &amounts);
    }
    p
}

// What the hour's own record tells.
fn amounts_of(h: Hour) -> [i64; HOUR_AMOUNTS]
    requires { valid h ≡ true }
    ensures { result ≡ hour_amounts (generated h) h.losses (delivered h) }
{
    let generation = line_rules::sum_generated(h);
    let delivered = line_rules::sum_delivered(h);
    hour_lines::hour_amounts(generation, h.losses as u64, delivered)
}

// The file of an hour that was reconstructed, from the buffer's start on; gives its length.
fn put_file(buf: &mut [u8], h: Hour, keys: [Key; 32], cells: &[i64]) -> usize
    requires { Answered h keys cells.now × (length (hour_file h) ≤ length buf.old) }
    ensures size { result ≡ length (hour_file h) }
    ensures bytes { buf.new ≡ hour_file h ++ drop (length (hour_file h)) buf.old }
{
    let n = h.nsources;
    let m = h.ndeliveries;
    let sources = source_labels(h);
    let deliveries = delivery_labels(h);
    let amounts = amounts_of(h);
    let p = write_records::put_header(buf, 0);
    let q = write_records::put_hour(buf, p, &amounts);
    let r = put_rows(buf, q, sources, n, deliveries, m, keys, cells);
    let s = put_opens(buf, r, sources, n, cells, m * (n * PAIR_CELLS));
    write_records::put_end(buf, s)
}

// Lengths: of each text above, as many bytes as it has.

fn row_length(sources: [Label; 32], n: usize, cells: &[i64], base: usize, head: &[u8]) -> usize
    requires { (n ≤ 32) × SmallFirst cells.now (base + n * pair_width) × (length (row_text sources n cells.now base head.now []) < 2 ^ 64) }
    ensures { result ≡ length (row_text sources n cells.now base head.now []) }
{
    let mut size: usize = 0;
    for i in 0..n {
        let source = sources[i];
        let amounts = hour_lines::pair_amounts_at(cells, base + i * PAIR_CELLS);
        size += write_records::delivery_length(head, source, &amounts);
    }
    size
}

fn rows_length(
    sources: [Label; 32],
    n: usize,
    deliveries: [Label; 32],
    m: usize,
    keys: [Key; 32],
    cells: &[i64],
) -> usize
    requires { (n ≤ 32) × (m ≤ 32) × ShortLabels deliveries m × SmallFirst cells.now (m * (n * pair_width)) × (length (up_to (row_at sources n deliveries keys cells.now) m []) < 2 ^ 64) }
    ensures { result ≡ length (up_to (row_at sources n deliveries keys cells.now) m []) }
{
    let mut size: usize = 0;
    for j in 0..m {
        let delivery = deliveries[j];
        let x = keys[j];
        let mut head = [0u8; MOST_HEAD];
        let k = write_records::put_head(&mut head, 0, delivery, x.number);
        size += row_length(sources, n, cells, j * (n * PAIR_CELLS), &head[0..k]);
    }
    size
}

fn opens_length(sources: [Label; 32], n: usize, cells: &[i64], base: usize) -> usize
    requires { (n ≤ 32) × SmallFirst cells.now (base + n * open_width) × (length (up_to (open_at sources cells.now base) n []) < 2 ^ 64) }
    ensures { result ≡ length (up_to (open_at sources cells.now base) n []) }
{
    let mut size: usize = 0;
    for i in 0..n {
        let source = sources[i];
        let amounts = hour_lines::open_amounts_at(cells, base + i * OPEN_CELLS);
        size += write_records::internal_length(source, &amounts);
    }
    size
}

fn file_length(h: Hour, keys: [Key; 32], cells: &[i64]) -> usize
    requires { Answered h keys cells.now }
    ensures { result ≡ length (hour_file h) }
{
    let n = h.nsources;
    let m = h.ndeliveries;
    let sources = source_labels(h);
    let deliveries = delivery_labels(h);
    let amounts = amounts_of(h);
    let first = write_records::header_length() + write_records::hour_length(&amounts);
    let rows = rows_length(sources, n, deliveries, m, keys, cells);
    let opens = opens_length(sources, n, cells, m * (n * PAIR_CELLS));
    first + rows + opens + write_records::end_length()
}

// An hour's file into a lent buffer that may be too short for it.
fn hand_file(out: &mut [u8], h: Hour, keys: [Key; 32], cells: &[i64]) -> Result<usize, Refusal>
    requires { Answered h keys cells.now }
    ensures outcome { result ≡ written_of (into (length out.old) (hour_file h)) }
    ensures bytes { out.new ≡ leaves (into (length out.old) (hour_file h)) out.old }
{
    if out.len() < file_length(h, keys, cells) {
        return Err(Refusal::Short);
    }
    Ok(put_file(out, h, keys, cells))
}

// The file of a valid hour, of what its reconstruction answered and left in the cells.
fn write_answer(
    out: &mut [u8],
    h: Hour,
    keys: [Key; 32],
    end: Result<usize, Refusal>,
    cells: &[i64],
) -> Result<usize, Refusal>
    requires { (valid h ≡ true) × (keys ≡ placings h.deliveries h.ndeliveries) × Ended h end cells.now }
    ensures outcome { result ≡ written_of (file_for h (length out.old)) }
    ensures bytes { out.new ≡ leaves (file_for h (length out.old)) out.old }
{
    if let Err(r) = end {
        return Err(r);
    }
    if out.len() < MOST_FILE {
        return hand_file(out, h, keys, cells);
    }
    Ok(put_file(out, h, keys, cells))
}

// The file of a valid hour: 12 or 13, then 14.
fn write_valid(h: Hour, out: &mut [u8]) -> Result<usize, Refusal>
    requires { valid h ≡ true }
    ensures outcome { result ≡ written_of (file_for h (length out.old)) }
    ensures bytes { out.new ≡ leaves (file_for h (length out.old)) out.old }
{
    let keys = sequence::keys(&h.deliveries, h.ndeliveries);
    let count = h.ndeliveries * (h.nsources * PAIR_CELLS) + h.nsources * OPEN_CELLS;
    if count <= FEW_CELLS {
        let mut cells = [0i64; FEW_CELLS];
        let end = hour_lines::fill_cells(h, keys, &mut cells);
        return write_answer(out, h, keys, end, &cells);
    }
    let mut cells = [0i64; MOST_CELLS];
    let end = hour_lines::fill_cells(h, keys, &mut cells);
    write_answer(out, h, keys, end, &cells)
}

// The file of an hour record: 15, then 12 or 13, then 14.
pub fn spreadsheet(h: Hour, out: &mut [u8]) -> Result<usize, Refusal>
    ensures outcome { result ≡ written_of (calls.spreadsheet h (length out.old)) }
    ensures bytes { out.new ≡ leaves (calls.spreadsheet h (length out.old)) out.old }
{
    if !record::valid(h) {
        return Err(Refusal::NoDeck);
    }
    write_valid(h, out)
}

// The file of a deck: 1 to 11, then 12 or 13, then 14.
pub fn deck_spreadsheet(deck: &[u8], out: &mut [u8]) -> Result<usize, Refusal>
    ensures outcome { result ≡ written_of (deck_spreadsheet deck.now (length out.old)) }
    ensures bytes { out.new ≡ leaves (deck_spreadsheet deck.now (length out.old)) out.old }
{
    let h = deck::read(deck)?;
    write_valid(h, out)
}
