// Whether a label is one with zeros after it, and whether an entry is blank.
// Contracts cite this crate's Shape. Internal: the test of 15 calls it.
ghost use Rattle.std.specs.Prelude.{◌≡◌};
ghost use Rattle.record.specs.Shape.{own_byte, padded, own_label, blank_label, blank_plant, blank_basis, source_blank, delivery_blank, direct_blank};

use rules::{Basis, Delivery, Direct, Label, Plant, Source};

fn size(x: u8) -> usize
    ensures { result ≡ x }
{
    x as usize
}

fn own_byte(inside: bool, b: u8) -> bool
    ensures { result ≡ own_byte inside b }
{
    if inside {
        read_fields::is_character(b)
    } else {
        b == 0
    }
}

// Characters as far as the label goes, and zeros after them.
fn is_padded(l: Label) -> bool
    ensures { result ≡ padded l }
{
    let n = size(l.len);
    let mut all = true;
    for i in 0..16 {
        all = all & own_byte(i < n, l.bytes[i]);
    }
    all
}

#[tactic(auto, unfolding(crate::specs::Shape::own_label))]
pub fn is_label(l: Label) -> bool
    ensures { result ≡ own_label l }
{
    1 <= l.len && l.len <= 16 && is_padded(l)
}

// No character, and sixteen zeros.
fn is_blank_label(l: Label) -> bool
    ensures { result ≡ blank_label l }
{
    if l.len != 0 {
        return false;
    }
    let mut all = true;
    for at in 0..16 {
        all = all & own_byte(false, l.bytes[at]);
    }
    all
}

fn is_blank_plant(p: Plant) -> bool
    ensures { result ≡ blank_plant p }
{
    match p {
        Plant::Unit(_) | Plant::Purchase { .. } => false,
        Plant::Fixed { g } => g == 0,
    }
}

#[tactic(auto, unfolding(crate::specs::Shape::source_blank))]
pub fn is_blank_source(x: Source) -> bool
    ensures { result ≡ source_blank x }
{
    is_blank_plant(x.plant) && is_blank_label(x.label)
}

#[tactic(auto, unfolding(crate::specs::Shape::delivery_blank))]
pub fn is_blank_delivery(x: Delivery) -> bool
    ensures { result ≡ delivery_blank x }
{
    x.sequence.0 == 0 && x.kind == 0 && x.block == 0 && x.mwh == 0 && is_blank_label(x.label)
}

fn is_blank_basis(b: Basis) -> bool
    ensures { result ≡ blank_basis b }
{
    match b {
        Basis::Low => true,
        Basis::Generation | Basis::Mwh(_) => false,
    }
}

#[tactic(auto, unfolding(crate::specs::Shape::direct_blank))]
pub fn is_blank_direct(x: Direct) -> bool
    ensures { result ≡ direct_blank x }
{
    is_blank_basis(x.basis) && x.percent == 0 && x.source == 0 && x.delivery == 0
}
