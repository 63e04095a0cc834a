// Reads a deck's lines, each from the place after its letter to the place after its LF.
// The contracts cite rules' Lines for what stands in the deck, and Answers for how that is answered.
#![tactic(auto)]

ghost use Rattle.std.specs.Prelude.{◌≡◌};
ghost use Rattle.rules.specs.Lines.{H as headLetter, U, P, F, T, D, places_at};
ghost use Rattle.read_lines.specs.Answers.{head_line, unit_line, purchase_line, fixed_line, delivery_line, direct_line};

use ranges::UnitNumbers;
use read_fields::Place;
use rules::Basis;

// Each number is cut as read_fields cuts it; `next` is the place after the line.

#[derive(Clone, Copy)]
pub struct HeadLine {
    pub losses: u32,
    pub next: usize,
}

#[derive(Clone, Copy)]
pub struct UnitLine {
    pub numbers: UnitNumbers,
    pub label: Place,
    pub next: usize,
}

#[derive(Clone, Copy)]
pub struct PurchaseLine {
    pub g: u32,
    pub rate: u32,
    pub label: Place,
    pub next: usize,
}

#[derive(Clone, Copy)]
pub struct FixedLine {
    pub g: u32,
    pub label: Place,
    pub next: usize,
}

#[derive(Clone, Copy)]
pub struct DeliveryLine {
    pub sequence: u32,
    pub kind: u32,
    pub block: u32,
    pub mwh: u32,
    pub label: Place,
    pub next: usize,
}

#[derive(Clone, Copy)]
pub struct DirectLine {
    pub basis: Basis,
    pub percent: u32,
    pub unit: Place,
    pub delivery: Place,
    pub next: usize,
}

#[tactic(auto, using(crate::proofs::Chains::head_chain))]
pub fn head(s: &[u8], at: usize) -> Option<HeadLine>
    ensures { result ≡ head_line (places_at s.now at headLetter) }
{
    let (losses, p) = read_fields::spaced_number(s, at)?;
    let next = read_fields::byte(s, p, b'\n')?;
    Some(HeadLine { losses, next })
}

// A `?` for each number, as in the rules' list of its kinds: an array of them would need a definition and a proof that this form does without.
#[tactic(auto, using(crate::proofs::Chains::unit_chain))]
pub fn unit(s: &[u8], at: usize) -> Option<UnitLine>
    ensures { result ≡ unit_line (places_at s.now at U) }
{
    let (g, p) = read_fields::spaced_number(s, at)?;
    let (h, p) = read_fields::spaced_number(s, p)?;
    let (n, p) = read_fields::spaced_number(s, p)?;
    let (o, p) = read_fields::spaced_number(s, p)?;
    let (e, p) = read_fields::spaced_number(s, p)?;
    let (k, p) = read_fields::spaced_number(s, p)?;
    let (a, p) = read_fields::spaced_number(s, p)?;
    let (b, p) = read_fields::spaced_number(s, p)?;
    let (c, p) = read_fields::spaced_number(s, p)?;
    let (r, p) = read_fields::spaced_number(s, p)?;
    let (label, p) = read_fields::spaced_label(s, p)?;
    let next = read_fields::byte(s, p, b'\n')?;
    let numbers = UnitNumbers {
        g,
        h,
        n,
        o,
        e,
        k,
        a,
        b,
        c,
        r,
    };
    Some(UnitLine {
        numbers,
        label,
        next,
    })
}

#[tactic(auto, using(crate::proofs::Chains::purchase_chain))]
pub fn purchase(s: &[u8], at: usize) -> Option<PurchaseLine>
    ensures { result ≡ purchase_line (places_at s.now at P) }
{
    let (g, p) = read_fields::spaced_number(s, at)?;
    let (rate, p) = read_fields::spaced_number(s, p)?;
    let (label, p) = read_fields::spaced_label(s, p)?;
    let next = read_fields::byte(s, p, b'\n')?;
    Some(PurchaseLine {
        g,
        rate,
        label,
        next,
    })
}

#[tactic(auto, using(crate::proofs::Chains::fixed_chain))]
pub fn fixed(s: &[u8], at: usize) -> Option<FixedLine>
    ensures { result ≡ fixed_line (places_at s.now at F) }
{
    let (g, p) = read_fields::spaced_number(s, at)?;
    let (label, p) = read_fields::spaced_label(s, p)?;
    let next = read_fields::byte(s, p, b'\n')?;
    Some(FixedLine { g, label, next })
}

#[tactic(auto, using(crate::proofs::Chains::delivery_chain))]
pub fn delivery(s: &[u8], at: usize) -> Option<DeliveryLine>
    ensures { result ≡ delivery_line (places_at s.now at T) }
{
    let (sequence, p) = read_fields::spaced_number(s, at)?;
    let (kind, p) = read_fields::spaced_number(s, p)?;
    let (block, p) = read_fields::spaced_number(s, p)?;
    let (mwh, p) = read_fields::spaced_number(s, p)?;
    let (label, p) = read_fields::spaced_label(s, p)?;
    let next = read_fields::byte(s, p, b'\n')?;
    Some(DeliveryLine {
        sequence,
        kind,
        block,
        mwh,
        label,
        next,
    })
}

#[tactic(auto, using(crate::proofs::Chains::direct_chain))]
pub fn direct(s: &[u8], at: usize) -> Option<DirectLine>
    ensures { result ≡ direct_line (places_at s.now at D) }
{
    let (basis, p) = read_fields::spaced_basis(s, at)?;
    let (percent, p) = read_fields::spaced_number(s, p)?;
    let (unit, p) = read_fields::spaced_label(s, p)?;
    let (delivery, p) = read_fields::spaced_label(s, p)?;
    let next = read_fields::byte(s, p, b'\n')?;
    Some(DirectLine {
        basis,
        percent,
        unit,
        delivery,
        next,
    })
}
