// Whether two records place every address alike; one test for each bank decides it.
#![tactic(auto)]

ghost use Rattle.std.specs.Prelude.{◌≡◌, ◌<◌};
ghost use Rattle.banks.specs.Setup.{Bounded, setup_of};
ghost use Rattle.banks.specs.Map.{row_of};
ghost use Rattle.alike.specs.Alike.{paper_comparison, compared};
ghost use Rattle.alike.specs.CodeMegabyte.{same_part, same_bank};

use banks::Bank;
use refusals::Refusal;
use registers::Registers;

// What comparing two records finds. FORM-7: an answer is an enum.
#[derive(Clone, Copy, PartialEq, Eq, Debug)]
pub enum Comparison {
    Alike,
    Different,
}

// The row of an address in a bank. Here as in `way_back` the bounds of a bank are asked of each function, since the type has public fields and holds none.
fn row(b: Bank, address: u32) -> u32
    requires { Bounded b }
    ensures { result ≡ (row_of b address).0 }
{
    (address >> 3 & ((1u32 << (b.row_bits + b.column_bits)) - 1)) >> b.column_bits
}

fn is_same_part(m: u32, b: Bank, c: Bank) -> bool
    requires { (m < 1024) × Bounded b × Bounded c }
    ensures { result ≡ same_part m b c }
{
    (b.column_bits == c.column_bits) & (row(b, m << 20) == row(c, m << 20))
}

fn is_same_bank(b: Bank, c: Bank) -> bool
    requires { Bounded b × Bounded c }
    ensures { result ≡ same_bank b c }
{
    if b.enabled & c.enabled {
        return (b.start == c.start)
            & ((b.last == c.last) & (is_same_part(b.start, b, c) & is_same_part(b.last, b, c)));
    }
    !(b.enabled | c.enabled)
}

// ALIKE-3: whether two records are alike.
pub fn compare(r: Registers, s: Registers) -> Result<Comparison, Refusal>
    ensures { paper_comparison result ≡ compared (setup_of r) (setup_of s) }
{
    if !judging::is_ready(r) {
        return Err(Refusal::NotReady);
    }
    if !judging::is_ready(s) {
        return Err(Refusal::NotReady);
    }
    for n in 0..8u32 {
        if !is_same_bank(judging::decode_bank(r, n), judging::decode_bank(s, n)) {
            return Ok(Comparison::Different);
        }
    }
    Ok(Comparison::Alike)
}
