// ON-2: judging the banks of a record: whether it may be switched on, and whether it is ready.
#![tactic(auto)]

ghost use Rattle.std.specs.Prelude.{◌≡◌, ℕ, ◌≤◌, ◌<◌, true, false};
ghost use Rattle.refusals.specs.Paper.{paper, paper_verdict};
ghost use Rattle.banks.specs.Setup.{setup_of, bank};
ghost use Rattle.banks.specs.Judge.{inverted, faulty, fault_of, judged, ready};
ghost use Rattle.address_map.specs.CodeFields.{enabled_by, setup_by};
ghost use Rattle.address_map.specs.CodeSelection.{megabyte_bits};

use address_map::{Fields, column_bits};
use banks::{Bank, FEWEST_COLUMN_BITS, FEWEST_ROW_BITS, MEGABYTE_BITS};
use refusals::Refusal;
use registers::Registers;

// REG-14, REG-15: how many bits number the megabytes of bank n's cells, as it is when enabled, be it faulty or not: if it starts above its end it
// has the fewest column bits, and if it is too long the most. A bank's number has no type with a bound, since a caller may give any: above 7 is no bank.
fn bits_in(fields: &Fields, n: u32) -> u32
    requires { n < 8 }
    ensures value { result ≡ megabyte_bits (enabled_by fields.now n) }
    ensures bound { result ≤ 8 }
{
    if let Some(bits) = fields.bits_unless_faulty(n) {
        return bits;
    }
    let code = fields.row_code(n);
    if fields.last(n) < fields.start(n) {
        return code;
    }
    2 * code + 1 + code / 3
}

// REG-13, REG-14: bank n, as it is when enabled.
fn enabled_bank(fields: &Fields, n: u32) -> Bank
    requires { n < 8 }
    ensures { result ≡ enabled_by fields.now n }
{
    let bits = bits_in(fields, n);
    let columns = column_bits(fields.row_code(n), bits);
    Bank {
        enabled: true,
        start: fields.start(n),
        last: fields.last(n),
        row_bits: MEGABYTE_BITS + bits - columns,
        column_bits: columns,
    }
}

// Bank n; a disabled bank if n is above 7.
#[tactic(auto, using(address_map::proofs::PassLaws::bank_on_lem, address_map::proofs::PassLaws::bank_off_lem, address_map::proofs::PassLaws::enabled_below))]
fn bank_in(fields: &Fields, n: u32) -> Bank
    ensures { result ≡ bank (setup_by fields.now) n }
{
    if fields.is_enabled(n) {
        return enabled_bank(fields, n);
    }
    Bank {
        enabled: false,
        start: 0,
        last: 0,
        row_bits: FEWEST_ROW_BITS,
        column_bits: FEWEST_COLUMN_BITS,
    }
}

// ON-2: whether 12 or 13 applies to bank n.
fn is_faulty(fields: &Fields, n: u32) -> bool
    ensures { result ≡ faulty (bank (setup_by fields.now) n) }
{
    fields.is_enabled(n) && fields.bits_unless_faulty(n).is_none()
}

#[tactic(auto, unfolding(banks::specs::Judge::inverted))]
fn is_inverted(b: Bank) -> bool
    ensures { result ≡ inverted b }
{
    b.last < b.start
}

// The lowest bank that passes a test, or 8, as `lowest` of banks/Judge has it: with an Option, by `find` or a loop, judging eight banks takes 1.16 times
// as long.
fn lowest<F: Fn(u32) -> bool>(test: F) -> u8
    requires { F.IsAlwaysCallable test }
    ensures found { result < 8 → F.post test result true }
    ensures least { (result ≤ 8) × ((k : ℕ) → k < result → F.post test k false) }
{
    for n in 0..8u8 {
        if test(u32::from(n)) {
            return n;
        }
    }
    8
}

#[tactic(auto, unfolding(banks::specs::Judge::fault_of))]
fn fault(b: Bank, n: u8) -> Refusal
    ensures { paper result ≡ fault_of b n }
{
    if is_inverted(b) {
        Refusal::StartAboveEnd(n)
    } else {
        Refusal::TooLong(n)
    }
}

fn verdict(fields: &Fields) -> Result<(), Refusal>
    ensures { paper_verdict result ≡ judged (setup_by fields.now) }
{
    if lowest(|n| fields.is_enabled(n)) == 8 {
        return Err(Refusal::NoBankEnabled);
    }
    let n = lowest(|n| is_faulty(fields, n));
    if n < 8 {
        return Err(fault(bank_in(fields, u32::from(n)), n));
    }
    let m = lowest(|n| fields.meets_lower(n));
    if m < 8 {
        return Err(Refusal::Overlap(m));
    }
    Ok(())
}

// REG-16: whether memory is on.
pub fn is_on(r: Registers) -> bool
    ensures { result ≡ (setup_of r).on }
{
    Fields::from(r).is_on()
}

// ON-8: what switching the record on would get.
pub fn judge(r: Registers) -> Result<(), Refusal>
    ensures { paper_verdict result ≡ judged (setup_of r) }
{
    verdict(&Fields::from(r))
}

// ON-8: memory is on, and judging finds no fault.
pub fn is_ready(r: Registers) -> bool
    ensures { result ≡ ready (setup_of r) }
{
    let fields = Fields::from(r);
    fields.is_on() && verdict(&fields).is_ok()
}

// Bank n of a record; a disabled bank if n is above 7.
pub fn decode_bank(r: Registers, n: u32) -> Bank
    ensures { result ≡ bank (setup_of r) n }
{
    bank_in(&Fields::from(r), n)
}
