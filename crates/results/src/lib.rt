// What a call returns to a C program and gives it, as numbers.
#![tactic(auto)]

ghost use Rattle.std.specs.Prelude.{◌≡◌, ◌≤◌, length};
ghost use Rattle.refusals.specs.Paper.{paper, paper_verdict, paper_outcome};
ghost use Rattle.calls.specs.Answers.{kinds_in, paper_answer};
ghost use Rattle.results.specs.Results.{refusal_code, result_of_verdict, returned, kind_code, bit_of, part_code, part_at, answer_numbers};

use calls::{Answer, Kind, Kinds};
use refusals::Refusal;

// A refusal as a C program gets it: its number, and in the next byte the bank that it names, or 0 if it names none.
pub fn of_refusal(x: Refusal) -> u32
    ensures { result ≡ refusal_code (paper x) }
{
    u32::from(x.number()) + 256 * u32::from(x.bank().unwrap_or(0))
}

// A verdict as a C program gets it: 0 if there is no refusal.
pub fn of_verdict(v: Result<(), Refusal>) -> u32
    ensures { result ≡ result_of_verdict (paper_verdict v) }
{
    match v {
        Ok(()) => 0,
        Err(x) => of_refusal(x),
    }
}

// What a call returns that gives numbers: those of an accepted call go to the lent ones.
pub fn give<T: Copy, const N: usize>(given: Result<[T; N], Refusal>, lent: &mut [T; N]) -> u32
    ensures { (result, lent.new) ≡ returned (λ x. x) (paper_outcome given) lent.old }
{
    match given {
        Ok(numbers) => {
            *lent = numbers;
            0
        }
        Err(refusal) => of_refusal(refusal),
    }
}

fn number(k: Kind) -> u32
    ensures { result ≡ kind_code k }
{
    match k {
        Kind::Clean => 1,
        Kind::Corrected(_) => 2,
        Kind::Uncorrectable => 3,
        Kind::Stored => 4,
        Kind::NoBank => 5,
        Kind::Flipped => 6,
    }
}

// The flip bit of "corrected", or 0 for any other kind.
fn flip_bit(k: Kind) -> u8
    ensures { result ≡ bit_of k }
{
    match k {
        Kind::Corrected(b) => b,
        _ => 0,
    }
}

// The number of an access's part of the answer, or 0 if there is no such access.
#[tactic(auto, using(crate::proofs::PartLaws::part_is, crate::proofs::PartLaws::part_past))]
fn part_at(kinds: &[Kind], i: usize) -> u32
    ensures { result ≡ part_at kinds.now i }
{
    match kinds.get(i) {
        Some(k) => number(*k) + 256 * u32::from(flip_bit(*k)),
        None => 0,
    }
}

fn numbers(of: Kinds) -> [u32; 5]
    ensures { result ≡ answer_numbers (kinds_in of) }
{
    let kinds = of.as_slice();
    [
        kinds.len() as u32,
        part_at(kinds, 0),
        part_at(kinds, 1),
        part_at(kinds, 2),
        part_at(kinds, 3),
    ]
}

// What a read, write, scrub or burst returns; the parts of an accepted call go to the lent numbers.
pub fn give_answer(x: Answer, answer: &mut [u32; 5]) -> u32
    ensures { (result, answer.new) ≡ returned answer_numbers (paper_answer x) answer.old }
{
    give(x.map(numbers), answer)
}
