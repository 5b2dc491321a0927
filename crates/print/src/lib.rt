// What the answers of the calls print: one output line each, written to the start of the lent output. Nothing is written if the output has no
// room for the longest line, so the functions demand nothing of their caller.
#![tactic(auto)]

ghost use Rattle.std.specs.Prelude.{◌≡◌, take};
ghost use Rattle.refusals.specs.Paper.{paper_verdict, paper_outcome};
ghost use Rattle.print.specs.Output.{verdict_text, register_read_text};
ghost use Rattle.print.specs.CodePrinted.{print_into, kinds_line, read_line};

mod digits;
mod text;

use calls::Answer;
use refusals::Refusal;
use text::Line;

// The most bytes that an output line can have, with its LF: an answer has up to four kinds of five bytes, and a read up to eight bytes.
pub const LONGEST_OUTPUT_LINE: usize = 41;

// The line, by its letter, of what prints nothing more if it was accepted: a register write and a flip, which print no answer (LINE-13), and a
// malformed line.
#[tactic(auto, using(crate::proofs::PrintLaws::refused_whole, crate::proofs::PrintLaws::cut_fits))]
pub fn verdict_line(letter: u8, verdict: Result<(), Refusal>, out: &mut [u8]) -> usize
    ensures { (result, out.new) ≡ print_into (verdict_text letter (paper_verdict verdict)) out.old }
{
    match verdict {
        Ok(_) => Line::accepted(letter).print(out),
        Err(refusal) => Line::refused(letter, refusal).print(out),
    }
}

// The line for a register read.
#[tactic(auto, using(crate::proofs::PrintLaws::refused_whole, crate::proofs::PrintLaws::cut_fits, crate::proofs::PrintLaws::cut_more), unfolding(crate::specs::Output::register_read_text))]
pub fn register_read(reading: Result<u8, Refusal>, out: &mut [u8]) -> usize
    ensures { (result, out.new) ≡ print_into (register_read_text (paper_outcome reading)) out.old }
{
    match reading {
        Ok(value) => {
            let mut line = Line::accepted(b'g');
            line.put(b',');
            line.put_hex(value);
            line.print(out)
        }
        Err(refusal) => Line::refused(b'g', refusal).print(out),
    }
}

// The line for a write or a scrub, by its letter.
#[tactic(auto, using(crate::proofs::PrintLaws::refused_whole, crate::proofs::PrintLaws::kinds_whole))]
pub fn kinds(letter: u8, answer: Answer, out: &mut [u8]) -> usize
    ensures { (result, out.new) ≡ print_into (kinds_line letter answer) out.old }
{
    match answer {
        Ok(kinds) => Line::kinds(letter, kinds).print(out),
        Err(refusal) => Line::refused(letter, refusal).print(out),
    }
}

// The line for a read of these bytes; what comes after the first 8 is left out.
#[tactic(auto, using(crate::proofs::PrintLaws::refused_whole, crate::proofs::PrintLaws::read_whole))]
pub fn read(answer: Answer, bytes: &[u8], out: &mut [u8]) -> usize
    ensures { (result, out.new) ≡ print_into (read_line answer (take 8 bytes.now)) out.old }
{
    match answer {
        Ok(kinds) => {
            let mut line = Line::kinds(b'r', kinds);
            line.put(b',');
            line.put_bytes(&bytes[..bytes.len().min(8)]);
            line.print(out)
        }
        Err(refusal) => Line::refused(b'r', refusal).print(out),
    }
}
