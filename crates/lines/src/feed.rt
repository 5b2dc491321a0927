// Input in chunks of any length: what is kept between chunks, and what each of them prints.
ghost use Rattle.std.specs.Prelude.{◌≡◌, ◌+◌, ◌*◌, ◌-◌, ◌<◌, ◌≤◌, cond, [], eqb, length, take, drop};
ghost use Rattle.ecc.specs.Columns.{columns};
ghost use Rattle.calls.specs.State.{state, lent_state};
ghost use Rattle.print.specs.CodePrinted.{longest_output_line};
ghost use Rattle.line_ends.specs.LineEnd.{line_length};
ghost use Rattle.lines.specs.CodeStepped.{carried_of, kept_as, LinesReached, step_of, end_into, carry_after};
ghost use Rattle.lines.specs.Text.{carrying, fresh_state};

use crate::buffers::Carry;
use line::execute_in_place;
use line_ends::line_end;
use print::LONGEST_OUTPUT_LINE;
use registers::Registers;

// LINE-9: the bytes of the 7,280 cells that all lines share.
pub const LENT_BYTES: usize = 9 * 7280;

// How far the complete lines of a chunk have been executed: an index into the chunk, and one into the output.
#[derive(Clone, Copy)]
struct Progress {
    from: usize,
    at: usize,
}

// The line from an index of a chunk on to its LF; the first one begins with what was carried.
fn line_from<'a>(first: &'a [u8], chunk: &'a [u8], from: usize, end: usize) -> &'a [u8]
    requires { (from ≤ end) × (end ≤ length chunk.now) }
    ensures { result.now ≡ cond (eqb from 0) first.now (take (end - from) (drop from chunk.now)) }
{
    if from == 0 { first } else { &chunk[from..end] }
}

// Executes the complete lines of a chunk that has one. `stop` is where the first one ends, and `first` is that line with what was carried. A loop and
// no iterator over lines, since the library's look for an LF one byte at a time.
#[tactic(auto, using(crate::proofs::StepLaws::before_first, crate::proofs::StepLaws::lines_reached))]
fn whole_lines<'a>(
    registers: &mut [u8; 256],
    cells: &mut [u8],
    first: &'a [u8],
    chunk: &'a [u8],
    stop: usize,
    out: &mut [u8],
) -> Progress
    requires { (stop ≡ 0 + line_length (drop 0 chunk.now)) × (stop < length chunk.now) × (longest_output_line * length chunk.now ≤ length out.old) }
    ensures lines_reached { LinesReached columns (lent_state registers.old cells.old) first.now chunk.now stop out.old (lent_state registers.new cells.new) result.from out.new result.at }
    ensures within { result.from ≤ length chunk.now }
    ensures chunk_value { line_length (drop result.from chunk.now) ≡ length chunk.now - result.from }
{
    let mut from = 0;
    let mut at = 0;
    let mut end = stop;
    loop {
        let line = line_from(first, chunk, from, end);
        at += execute_in_place(registers, cells, line, &mut out[at..]);
        from = end + 1;
        end = line_end(chunk, from);
        if end == chunk.len() {
            return Progress { from, at };
        }
    }
}

// What is kept between chunks, beside the cells.
#[derive(Clone, Copy)]
pub struct Kept {
    pub registers: Registers,
    pub carry: Carry,
}

impl Kept {
    // LINE-9: the start: a fresh record, cells that are 0, and no bytes carried.
    #[tactic(auto, unfolding(crate::specs::CodeStepped::carry_of))]
    pub fn start(cells: &mut [u8]) -> Kept
        ensures { (result, cells.new) ≡ kept_as (carrying (fresh_state (length cells.old)) []) }
    {
        cells.fill(0);
        Kept {
            registers: Registers::fresh(),
            carry: Carry::EMPTY,
        }
    }

    // Takes a chunk of input of any length: the lines that it completes are executed, their output is written to the start of `out`, and the number
    // of its bytes is returned. If `out` has no room for the longest line for each byte of the chunk, nothing is taken and nothing changes.
    #[tactic(auto, using(crate::proofs::StepLaws::step_refused, crate::proofs::StepLaws::first_end))]
    pub fn step(&mut self, cells: &mut [u8], chunk: &[u8], out: &mut [u8]) -> Option<usize>
        ensures { (result, (self.new, cells.new), out.new) ≡ step_of columns self.old cells.old chunk.now out.old }
    {
        if out.len() / LONGEST_OUTPUT_LINE < chunk.len() {
            return None;
        }
        let end = line_end(chunk, 0);
        let first = self.carry.joined(&chunk[..end]);
        if end == chunk.len() {
            self.carry = first;
            return Some(0);
        }
        let mut registers = self.registers.bytes;
        let all = whole_lines(&mut registers, cells, first.as_slice(), chunk, end, out);
        self.registers = Registers { bytes: registers };
        self.carry = Carry::EMPTY.joined(&chunk[all.from..]);
        Some(all.at)
    }

    // The end of the input: the carried bytes, if there are any, are a line (LINE-1). Returns how many bytes it printed. If `out` has no room for the
    // longest line, nothing is executed, and the bytes stay carried.
    #[tactic(auto, using(crate::proofs::StepLaws::end_none, crate::proofs::StepLaws::none_after))]
    pub fn finish(&mut self, cells: &mut [u8], out: &mut [u8]) -> usize
        ensures ended { (result, out.new, state self.new.registers cells.new) ≡ end_into columns (state self.old.registers cells.old) (carried_of self.old.carry) out.old }
        ensures carry { self.new.carry ≡ carry_after self.old.carry out.old }
    {
        if self.carry.len == 0 {
            return 0;
        }
        match self.step(cells, b"\n", out) {
            Some(printed) => printed,
            None => 0,
        }
    }
}
