// Reads lines from standard input and writes an output line for each to standard output.
#![tactic(auto)]

use lines::Kept;
use std::fmt;
use std::io::Read;

// How many bytes are read at a time. Longer chunks were not faster, since larger buffers have to be cleared first.
const CHUNK: usize = 16384;

// Why the input is not executed to its end.
#[derive(Clone, Copy)]
enum Failure {
    Read,
    Room,
    Write,
}

impl fmt::Display for Failure {
    fn fmt<W: fmt::Write>(&self, f: &mut fmt::Formatter<W>) -> fmt::Result {
        match self {
            Failure::Read => write!(
                f,
                "cannot read standard input; an unfinished line is not executed"
            ),
            Failure::Room => write!(f, "no room for the output"),
            Failure::Write => write!(f, "cannot write standard output"),
        }
    }
}

// Writes the first n bytes of the output.
fn flush(rt: &impl Print, out: &[u8], n: usize) -> Result<(), Failure> {
    let printed = out.get(..n).ok_or(Failure::Room)?;
    rt.write_all(printed).map_err(|_| Failure::Write)
}

// Reads the whole input, and writes the output of the lines that each chunk completes. A proved loop must end, and the input might not, so the reads
// are counted, up to a number that no run reaches.
fn read_all(
    rt: &impl Print,
    input: &mut impl Read,
    kept: &mut Kept,
    cells: &mut [u8],
    chunk: &mut [u8],
    out: &mut [u8],
) -> Result<(), Failure> {
    for _ in 0..u64::MAX {
        let n = input.read(chunk).map_err(|_| Failure::Read)?;
        if n == 0 {
            break;
        }
        let written = kept.step(cells, &chunk[..n], out).ok_or(Failure::Room)?;
        flush(rt, out, written)?;
    }
    Ok(())
}

// Runs from the start to the end of the input: bytes that are left then are a line (LINE-1).
fn run(
    rt: &impl Print,
    input: &mut impl Read,
    cells: &mut [u8],
    chunk: &mut [u8],
    out: &mut [u8],
) -> Result<(), Failure> {
    let mut kept = Kept::start(cells);
    read_all(rt, input, &mut kept, cells, chunk, out)?;
    let written = kept.finish(cells, out);
    flush(rt, out, written)
}

// The lent cells, a chunk, and an output with room for the longest line for each byte of the chunk. If the message about a failure cannot be written
// there is no place to say so.
fn main(rt: HostRuntime) {
    let mut cells = [0u8; lines::LENT_BYTES];
    let mut chunk = [0u8; CHUNK];
    let mut out = [0u8; CHUNK * print::LONGEST_OUTPUT_LINE];
    let mut input = rt.stdin();
    if let Err(failure) = run(&rt, &mut input, &mut cells, &mut chunk, &mut out) {
        let _ = eprintln!(rt; "busline: {failure}");
    }
}
