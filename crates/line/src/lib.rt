// Executes a line. What it prints is written to the start of the lent output, which has room for the longest line.
#![tactic(auto)]

ghost use Rattle.std.specs.Prelude.{◌≡◌, ℕ, List, cond, ltb};
ghost use Rattle.ecc.specs.Columns.{columns};
ghost use Rattle.calls.specs.Calls.{read, write, flip, scrub, memory, read_register, write_register};
ghost use Rattle.calls.specs.State.{lent_state};
ghost use Rattle.parser.specs.CodeParsed.{asked};
ghost use Rattle.print.specs.Output.{malformed_text};
ghost use Rattle.print.specs.CodePrinted.{at_start};
ghost use Rattle.line.specs.Line.{call_of};
ghost use Rattle.line.specs.CodeLinePrinted.{executed_in_place, printed_into, line_into};

use parser::Request;
use print::LONGEST_OUTPUT_LINE;
use refusals::Refusal;
use registers::Registers;

// The start of an output, with room for the longest line.
type Room = [u8; LONGEST_OUTPUT_LINE];

// FORM-1: memory calls take and return the record by value; what comes back is kept.
fn keep(registers: &mut [u8; 256], after: Registers)
    ensures { registers.new ≡ after.bytes }
{
    let bytes = after.bytes;
    *registers = bytes;
}

// `c`
fn register_write_line(registers: &mut [u8; 256], offset: u8, value: u8, out: &mut Room) -> usize
    ensures { (cells : List ℕ) → executed_in_place result registers.new cells out.new ≡ printed_into out.old (call_of columns (lent_state registers.old cells) (write_register offset value)) }
{
    let verdict = register_calls::write_in_place(registers, offset as u32, value);
    print::verdict_line(b'c', verdict, out)
}

// `g`
fn register_read_line(registers: &[u8; 256], offset: u8, out: &mut Room) -> usize
    ensures { (cells : List ℕ) → executed_in_place result registers.now cells out.new ≡ printed_into out.old (call_of columns (lent_state registers.now cells) (read_register offset)) }
{
    print::register_read(
        register_calls::read(Registers { bytes: *registers }, offset as u32),
        out,
    )
}

// `w`
fn write_line(
    registers: &mut [u8; 256],
    cells: &mut [u8],
    address: u32,
    bytes: &[u8],
    out: &mut Room,
) -> usize
    ensures { executed_in_place result registers.new cells.new out.new ≡ printed_into out.old (call_of columns (lent_state registers.old cells.old) (memory (write address bytes.now))) }
{
    let called = memory_calls::write(Registers { bytes: *registers }, cells, address, bytes);
    keep(registers, called.registers);
    print::kinds(b'w', called.answer, out)
}

// `f`, which touches no register: the record that comes back need not be kept.
fn flip_line(
    registers: &[u8; 256],
    cells: &mut [u8],
    address: u32,
    bit: u8,
    out: &mut Room,
) -> usize
    ensures { executed_in_place result registers.now cells.new out.new ≡ printed_into out.old (call_of columns (lent_state registers.now cells.old) (memory (flip address bit))) }
{
    let called = memory_calls::flip(Registers { bytes: *registers }, cells, address, bit as u32);
    print::verdict_line(b'f', called.answer.and(Ok(())), out)
}

// `s`
fn scrub_line(registers: &mut [u8; 256], cells: &mut [u8], address: u32, out: &mut Room) -> usize
    ensures { executed_in_place result registers.new cells.new out.new ≡ printed_into out.old (call_of columns (lent_state registers.old cells.old) (memory (scrub address))) }
{
    let called = memory_calls::scrub(Registers { bytes: *registers }, cells, address);
    keep(registers, called.registers);
    print::kinds(b's', called.answer, out)
}

// The length of the buffer for a read: one of more than 8 bytes is refused in the same way as one of 9.
fn buffer_length(count: u8) -> usize
    ensures { result ≡ cond (ltb 8 count) 9 count }
{
    count.min(9) as usize
}

// `r`
fn read_line(
    registers: &mut [u8; 256],
    cells: &[u8],
    address: u32,
    count: u8,
    out: &mut Room,
) -> usize
    ensures { executed_in_place result registers.new cells.now out.new ≡ printed_into out.old (call_of columns (lent_state registers.old cells.now) (memory (read address count))) }
{
    let mut buffer = [0u8; 9];
    let n = buffer_length(count);
    let called = memory_calls::read(
        Registers { bytes: *registers },
        cells,
        address,
        &mut buffer[..n],
    );
    keep(registers, called.registers);
    print::read(called.answer, &buffer[..n], out)
}

// LINE-11: a line that asks for nothing.
fn malformed_line(out: &mut Room) -> usize
    ensures { (result, out.new) ≡ at_start malformed_text out.old }
{
    print::verdict_line(b'?', Err(Refusal::MalformedLine), out)
}

// What a request asks for.
fn request_line(
    registers: &mut [u8; 256],
    cells: &mut [u8],
    request: Request,
    out: &mut Room,
) -> usize
    ensures { executed_in_place result registers.new cells.new out.new ≡ printed_into out.old (call_of columns (lent_state registers.old cells.old) (asked request)) }
{
    match request {
        Request::WriteRegister(offset, value) => register_write_line(registers, offset, value, out),
        Request::ReadRegister(offset) => register_read_line(registers, offset, out),
        Request::Write(address, bytes) => {
            write_line(registers, cells, address, bytes.as_slice(), out)
        }
        Request::Read(address, count) => read_line(registers, cells, address, count, out),
        Request::Flip(address, bit) => flip_line(registers, cells, address, bit, out),
        Request::Scrub(address) => scrub_line(registers, cells, address, out),
    }
}

// LINE-10: executes one line, given without its LF, over the lent record and cells, and returns how many bytes it printed. Nothing is done if
// the output has no room for the longest line.
pub fn execute_in_place(
    registers: &mut [u8; 256],
    cells: &mut [u8],
    line: &[u8],
    out: &mut [u8],
) -> usize
    ensures { executed_in_place result registers.new cells.new out.new ≡ line_into columns (lent_state registers.old cells.old) line.now out.old }
{
    let Some(room) = out.first_chunk_mut() else {
        return 0;
    };
    match parser::parse(line) {
        Some(request) => request_line(registers, cells, request, room),
        None => malformed_line(room),
    }
}
