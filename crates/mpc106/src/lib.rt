// The library for emulators: each call as a C function over lent bytes and numbers. A call returns 0 if it is accepted, and its refusal if it is
// not; what an accepted call gives is put in its last parameter. include/mpc106.h declares these functions and, over them, the calls that C
// programs use. Each name carries the major version of the interface, which the header states, so that a program for another is not linked.
#![tactic(auto)]

ghost use Rattle.std.specs.Prelude.{◌≡◌, [], ◌∷◌, Ok};
ghost use Rattle.refusals.specs.Paper.{◌gives◌};
ghost use Rattle.registers.specs.Record.{fresh, record_of};
ghost use Rattle.banks.specs.Setup.{setup_of};
ghost use Rattle.banks.specs.Judge.{judged, not_ready};
ghost use Rattle.banks.specs.Map.{paper_mapping, mapped, cell_count};
ghost use Rattle.way_back.specs.WayBack.{back};
ghost use Rattle.alike.specs.Alike.{paper_comparison, compared};
ghost use Rattle.register_calls.specs.Calls.{read_at, write_at};
ghost use Rattle.ecc.specs.Columns.{columns};
ghost use Rattle.calls.specs.State.{lent_state};
ghost use Rattle.machine.specs.Calls.{read_call, write_call, flip_call, scrub_call, burst_read_call, burst_write_call};
ghost use Rattle.results.specs.Results.{result_of_verdict, numbers_after, returned};
ghost use Rattle.mpc106.specs.Numbers.{single, truth, place_numbers, write_result};
ghost use Rattle.mpc106.specs.MemoryResults.{memory_result, result_of_call, flip_result};

use alike::Comparison;
use banks::{Column, Place, Row};
use registers::Registers;

// REG-1: makes a record of zeros.
#[unsafe(no_mangle)]
pub extern "C" fn mpc106_v4_fresh(registers: &mut [u8; 256])
    ensures { record_of registers.new ≡ fresh }
{
    let r = Registers::fresh();
    let bytes = r.bytes;
    *registers = bytes;
}

// ON-8: what switching the record on would get.
#[unsafe(no_mangle)]
pub extern "C" fn mpc106_v4_judge(registers: &[u8; 256]) -> u32
    ensures { result ≡ result_of_verdict (judged (setup_of (record_of registers.now))) }
{
    results::of_verdict(judging::judge(Registers { bytes: *registers }))
}

fn single<T: Copy>(x: T) -> [T; 1]
    ensures { result ≡ x ∷ [] }
{
    [x]
}

// MAP-6: how many cells the banks have together.
#[unsafe(no_mangle)]
pub extern "C" fn mpc106_v4_cell_count(registers: &[u8; 256], count: &mut [u32; 1]) -> u32
    ensures { (result, count.new) ≡ returned single (not_ready (setup_of (record_of registers.now)) gives cell_count (setup_of (record_of registers.now))) count.old }
{
    let cells = address_map::cell_count(Registers { bytes: *registers });
    results::give(cells.map(single), count)
}

// REG-17: reads a register.
#[unsafe(no_mangle)]
pub extern "C" fn mpc106_v4_register_read(
    registers: &[u8; 256],
    offset: u32,
    value: &mut [u8; 1],
) -> u32
    ensures { (result, value.new) ≡ returned single (read_at (record_of registers.now) offset) value.old }
{
    let byte = register_calls::read(Registers { bytes: *registers }, offset);
    results::give(byte.map(single), value)
}

// REG-18: writes a register.
#[unsafe(no_mangle)]
pub extern "C" fn mpc106_v4_register_write(registers: &mut [u8; 256], offset: u32, value: u8) -> u32
    ensures { (result, record_of registers.new) ≡ write_result (write_at (record_of registers.old) offset value) }
{
    results::of_verdict(register_calls::write_in_place(registers, offset, value))
}

// MAP-9: five zeros if no bank is selected.
fn numbers_of(place: Option<Place>) -> [u32; 5]
    ensures { numbers_after place_numbers (paper_mapping (Ok place)) [] ≡ result }
{
    match place {
        Some(p) => [1, u32::from(p.bank), p.row.0, p.column.0, p.cell],
        None => [0; 5],
    }
}

// MAP-9: bank, row, column and cell of an address.
#[unsafe(no_mangle)]
pub extern "C" fn mpc106_v4_map(registers: &[u8; 256], address: u32, place: &mut [u32; 5]) -> u32
    ensures { (result, place.new) ≡ returned place_numbers (mapped (setup_of (record_of registers.now)) address) place.old }
{
    let mapping = address_map::map(Registers { bytes: *registers }, address);
    results::give(mapping.map(numbers_of), place)
}

// The address of a bank, row and column.
#[unsafe(no_mangle)]
pub extern "C" fn mpc106_v4_way_back(
    registers: &[u8; 256],
    bank: u32,
    row: u32,
    column: u32,
    address: &mut [u32; 1],
) -> u32
    ensures { (result, address.new) ≡ returned single (back (setup_of (record_of registers.now)) bank (record { 0 = row }) (record { 0 = column })) address.old }
{
    let origin = way_back::way_back(
        Registers { bytes: *registers },
        bank,
        Row(row),
        Column(column),
    );
    results::give(origin.map(single), address)
}

fn truth(comparison: Comparison) -> [u32; 1]
    ensures { numbers_after truth (paper_comparison (Ok comparison)) [] ≡ result }
{
    match comparison {
        Comparison::Alike => [1],
        Comparison::Different => [0],
    }
}

// ALIKE-1: whether two records map every address in the same way.
#[unsafe(no_mangle)]
pub extern "C" fn mpc106_v4_alike(
    first: &[u8; 256],
    second: &[u8; 256],
    alike: &mut [u32; 1],
) -> u32
    ensures { (result, alike.new) ≡ returned truth (compared (setup_of (record_of first.now)) (setup_of (record_of second.now))) alike.old }
{
    let comparison = alike::compare(Registers { bytes: *first }, Registers { bytes: *second });
    results::give(comparison.map(truth), alike)
}

// MEM-2: a read of as many bytes as the buffer has.
#[unsafe(no_mangle)]
pub extern "C" fn mpc106_v4_read(
    registers: &mut [u8; 256],
    cells: &[u8],
    address: u32,
    buffer: &mut [u8],
    answer: &mut [u32; 5],
) -> u32
    ensures { memory_result result (lent_state registers.new cells.now) buffer.new answer.new ≡ result_of_call (read_call columns (lent_state registers.old cells.now) address buffer.old) answer.old }
{
    let given = memory::read_in_place(registers, cells, address, buffer);
    results::give_answer(given, answer)
}

// MEM-4, MEM-5: a write of these bytes.
#[unsafe(no_mangle)]
pub extern "C" fn mpc106_v4_write(
    registers: &mut [u8; 256],
    cells: &mut [u8],
    address: u32,
    bytes: &[u8],
    answer: &mut [u32; 5],
) -> u32
    ensures { memory_result result (lent_state registers.new cells.new) [] answer.new ≡ result_of_call (write_call columns (lent_state registers.old cells.old) address bytes.now) answer.old }
{
    let given = memory::write_in_place(registers, cells, address, bytes);
    results::give_answer(given, answer)
}

// MEM-7: a flip of one bit of a cell.
#[unsafe(no_mangle)]
pub extern "C" fn mpc106_v4_flip(
    registers: &[u8; 256],
    cells: &mut [u8],
    address: u32,
    bit: u32,
) -> u32
    ensures { (result, lent_state registers.now cells.new) ≡ flip_result (flip_call columns (lent_state registers.now cells.old) address bit) }
{
    let given = memory::flip_in_place(registers, cells, address, bit);
    results::of_verdict(given.map(|_| ()))
}

// MEM-8: a scrub of the doubleword that holds the address.
#[unsafe(no_mangle)]
pub extern "C" fn mpc106_v4_scrub(
    registers: &mut [u8; 256],
    cells: &mut [u8],
    address: u32,
    answer: &mut [u32; 5],
) -> u32
    ensures { memory_result result (lent_state registers.new cells.new) [] answer.new ≡ result_of_call (scrub_call columns (lent_state registers.old cells.old) address) answer.old }
{
    let given = memory::scrub_in_place(registers, cells, address);
    results::give_answer(given, answer)
}

// MEM-13: a burst read of a cache line.
#[unsafe(no_mangle)]
pub extern "C" fn mpc106_v4_burst_read(
    registers: &mut [u8; 256],
    cells: &[u8],
    address: u32,
    buffer: &mut [u8],
    answer: &mut [u32; 5],
) -> u32
    ensures { memory_result result (lent_state registers.new cells.now) buffer.new answer.new ≡ result_of_call (burst_read_call columns (lent_state registers.old cells.now) address buffer.old) answer.old }
{
    let given = memory::burst_read_in_place(registers, cells, address, buffer);
    results::give_answer(given, answer)
}

// MEM-13: a burst write of a cache line.
#[unsafe(no_mangle)]
pub extern "C" fn mpc106_v4_burst_write(
    registers: &mut [u8; 256],
    cells: &mut [u8],
    address: u32,
    bytes: &[u8],
    answer: &mut [u32; 5],
) -> u32
    ensures { memory_result result (lent_state registers.new cells.new) [] answer.new ≡ result_of_call (burst_write_call columns (lent_state registers.old cells.old) address bytes.now) answer.old }
{
    let given = memory::burst_write_in_place(registers, cells, address, bytes);
    results::give_answer(given, answer)
}
