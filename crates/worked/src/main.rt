// EX-4 to EX-8: prints where the addresses of the worked examples are kept, and how addresses are mapped at the end of
// a bank whose last megabyte is 255, 256 or 1023 (REG-5), and in a bank with thirteen row bits (REG-13).
#![tactic(auto)]

use banks::{Column, Place, Row};
use refusals::Refusal;
use registers::Registers;
use std::{fmt, io};

// The record after register writes. A write that is refused leaves the record as it was, which shows in the lines printed.
fn written(start: Registers, writes: &[(u8, u8)]) -> Registers {
    let mut r = start;
    for (offset, value) in writes {
        r = register_calls::write(r, *offset as u32, *value).registers;
    }
    r
}

// A span of bank 0 or 1, in megabytes.
fn set_span(r: Registers, bank: u8, start: u32, last: u32) -> Registers {
    let n = bank % 2;
    let [start_low, start_high, _, _] = start.to_le_bytes();
    let [last_low, last_high, _, _] = last.to_le_bytes();
    written(
        r,
        &[
            (Registers::START + n, start_low),
            (Registers::START_EXTENDED + n, start_high),
            (Registers::END + n, last_low),
            (Registers::END_EXTENDED + n, last_high),
        ],
    )
}

// Enables the banks and switches memory on.
fn switch_on(r: Registers, enabled: u8) -> Registers {
    written(
        r,
        &[(Registers::BANK_ENABLE, enabled), (Registers::MEMORY, 8)],
    )
}

// EX-3: the set-up of the worked examples.
fn worked_record() -> Registers {
    let spans = set_span(set_span(Registers::fresh(), 0, 0, 1), 1, 2, 4);
    switch_on(written(spans, &[(Registers::ROW_CODES, 4)]), 3)
}

// What is printed of a call's answer.
#[derive(Drop)]
struct Printed<T>(T);

impl fmt::Display for Printed<Refusal> {
    fn fmt<W: fmt::Write>(&self, f: &mut fmt::Formatter<W>) -> fmt::Result {
        write!(f, " refusal {}", self.0.number())
    }
}

impl fmt::Display for Printed<Place> {
    fn fmt<W: fmt::Write>(&self, f: &mut fmt::Formatter<W>) -> fmt::Result {
        let Place {
            bank,
            row: Row(row),
            column: Column(column),
            cell,
        } = self.0;
        write!(f, " bank {bank} row {row} column {column} cell {cell}")
    }
}

impl fmt::Display for Printed<Result<Option<Place>, Refusal>> {
    fn fmt<W: fmt::Write>(&self, f: &mut fmt::Formatter<W>) -> fmt::Result {
        match self.0 {
            Err(x) => write!(f, "{}", Printed(x)),
            Ok(None) => write!(f, " no bank"),
            Ok(Some(p)) => write!(f, "{}", Printed(p)),
        }
    }
}

impl fmt::Display for Printed<Result<u32, Refusal>> {
    fn fmt<W: fmt::Write>(&self, f: &mut fmt::Formatter<W>) -> fmt::Result {
        match self.0 {
            Err(x) => write!(f, "{}", Printed(x)),
            Ok(a) => write!(f, " address {a:08x}"),
        }
    }
}

fn print_map(rt: &impl Print, r: Registers, address: u32) -> io::Result<()> {
    let mapping = Printed(address_map::map(r, address));
    println!(rt; "{address:08x}{mapping}")
}

fn print_way_back(
    rt: &impl Print,
    r: Registers,
    bank: u32,
    row: u32,
    column: u32,
) -> io::Result<()> {
    let origin = Printed(way_back::way_back(r, bank, Row(row), Column(column)));
    println!(rt; "bank {bank} row {row} column {column}{origin}")
}

// A bank of two megabytes: its last address, and the one after it.
fn print_end(rt: &impl Print, last: u32, end: u32, next: u32) -> io::Result<()> {
    let start = last.saturating_sub(1);
    let r = switch_on(set_span(Registers::fresh(), 0, start, last), 1);
    println!(rt; "bank 0 from MB {start} to {last}")?;
    print_map(rt, r, end)?;
    print_map(rt, r, next)
}

// EX-12: a bank of 256 megabytes from megabyte 1 on, with row code 3.
fn print_thirteen_rows(rt: &impl Print) -> io::Result<()> {
    let span = set_span(Registers::fresh(), 0, 1, 256);
    let r = switch_on(written(span, &[(Registers::ROW_CODES, 3)]), 1);
    println!(rt; "bank 0 from MB 1 to 256, row code 3")?;
    print_map(rt, r, 0x00100000)?;
    print_map(rt, r, 0x0fffffff)?;
    print_map(rt, r, 0x100fffff)?;
    print_map(rt, r, 0x10100000)?;
    print_way_back(rt, r, 0, 8191, 4095)?;
    print_way_back(rt, r, 0, 8192, 0)
}

fn main(rt: HostRuntime) -> io::Result<()> {
    let r = worked_record();
    print_map(&rt, r, 0x00001008)?;
    print_map(&rt, r, 0x00200000)?;
    print_map(&rt, r, 0x00400000)?;
    print_map(&rt, r, 0x00500000)?;
    print_way_back(&rt, r, 1, 0, 0)?;
    print_way_back(&rt, r, 1, 256, 0)?;
    print_end(&rt, 255, 0x0fffffff, 0x10000000)?;
    print_end(&rt, 256, 0x100fffff, 0x10100000)?;
    print_end(&rt, 1023, 0x3fffffff, 0x40000000)?;
    print_thirteen_rows(&rt)
}
