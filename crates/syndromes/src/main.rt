// Prints the tables of docs/SYNDROMES.md: the column of each flip bit (ECC-2, ECC-3), and what each syndrome means (ECC-6), from the table that the
// library looks it up in. All entries have the same width, so that a line can be followed with a ruler.
#![tactic(auto)]

use ecc::Reading;
use std::{fmt, io};

fn column_of(columns: [u8; 64], bit: u8) -> u8 {
    if bit < 64 {
        columns[bit as usize]
    } else {
        1 << (bit % 8)
    }
}

// Eight flip bits stand in a line, after the number of the first.
fn print_columns(rt: &impl Print) -> io::Result<()> {
    println!(rt; "|    | +0 | +1 | +2 | +3 | +4 | +5 | +6 | +7 |")?;
    println!(rt; "|---:|---:|---:|---:|---:|---:|---:|---:|---:|")?;
    let columns = ecc::columns::standard();
    for line in 0..9u8 {
        let first = 8 * line;
        print!(rt; "| {first:2}")?;
        for bit in first..first + 8 {
            let column = column_of(columns, bit);
            print!(rt; " | {column:02x}")?;
        }
        println!(rt; " |")?;
    }
    Ok(())
}

// An entry of the table of syndromes, in two places.
#[derive(Drop)]
struct Entry(Reading);

impl fmt::Display for Entry {
    fn fmt<W: fmt::Write>(&self, f: &mut fmt::Formatter<W>) -> fmt::Result {
        match self.0 {
            Reading::Clean => write!(f, " n"),
            Reading::Corrected(bit) => write!(f, "{bit:2}"),
            Reading::Uncorrectable => write!(f, " u"),
        }
    }
}

// Sixteen syndromes stand in a line, after their high digit.
fn print_syndromes(rt: &impl Print) -> io::Result<()> {
    println!(rt;
        "|    | x0 | x1 | x2 | x3 | x4 | x5 | x6 | x7 | x8 | x9 | xa | xb | xc | xd | xe | xf |"
    )?;
    println!(rt;
        "|---:|---:|---:|---:|---:|---:|---:|---:|---:|---:|---:|---:|---:|---:|---:|---:|---:|"
    )?;
    for high in 0..16u8 {
        print!(rt; "| {high:x}x")?;
        for low in 0..16u8 {
            let entry = Entry(syndrome_table::reading(16 * high + low));
            print!(rt; " | {entry}")?;
        }
        println!(rt; " |")?;
    }
    Ok(())
}

fn main(rt: HostRuntime) -> io::Result<()> {
    print_columns(&rt)?;
    print_syndromes(&rt)
}
