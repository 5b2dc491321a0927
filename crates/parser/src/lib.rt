// The line format of `busline`: what a line asks for (LINE-2 to LINE-8).
#![tactic(auto)]

ghost use Rattle.std.specs.Prelude.{◌≡◌};
ghost use Rattle.parser.specs.Format.{fields, by_letter, parse};
ghost use Rattle.parser.specs.CodeParsed.{parsed_as};

mod bytes;
mod digits;
mod memory_lines;
mod register_lines;
mod request;

use memory_lines::{address_and_number, parse_scrub, parse_write};
use register_lines::{parse_register_read, parse_register_write};
pub use request::{Request, WrittenBytes};

// Parses by its letter what follows the letter's comma.
#[tactic(auto, unfolding(crate::specs::Format::by_letter))]
fn by_letter(letter: u8, rest: &[u8]) -> Option<Request>
    ensures { result ≡ parsed_as (by_letter letter (fields rest.now)) }
{
    match letter {
        b'c' => parse_register_write(rest),
        b'g' => parse_register_read(rest),
        b'w' => parse_write(rest),
        b'r' => address_and_number(rest).map(|(address, count)| Request::Read(address, count)),
        b'f' => address_and_number(rest).map(|(address, bit)| Request::Flip(address, bit)),
        b's' => parse_scrub(rest),
        _ => None,
    }
}

// The most bytes that a line has, without its LF.
pub const LONGEST_INPUT_LINE: usize = 40;

// What a line, given without its LF, asks for (LINE-1, LINE-2); nothing if it is malformed (LINE-11).
#[tactic(auto, using(crate::proofs::FormatLaws::parse_short, crate::proofs::FormatLaws::parse_long, crate::proofs::FormatLaws::parse_unparted))]
pub fn parse(line: &[u8]) -> Option<Request>
    ensures { result ≡ parsed_as (parse line.now) }
{
    if LONGEST_INPUT_LINE < line.len() {
        return None;
    }
    match line {
        [letter, b',', rest @ ..] => by_letter(*letter, rest),
        _ => None,
    }
}
