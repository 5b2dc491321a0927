// Lines for memory calls, from the byte after the letter and its comma on. The address is the first field.
ghost use Rattle.std.specs.Prelude.{◌≡◌, option_map};
ghost use Rattle.calls.specs.Calls.{memory, write, scrub};
ghost use Rattle.hex_digits.specs.Digits.{hex_field, bytes_field};
ghost use Rattle.parser.specs.Format.{fields, one_field, two_fields};
ghost use Rattle.parser.specs.CodeParsed.{parsed_as, address_and_field, address_and_number};

use crate::bytes::hex_bytes;
use crate::digits::{decimal, hex_address};
use crate::request::Request;

// `s,address`
#[tactic(auto, using(crate::proofs::DigitLaws::field_lacks, crate::proofs::FormatLaws::digits_alone))]
pub(crate) fn parse_scrub(rest: &[u8]) -> Option<Request>
    ensures { result ≡ parsed_as (one_field (hex_field 8) (λ a. memory (scrub a)) (fields rest.now)) }
{
    if rest.len() != 8 {
        return None;
    }
    let address = hex_address(rest)?;
    Some(Request::Scrub(address))
}

// The address and, after a comma, another field.
#[tactic(auto, unfolding(crate::specs::CodeParsed::address_and_field))]
fn address_and_field(rest: &[u8]) -> Option<(u32, &[u8])>
    ensures { option_map (λ p. (p.0, p.1.now)) result ≡ address_and_field rest.now }
{
    if rest.len() < 9 || rest[8] != b',' {
        return None;
    }
    let address = hex_address(rest)?;
    Some((address, &rest[9..]))
}

// The address and the number of `r,address,count` and `f,address,bit`.
pub(crate) fn address_and_number(rest: &[u8]) -> Option<(u32, u8)>
    ensures { result ≡ address_and_number rest.now }
{
    let (address, digits) = address_and_field(rest)?;
    let number = decimal(digits)?;
    Some((address, number))
}

// `w,address,bytes`
pub(crate) fn parse_write(rest: &[u8]) -> Option<Request>
    ensures { result ≡ parsed_as (two_fields (hex_field 8) bytes_field (λ a bs. memory (write a bs)) (fields rest.now)) }
{
    let (address, digits) = address_and_field(rest)?;
    let bytes = hex_bytes(digits)?;
    Some(Request::Write(address, bytes))
}
