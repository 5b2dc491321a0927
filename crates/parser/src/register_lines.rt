// Lines for register calls, from the byte after the letter and its comma on.
ghost use Rattle.std.specs.Prelude.{◌≡◌};
ghost use Rattle.calls.specs.Calls.{read_register, write_register};
ghost use Rattle.hex_digits.specs.Digits.{hex_field};
ghost use Rattle.parser.specs.Format.{fields, one_field, two_fields};
ghost use Rattle.parser.specs.CodeParsed.{parsed_as};

use crate::digits::hex_pair;
use crate::request::Request;

// `c,offset,value`
#[tactic(auto, using(crate::proofs::DigitLaws::field_lacks, crate::proofs::PlainLaws::hex_field_plain, crate::proofs::FieldLaws::two_lacking, crate::proofs::FieldLaws::two_unparted))]
pub(crate) fn parse_register_write(rest: &[u8]) -> Option<Request>
    ensures { result ≡ parsed_as (two_fields (hex_field 2) (hex_field 2) write_register (fields rest.now)) }
{
    let [a, b, b',', c, d] = rest else {
        return None;
    };
    let offset = hex_pair(*a, *b)?;
    let value = hex_pair(*c, *d)?;
    Some(Request::WriteRegister(offset, value))
}

// `g,offset`
#[tactic(auto, using(crate::proofs::DigitLaws::field_lacks, crate::proofs::FormatLaws::digits_alone))]
pub(crate) fn parse_register_read(rest: &[u8]) -> Option<Request>
    ensures { result ≡ parsed_as (one_field (hex_field 2) read_register (fields rest.now)) }
{
    let [a, b] = rest else {
        return None;
    };
    let offset = hex_pair(*a, *b)?;
    Some(Request::ReadRegister(offset))
}
