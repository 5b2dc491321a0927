// The bytes of a `w` line.
ghost use Rattle.std.specs.Prelude.{◌≡◌};
ghost use Rattle.hex_digits.specs.Digits.{bytes_field};
ghost use Rattle.parser.specs.CodeParsed.{written_of};

use crate::digits::hex_pair;
use crate::request::WrittenBytes;

// One to eight bytes, two digits each.
pub(crate) fn hex_bytes(digits: &[u8]) -> Option<WrittenBytes>
    ensures { result ≡ written_of (bytes_field digits.now) }
{
    let count = digits.len() / 2;
    if digits.is_empty() || 8 < count || digits.len() % 2 != 0 {
        return None;
    }
    let mut bytes = [0u8; 8];
    for i in 0..count {
        bytes[i] = hex_pair(digits[2 * i], digits[2 * i + 1])?;
    }
    Some(WrittenBytes { bytes, count })
}
