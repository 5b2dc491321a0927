// Eight hexadecimal digits at once.
#![tactic(auto)]

ghost use Rattle.std.specs.Prelude.{◌≡◌};
ghost use Rattle.eight_bytes.specs.CodeNumber.{bytes_in};
ghost use Rattle.hex_digits.specs.Digits.{hex_from};

// LINE-7: the value of eight hexadecimal digits, the bytes of one number with the first lowest, or nothing if one of them is no digit.
// All eight are checked and converted at once: a byte v reaches 0x80 in the first sum
// from '0' on, in the second from ':' on, in the third from 'a' on, in the fourth from 'g' on.
pub fn value(x: u64) -> Option<u32>
    ensures { result ≡ hex_from 0 (bytes_in 8 x) }
{
    let v = x & 0x7f7f7f7f7f7f7f7f;
    let decimal = (v + 0x5050505050505050) ^ (v + 0x4646464646464646);
    let marks = decimal ^ (v + 0x1f1f1f1f1f1f1f1f) ^ (v + 0x1919191919191919);
    if (marks ^ 0x8080808080808080 | x) & 0x8080808080808080 != 0 {
        return None;
    }
    let n = (x & 0x0f0f0f0f0f0f0f0f) + (x & 0x4040404040404040) / 64 * 9;
    let p = n * 16 + n / 256;
    let value = p % 256 * 16777216
        + p / 65536 % 256 * 65536
        + p / 4294967296 % 256 * 256
        + p / 281474976710656 % 256;
    Some(value as u32)
}
