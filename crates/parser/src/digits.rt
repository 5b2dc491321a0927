// Reads digits. A byte that is no digit has no value.
ghost use Rattle.std.specs.Prelude.{◌≡◌, ◌≤◌, ◌<◌, [], ◌∷◌, length, take, IfSome};
ghost use Rattle.hex_digits.specs.Digits.{decimal_digit, decimal_field, hex_digit, hex_from};

// A decimal digit's value.
#[tactic(auto, unfolding(hex_digits::specs::Digits::decimal_digit))]
fn decimal_digit(b: u8) -> Option<u8>
    ensures value { result ≡ decimal_digit b }
    ensures bound { IfSome result (λ d. d < 10) }
{
    match b {
        b'0'..=b'9' => Some(b - b'0'),
        _ => None,
    }
}

// The decimal number that is a whole field.
#[tactic(auto, unfolding(hex_digits::specs::Digits::decimal_field))]
pub(crate) fn decimal(digits: &[u8]) -> Option<u8>
    ensures { result ≡ decimal_field digits.now }
{
    match digits {
        [one] => decimal_digit(*one),
        [ten, one] => {
            let tens = decimal_digit(*ten)?;
            let ones = decimal_digit(*one)?;
            if tens == 0 {
                None
            } else {
                Some(10 * tens + ones)
            }
        }
        _ => None,
    }
}

// A hexadecimal digit's value. No `match` on two ranges, of which a processor would have to guess the next: with it a `w` line took 1.4 times as long.
#[tactic(auto, unfolding(hex_digits::specs::Digits::hex_digit, hex_digits::specs::Digits::decimal_digit))]
fn hex_digit(b: u8) -> Option<u8>
    ensures value { result ≡ hex_digit b }
    ensures bound { IfSome result (λ d. d < 16) }
{
    let (value, most) = if b < b'a' {
        (b.wrapping_sub(b'0'), 9)
    } else {
        (b - b'a' + 10, 15)
    };
    if value <= most { Some(value) } else { None }
}

// The value of two hexadecimal digits.
#[tactic(auto, unfolding(hex_digits::specs::Digits::hex_from))]
pub(crate) fn hex_pair(a: u8, b: u8) -> Option<u8>
    ensures { result ≡ hex_from 0 (a ∷ b ∷ []) }
{
    let high = hex_digit(a)?;
    let low = hex_digit(b)?;
    Some(16 * high + low)
}

// The value of the first eight hexadecimal digits.
#[tactic(auto, using(eight_bytes::proofs::ByteLaws::eight_some))]
pub(crate) fn hex_address(digits: &[u8]) -> Option<u32>
    requires { 8 ≤ length digits.now }
    ensures { result ≡ hex_from 0 (take 8 digits.now) }
{
    hex_digits::value(eight_bytes::number_at(digits, 0))
}
