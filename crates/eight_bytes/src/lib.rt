// Eight bytes as one number, the first lowest.
#![tactic(auto)]

ghost use Rattle.std.specs.Prelude.{◌≡◌, [], ◌∷◌, ◌+◌, ◌≤◌, ◌<◌, length, take, drop, MatchOption};
ghost use Rattle.eight_bytes.specs.CodeNumber.{bytes_in, eight_at, eight_across};

// Eight bytes as a number.
pub fn number_of(a: u8, b: u8, c: u8, d: u8, e: u8, f: u8, g: u8, h: u8) -> u64
    ensures { bytes_in 8 result ≡ a ∷ b ∷ c ∷ d ∷ e ∷ f ∷ g ∷ h ∷ [] }
{
    u64::from_le_bytes([a, b, c, d, e, f, g, h])
}

fn eight_from(bytes: &[u8], at: usize) -> Option<&[u8; 8]>
    ensures { MatchOption result (length bytes.now < at + 8) (λ eight. (at + 8 ≤ length bytes.now) × (eight.now ≡ take 8 (drop at bytes.now))) }
{
    bytes.get(at..)?.first_chunk()
}

// The eight bytes from an index on; 0 if there are fewer.
pub fn number_at(bytes: &[u8], at: usize) -> u64
    ensures { bytes_in 8 result ≡ eight_at bytes.now at }
{
    match eight_from(bytes, at) {
        Some(&[a, b, c, d, e, f, g, h]) => number_of(a, b, c, d, e, f, g, h),
        None => 0,
    }
}

// The eight bytes of a number.
pub fn bytes_of(x: u64) -> [u8; 8]
    ensures { result ≡ bytes_in 8 x }
{
    x.to_le_bytes()
}

// Eight bytes of two numbers, of which the second continues the first: those from byte `from` modulo 8 of the first on.
pub fn number_across(first: u64, second: u64, from: u32) -> u64
    ensures { bytes_in 8 result ≡ eight_across first second from }
{
    let bits = 8 * (from % 8);
    if bits == 0 {
        return first;
    }
    (first >> bits) + (second << (64 - bits))
}
