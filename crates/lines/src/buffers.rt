// What is carried over between chunks.
ghost use Rattle.std.specs.Prelude.{◌≡◌, ◌++◌, take};
ghost use Rattle.lines.specs.Text.{most_carried};
ghost use Rattle.lines.specs.CodeStepped.{carried_of, carry_of};

use parser::LONGEST_INPUT_LINE;

// The most bytes of an unfinished line that are kept; one more than a line may have shows that it is too long.
pub const MOST_CARRIED: usize = LONGEST_INPUT_LINE + 1;

// The bytes since the last LF, as far as they are kept; after the first `len` they are 0. A struct and no `ArrayVec`, since `Kept::step` takes
// each length, also one past the array.
#[derive(Clone, Copy)]
pub struct Carry {
    pub bytes: [u8; MOST_CARRIED],
    pub len: usize,
}

impl Carry {
    // No bytes.
    pub(crate) const EMPTY: Carry = Carry {
        bytes: [0; MOST_CARRIED],
        len: 0,
    };

    // The bytes that are kept.
    pub(crate) fn as_slice(&self) -> &[u8]
        ensures { result.now ≡ carried_of self.now }
    {
        &self.bytes[..self.len.min(MOST_CARRIED)]
    }

    // These bytes and then those of a part, as far as there is room, and zeros after them.
    pub(crate) fn joined(&self, part: &[u8]) -> Carry
        ensures { result ≡ carry_of (take most_carried (carried_of self.now ++ part.now)) }
    {
        let start = self.as_slice();
        let n = start.len();
        let len = n + (MOST_CARRIED - n).min(part.len());
        let mut bytes = [0u8; MOST_CARRIED];
        bytes[..n].copy_from_slice(start);
        bytes[n..len].copy_from_slice(&part[..len - n]);
        Carry { bytes, len }
    }
}
