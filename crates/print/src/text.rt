// An output line as it is put together.
ghost use Rattle.std.specs.Prelude.{◌≡◌, ◌≤◌, ◌*◌, [], ◌∷◌, ◌++◌, length, take, get_or};
ghost use Rattle.refusals.specs.Paper.{paper};
ghost use Rattle.calls.specs.Answers.{kinds_in};
ghost use Rattle.print.specs.Digits.{hex_pair, hex_pairs, decimal};
ghost use Rattle.print.specs.Output.{kind_letter, kind_text, kinds_text};
ghost use Rattle.print.specs.CodePrinted.{longest_output_line, cut, print_into};

use crate::LONGEST_OUTPUT_LINE;
use crate::digits::character;
use arrayvec::ArrayVec;
use calls::{Kind, Kinds};
use refusals::Refusal;

// The text so far. Of what is put to it only as much is kept as the longest line has bytes, so that each function may put without asking for room;
// a whole line is never longer.
#[derive(Drop)]
pub(crate) struct Line {
    text: ArrayVec<u8, LONGEST_OUTPUT_LINE>,
    ghost fits: { length text.items ≤ longest_output_line },
}

impl Line {
    // Of an accepted call so far (LINE-12): its letter and 0.
    pub(crate) fn accepted(letter: u8) -> Self
        ensures { result.text.items ≡ letter ∷ 0x2C ∷ 0x30 ∷ [] }
    {
        let mut text = ArrayVec::new();
        text.push(letter);
        text.push(b',');
        text.push(b'0');
        Line { text }
    }

    // Of a refused call (LINE-12): its letter and the number of the refusal.
    #[tactic(auto, using(crate::proofs::PrintLaws::refused_so_far))]
    pub(crate) fn refused(letter: u8, refusal: Refusal) -> Self
        ensures { result.text.items ≡ letter ∷ 0x2C ∷ decimal (get_or (paper refusal) 0 0) }
    {
        let mut text = ArrayVec::new();
        text.push(letter);
        text.push(b',');
        let mut line = Line { text };
        line.put_decimal(refusal.number());
        line
    }

    // Of an accepted call that answers with these kinds (LINE-14). Inlined, since called out of line it takes a read longer to print (D-145).
    #[inline(always)]
    #[tactic(auto, using(crate::proofs::PrintLaws::kinds_so_far))]
    pub(crate) fn kinds(letter: u8, kinds: Kinds) -> Self
        ensures text { result.text.items ≡ letter ∷ 0x2C ∷ 0x30 ∷ kinds_text (kinds_in kinds) }
        ensures few { length result.text.items ≤ 23 }
    {
        let mut line = Line::accepted(letter);
        line.put_kinds(kinds.as_slice());
        line
    }

    #[tactic(auto, using(crate::proofs::PrintLaws::cut_fits, crate::proofs::PrintLaws::cut_full))]
    pub(crate) fn put(&mut self, byte: u8)
        ensures { self.new.text.items ≡ cut (self.old.text.items ++ byte ∷ []) }
    {
        if !self.text.is_full() {
            self.text.push(byte);
        }
    }

    // A number below 100 in decimal. Of a larger one it puts the two bytes that `decimal` has.
    #[tactic(auto, using(crate::proofs::PrintLaws::cut_then), unfolding(crate::specs::Digits::decimal))]
    pub(crate) fn put_decimal(&mut self, n: u8)
        ensures { self.new.text.items ≡ cut (self.old.text.items ++ decimal n) }
    {
        if 10 <= n {
            self.put(b'0' + n / 10);
        }
        self.put(b'0' + n % 10);
    }

    // A byte in two hexadecimal digits.
    #[tactic(auto, using(crate::proofs::PrintLaws::cut_then))]
    pub(crate) fn put_hex(&mut self, byte: u8)
        ensures { self.new.text.items ≡ cut (self.old.text.items ++ hex_pair byte) }
    {
        self.put(character(byte / 16));
        self.put(character(byte % 16));
    }

    // The answer of one access, after a comma; "corrected" has its flip bit.
    #[tactic(auto, using(crate::proofs::PrintLaws::cut_then), unfolding(crate::specs::Output::bit_text))]
    fn put_kind(&mut self, kind: Kind)
        ensures { self.new.text.items ≡ cut (self.old.text.items ++ kind_text kind) }
    {
        self.put(b',');
        self.put(kind_letter(kind));
        if let Kind::Corrected(bit) = kind {
            self.put(b',');
            self.put_decimal(bit);
        }
    }

    // The answer of each access, in order.
    #[tactic(auto, using(crate::proofs::PrintLaws::cut_then, crate::proofs::PrintLaws::cut_none, crate::proofs::PrintLaws::kinds_next))]
    fn put_kinds(&mut self, kinds: &[Kind])
        ensures { self.new.text.items ≡ cut (self.old.text.items ++ kinds_text kinds.now) }
    {
        for kind in kinds {
            self.put_kind(*kind);
        }
    }

    // Up to eight bytes, in two hexadecimal digits each. They are put at once: one by one, each would be a test for room and a store of the length.
    #[tactic(auto, using(crate::proofs::PrintLaws::cut_room))]
    pub(crate) fn put_bytes(&mut self, bytes: &[u8])
        requires { length bytes.now ≤ 8 }
        ensures { self.new.text.items ≡ cut (self.old.text.items ++ hex_pairs bytes.now) }
    {
        let pairs = digit_pairs(bytes);
        let digits = &pairs[..2 * bytes.len()];
        let n = self.text.remaining_capacity().min(digits.len());
        let _ = self.text.try_extend_from_slice(&digits[..n]);
    }

    // Ends the line and writes it to the start of the output. Nothing is written if the output has no room for the longest line.
    #[tactic(auto, using(crate::proofs::PrintLaws::cut_few), unfolding(crate::specs::CodePrinted::print_into))]
    pub(crate) fn print(mut self, out: &mut [u8]) -> usize
        ensures { (result, out.new) ≡ print_into (cut (self.text.items ++ 0x0A ∷ [])) out.old }
    {
        if out.len() < LONGEST_OUTPUT_LINE {
            return 0;
        }
        self.put(b'\n');
        let text = self.text.as_slice();
        out[..text.len()].copy_from_slice(text);
        text.len()
    }
}

// The digits of up to eight bytes, and what is left of sixteen zeros.
#[tactic(auto, using(crate::proofs::PrintLaws::pairs_next, crate::proofs::PrintLaws::two_more))]
fn digit_pairs(bytes: &[u8]) -> [u8; 16]
    requires { length bytes.now ≤ 8 }
    ensures { take (2 * length bytes.now) result ≡ hex_pairs bytes.now }
{
    let mut digits = [0u8; 16];
    for (i, &byte) in bytes.iter().enumerate() {
        digits[2 * i] = character(byte / 16);
        digits[2 * i + 1] = character(byte % 16);
    }
    digits
}

// The letter of an answer (LINE-14).
#[tactic(auto, unfolding(crate::specs::Output::kind_letter))]
fn kind_letter(kind: Kind) -> u8
    ensures { result ≡ kind_letter kind }
{
    match kind {
        Kind::Clean => b'n',
        Kind::Corrected(_) => b'c',
        Kind::Uncorrectable => b'u',
        Kind::Stored => b'p',
        Kind::NoBank => b'e',
        Kind::Flipped => b'f',
    }
}
