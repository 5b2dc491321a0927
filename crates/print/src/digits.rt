// Digits printed.
ghost use Rattle.std.specs.Prelude.{◌≡◌, ◌<◌};
ghost use Rattle.print.specs.Digits.{hex_character};

// A hexadecimal digit's character.
#[tactic(auto, unfolding(crate::specs::Digits::hex_character))]
pub(crate) fn character(d: u8) -> u8
    requires { d < 16 }
    ensures { result ≡ hex_character d }
{
    if d < 10 { b'0' + d } else { b'a' + (d - 10) }
}
