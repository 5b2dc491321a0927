// The search for the end of a line, the next LF.
#![tactic(auto)]

ghost use Rattle.std.specs.Prelude.{◌≡◌, ◌+◌, ◌≤◌, length, take, drop};
ghost use Rattle.line_ends.specs.LineEnd.{line_length};

// How many of the eight bytes from an index on stand before the first LF among them. Here and below a length and no Option: without an LF a line ends where
// its text does (LINE-1).
fn before_lf(chunk: &[u8], at: usize) -> usize
    requires { at + 8 ≤ length chunk.now }
    ensures { result ≡ line_length (take 8 (drop at chunk.now)) }
{
    let x = eight_bytes::number_at(chunk, at);
    let v = x ^ 0x0a0a0a0a0a0a0a0a;
    let t = (v & 0x7f7f7f7f7f7f7f7f) + 0x7f7f7f7f7f7f7f7f;
    let marks = (t | v) & 0x8080808080808080 ^ 0x8080808080808080;
    (u64::trailing_zeros(marks) / 8) as usize
}

// The index of the first LF from `from` on, or the length if there is none; one byte at a time.
fn rest_end(chunk: &[u8], from: usize) -> usize
    requires { from ≤ length chunk.now }
    ensures { result ≡ from + line_length (drop from chunk.now) }
{
    for i in from..chunk.len() {
        if chunk[i] == b'\n' {
            return i;
        }
    }
    chunk.len()
}

// LINE-1: the index of the first LF from `from` on, or the length if there is none; eight bytes at a time. If `from` is past the end, `from` itself.
pub fn line_end(chunk: &[u8], from: usize) -> usize
    ensures { result ≡ from + line_length (drop from chunk.now) }
{
    if chunk.len() < from {
        return from;
    }
    for at in (from..chunk.len()).step_by(8) {
        if chunk.len() - at < 8 {
            return rest_end(chunk, at);
        }
        let n = before_lf(chunk, at);
        if n < 8 {
            return at + n;
        }
    }
    chunk.len()
}
