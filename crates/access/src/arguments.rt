// What the arguments of a read or a write say: whether it runs into the next doubleword, and the refusals that they alone decide.
ghost use Rattle.std.specs.Prelude.{◌≡◌};
ghost use Rattle.refusals.specs.Paper.{paper_verdict};
ghost use Rattle.calls.specs.Calls.{crosses, room};
ghost use Rattle.calls.specs.Spans.{by_count};

use refusals::Refusal;

// How many addresses there are.
const ADDRESSES: usize = 4294967296;

// MEM-17: how many bytes there are from an address to the end of its doubleword.
pub fn room_at(address: u32) -> usize
    ensures { result ≡ room address }
{
    8 - (address % 8) as usize
}

// MEM-17: whether so many bytes at an address run into the next doubleword.
pub fn crosses_end(address: u32, count: usize) -> bool
    ensures { result ≡ crosses address count }
{
    room_at(address) < count
}

// REF-6, REF-7: the refusal, if any, of `count` bytes at an address. Only a split can pass the last address; the test that tells a split comes first,
// so that the compiler drops the other where it is known.
pub fn judge_count(address: u32, count: usize) -> Result<(), Refusal>
    ensures { paper_verdict result ≡ by_count address count }
{
    if (count == 0) | (8 < count) {
        return Err(Refusal::CountOutOfRange);
    }
    if crosses_end(address, count) & (ADDRESSES < address as usize + count) {
        return Err(Refusal::PassesLastAddress);
    }
    Ok(())
}
