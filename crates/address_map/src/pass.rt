// One pass over the enabled banks judges them and finds the bank of a megabyte.
ghost use Rattle.std.specs.Prelude.{◌≡◌, ◌^◌, ◌<◌, ◌≤◌, true, ◌&&◌, nat_le};
ghost use Rattle.refusals.specs.Paper.{◌gives◌};
ghost use Rattle.banks.specs.Judge.{lowest_meeting, not_ready};
ghost use Rattle.banks.specs.Map.{cell_count};
ghost use Rattle.address_map.specs.CodeFields.{setup_by};
ghost use Rattle.address_map.specs.CodeSelection.{selection};
ghost use Rattle.address_map.specs.CodeRoute.{route_by, bank_in, first_in, paper_route};

use crate::fields::Fields;
use crate::routes::{NO_BANK, UNREADY, packed};
use crate::sizes::{choose, power};
use banks::MEGABYTE_BITS;

// Whether a span holds a megabyte, by one comparison: the difference of one below the start wraps.
fn is_within(start: u32, last: u32, mb: u32) -> bool
    requires { (start ≤ last) × (last < 2 ^ 16) }
    ensures { result ≡ nat_le start mb && nat_le mb last }
{
    mb.wrapping_sub(start) <= last - start
}

impl Fields {
    // No enabled bank shares a megabyte with a lower one. If that is known already, nothing is searched.
    fn is_apart(&self, known: bool) -> bool
        requires { known ≡ true → 8 ≤ lowest_meeting (setup_by self.now) }
        ensures { result ≡ nat_le 8 (lowest_meeting (setup_by self.now)) }
    {
        if known {
            return true;
        }
        self.none_meets()
    }

    // Judges the banks and selects the one that holds a megabyte. The fields are those of a record: the bank enables have eight bits.
    pub(crate) fn select(&self, mb: u32) -> u64
        requires { self.now.enables < 256 }
        ensures result_value { paper_route (route_by result) ≡ (not_ready (setup_by self.now) gives selection (setup_by self.now) mb) }
        ensures counted { bank_in (route_by result) ≡ 8 → first_in (route_by result) ≡ cell_count (setup_by self.now) }
    {
        if !self.is_on() {
            return UNREADY;
        }
        // The enable bits of banks that are not passed.
        let mut rest = u32::from(self.enables);
        if rest == 0 {
            return UNREADY;
        }
        let mut bank = NO_BANK;
        let mut first: u32 = 0;
        let mut bits: u32 = 0;
        let mut base: u32 = 0;
        // The end of the bank passed last, and the differences of ends and next starts: their top bits stay set as long as the spans ascend.
        let mut end = u32::MAX;
        let mut ascent = u32::MAX;
        // A walk over the bits that are set: a filter over eight numbers would ask each bank again whether it is on.
        while rest != 0 {
            let n = rest.trailing_zeros();
            let Some(size) = self.bits_unless_faulty(n) else {
                return UNREADY;
            };
            let start = self.start(n);
            let last = self.last(n);
            let is_here = is_within(start, last, mb);
            bank = choose(is_here, n, bank);
            first = choose(is_here, base, first);
            bits = choose(is_here, size, bits);
            ascent &= end.wrapping_sub(start);
            end = last;
            base += power(MEGABYTE_BITS + size);
            rest &= rest - 1;
        }
        if self.is_apart(0x8000_0000 <= ascent) {
            return packed(bank, choose(bank == NO_BANK, base, first), bits);
        }
        UNREADY
    }
}
