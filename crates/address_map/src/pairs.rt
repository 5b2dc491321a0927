// REF-14: whether enabled banks share a megabyte, by a comparison of each pair. A bank's number has no type with a bound, since a caller may give any.
ghost use Rattle.std.specs.Prelude.{◌≡◌, ◌<◌, not, ◌&&◌, nat_le};
ghost use Rattle.banks.specs.Setup.{bank};
ghost use Rattle.banks.specs.Judge.{meets, meets_lower, lowest_meeting};
ghost use Rattle.address_map.specs.CodeFields.{setup_by};

use crate::fields::Fields;

impl Fields {
    // Banks n and m are enabled, and their spans meet.
    fn is_meeting(&self, n: u32, m: u32) -> bool
        requires { (n < 8) × (m < 8) }
        ensures { result ≡ (bank (setup_by self.now) n).enabled && meets (bank (setup_by self.now) n) (bank (setup_by self.now) m) }
    {
        (self.is_enabled(n) & self.is_enabled(m))
            & ((self.start(m) <= self.last(n)) & (self.start(n) <= self.last(m)))
    }

    // Bank n meets no lower one. There are no branches, so that many pairs are compared at once.
    fn is_clear(&self, n: u32) -> bool
        requires { n < 8 }
        ensures { result ≡ not (meets_lower (setup_by self.now) n) }
    {
        let mut clear = true;
        for m in 0..n {
            clear &= !self.is_meeting(n, m);
        }
        clear
    }

    // REF-14: whether bank n shares a megabyte with an enabled bank below it; none above 7 does.
    pub fn meets_lower(&self, n: u32) -> bool
        ensures { result ≡ meets_lower (setup_by self.now) n }
    {
        if self.is_enabled(n) {
            return !self.is_clear(n);
        }
        false
    }

    // No bank meets a lower one.
    pub(crate) fn none_meets(&self) -> bool
        ensures { result ≡ nat_le 8 (lowest_meeting (setup_by self.now)) }
    {
        let mut clear = true;
        for n in 0..8u32 {
            clear &= self.is_clear(n);
        }
        clear
    }
}
