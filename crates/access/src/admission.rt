// What refuses a call before its first access: 5, then its arguments (REF-104), then 9 (REF-9).
ghost use Rattle.std.specs.Prelude.{◌≡◌, [], ◌∷◌, ltb};
ghost use Rattle.refusals.specs.Paper.{paper_verdict, refuse, ◌else◌};
ghost use Rattle.address_map.specs.CodeRoute.{bank_in};
ghost use Rattle.access.specs.CodeAccess.{is_allowed};

use crate::cells::is_lent;
use address_map::{NO_BANK, Route, bank_of};
use refusals::Refusal;

// 5, and otherwise the refusal, if any, by the arguments.
pub fn admit(to: Route, arguments: Result<(), Refusal>) -> Result<(), Refusal>
    ensures { paper_verdict result ≡ (refuse (ltb 8 (bank_in to)) (5 ∷ []) else paper_verdict arguments) }
{
    if NO_BANK < bank_of(to) {
        return Err(Refusal::NotReady);
    }
    arguments
}

// REF-9, MEM-11: an access has no cell, or its cell is wholly lent.
#[inline(always)]
pub fn is_allowed(bytes: usize, k: Option<usize>) -> bool
    ensures { result ≡ is_allowed bytes k }
{
    match k {
        Some(k) => is_lent(bytes, k),
        None => true,
    }
}
