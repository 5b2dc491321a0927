// The check byte of a doubleword, under the columns of ECC-2.
#![tactic(auto)]

ghost use Rattle.std.specs.Prelude.{◌≡◌};
ghost use Rattle.ecc.specs.Columns.{columns};
ghost use Rattle.ecc.specs.CheckCode.{check_of};
ghost use Rattle.ecc.specs.Doubleword.{bytes_of_number};

mod fold;

// ECC-4: the check byte of a doubleword that is held as a number, byte 0 lowest.
#[tactic(auto, using(crate::proofs::FoldLaws::fold_is_check), unfolding(crate::specs::CodeFold::folded_check))]
pub fn check(doubleword: u64) -> u8
    ensures { result ≡ check_of columns (bytes_of_number doubleword) }
{
    fold::laid_over(fold::folded_masks(doubleword))
}
