// The cells that a caller lends: whether cell k is among them, and its bytes.
ghost use Rattle.std.specs.Prelude.{◌≡◌, ℕ, true, take, Some, MatchOption};
ghost use Rattle.std.proofs.Math.Option.{none};
ghost use Rattle.ecc.specs.Doubleword.{bytes_of_number};
ghost use Rattle.ecc.specs.Lending.{cell_at, is_within, is_lent};
ghost use Rattle.access.specs.CodeAccess.{lent_cell};

// REF-9: all nine bytes of cell k are among so many that are lent. One comparison, which no large number gets past.
pub fn is_lent(bytes: usize, k: usize) -> bool
    ensures { result ≡ is_within bytes k }
{
    k < bytes / 9
}

// Cell k as it is stored, if there is one and it is lent.
pub(crate) fn cell(cells: &[u8], k: Option<usize>) -> Option<&[u8; 9]>
    ensures { MatchOption result (lent_cell cells.now k ≡ none) (λ cell. (j : ℕ) × (k ≡ Some j) × (is_lent cells.now j ≡ true) × (cell.now ≡ cell_at cells.now j)) }
{
    cells.as_chunks().0.get(k?)
}

// The data bytes of a cell, as a doubleword.
pub(crate) fn doubleword(cell: &[u8; 9]) -> u64
    ensures { bytes_of_number result ≡ take 8 cell.now }
{
    eight_bytes::number_at(cell, 0)
}
