//! Sets of cells, one bit a cell.
ghost use Rattle.std.specs.Prelude.{◌≡◌, ◌≢◌, ◌<◌, ℕ, ◌↔◌, ◌⊎◌, IsTrue};
ghost use Rattle.std.specs.Int.{bit_at};
ghost use Rattle.cells.specs.CellSets.{Has};

/// Whether the cell is in the set.
pub fn has(set: u64, cell: u8) -> bool
    requires { cell < 64 }
    ensures { IsTrue result ↔ Has set cell }
{
    (set >> cell) % 2 == 1
}

/// The set of one cell.
pub fn single(cell: u8) -> u64
    requires { cell < 64 }
    ensures { (i : ℕ) → Has result i ↔ (cell ≡ i) }
{
    1 << cell
}

/// The set with the cell, if it is to be added.
pub fn with_cell(set: u64, cell: u8, is_added: bool) -> u64
    requires { cell < 64 }
    ensures { (i : ℕ) → Has result i ↔ (Has set i ⊎ (IsTrue is_added × (cell ≡ i))) }
{
    if is_added { set | 1 << cell } else { set }
}

/// The lowest cell of a set that has one.
pub fn lowest(set: u64) -> u8
    requires { 0 < set }
    ensures within { result < 64 }
    ensures there { Has set result }
    ensures least { (i : ℕ) → i < result → bit_at set i ≡ 0 }
{
    set.trailing_zeros() as u8
}

/// The set without one of its cells.
pub fn without(set: u64, cell: u8) -> u64
    requires within { cell < 64 }
    requires there { Has set cell }
    ensures less { result < set }
    ensures gone { bit_at result cell ≡ 0 }
    ensures others { (i : ℕ) → i < 64 → i ≢ cell → bit_at result i ≡ bit_at set i }
{
    set & !(1 << cell)
}

/// The cells of the set that aren't in the other.
pub fn except(set: u64, other: u64) -> u64
    ensures { (i : ℕ) → Has result i ↔ (Has set i × (Has other i → ⊥)) }
{
    set & !other
}

/// The cells that are in both sets.
pub fn common(set: u64, other: u64) -> u64
    ensures { (i : ℕ) → Has result i ↔ (Has set i × Has other i) }
{
    set & other
}
