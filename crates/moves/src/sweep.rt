//! Walks over the cells of a set, from the lowest on.
ghost use Rattle.std.specs.Prelude.{◌≡◌, ◌≢◌, ◌<◌, ◌↔◌, IsTrue, true, false, ℕ};
ghost use Rattle.cells.specs.CellSets.{Has};

use cells::lowest;

/// Takes the lowest cell out of a set that has one.
#[inline(always)]
pub(crate) fn take_lowest(set: &mut u64) -> u8
    requires { 0 < set.old }
    ensures within { result < 64 }
    ensures there { Has set.old result }
    ensures least { (i : ℕ) → i < result → Has set.old i → ⊥ }
    ensures rest { (i : ℕ) → Has set.new i ↔ (Has set.old i × (i ≢ result)) }
    ensures less { set.new < set.old }
{
    let cell = lowest(*set);
    *set &= *set - 1;
    cell
}

/// Whether some cell of the set passes the test. Stops at the first that does.
#[inline(always)]
pub(crate) fn any_cell<F: Fn(u8) -> bool>(set: u64, test: F) -> bool
    requires { (i : ℕ) → Has set i → F.pre test i }
    ensures found { IsTrue result → (i : ℕ) × Has set i × F.post test i true }
    ensures none { result ≡ false → (i : ℕ) → Has set i → F.post test i false }
{
    let mut left = set;
    'cells: while left != 0 {
        let cell = take_lowest(&mut left);
        if test(cell) {
            return true;
        }
    }
    false
}
