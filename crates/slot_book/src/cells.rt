// Cells made blank.

ghost use Rattle.std.specs.Prelude.{◌≡◌, length, replicate};

use readings::kinds::Reading;

// Makes every cell blank.
pub(crate) fn blank_cells<R: Reading>(cells: &mut [R])
    ensures { cells.new ≡ replicate (length cells.old) R.Reading.kind.blank }
{
    // a closure: no proof is made of `R::blank` passed by its name, and `fill` asks what `Copy` does not tell of a clone
    cells.fill_with(|| R::blank());
}
