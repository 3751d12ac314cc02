//! Which nations are living.
ghost use Rattle.std.specs.Prelude.{◌≡◌, ◌++◌, ◌≤◌, length, drop};
ghost use Rattle.rules.specs.NationRows.{nation_rows_in};
ghost use Rattle.pages.specs.LivingCells.{living_cells};

use crate::status::is_living;
use rows::Nations;

// Marks the nations that are living, a cell for each row: by index, since a proof knows no cell that is written through a `zip` with `iter_mut`.
pub(crate) fn fill_living(nations: &[u32], entries: &[u32], cells: &mut [bool])
    requires { length (nation_rows_in nations.now) ≤ length cells.old }
    ensures { cells.new ≡ living_cells nations.now entries.now ++ drop (length (living_cells nations.now entries.now)) cells.old }
{
    for (i, nation) in Nations::new(nations).enumerate() {
        cells[i] = is_living(entries, nation);
    }
}
