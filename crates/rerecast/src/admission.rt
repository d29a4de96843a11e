// The tests in front of every call: the grid's, the slices' and the field's.
ghost use Rattle.std.specs.Prelude.{◌*◌};
ghost use Rattle.field.specs.Store.{store, Fit};
ghost use Rattle.field.specs.Inner.{Says};
ghost use Rattle.rerecast.specs.Inner.{AdmitsStore, AdmitsCall};
ghost use Rattle.rerecast.specs.Lent.{slots_in};

use crate::Refusal;
use crate::lent::Columns;
use crate::soundness::is_sound;
use grid::{Grid, Size};

// Whether slices of these lengths fit a grid of `n` columns. It takes lengths, since one caller is lent the slots to read and one to change them.
pub(crate) fn slices_fit(
    n: usize,
    heads: usize,
    floors: usize,
    ceilings: usize,
    areas: usize,
    nexts: usize,
) -> bool
    ensures { Says result (Fit n heads floors ceilings areas nexts) }
{
    let even = floors == nexts && ceilings == nexts && areas == nexts;
    even && n <= heads && 0 < nexts && nexts <= 1048576
}

// The tests of the slices and of the field, for a grid that is accepted.
fn admit_store(
    size: Size,
    columns: &Columns<'_>,
    areas: &[u8],
    marks: &mut [u8],
    shortest: usize,
) -> Result<(), Refusal>
    ensures { AdmitsStore result (size.width * size.height) shortest (store columns.now.heads.now (slots_in columns.now areas.now) marks.old) marks.new }
{
    let n = size.columns();
    let fit = slices_fit(
        n,
        columns.heads.len(),
        columns.floors.len(),
        columns.ceilings.len(),
        areas.len(),
        columns.nexts.len(),
    );
    if !fit || marks.len() != columns.nexts.len() || shortest < n {
        return Err(Refusal::Slices);
    }
    let held = Columns {
        heads: &columns.heads[..n],
        ..*columns
    };
    if !is_sound(&held, marks) {
        return Err(Refusal::Unsound);
    }
    Ok(())
}

// All of them, in their order. `shortest` is the length of the shortest further slice that the call needs an entry of for each column; where it needs
// none, the number of heads serves.
pub(crate) fn admit(
    grid: Grid,
    columns: &Columns<'_>,
    areas: &[u8],
    marks: &mut [u8],
    shortest: usize,
) -> Result<Size, Refusal>
    ensures { AdmitsCall result grid shortest (store columns.now.heads.now (slots_in columns.now areas.now) marks.old) marks.new }
{
    let size = grid::check(grid)?;
    admit_store(size, columns, areas, marks, shortest)?;
    Ok(size)
}
