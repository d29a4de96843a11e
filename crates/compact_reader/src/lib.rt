#![tactic(auto)]
// The readers of a compact result over its lent slices: the cell of a column, and the span to which a link leads. They check the place that they are
// given, and take what stands in the slices as it is. The slices lie beside one another, as the rules lend them (docs/RULES.md).
ghost use Rattle.compact_reader.specs.Answer.{said_of_cell_at, said_of_con_indices};
ghost use Rattle.compact_reader.specs.Reading.{CellAtSays, ConIndicesSays, Locates};

use compact_cell::CompactCell;
use grid::{Direction, Grid, GridError, NoDirection, Size};

// Why a reader gives no entry.
#[derive(Clone, Copy, Debug)]
pub enum Refusal {
    // 1, 2 and 3
    Grid(GridError),
    // 4
    Slices,
    // 8
    OffGrid,
    // 13: a direction above 3, or a layer above 62
    NoLink,
}

impl From<GridError> for Refusal {
    ghost use Rattle.std.specs.Prelude.{◌≡◌};
    ghost use Rattle.compact_reader.specs.declared.Refusal.TheVariants as refusal;

    ghost from_gives = { λ e r. r ≡ refusal.Grid e };

    fn from(e: GridError) -> Self {
        Refusal::Grid(e)
    }
}

impl From<NoDirection> for Refusal {
    ghost use Rattle.std.specs.Prelude.{◌≡◌};
    ghost use Rattle.compact_reader.specs.declared.Refusal.TheVariants as refusal;

    ghost from_gives = { λ _ r. r ≡ refusal.NoLink };

    fn from(_e: NoDirection) -> Self {
        Refusal::NoLink
    }
}

// The column beside, and the number of the span there.
#[derive(Clone, Copy, Debug)]
pub struct Neighbour {
    pub x: u32,
    pub z: u32,
    pub span: usize,
}

// The highest layer that a link may name.
const LAST_LAYER: u8 = 62;

// The tests that both readers make first, where `shortest` is the length of the shortest slice: the grid's size, and the number of the column at x, z.
fn locate(grid: Grid, shortest: usize, x: u32, z: u32) -> Result<(Size, usize), Refusal>
    ensures { Locates result grid shortest x z }
{
    let size = grid::check(grid)?;
    if shortest < size.columns() {
        return Err(Refusal::Slices);
    }
    let column = size.column(x, z).ok_or(Refusal::OffGrid)?;
    Ok((size, column))
}

// The cell of the column at x, z.
pub fn cell_at(
    grid: Grid,
    cell_indices: &[u32],
    cell_counts: &[u8],
    x: u32,
    z: u32,
) -> Result<CompactCell, Refusal>
    ensures { CellAtSays grid cell_indices.now cell_counts.now x z (said_of_cell_at result) }
{
    let shortest = cell_indices.len().min(cell_counts.len());
    let (_, column) = locate(grid, shortest, x, z)?;
    Ok(CompactCell::new(cell_indices[column], cell_counts[column]))
}

// Where the link `con` in direction `dir` of a span at x, z leads.
pub fn con_indices(
    grid: Grid,
    cell_indices: &[u32],
    x: u32,
    z: u32,
    dir: u8,
    con: u8,
) -> Result<Neighbour, Refusal>
    ensures { ConIndicesSays grid cell_indices.now x z dir con (said_of_con_indices result) }
{
    let (size, _) = locate(grid, cell_indices.len(), x, z)?;
    let direction = Direction::try_from(dir)?;
    if con > LAST_LAYER {
        return Err(Refusal::NoLink);
    }
    let (x, z) = size.beside(x, z, direction).ok_or(Refusal::OffGrid)?;
    let beside = size.column(x, z).ok_or(Refusal::OffGrid)?;
    let span = cell_indices[beside] as usize + con as usize;
    Ok(Neighbour { x, z, span })
}
