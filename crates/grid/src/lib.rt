#![tactic(auto)]
// The grid's parameters, the tests that every call with a grid makes of them first, the grid's size in cells, and the four directions on it.
ghost use Rattle.std.specs.Prelude.{◌≡◌, ◌<◌, not, find, MatchOption};
ghost use Rattle.grid.specs.Grid.{coordinate_ok, cell_ok, across, cells, numbers, box_above, size_says, grid_says};
ghost use Rattle.grid.specs.Answer.{said_of, Finds};

mod directions;
mod sizes;

pub use directions::{Direction, NoDirection};
pub use sizes::Size;

#[derive(Clone, Copy)]
pub struct Corner {
    pub x: f32,
    pub y: f32,
    pub z: f32,
}

#[derive(Clone, Copy)]
pub struct Grid {
    pub min: Corner,
    pub max: Corner,
    pub cell_size: f32,
    pub cell_height: f32,
}

// Why a grid is refused: replies 1, 2 and 3.
#[derive(Clone, Copy, Debug)]
pub enum GridError {
    // the number outside its limits
    BadNumber(f32),
    // the box's corners the wrong way round
    BoxOrder,
    // the width and the height, not yet truncated
    GridSize(f32, f32),
}

// The limits of a coordinate, and below of a cell's sides: two functions, since no float can be a const parameter.
pub fn coordinate(x: f32) -> bool
    ensures { result ≡ coordinate_ok x }
{
    x >= -262144.0 && x <= 262144.0
}

pub fn cell(x: f32) -> bool
    ensures { result ≡ cell_ok x }
{
    x >= 0.0009765625 && x <= 1024.0
}

// The first number outside its limits, here and below. (A parameter for the test would leave nothing of the two but `find`.)
fn coordinate_outside(numbers: &[f32]) -> Option<f32>
    ensures { result ≡ find (λ x. not (coordinate_ok x)) numbers.now }
{
    numbers.iter().copied().find(|x| !coordinate(*x))
}

fn cell_outside(numbers: &[f32]) -> Option<f32>
    ensures { result ≡ find (λ x. not (cell_ok x)) numbers.now }
{
    numbers.iter().copied().find(|x| !cell(*x))
}

// The same of all the grid's numbers.
fn number_outside(g: Grid) -> Option<f32>
    ensures { Finds result (numbers g) }
{
    let corners = [g.min.x, g.min.y, g.min.z, g.max.x, g.max.y, g.max.z];
    coordinate_outside(&corners).or_else(|| cell_outside(&[g.cell_size, g.cell_height]))
}

// Is the least corner above the greatest on some axis?
#[tactic(auto, unfolding(crate::specs::Grid::box_above))]
fn box_above(g: Grid) -> bool
    ensures { result ≡ box_above g }
{
    g.min.x > g.max.x || g.min.y > g.max.y || g.min.z > g.max.z
}

// A side in cells, not yet truncated.
fn side_length(low: f32, high: f32, step: f32) -> f32
    ensures { result ≡ across low high step }
{
    (high - low) / step + 0.5
}

// A side truncated, where that is inside the limits.
fn cell_count(side: f32) -> Option<u32>
    ensures { MatchOption result (cells side ≡ 0) (λ n. (n ≡ cells side) × (0 < n)) }
{
    let n = ops::truncate(side);
    if n >= 1 && n <= 4096 {
        Some(n as u32)
    } else {
        None
    }
}

fn size(g: Grid) -> Result<Size, GridError>
    ensures { said_of result ≡ size_says g }
{
    let w = side_length(g.min.x, g.max.x, g.cell_size);
    let h = side_length(g.min.z, g.max.z, g.cell_size);
    let refused = GridError::GridSize(w, h);
    let width = cell_count(w).ok_or(refused)?;
    let height = cell_count(h).ok_or(refused)?;
    if width * height > 1048576 {
        return Err(refused);
    }
    Ok(Size { width, height })
}

// The tests that stand before all others in every call that takes a grid.
pub fn check(g: Grid) -> Result<Size, GridError>
    ensures { said_of result ≡ grid_says g }
{
    if let Some(x) = number_outside(g) {
        return Err(GridError::BadNumber(x));
    }
    if box_above(g) {
        return Err(GridError::BoxOrder);
    }
    size(g)
}
