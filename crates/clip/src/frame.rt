// What is fixed for a grid, and the first test of a triangle against it.
ghost use Rattle.std.specs.Prelude.{◌≡◌, map};
ghost use Rattle.clip.specs.Slices.{read_of};
ghost use Rattle.clip.specs.Work.{frame_of, reaches_of, meets_of};

use super::slices::{Coordinate, greatest_of, least_of};
use grid::{Corner, Grid};

// What a triangle's work needs of a grid.
#[derive(Clone, Copy)]
pub struct Frame {
    pub grid: Grid,
    // 1 / cell size
    pub inverse: f32,
    // 1 / cell height
    pub rise: f32,
    // The height of the box.
    pub tall: f32,
    // In cells.
    pub width: u32,
    pub height: u32,
}

pub fn frame_of(g: Grid, width: u32, height: u32) -> Frame
    ensures { result ≡ frame_of g width height }
{
    Frame {
        grid: g,
        inverse: 1.0 / g.cell_size,
        rise: 1.0 / g.cell_height,
        tall: g.max.y - g.min.y,
        width,
        height,
    }
}

// Do the numbers that `of` reads from the vertices reach into low..high?
fn reaches(vs: &[Corner], of: Coordinate, low: f32, high: f32) -> bool
    ensures { result ≡ reaches_of low high (map (read_of of) vs.now) }
{
    least_of(vs, of) <= high && greatest_of(vs, of) >= low
}

// Does the box of the vertices overlap the grid's? Touching counts.
pub fn meets(f: Frame, vs: &[Corner]) -> bool
    ensures { result ≡ meets_of f vs.now }
{
    let least = f.grid.min;
    let greatest = f.grid.max;
    reaches(vs, Coordinate::X, least.x, greatest.x)
        && reaches(vs, Coordinate::Y, least.y, greatest.y)
        && reaches(vs, Coordinate::Z, least.z, greatest.z)
}
