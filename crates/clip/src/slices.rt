// The rows and columns that a polygon meets: the least and the greatest of its coordinates, their cells, and where a cell ends.
ghost use Rattle.std.specs.Prelude.{◌≡◌, ◌≤◌, map, Float};
ghost use Rattle.grid.specs.declared.Corner.{Corner};
ghost use Rattle.clip.specs.Slices.{read_of, together, least_of, greatest_of, cell_of, edge_of, held_to, held_first, held_last, Chooses};

use grid::Corner;

// Which of a vertex's numbers is read.
#[derive(Clone, Copy)]
pub enum Coordinate {
    X,
    Y,
    Z,
}

impl Coordinate {
    #[inline(always)]
    pub fn of(self, v: &Corner) -> f32
        ensures { result ≡ read_of self v.now }
    {
        match self {
            Coordinate::X => v.x,
            Coordinate::Y => v.y,
            Coordinate::Z => v.z,
        }
    }
}

// The numbers that `of` reads from the vertices, put together two by two by `choice`. None give 0. A `for`, since a fold's contract gives its
// states one after another, and what the loop keeps is plainer.
#[inline(always)]
fn together<C: Fn(f32, f32) -> f32>(vs: &[Corner], of: Coordinate, choice: C) -> f32
    requires { C.IsAlwaysCallable choice }
    ensures { (h : Float → Float → Float) → Chooses (C.post choice) h → result ≡ together h (map (read_of of) vs.now) }
{
    let Some((first, rest)) = vs.split_first() else {
        return 0.0;
    };
    let mut y = of.of(first);
    for v in rest {
        y = choice(y, of.of(v));
    }
    y
}

// The least of the numbers that `of` reads from the vertices.
#[inline(always)]
pub fn least_of(vs: &[Corner], of: Coordinate) -> f32
    ensures { result ≡ least_of (map (read_of of) vs.now) }
{
    together(vs, of, |a, b| ops::lesser(a, b))
}

// The greatest of them.
#[inline(always)]
pub fn greatest_of(vs: &[Corner], of: Coordinate) -> f32
    ensures { result ≡ greatest_of (map (read_of of) vs.now) }
{
    together(vs, of, |a, b| ops::greater(a, b))
}

// The row or column that a coordinate lies in.
pub fn cell_at(start: f32, inverse: f32, v: f32) -> i32
    ensures { result ≡ cell_of start inverse v }
{
    ops::truncate((v - start) * inverse)
}

// Where the row or column with this number ends.
pub fn edge(start: f32, size: f32, at: i16) -> f32
    ensures { result ≡ edge_of start size at }
{
    (start + (at as f32) * size) + size
}

pub(crate) fn held(v: i32, low: u32, high: u32) -> u32
    requires { low ≤ high }
    ensures { result ≡ held_to low high v }
{
    match u32::try_from(v) {
        Ok(n) => n.clamp(low, high),
        Err(_) => low,
    }
}

// v held to -1..last.
pub fn held_first(v: i32, last: u32) -> i32
    ensures { result ≡ held_first last v }
{
    match u32::try_from(v) {
        Ok(n) => n.min(last) as i32,
        Err(_) => -1,
    }
}

// v held to 0..last.
pub fn held_last(v: i32, last: u32) -> u32
    ensures { result ≡ held_last last v }
{
    held(v, 0, last)
}
