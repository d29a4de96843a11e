// Polygons by value, and their cut.
ghost use Rattle.std.specs.Prelude.{◌≡◌, [], ◌≤◌};
ghost use Rattle.clip.specs.Poly.{vertices_in, poly_of, poly_cut, Answers, held};

use super::cut::{Axis, EighthVertex, Part, divide};
use grid::Corner;

const ORIGIN: Corner = Corner {
    x: 0.0,
    y: 0.0,
    z: 0.0,
};

// A polygon by value: its vertices are at[0..n]. The number stands beside an array, since a library for C has no heap, and it may be wrong:
// `divide_poly` promises an answer for every n.
#[derive(Clone, Copy)]
pub struct Vertices<const N: usize> {
    pub at: [Corner; N],
    pub n: usize,
}

// What `divide_poly` takes and gives.
pub type Poly = Vertices<7>;

// A part that is written down. A cut of 7 vertices gives a part at most 14.
pub type Polygon = Vertices<14>;

// Both parts of a cut.
#[derive(Clone, Copy)]
pub struct Parts {
    pub first: Poly,
    pub second: Poly,
}

impl<const N: usize> Vertices<N> {
    pub fn empty() -> Self
        ensures none { held result ≡ [] }
        ensures whole { result ≡ vertices_in N [] }
    {
        Vertices {
            at: [ORIGIN; N],
            n: 0,
        }
    }

    pub fn vertices(&self) -> &[Corner]
        ensures { result.now ≡ held self.now }
    {
        &self.at[..self.n.min(N)]
    }
}

impl Part for Polygon {
    ghost use Rattle.clip.specs.Poly.{polygon_holding, polygon_of, polygon_none};

    ghost holding = { polygon_holding };

    ghost made = { polygon_of };

    fn put(&mut self, at: usize, v: Corner) {
        if at < self.at.len() {
            self.at[at] = v;
        }
    }

    fn end(&mut self, n: usize) {
        self.n = n;
    }

    ghost holding_none = { polygon_none };
}

// The first 7 vertices of a part that has no more.
fn few(p: &Polygon) -> Poly
    requires { p.now.n ≤ 7 }
    ensures { result ≡ poly_of (held p.now) }
{
    let mut at = [ORIGIN; 7];
    for i in 0..p.n {
        at[i] = p.at[i];
    }
    Poly { at, n: p.n }
}

// The cut of p at `offset`, by value.
pub fn divide_poly(p: Poly, axis: Axis, offset: f32) -> Result<Parts, EighthVertex>
    ensures { Answers (poly_cut axis offset p) result }
{
    if p.n > 7 {
        return Err(EighthVertex);
    }
    let mut first = Polygon::empty();
    let mut second = Polygon::empty();
    divide(&p.at[..p.n], axis, offset, &mut first, &mut second)?;
    Ok(Parts {
        first: few(&first),
        second: few(&second),
    })
}
