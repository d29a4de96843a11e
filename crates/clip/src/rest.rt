// What remains of a polygon while parts are cut off it, one after the other.
ghost use Rattle.std.specs.Prelude.{◌≡◌, ◌≤◌, [], ◌∷◌, OnOk, OnErr, List, length, cond};
ghost use Rattle.grid.specs.declared.Corner.{Corner};
ghost use Rattle.clip.specs.Cut.{first_of, second_of, fitting, verdict_of, slice_cut};
ghost use Rattle.clip.specs.Poly.{held};
ghost use Rattle.clip.specs.Rest.{left, rest_of};

use super::cut::{Axis, EighthVertex, Part, divide};
use super::poly::Polygon;
use grid::Corner;

// It stands in one of two polygons, and a cut writes what remains behind it into the other.
#[derive(Clone, Copy)]
pub struct Rest {
    one: Polygon,
    other: Polygon,
    swapped: bool,
}

impl Rest {
    pub fn empty() -> Self
        ensures { left result ≡ [] }
    {
        Rest {
            one: Polygon::empty(),
            other: Polygon::empty(),
            swapped: false,
        }
    }

    // Begins anew with a triangle, of which nothing is cut off yet.
    pub fn begin(&mut self, a: Corner, b: Corner, c: Corner)
        ensures { left self.new ≡ a ∷ b ∷ c ∷ [] }
    {
        self.one.at[0] = a;
        self.one.at[1] = b;
        self.one.at[2] = c;
        self.end(3);
    }

    // Of a part that was cut off, `whole` says that they are what it was given.
    pub fn vertices(&self) -> &[Corner]
        ensures value { result.now ≡ left self.now }
        ensures whole { (r : Rest) (vs : List Corner) → length vs ≤ 14 → self.now ≡ rest_of r vs → result.now ≡ vs }
    {
        if self.swapped {
            self.other.vertices()
        } else {
            self.one.vertices()
        }
    }

    // Cuts a part off, which stands whole where the cut is no error. After an error nothing is cut off yet, and `first` is what `divide` leaves.
    #[inline(always)]
    pub fn cut<F: Part>(
        &mut self,
        axis: Axis,
        offset: f32,
        first: &mut F,
    ) -> Result<(), EighthVertex>
        ensures verdict { result ≡ verdict_of (slice_cut axis offset (left self.old)) }
        ensures part { OnOk result (first.new ≡ F.made first.old (first_of axis offset (left self.old))) }
        ensures rest { OnOk result (left self.new ≡ second_of axis offset (left self.old)) }
        ensures error { OnErr result (first.new ≡ cond (fitting (left self.old)) (F.made first.old (first_of axis offset (left self.old))) first.old) }
        ensures stays { OnErr result (left self.new ≡ left self.old) }
    {
        if self.swapped {
            divide(self.other.vertices(), axis, offset, first, &mut self.one)?;
        } else {
            divide(self.one.vertices(), axis, offset, first, &mut self.other)?;
        }
        self.swapped = !self.swapped;
        Ok(())
    }
}

// A part that is cut off can be cut in its turn: what remains of it is then all of it.
impl Part for Rest {
    ghost use Rattle.clip.specs.Rest.{rest_holding, rest_of, rest_none};

    ghost holding = { rest_holding };

    ghost made = { rest_of };

    fn put(&mut self, at: usize, v: Corner) {
        self.one.put(at, v);
    }

    fn end(&mut self, n: usize) {
        self.one.end(n);
        self.swapped = false;
    }

    ghost holding_none = { rest_none };
}
