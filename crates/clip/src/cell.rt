// Of a cell's part only the heights are asked for, so they are put together as its vertices come, and the part is not written down.
ghost use Rattle.std.specs.Prelude.{◌≡◌, []};
ghost use Rattle.clip.specs.Cell.{piece_of};

use super::cut::Part;
use grid::Corner;

// How many vertices a part has, and their least and greatest y.
#[derive(Clone, Copy)]
pub struct Piece {
    pub n: usize,
    pub low: f32,
    pub high: f32,
}

impl Piece {
    pub fn none() -> Self
        ensures { result ≡ piece_of [] }
    {
        Piece {
            n: 0,
            low: 0.0,
            high: 0.0,
        }
    }
}

impl Part for Piece {
    ghost use Rattle.clip.specs.Cell.{piece_holding, piece_of, piece_none};

    ghost holding = { piece_holding };

    ghost made = { λ p vs. piece_of vs };

    fn put(&mut self, at: usize, v: Corner) {
        if at == 0 {
            self.low = v.y;
            self.high = v.y;
        } else {
            self.low = ops::lesser(self.low, v.y);
            self.high = ops::greater(self.high, v.y);
        }
    }

    fn end(&mut self, n: usize) {
        if n == 0 {
            *self = Piece::none();
        } else {
            self.n = n;
        }
    }

    ghost holding_none = { piece_none };
}
