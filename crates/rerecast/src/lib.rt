#![tactic(auto)]
// The build over lent slices, module by module as in the Rust. Whoever calls lends every slice, and no call asks for anything: what does not fit is
// refused with its number.
mod admission;
pub mod compact_heightfield;
pub mod heightfield;
mod insertion;
mod ledges;
mod lent;
mod links;
mod mesh_admission;
mod places;
pub mod pre_filter;
pub mod rasterize;
mod rows;
mod sides;
mod soundness;
mod turns;

ghost use Rattle.std.specs.Prelude.{◌≡◌};
ghost use Rattle.rerecast.specs.Answer.{refusal_says, refused_by};

use grid::GridError;

// Why the work of a triangle stops.
#[derive(Clone, Copy, Debug)]
pub enum Stop {
    NoSlot,
    EighthVertex,
    TooHigh,
}

// Why a call refuses. specs/Answer.antt gives the number and the values of each.
#[derive(Clone, Copy, Debug)]
pub enum Refusal {
    // a number outside its limits
    BadNumber(f32),
    BoxOrder,
    // the width and the height, not yet truncated
    GridSize(f32, f32),
    Slices,
    Unsound,
    OffGrid,
    Inverted,
    NoSlot,
    // the compact result is complete, but for links that would lead to a layer of 63 or more, of which this is the largest; its box ends at this y
    Layers(u8, f32),
    Crowded,
    SpansShort,
    // a triangle index names no vertex
    NoVertex,
    // a mesh stopped: why, the triangle, and how many of its insertions were made
    Stopped(Stop, u32, u32),
}

impl Refusal {
    // The number that the rules have for a refusal.
    pub fn number(self) -> u32
        ensures { result ≡ (refusal_says self).number }
    {
        match self {
            Refusal::BadNumber(_) => 1,
            Refusal::BoxOrder => 2,
            Refusal::GridSize(_, _) => 3,
            Refusal::Slices => 4,
            Refusal::Unsound => 14,
            Refusal::OffGrid => 8,
            Refusal::Inverted => 9,
            Refusal::NoSlot | Refusal::Stopped(Stop::NoSlot, _, _) => 5,
            Refusal::Layers(_, _) => 12,
            Refusal::Crowded => 11,
            Refusal::SpansShort => 15,
            Refusal::NoVertex => 10,
            Refusal::Stopped(Stop::EighthVertex, _, _) => 6,
            Refusal::Stopped(Stop::TooHigh, _, _) => 7,
        }
    }
}

impl From<GridError> for Refusal {
    ghost from_gives = { λ e r. r ≡ refused_by e };

    fn from(e: GridError) -> Refusal {
        match e {
            GridError::BadNumber(x) => Refusal::BadNumber(x),
            GridError::BoxOrder => Refusal::BoxOrder,
            GridError::GridSize(width, height) => Refusal::GridSize(width, height),
        }
    }
}
