// What the loops over rows and columns share: a triangle's work and how it stops, and what a cut gives to one row or column.
ghost use Rattle.std.specs.Prelude.{◌≡◌, ◌||◌, ◌<◌, ◌≤◌, pos};
ghost use Rattle.std.specs.Int.Signed.{lt_z, le_z};
ghost use Rattle.clip.specs.Slices.{held_first};
ghost use Rattle.field.specs.Working.{numbered};
ghost use Rattle.rerecast.specs.Rasterize.{Judged};

use crate::Stop;
use clip::frame::Frame;

// A triangle's work stopped: why, and how many of its insertions were made before.
#[derive(Clone, Copy)]
pub(crate) struct Halt {
    pub why: Stop,
    pub made: u32,
}

// What stays the same over a triangle's work.
#[derive(Clone, Copy)]
pub(crate) struct Job {
    pub frame: Frame,
    pub area: u8,
    pub threshold: u16,
}

// Rows and columns are counted from 0 for number -1, which gives nothing, and neither does a part with fewer than 3 vertices.
pub(crate) fn gives_nothing(n: usize, k: u32) -> bool
    ensures { Judged result n k }
{
    k == 0 || n < 3
}

pub(crate) fn number(k: u32) -> i16
    requires { k ≤ 4096 }
    ensures { result ≡ numbered k }
{
    (k as i16) - 1
}

// The first row or column, held to -1..last.
pub(crate) fn first_of(v: i32, last: u32) -> u32
    requires { last < 4096 }
    ensures { numbered result ≡ held_first last v }
{
    if v < 0 {
        return 0;
    }
    clip::slices::held_last(v, last) + 1
}

// Do columns first..last end before the grid, or begin behind it?
pub(crate) fn misses(first: i32, last: i32, cells: u32) -> bool
    requires { cells ≤ 4096 }
    ensures { result ≡ lt_z last (pos 0) || le_z (pos cells) first }
{
    last < 0 || first >= cells as i32
}
