// What every call shares: the grid as eight floats, and a reply as its number and four words.
ghost use Rattle.std.specs.Prelude.{◌≡◌};
ghost use Rattle.std.specs.Float.{binary32};
ghost use Rattle.std.specs.Float.Ieee.{to_bits};
ghost use Rattle.rerecast.specs.Answer.{refusal_says, said_of, told_of};
ghost use Rattle.c_api.specs.Words.{grid_of, words_of, Tells};

use grid::{Corner, Grid};
use rerecast::Refusal;

pub(crate) fn grid_of(grid: &[f32; 8]) -> Grid
    ensures { result ≡ grid_of grid.now }
{
    Grid {
        min: Corner {
            x: grid[0],
            y: grid[1],
            z: grid[2],
        },
        max: Corner {
            x: grid[3],
            y: grid[4],
            z: grid[5],
        },
        cell_size: grid[6],
        cell_height: grid[7],
    }
}

// A float's bit pattern. Every NaN has the same one here.
fn bits_of(x: f32) -> u32
    ensures { result ≡ to_bits binary32 x }
{
    if x != x {
        return 0x7fc0_0000;
    }
    f32::to_bits(x)
}

// The words of what a refusal carries.
fn words_of(refusal: Refusal) -> [u32; 4]
    ensures { result ≡ words_of (refusal_says refusal).values }
{
    match refusal {
        Refusal::BadNumber(x) => [bits_of(x), 0, 0, 0],
        Refusal::GridSize(w, h) => [bits_of(w), bits_of(h), 0, 0],
        Refusal::Layers(layer, top) => [u32::from(layer), bits_of(top), 0, 0],
        Refusal::Stopped(_, triangle, made) => [triangle, made, 0, 0],
        _ => [0; 4],
    }
}

// Tells a refusal: its words into `said`, and its number as the result.
fn tell_refusal(refusal: Refusal, said: &mut [u32; 4]) -> u32
    ensures { Tells (refusal_says refusal) result said.new }
{
    *said = words_of(refusal);
    refusal.number()
}

// Tells what a call answers: 0, and nothing to carry, where it is accepted.
pub(crate) fn tell(answer: Result<(), Refusal>, said: &mut [u32; 4]) -> u32
    ensures { Tells (said_of answer) result said.new }
{
    match answer {
        Ok(()) => {
            *said = [0; 4];
            0
        }
        Err(refusal) => tell_refusal(refusal, said),
    }
}

// The same of a compact result, which carries where its box ends.
pub(crate) fn tell_top(answer: Result<f32, Refusal>, said: &mut [u32; 4]) -> u32
    ensures { Tells (told_of answer) result said.new }
{
    match answer {
        Ok(top) => {
            *said = [bits_of(top), 0, 0, 0];
            0
        }
        Err(refusal) => tell_refusal(refusal, said),
    }
}
