// A grid's size in cells, and its columns.
ghost use Rattle.std.specs.Prelude.{◌*◌, ◌≤◌};

use crate::directions::Direction;

// Of a grid that is accepted: there are at most 1,048,576 columns.
#[derive(Clone, Copy, Debug)]
pub struct Size {
    pub width: u32,
    pub height: u32,
    ghost few: { width * height ≤ 1048576 },
}

impl Size {
    ghost use Rattle.std.specs.Prelude.{◌≡◌, ◌+◌, ◌<◌, MatchOption};
    ghost use Rattle.grid.specs.Directions.{number_of, StepsTo};

    // How many columns there are.
    pub fn columns(self) -> usize
        ensures { result ≡ self.width * self.height }
    {
        self.width as usize * self.height as usize
    }

    // The number of the column at x, z, if that is on the grid.
    pub fn column(self, x: u32, z: u32) -> Option<usize>
        ensures { MatchOption result ((x < self.width) × (z < self.height) → ⊥)
            (λ i. ((x < self.width) × (z < self.height)) × ((i ≡ x + z * self.width) × (i < self.width * self.height))) }
    {
        if x < self.width && z < self.height {
            Some(x as usize + z as usize * self.width as usize)
        } else {
            None
        }
    }

    // The place beside x, z in a direction, if the step does not leave the grid.
    pub fn beside(self, x: u32, z: u32, direction: Direction) -> Option<(u32, u32)>
        ensures { StepsTo result self.width self.height (number_of direction) x z }
    {
        match direction {
            Direction::West => Some((x.checked_sub(1)?, z)),
            Direction::North => Some((x, z.checked_add(1).filter(|z| *z < self.height)?)),
            Direction::East => Some((x.checked_add(1).filter(|x| *x < self.width)?, z)),
            Direction::South => Some((x, z.checked_sub(1)?)),
        }
    }
}
