// The four directions on a grid.
ghost use Rattle.grid.specs.Directions.{Names};

// Each one's number is its place here.
#[derive(Clone, Copy, Debug, PartialEq, Eq)]
pub enum Direction {
    // x falls
    West,
    // z rises
    North,
    // x rises
    East,
    // z falls
    South,
}

// The number of no direction: it is above 3.
#[derive(Clone, Copy, Debug, PartialEq, Eq)]
pub struct NoDirection;

impl TryFrom<u8> for Direction {
    type Error = NoDirection;

    ghost try_from_gives = { Names };

    fn try_from(number: u8) -> Result<Self, NoDirection> {
        match number {
            0 => Ok(Direction::West),
            1 => Ok(Direction::North),
            2 => Ok(Direction::East),
            3 => Ok(Direction::South),
            _ => Err(NoDirection),
        }
    }
}
