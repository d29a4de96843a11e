// The cells beside a column: where each has its open spaces in the compact result.
ghost use Rattle.std.specs.Prelude.{◌≡◌, map, ◌+◌, ◌*◌, ◌≤◌, ◌<◌, length, IfSome};
ghost use Rattle.field.specs.Slots.{none};
ghost use Rattle.field.specs.Beside.{beside};
ghost use Rattle.grid.specs.Directions.{number_of};
ghost use Rattle.rerecast.specs.Compacting.{side_of, place_of, Beside};

use crate::lent::Compact;
use grid::{Direction, Size};

// A cell beside: the place of its first open space, and how many it has.
#[derive(Clone, Copy)]
pub(crate) struct Side {
    pub first: usize,
    pub count: u8,
}

// The number of the column beside x, z in a direction, if there is one.
fn beside_at(size: Size, x: u32, z: u32, direction: Direction) -> Option<usize>
    requires { (x < size.width) × (z < size.height) }
    ensures { Beside result size.width size.height x z (number_of direction) }
{
    let (x, z) = size.beside(x, z, direction)?;
    size.column(x, z)
}

// The cell with number `k`, and an empty one where there is none.
fn side_at(compact: &Compact<'_>, k: Option<usize>) -> Side
    requires { IfSome k (λ i. (i < none) × (i < length compact.now.indices.now) × (i < length compact.now.counts.now)) }
    ensures { result ≡ side_of compact.now.indices.now compact.now.counts.now (place_of k) }
{
    match k {
        Some(k) => Side {
            first: compact.indices[k] as usize,
            count: compact.counts[k],
        },
        None => Side { first: 0, count: 0 },
    }
}

// The cells beside a column, by direction.
pub(crate) fn around_column(compact: &Compact<'_>, size: Size, column: usize) -> [Side; 4]
    requires { (column < size.width * size.height) × (size.width * size.height ≤ length compact.now.indices.now) × (size.width * size.height ≤ length compact.now.counts.now) }
    ensures { result ≡ map (side_of compact.now.indices.now compact.now.counts.now) (beside size.width size.height column) }
{
    let number = column as u32;
    let x = number % size.width;
    let z = number / size.width;
    [
        side_at(compact, beside_at(size, x, z, Direction::West)),
        side_at(compact, beside_at(size, x, z, Direction::North)),
        side_at(compact, beside_at(size, x, z, Direction::East)),
        side_at(compact, beside_at(size, x, z, Direction::South)),
    ]
}
