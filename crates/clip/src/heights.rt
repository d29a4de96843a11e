// The floor and the ceiling of a triangle's part in a cell.
ghost use Rattle.std.specs.Prelude.{◌≡◌};
ghost use Rattle.clip.specs.Snap.{max_height, snap_says, said_of};

use super::slices::held;

const MAX_HEIGHT: u32 = 65535;

// What a cell's part becomes.
#[derive(Clone, Copy)]
pub struct Heights {
    pub floor: u16,
    pub ceiling: u16,
}

// Reply 7: the part's floor is the largest height.
#[derive(Clone, Copy)]
pub struct TooHigh;

// The heights of a part whose y goes from `lowest` to `highest`, in a box that starts at `bottom` and is `tall`, with the inverse of the cell height.
// A part that lies outside the box becomes nothing.
pub fn snap_of(
    lowest: f32,
    highest: f32,
    bottom: f32,
    tall: f32,
    inverse: f32,
) -> Result<Option<Heights>, TooHigh>
    ensures { said_of result ≡ snap_says max_height lowest highest bottom tall inverse }
{
    let low = lowest - bottom;
    let high = highest - bottom;
    if high < 0.0 {
        return Ok(None);
    }
    if low > tall {
        return Ok(None);
    }
    let floor = held(ops::floor(ops::greater(low, 0.0) * inverse), 0, MAX_HEIGHT);
    if floor == MAX_HEIGHT {
        return Err(TooHigh);
    }
    let ceiling = held(
        ops::ceil(ops::lesser(high, tall) * inverse),
        floor + 1,
        MAX_HEIGHT,
    );
    Ok(Some(Heights {
        floor: floor as u16,
        ceiling: ceiling as u16,
    }))
}
