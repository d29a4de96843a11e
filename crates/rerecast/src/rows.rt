// The rows of a triangle and the cells of a row: each is cut from what remains, and a cell's part becomes a span of the field.
ghost use Rattle.std.specs.Prelude.{◌≡◌, List, [], ◌∷◌, ◌++◌, map, ℕ, ◌/◌, ◌<◌, ◌≤◌, length};
ghost use Rattle.clip.specs.Cut.{y_of, slice_cut};
ghost use Rattle.clip.specs.Rest.{left};
ghost use Rattle.clip.specs.Slices.{least_of, greatest_of};
ghost use Rattle.clip.specs.Work.{insert, edge_at, cell_events, row_events};
ghost use Rattle.field.specs.Field.{Field, Holds, Held};
ghost use Rattle.field.specs.Working.{numbered, turn_events, turns_to};
ghost use Rattle.rerecast.specs.Lent.{slots_of, SameSlots};
ghost use Rattle.rerecast.specs.Rasterize.{Carries, CutsOff, Ready};

use crate::Stop;
use crate::insertion::insert_span;
use crate::lent::Slots;
use crate::turns::{Halt, Job, first_of, gives_nothing, misses, number};
use clip::cell::Piece;
use clip::cut::{Axis, EighthVertex};
use clip::heights::{Heights, TooHigh, snap_of};
use clip::rest::Rest;
use clip::slices::{Coordinate, cell_at, edge, greatest_of, held_last, least_of};
use field::Span;
use grid::Corner;

// What remains of a triangle while rows are cut off it, and of a row while cells are. Both are made once for a mesh, and every triangle begins them anew.
#[derive(Clone, Copy)]
pub(crate) struct Rests {
    pub triangle: Rest,
    pub row: Rest,
}

// One insertion. Answers, as all of these do, how many insertions of the triangle are made by then.
fn put(
    heads: &mut [u32],
    slots: &mut Slots<'_>,
    job: Job,
    x: u32,
    z: u32,
    floor: u16,
    ceiling: u16,
    made: u32,
) -> Result<u32, Halt>
    requires ready { Ready job.frame heads.old × (x < job.frame.width) × (z < job.frame.height) × (floor ≤ ceiling) × (made < 4294967295) }
    requires held { (others : List ℕ) × Held (heads.old ++ others) (slots_of slots.old) }
    ensures carries { (others : List ℕ) (f : Field) → Holds (heads.old ++ others) (slots_of slots.old) f
        → Carries job made f (insert x z floor ceiling ∷ []) result (heads.new ++ others) (slots_of slots.new) }
    ensures same_slots { SameSlots slots.old slots.new }
{
    let column = (x + z * job.frame.width) as usize;
    let span = Span {
        floor,
        ceiling,
        area: job.area,
    };
    match insert_span(heads, slots, column, span, job.threshold) {
        Some(_) => Ok(made + 1),
        None => Err(Halt {
            why: Stop::NoSlot,
            made,
        }),
    }
}

// The part of cell x, z, whose ys go from `low` to `high`.
fn place(
    heads: &mut [u32],
    slots: &mut Slots<'_>,
    job: Job,
    low: f32,
    high: f32,
    x: u32,
    z: u32,
    made: u32,
) -> Result<u32, Halt>
    requires ready { Ready job.frame heads.old × (x < job.frame.width) × (z < job.frame.height) × (made < 4294967295) }
    requires held { (others : List ℕ) × Held (heads.old ++ others) (slots_of slots.old) }
    ensures carries { (others : List ℕ) (f : Field) (part : List Corner) → least_of (map y_of part) ≡ low → greatest_of (map y_of part) ≡ high
        → Holds (heads.old ++ others) (slots_of slots.old) f
        → Carries job made f (cell_events job.frame z x part) result (heads.new ++ others) (slots_of slots.new) }
    ensures same_slots { SameSlots slots.old slots.new }
{
    let f = job.frame;
    match snap_of(low, high, f.grid.min.y, f.tall, f.rise) {
        Ok(None) => Ok(made),
        Ok(Some(Heights { floor, ceiling })) => {
            put(heads, slots, job, x, z, floor, ceiling, made)
        }
        Err(TooHigh) => Err(Halt {
            why: Stop::TooHigh,
            made,
        }),
    }
}

// Column k of row z: what is cut off the row there.
fn column(
    heads: &mut [u32],
    slots: &mut Slots<'_>,
    job: Job,
    rest: &mut Rest,
    k: u32,
    z: u32,
    made: u32,
) -> Result<u32, Halt>
    requires ready { Ready job.frame heads.old × (k ≤ job.frame.width) × (z < job.frame.height) × (made < 4294967295) }
    requires held { (others : List ℕ) × Held (heads.old ++ others) (slots_of slots.old) }
    ensures carries { (others : List ℕ) (f : Field) → Holds (heads.old ++ others) (slots_of slots.old) f
        → Carries job made f (turn_events (slice_cut Axis.X (edge_at job.frame Axis.X (numbered k)) (left rest.old)) (cell_events job.frame z) k) result
        (heads.new ++ others) (slots_of slots.new) }
    ensures cuts_off { CutsOff Axis.X (edge_at job.frame Axis.X (numbered k)) (left rest.old) (left rest.new) result }
    ensures same_slots { SameSlots slots.old slots.new }
{
    let grid = job.frame.grid;
    let end = edge(grid.min.x, grid.cell_size, number(k));
    let mut cell = Piece::none();
    if let Err(EighthVertex) = rest.cut(Axis::X, end, &mut cell) {
        return Err(Halt {
            why: Stop::EighthVertex,
            made,
        });
    }
    if gives_nothing(cell.n, k) {
        return Ok(made);
    }
    place(heads, slots, job, cell.low, cell.high, k - 1, z, made)
}

// Columns first..last of row z.
fn columns(
    heads: &mut [u32],
    slots: &mut Slots<'_>,
    job: Job,
    row: &mut Rest,
    z: u32,
    first: u32,
    last: u32,
    made: u32,
) -> Result<u32, Halt>
    requires ready { Ready job.frame heads.old × (z < job.frame.height) × (length (left row.old) ≤ 7) × (last ≤ job.frame.width) × (made ≤ 16781312) }
    requires held { (others : List ℕ) × Held (heads.old ++ others) (slots_of slots.old) }
    ensures carries { (others : List ℕ) (f : Field) → Holds (heads.old ++ others) (slots_of slots.old) f
        → Carries job made f (turns_to Axis.X (edge_at job.frame Axis.X) (cell_events job.frame z) last first (left row.old)) result
        (heads.new ++ others) (slots_of slots.new) }
    ensures same_slots { SameSlots slots.old slots.new }
{
    let mut count = made;
    for k in first..last + 1 {
        count = column(heads, slots, job, row, k, z, count)?;
    }
    Ok(count)
}

// Row z.
fn row(
    heads: &mut [u32],
    slots: &mut Slots<'_>,
    job: Job,
    part: &mut Rest,
    z: u32,
    made: u32,
) -> Result<u32, Halt>
    requires ready { Ready job.frame heads.old × (z < job.frame.height) × (length (left part.old) ≤ 7) × (made ≤ 16781312) }
    requires held { (others : List ℕ) × Held (heads.old ++ others) (slots_of slots.old) }
    ensures carries { (others : List ℕ) (f : Field) → Holds (heads.old ++ others) (slots_of slots.old) f
        → Carries job made f (row_events job.frame z (left part.old)) result (heads.new ++ others) (slots_of slots.new) }
    ensures same_slots { SameSlots slots.old slots.new }
{
    let f = job.frame;
    let vs = part.vertices();
    let x0 = cell_at(f.grid.min.x, f.inverse, least_of(vs, Coordinate::X));
    let x1 = cell_at(f.grid.min.x, f.inverse, greatest_of(vs, Coordinate::X));
    if misses(x0, x1, f.width) {
        return Ok(made);
    }
    let first = first_of(x0, f.width - 1);
    let last = held_last(x1, f.width - 1) + 1;
    columns(heads, slots, job, part, z, first, last, made)
}

// Row k: what is cut off the triangle there.
fn row_at(
    heads: &mut [u32],
    slots: &mut Slots<'_>,
    job: Job,
    rests: &mut Rests,
    k: u32,
    made: u32,
) -> Result<u32, Halt>
    requires ready { Ready job.frame heads.old × (k ≤ job.frame.height) × (made ≤ 16781312) }
    requires held { (others : List ℕ) × Held (heads.old ++ others) (slots_of slots.old) }
    ensures carries { (others : List ℕ) (f : Field) → Holds (heads.old ++ others) (slots_of slots.old) f
        → Carries job made f (turn_events (slice_cut Axis.Z (edge_at job.frame Axis.Z (numbered k)) (left rests.old.triangle)) (row_events job.frame) k) result
        (heads.new ++ others) (slots_of slots.new) }
    ensures cuts_off { CutsOff Axis.Z (edge_at job.frame Axis.Z (numbered k)) (left rests.old.triangle) (left rests.new.triangle) result }
    ensures same_slots { SameSlots slots.old slots.new }
{
    let grid = job.frame.grid;
    let end = edge(grid.min.z, grid.cell_size, number(k));
    if let Err(EighthVertex) = rests.triangle.cut(Axis::Z, end, &mut rests.row) {
        return Err(Halt {
            why: Stop::EighthVertex,
            made,
        });
    }
    if gives_nothing(rests.row.vertices().len(), k) {
        return Ok(made);
    }
    row(heads, slots, job, &mut rests.row, k - 1, made)
}

// Rows first..last of a triangle.
pub(crate) fn rows(
    heads: &mut [u32],
    slots: &mut Slots<'_>,
    job: Job,
    rests: &mut Rests,
    first: u32,
    last: u32,
) -> Result<u32, Halt>
    requires ready { Ready job.frame heads.old × (length (left rests.old.triangle) ≤ 7) × (last ≤ job.frame.height) }
    requires held { (others : List ℕ) × Held (heads.old ++ others) (slots_of slots.old) }
    ensures carries { (others : List ℕ) (f : Field) → Holds (heads.old ++ others) (slots_of slots.old) f
        → Carries job 0 f (turns_to Axis.Z (edge_at job.frame Axis.Z) (row_events job.frame) last first (left rests.old.triangle)) result
        (heads.new ++ others) (slots_of slots.new) }
    ensures same_slots { SameSlots slots.old slots.new }
{
    let mut count: u32 = 0;
    for k in first..last + 1 {
        count = row_at(heads, slots, job, rests, k, count)?;
    }
    Ok(count)
}
