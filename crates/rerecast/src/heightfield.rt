// The field of spans over lent slices: a fresh one, one span more, and a mesh with the filters after it.
ghost use Rattle.std.specs.Prelude.{◌≡◌, List, ℕ, ◌+◌, ◌*◌, ◌<◌, ◌≤◌, length, get_or, take, replicate};
ghost use Rattle.replies.specs.Said.{just, Asks};
ghost use Rattle.field.specs.Slots.{slots};
ghost use Rattle.field.specs.Inner.{after};
ghost use Rattle.field.specs.Field.{Field, Holds, Held};
ghost use Rattle.field.specs.Store.{store, Fits, left};
ghost use Rattle.field.specs.Calls.{made, IsFresh, Freshened, Offers, Added};
ghost use Rattle.field.specs.Meshes.{mesh};
ghost use Rattle.field.specs.Populate.{filtered_by, Populated};
ghost use Rattle.rerecast.specs.Answer.{said_of};
ghost use Rattle.rerecast.specs.Lent.{slots_of, slots_in, SameSlots};

use crate::Refusal;
use crate::admission::{admit, slices_fit};
use crate::insertion::insert_span;
use crate::ledges::{Agent, clear_columns};
use crate::lent::{Columns, Mesh, Slots};
use crate::mesh_admission::admit_mesh;
use crate::pre_filter::{lower_columns, raise_columns};
use crate::rasterize::take_mesh;
use field::{NONE, Span};
use grid::{Grid, Size};

// Each slot's next is the slot after it, and the last has none.
fn chain_slots(nexts: &mut [u32])
    requires { (0 < length nexts.old) × (length nexts.old ≤ 1048576) }
    ensures { (length nexts.new ≡ length nexts.old) × ((k : ℕ) → k < length nexts.old → get_or nexts.new k 0 ≡ after (length nexts.old) k) }
{
    for (i, next) in nexts.iter_mut().enumerate() {
        *next = (i + 1) as u32;
    }
    let last = nexts.len() - 1;
    nexts[last] = NONE;
}

// A fresh field for a grid that is accepted.
fn fresh_store(heads: &mut [u32], slots: &mut Slots<'_>, size: Size) -> Result<(), Refusal>
    ensures fresh { Asks (Fits (size.width * size.height) heads.old (slots_of slots.old)) (made (just 4) heads.old (slots_of slots.old))
        (IsFresh (size.width * size.height) heads.old (slots_of slots.old)) (made (said_of result) heads.new (slots_of slots.new)) }
    ensures same_slots { SameSlots slots.old slots.new }
{
    let n = size.columns();
    let fit = slices_fit(
        n,
        heads.len(),
        slots.floors.len(),
        slots.ceilings.len(),
        slots.areas.len(),
        slots.nexts.len(),
    );
    if !fit {
        return Err(Refusal::Slices);
    }
    heads[..n].fill(NONE);
    slots.floors.fill(0);
    slots.ceilings.fill(0);
    slots.areas.fill(0);
    chain_slots(slots.nexts);
    *slots.free = 0;
    Ok(())
}

// Makes a fresh field: every column is empty, and every slot is free, in the order of the slots' numbers.
// Lent slice by slice, as C lends it: see src/lent.rt.
pub fn fresh(
    grid: Grid,
    heads: &mut [u32],
    free: &mut u32,
    floors: &mut [u16],
    ceilings: &mut [u16],
    areas: &mut [u8],
    nexts: &mut [u32],
) -> Result<(), Refusal>
    ensures { Freshened grid heads.old (slots free.old floors.old ceilings.old areas.old nexts.old) (made (said_of result) heads.new (slots free.new floors.new ceilings.new areas.new nexts.new)) }
{
    let size = grid::check(grid)?;
    let mut slots = Slots {
        free,
        floors,
        ceilings,
        areas,
        nexts,
    };
    fresh_store(heads, &mut slots, size)
}

// Offers a span to a field that is known to be sound.
fn offer(
    heads: &mut [u32],
    slots: &mut Slots<'_>,
    size: Size,
    x: u32,
    z: u32,
    new: Span,
    threshold: u16,
) -> Result<(), Refusal>
    requires all_columns { size.width * size.height ≤ length heads.old }
    requires held { Held (take (size.width * size.height) heads.old) (slots_of slots.old) }
    ensures offered { (marks : List ℕ)
        → Offers size.width size.height x z new threshold (store heads.old (slots_of slots.old) marks)
        (left (said_of result) (store heads.new (slots_of slots.new) (replicate (length slots.old.nexts.now) 0))) }
    ensures same_slots { SameSlots slots.old slots.new }
{
    let column = size.column(x, z).ok_or(Refusal::OffGrid)?;
    if new.ceiling < new.floor {
        return Err(Refusal::Inverted);
    }
    match insert_span(&mut heads[..size.columns()], slots, column, new, threshold) {
        Some(_) => Ok(()),
        None => Err(Refusal::NoSlot),
    }
}

// Inserts a span into the column at x, z. Spans that share a height with it merge into it.
// Lent slice by slice, as C lends it: see src/lent.rt.
pub fn add_span(
    grid: Grid,
    heads: &mut [u32],
    free: &mut u32,
    floors: &mut [u16],
    ceilings: &mut [u16],
    areas: &mut [u8],
    nexts: &mut [u32],
    marks: &mut [u8],
    x: u32,
    z: u32,
    new: Span,
    threshold: u16,
) -> Result<(), Refusal>
    ensures { Added grid x z new threshold (store heads.old (slots free.old floors.old ceilings.old areas.old nexts.old) marks.old)
        (left (said_of result) (store heads.new (slots free.new floors.new ceilings.new areas.new nexts.new) marks.new)) }
{
    let columns = Columns {
        heads,
        free: *free,
        floors,
        ceilings,
        nexts,
    };
    let size = admit(grid, &columns, areas, marks, columns.heads.len())?;
    let mut slots = Slots {
        free,
        floors,
        ceilings,
        areas,
        nexts,
    };
    offer(heads, &mut slots, size, x, z, new, threshold)
}

// ---- a mesh and the filters

// The three filters on a sound field, in their order.
fn filter_all(columns: &Columns<'_>, areas: &mut [u8], size: Size, agent: Agent)
    requires all_columns { size.width * size.height ≡ length columns.now.heads.now }
    requires held { Held columns.now.heads.now (slots_in columns.now areas.old) }
    ensures { (f : Field) → Holds columns.now.heads.now (slots_in columns.now areas.old) f
        → Holds columns.now.heads.now (slots_in columns.now areas.new) (filtered_by size.width size.height agent.height agent.climb f) }
{
    raise_columns(columns, areas, agent.climb);
    clear_columns(columns, areas, size, agent);
    lower_columns(columns, areas, agent.height);
}

// Puts a mesh into the field, with the climb as merge threshold, and runs the three filters once all of it is placed. A mesh that stops is not filtered.
// Lent slice by slice, as C lends it: see src/lent.rt.
pub fn populate_from_trimesh(
    grid: Grid,
    heads: &mut [u32],
    free: &mut u32,
    floors: &mut [u16],
    ceilings: &mut [u16],
    areas: &mut [u8],
    nexts: &mut [u32],
    marks: &mut [u8],
    vertices: &[f32],
    indices: &[u32],
    triangle_areas: &[u8],
    walkable_height: u16,
    walkable_climb: u16,
) -> Result<(), Refusal>
    ensures { Populated grid (mesh vertices.now indices.now triangle_areas.now) walkable_height walkable_climb
        (store heads.old (slots free.old floors.old ceilings.old areas.old nexts.old) marks.old)
        (left (said_of result) (store heads.new (slots free.new floors.new ceilings.new areas.new nexts.new) marks.new)) }
{
    let mesh = Mesh {
        vertices,
        indices,
        areas: triangle_areas,
    };
    let columns = Columns {
        heads,
        free: *free,
        floors,
        ceilings,
        nexts,
    };
    let size = admit_mesh(grid, &columns, areas, marks, &mesh)?;
    let mut slots = Slots {
        free,
        floors,
        ceilings,
        areas,
        nexts,
    };
    take_mesh(grid, size, heads, &mut slots, &mesh, walkable_climb)?;
    let columns = Columns {
        heads: &heads[..size.columns()],
        free: *free,
        floors,
        ceilings,
        nexts,
    };
    let agent = Agent {
        height: walkable_height,
        climb: walkable_climb,
    };
    filter_all(&columns, areas, size, agent);
    Ok(())
}
