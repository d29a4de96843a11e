// Triangles to spans: a triangle is cut into rows, a row into columns, and a cell's part becomes a span of the store.
ghost use Rattle.std.specs.Prelude.{◌≡◌, List, [], ◌∷◌, ◌++◌, ℕ, ◌*◌, ◌/◌, ◌<◌, ◌≤◌, length, get_or, take, replicate};
ghost use Rattle.clip.specs.Work.{frame_of, triangle_events};
ghost use Rattle.field.specs.Slots.{slots};
ghost use Rattle.field.specs.Field.{Field, Holds, Held};
ghost use Rattle.field.specs.Store.{store, left};
ghost use Rattle.field.specs.Meshes.{mesh, single, corner_at, work_of, rasterized, Shaped, Named, Builds, Rasterized};
ghost use Rattle.rerecast.specs.Answer.{said_of};
ghost use Rattle.rerecast.specs.Lent.{slots_of, mesh_of, SameSlots};
ghost use Rattle.rerecast.specs.Rasterize.{Carries, Worked, MeshWorked, Sides, Ready};

use crate::Refusal;
use crate::lent::{Columns, Mesh, Slots};
use crate::mesh_admission::admit_mesh;
use crate::rows::{Rests, rows};
use crate::turns::{Halt, Job, first_of};
use clip::frame::{Frame, frame_of, meets};
use clip::rest::Rest;
use clip::slices::{Coordinate, cell_at, greatest_of, held_last, least_of};
use grid::{Corner, Grid, Size};

fn triangle(
    heads: &mut [u32],
    slots: &mut Slots<'_>,
    job: Job,
    rests: &mut Rests,
    a: Corner,
    b: Corner,
    c: Corner,
) -> Result<u32, Halt>
    requires ready { Ready job.frame heads.old }
    requires held { (others : List ℕ) × Held (heads.old ++ others) (slots_of slots.old) }
    ensures carries { (others : List ℕ) (f : Field) → Holds (heads.old ++ others) (slots_of slots.old) f
        → Carries job 0 f (triangle_events job.frame (a ∷ b ∷ c ∷ [])) result (heads.new ++ others) (slots_of slots.new) }
    ensures same_slots { SameSlots slots.old slots.new }
{
    let f = job.frame;
    let vs = [a, b, c];
    if !meets(f, &vs) {
        return Ok(0);
    }
    let z0 = cell_at(f.grid.min.z, f.inverse, least_of(&vs, Coordinate::Z));
    let z1 = cell_at(f.grid.min.z, f.inverse, greatest_of(&vs, Coordinate::Z));
    let first = first_of(z0, f.height - 1);
    let last = held_last(z1, f.height - 1) + 1;
    rests.triangle.begin(a, b, c);
    rows(heads, slots, job, rests, first, last)
}

// The corner that stands at a place of the indices.
fn corner(mesh: &Mesh<'_>, at: usize) -> Corner
    requires { (at < length mesh.now.indices.now) × (get_or mesh.now.indices.now at 0 < length mesh.now.vertices.now / 3) }
    ensures { result ≡ corner_at (mesh_of mesh.now) at }
{
    let i = mesh.indices[at] as usize * 3;
    Corner {
        x: mesh.vertices[i],
        y: mesh.vertices[i + 1],
        z: mesh.vertices[i + 2],
    }
}

// Triangle t of a mesh.
fn triangle_at(
    heads: &mut [u32],
    slots: &mut Slots<'_>,
    frame: Frame,
    mesh: &Mesh<'_>,
    threshold: u16,
    rests: &mut Rests,
    t: usize,
) -> Result<u32, Halt>
    requires ready { Ready frame heads.old × Shaped (mesh_of mesh.now) × Named (mesh_of mesh.now) × (t < length mesh.now.areas.now) }
    requires held { (others : List ℕ) × Held (heads.old ++ others) (slots_of slots.old) }
    ensures worked { (others : List ℕ) (f : Field) → Holds (heads.old ++ others) (slots_of slots.old) f
        → Worked frame threshold (work_of frame (mesh_of mesh.now) t) f result (heads.new ++ others) (slots_of slots.new) }
    ensures same_slots { SameSlots slots.old slots.new }
{
    let at = t * 3;
    let a = corner(mesh, at);
    let b = corner(mesh, at + 1);
    let c = corner(mesh, at + 2);
    let job = Job {
        frame,
        area: mesh.areas[t],
        threshold,
    };
    triangle(heads, slots, job, rests, a, b, c)
}

// The triangles of a mesh, one after another, up to the first that stops.
fn triangles(
    heads: &mut [u32],
    slots: &mut Slots<'_>,
    frame: Frame,
    mesh: &Mesh<'_>,
    threshold: u16,
) -> Result<(), Refusal>
    requires ready { Ready frame heads.old × Shaped (mesh_of mesh.now) × Named (mesh_of mesh.now) }
    requires held { (others : List ℕ) × Held (heads.old ++ others) (slots_of slots.old) }
    ensures worked { (others : List ℕ) (f : Field) → Holds (heads.old ++ others) (slots_of slots.old) f
        → MeshWorked (rasterized frame (mesh_of mesh.now) threshold f) result (heads.new ++ others) (slots_of slots.new) }
    ensures same_slots { SameSlots slots.old slots.new }
{
    let mut rests = Rests {
        triangle: Rest::empty(),
        row: Rest::empty(),
    };
    for t in 0..mesh.areas.len() {
        // With map_err and `?` the closure would have to be told t, and the lines are no fewer.
        if let Err(halt) = triangle_at(heads, slots, frame, mesh, threshold, &mut rests, t) {
            return Err(Refusal::Stopped(halt.why, t as u32, halt.made));
        }
    }
    Ok(())
}

// ---- the calls

// A mesh that has passed its tests, on a field that is known to be sound.
pub(crate) fn take_mesh(
    grid: Grid,
    size: Size,
    heads: &mut [u32],
    slots: &mut Slots<'_>,
    mesh: &Mesh<'_>,
    threshold: u16,
) -> Result<(), Refusal>
    requires sides { Sides size.width size.height × (size.width * size.height ≤ length heads.old) × Shaped (mesh_of mesh.now) × Named (mesh_of mesh.now) }
    requires held { Held (take (size.width * size.height) heads.old) (slots_of slots.old) }
    ensures builds { (marks : List ℕ)
        → Builds (size.width * size.height) (rasterized (frame_of grid size.width size.height) (mesh_of mesh.now) threshold)
        (store heads.old (slots_of slots.old) marks)
        (left (said_of result) (store heads.new (slots_of slots.new) (replicate (length slots.old.nexts.now) 0))) }
    ensures same_slots { SameSlots slots.old slots.new }
{
    let frame = frame_of(grid, size.width, size.height);
    triangles(&mut heads[..size.columns()], slots, frame, mesh, threshold)
}

// Puts the triangles of a mesh into the field, each with its area, up to the first that stops.
// Lent slice by slice, as C lends it: see src/lent.rt.
pub fn rasterize_triangles(
    grid: Grid,
    heads: &mut [u32],
    free: &mut u32,
    floors: &mut [u16],
    ceilings: &mut [u16],
    areas: &mut [u8],
    nexts: &mut [u32],
    marks: &mut [u8],
    vertices: &[f32],
    indices: &[u32],
    triangle_areas: &[u8],
    threshold: u16,
) -> Result<(), Refusal>
    ensures { Rasterized grid (mesh vertices.now indices.now triangle_areas.now) threshold
        (store heads.old (slots free.old floors.old ceilings.old areas.old nexts.old) marks.old)
        (left (said_of result) (store heads.new (slots free.new floors.new ceilings.new areas.new nexts.new) marks.new)) }
{
    let mesh = Mesh {
        vertices,
        indices,
        areas: triangle_areas,
    };
    let columns = Columns {
        heads,
        free: *free,
        floors,
        ceilings,
        nexts,
    };
    let size = admit_mesh(grid, &columns, areas, marks, &mesh)?;
    let mut slots = Slots {
        free,
        floors,
        ceilings,
        areas,
        nexts,
    };
    take_mesh(grid, size, heads, &mut slots, &mesh, threshold)
}

// Puts one triangle into the field: a mesh of one.
// Lent slice by slice, as C lends it: see src/lent.rt.
pub fn rasterize_triangle(
    grid: Grid,
    heads: &mut [u32],
    free: &mut u32,
    floors: &mut [u16],
    ceilings: &mut [u16],
    areas: &mut [u8],
    nexts: &mut [u32],
    marks: &mut [u8],
    a: Corner,
    b: Corner,
    c: Corner,
    area: u8,
    threshold: u16,
) -> Result<(), Refusal>
    ensures { Rasterized grid (single a b c area) threshold (store heads.old (slots free.old floors.old ceilings.old areas.old nexts.old) marks.old)
        (left (said_of result) (store heads.new (slots free.new floors.new ceilings.new areas.new nexts.new) marks.new)) }
{
    let vertices = [a.x, a.y, a.z, b.x, b.y, b.z, c.x, c.y, c.z];
    rasterize_triangles(
        grid,
        heads,
        free,
        floors,
        ceilings,
        areas,
        nexts,
        marks,
        &vertices,
        &[0, 1, 2],
        &[area],
        threshold,
    )
}
