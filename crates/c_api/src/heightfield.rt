// The field of spans: a fresh one, one span more, and a whole mesh with the filters after it.
ghost use Rattle.field.specs.Slots.{slots};
ghost use Rattle.field.specs.Store.{store, left};
ghost use Rattle.field.specs.Calls.{made, Freshened, Added};
ghost use Rattle.field.specs.Meshes.{mesh};
ghost use Rattle.field.specs.Populate.{Populated};
ghost use Rattle.c_api.specs.Words.{grid_of, Answers};

use crate::answers::{grid_of, tell};
use field::Span;

#[unsafe(no_mangle)]
pub extern "C" fn lv_fresh(
    grid: &[f32; 8],
    said: &mut [u32; 4],
    heads: &mut [u32],
    free: &mut u32,
    floors: &mut [u16],
    ceilings: &mut [u16],
    areas: &mut [u8],
    nexts: &mut [u32],
) -> u32
    ensures { Answers
        (λ s. Freshened (grid_of grid.now) heads.old (slots free.old floors.old ceilings.old areas.old nexts.old)
        (made s heads.new (slots free.new floors.new ceilings.new areas.new nexts.new))) result said.new }
{
    let answer = rerecast::heightfield::fresh(
        grid_of(grid),
        heads,
        free,
        floors,
        ceilings,
        areas,
        nexts,
    );
    tell(answer, said)
}

#[unsafe(no_mangle)]
pub extern "C" fn lv_add_span(
    grid: &[f32; 8],
    said: &mut [u32; 4],
    heads: &mut [u32],
    free: &mut u32,
    floors: &mut [u16],
    ceilings: &mut [u16],
    areas: &mut [u8],
    nexts: &mut [u32],
    marks: &mut [u8],
    x: u32,
    z: u32,
    floor: u16,
    ceiling: u16,
    area: u8,
    threshold: u16,
) -> u32
    ensures { Answers
        (λ s. Added (grid_of grid.now) x z (record { floor = floor; ceiling = ceiling; area = area }) threshold
        (store heads.old (slots free.old floors.old ceilings.old areas.old nexts.old) marks.old)
        (left s (store heads.new (slots free.new floors.new ceilings.new areas.new nexts.new) marks.new))) result said.new }
{
    let new = Span {
        floor,
        ceiling,
        area,
    };
    let answer = rerecast::heightfield::add_span(
        grid_of(grid),
        heads,
        free,
        floors,
        ceilings,
        areas,
        nexts,
        marks,
        x,
        z,
        new,
        threshold,
    );
    tell(answer, said)
}

#[unsafe(no_mangle)]
pub extern "C" fn lv_populate_from_trimesh(
    grid: &[f32; 8],
    said: &mut [u32; 4],
    heads: &mut [u32],
    free: &mut u32,
    floors: &mut [u16],
    ceilings: &mut [u16],
    areas: &mut [u8],
    nexts: &mut [u32],
    marks: &mut [u8],
    vertices: &[f32],
    indices: &[u32],
    triangle_areas: &[u8],
    walkable_height: u16,
    climb: u16,
) -> u32
    ensures { Answers
        (λ s. Populated (grid_of grid.now) (mesh vertices.now indices.now triangle_areas.now) walkable_height climb
        (store heads.old (slots free.old floors.old ceilings.old areas.old nexts.old) marks.old)
        (left s (store heads.new (slots free.new floors.new ceilings.new areas.new nexts.new) marks.new))) result said.new }
{
    let answer = rerecast::heightfield::populate_from_trimesh(
        grid_of(grid),
        heads,
        free,
        floors,
        ceilings,
        areas,
        nexts,
        marks,
        vertices,
        indices,
        triangle_areas,
        walkable_height,
        climb,
    );
    tell(answer, said)
}
