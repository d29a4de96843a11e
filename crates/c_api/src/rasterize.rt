// Triangles into the field.
ghost use Rattle.std.specs.Prelude.{[], ◌∷◌};
ghost use Rattle.field.specs.Slots.{slots};
ghost use Rattle.field.specs.Store.{store, left};
ghost use Rattle.field.specs.Meshes.{mesh, Rasterized};
ghost use Rattle.c_api.specs.Words.{grid_of, Answers};

use crate::answers::{grid_of, tell};

#[unsafe(no_mangle)]
pub extern "C" fn lv_rasterize_triangles(
    grid: &[f32; 8],
    said: &mut [u32; 4],
    heads: &mut [u32],
    free: &mut u32,
    floors: &mut [u16],
    ceilings: &mut [u16],
    areas: &mut [u8],
    nexts: &mut [u32],
    marks: &mut [u8],
    vertices: &[f32],
    indices: &[u32],
    triangle_areas: &[u8],
    threshold: u16,
) -> u32
    ensures { Answers
        (λ s. Rasterized (grid_of grid.now) (mesh vertices.now indices.now triangle_areas.now) threshold
        (store heads.old (slots free.old floors.old ceilings.old areas.old nexts.old) marks.old)
        (left s (store heads.new (slots free.new floors.new ceilings.new areas.new nexts.new) marks.new))) result said.new }
{
    let answer = rerecast::rasterize::rasterize_triangles(
        grid_of(grid),
        heads,
        free,
        floors,
        ceilings,
        areas,
        nexts,
        marks,
        vertices,
        indices,
        triangle_areas,
        threshold,
    );
    tell(answer, said)
}

// A mesh of one triangle, by its three corners.
#[unsafe(no_mangle)]
pub extern "C" fn lv_rasterize_triangle(
    grid: &[f32; 8],
    said: &mut [u32; 4],
    heads: &mut [u32],
    free: &mut u32,
    floors: &mut [u16],
    ceilings: &mut [u16],
    areas: &mut [u8],
    nexts: &mut [u32],
    marks: &mut [u8],
    corners: &[f32; 9],
    area: u8,
    threshold: u16,
) -> u32
    ensures { Answers
        (λ s. Rasterized (grid_of grid.now) (mesh corners.now (0 ∷ 1 ∷ 2 ∷ []) (area ∷ [])) threshold
        (store heads.old (slots free.old floors.old ceilings.old areas.old nexts.old) marks.old)
        (left s (store heads.new (slots free.new floors.new ceilings.new areas.new nexts.new) marks.new))) result said.new }
{
    let indices = [0u32, 1, 2];
    let triangle_areas = [area];
    let answer = rerecast::rasterize::rasterize_triangles(
        grid_of(grid),
        heads,
        free,
        floors,
        ceilings,
        areas,
        nexts,
        marks,
        corners,
        &indices,
        &triangle_areas,
        threshold,
    );
    tell(answer, said)
}
