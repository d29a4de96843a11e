// The compact result.
ghost use Rattle.field.specs.Slots.{slots};
ghost use Rattle.field.specs.Store.{store};
ghost use Rattle.field.specs.Compact.{rows, result_of, outcome, Compacted};
ghost use Rattle.c_api.specs.Words.{grid_of, Answers};

use crate::answers::{grid_of, tell_top};

#[unsafe(no_mangle)]
pub extern "C" fn lv_into_compact(
    grid: &[f32; 8],
    said: &mut [u32; 4],
    heads: &[u32],
    free: &u32,
    floors: &[u16],
    ceilings: &[u16],
    areas: &[u8],
    nexts: &[u32],
    marks: &mut [u8],
    cell_indices: &mut [u32],
    cell_counts: &mut [u8],
    ys: &mut [u16],
    data: &mut [u32],
    span_areas: &mut [u8],
    walkable_height: u16,
    climb: u16,
) -> u32
    ensures { Answers
        (λ s. Compacted (grid_of grid.now) walkable_height climb (store heads.now (slots free.now floors.now ceilings.now areas.now nexts.now) marks.old)
        (result_of cell_indices.old cell_counts.old (rows ys.old «data».old span_areas.old))
        (outcome s (store heads.now (slots free.now floors.now ceilings.now areas.now nexts.now) marks.new)
        (result_of cell_indices.new cell_counts.new (rows ys.new «data».new span_areas.new)))) result said.new }
{
    let answer = rerecast::compact_heightfield::into_compact(
        grid_of(grid),
        heads,
        free,
        floors,
        ceilings,
        areas,
        nexts,
        marks,
        cell_indices,
        cell_counts,
        ys,
        data,
        span_areas,
        walkable_height,
        climb,
    );
    tell_top(answer, said)
}
