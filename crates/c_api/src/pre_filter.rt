// The filters.
ghost use Rattle.grid.specs.Grid.{width, height};
ghost use Rattle.field.specs.Slots.{slots};
ghost use Rattle.field.specs.Store.{store, left};
ghost use Rattle.field.specs.Filters.{low_obstacles, ledges, low_ceilings, Filtered};
ghost use Rattle.c_api.specs.Words.{grid_of, Answers};

use crate::answers::{grid_of, tell};

#[unsafe(no_mangle)]
pub extern "C" fn lv_filter_low_hanging_walkable_obstacles(
    grid: &[f32; 8],
    said: &mut [u32; 4],
    heads: &[u32],
    free: &u32,
    floors: &[u16],
    ceilings: &[u16],
    areas: &mut [u8],
    nexts: &[u32],
    marks: &mut [u8],
    climb: u16,
) -> u32
    ensures { Answers
        (λ s. Filtered (grid_of grid.now) (low_obstacles climb) (store heads.now (slots free.now floors.now ceilings.now areas.old nexts.now) marks.old)
        (left s (store heads.now (slots free.now floors.now ceilings.now areas.new nexts.now) marks.new))) result said.new }
{
    let answer = rerecast::pre_filter::filter_low_hanging_walkable_obstacles(
        grid_of(grid),
        heads,
        free,
        floors,
        ceilings,
        areas,
        nexts,
        marks,
        climb,
    );
    tell(answer, said)
}

#[unsafe(no_mangle)]
pub extern "C" fn lv_filter_ledge_spans(
    grid: &[f32; 8],
    said: &mut [u32; 4],
    heads: &[u32],
    free: &u32,
    floors: &[u16],
    ceilings: &[u16],
    areas: &mut [u8],
    nexts: &[u32],
    marks: &mut [u8],
    walkable_height: u16,
    climb: u16,
) -> u32
    ensures { Answers
        (λ s. Filtered (grid_of grid.now) (ledges (width (grid_of grid.now)) (height (grid_of grid.now)) walkable_height climb)
        (store heads.now (slots free.now floors.now ceilings.now areas.old nexts.now) marks.old)
        (left s (store heads.now (slots free.now floors.now ceilings.now areas.new nexts.now) marks.new))) result said.new }
{
    let answer = rerecast::pre_filter::filter_ledge_spans(
        grid_of(grid),
        heads,
        free,
        floors,
        ceilings,
        areas,
        nexts,
        marks,
        walkable_height,
        climb,
    );
    tell(answer, said)
}

#[unsafe(no_mangle)]
pub extern "C" fn lv_filter_walkable_low_height_spans(
    grid: &[f32; 8],
    said: &mut [u32; 4],
    heads: &[u32],
    free: &u32,
    floors: &[u16],
    ceilings: &[u16],
    areas: &mut [u8],
    nexts: &[u32],
    marks: &mut [u8],
    walkable_height: u16,
) -> u32
    ensures { Answers
        (λ s. Filtered (grid_of grid.now) (low_ceilings walkable_height)
        (store heads.now (slots free.now floors.now ceilings.now areas.old nexts.now) marks.old)
        (left s (store heads.now (slots free.now floors.now ceilings.now areas.new nexts.now) marks.new))) result said.new }
{
    let answer = rerecast::pre_filter::filter_walkable_low_height_spans(
        grid_of(grid),
        heads,
        free,
        floors,
        ceilings,
        areas,
        nexts,
        marks,
        walkable_height,
    );
    tell(answer, said)
}
