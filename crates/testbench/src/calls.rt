// The calls of the library, on slices cut to what is lent.
use crate::commands::{Needs, Offer};
use crate::compact::Compact;
use crate::mesh::Mesh;
use crate::store::{Store, front, front_mut};
use grid::Grid;
use rerecast::{Refusal, compact_heightfield, heightfield, pre_filter};

pub fn fresh(grid: Grid, store: &mut Store) -> Result<(), Refusal> {
    let lent = store.lent;
    heightfield::fresh(
        grid,
        &mut store.heads,
        &mut store.free,
        front_mut(&mut store.floors, lent),
        front_mut(&mut store.ceilings, lent),
        front_mut(&mut store.areas, lent),
        front_mut(&mut store.nexts, lent),
    )
}

pub fn add(grid: Grid, store: &mut Store, offer: Offer) -> Result<(), Refusal> {
    let lent = store.lent;
    heightfield::add_span(
        grid,
        &mut store.heads,
        &mut store.free,
        front_mut(&mut store.floors, lent),
        front_mut(&mut store.ceilings, lent),
        front_mut(&mut store.areas, lent),
        front_mut(&mut store.nexts, lent),
        front_mut(&mut store.marks, lent),
        offer.x,
        offer.z,
        offer.span,
        offer.threshold,
    )
}

pub fn rasterize(
    grid: Grid,
    store: &mut Store,
    mesh: &Mesh,
    threshold: u16,
) -> Result<(), Refusal> {
    let lent = store.lent;
    rerecast::rasterize::rasterize_triangles(
        grid,
        &mut store.heads,
        &mut store.free,
        front_mut(&mut store.floors, lent),
        front_mut(&mut store.ceilings, lent),
        front_mut(&mut store.areas, lent),
        front_mut(&mut store.nexts, lent),
        front_mut(&mut store.marks, lent),
        &mesh.vertices,
        &mesh.indices,
        &mesh.areas,
        threshold,
    )
}

pub fn populate(grid: Grid, store: &mut Store, mesh: &Mesh, needs: Needs) -> Result<(), Refusal> {
    let lent = store.lent;
    heightfield::populate_from_trimesh(
        grid,
        &mut store.heads,
        &mut store.free,
        front_mut(&mut store.floors, lent),
        front_mut(&mut store.ceilings, lent),
        front_mut(&mut store.areas, lent),
        front_mut(&mut store.nexts, lent),
        front_mut(&mut store.marks, lent),
        &mesh.vertices,
        &mesh.indices,
        &mesh.areas,
        needs.height,
        needs.climb,
    )
}

pub fn low(grid: Grid, store: &mut Store, climb: u16) -> Result<(), Refusal> {
    let lent = store.lent;
    pre_filter::filter_low_hanging_walkable_obstacles(
        grid,
        &store.heads,
        &store.free,
        front(&store.floors, lent),
        front(&store.ceilings, lent),
        front_mut(&mut store.areas, lent),
        front(&store.nexts, lent),
        front_mut(&mut store.marks, lent),
        climb,
    )
}

pub fn ledges(grid: Grid, store: &mut Store, needs: Needs) -> Result<(), Refusal> {
    let lent = store.lent;
    pre_filter::filter_ledge_spans(
        grid,
        &store.heads,
        &store.free,
        front(&store.floors, lent),
        front(&store.ceilings, lent),
        front_mut(&mut store.areas, lent),
        front(&store.nexts, lent),
        front_mut(&mut store.marks, lent),
        needs.height,
        needs.climb,
    )
}

pub fn ceilings(grid: Grid, store: &mut Store, height: u16) -> Result<(), Refusal> {
    let lent = store.lent;
    pre_filter::filter_walkable_low_height_spans(
        grid,
        &store.heads,
        &store.free,
        front(&store.floors, lent),
        front(&store.ceilings, lent),
        front_mut(&mut store.areas, lent),
        front(&store.nexts, lent),
        front_mut(&mut store.marks, lent),
        height,
    )
}

pub fn compact(
    grid: Grid,
    store: &mut Store,
    compact: &mut Compact,
    needs: Needs,
) -> Result<f32, Refusal> {
    let lent = store.lent;
    let spans = compact.lent;
    compact_heightfield::into_compact(
        grid,
        &store.heads,
        &store.free,
        front(&store.floors, lent),
        front(&store.ceilings, lent),
        front(&store.areas, lent),
        front(&store.nexts, lent),
        front_mut(&mut store.marks, lent),
        &mut compact.firsts,
        &mut compact.counts,
        front_mut(&mut compact.ys, spans),
        front_mut(&mut compact.links, spans),
        front_mut(&mut compact.areas, spans),
        needs.height,
        needs.climb,
    )
}
