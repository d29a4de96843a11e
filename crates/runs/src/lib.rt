#![tactic(auto)]
// What the programs of runs share: the grids and fields that they lend, with a method for each of the library's calls, and what they print of a field.
ghost use Rattle.std.specs.Prelude.{◌≡◌, [], ◌∷◌, replicate, MatchResult};
ghost use Rattle.grid.specs.declared.Corner.{Corner};
ghost use Rattle.grid.specs.Grid.{width, height};
ghost use Rattle.field.specs.Store.{left};
ghost use Rattle.field.specs.Calls.{made, Freshened, Added};
ghost use Rattle.field.specs.Meshes.{single, Rasterized};
ghost use Rattle.field.specs.Populate.{Populated};
ghost use Rattle.field.specs.Filters.{low_obstacles, ledges, low_ceilings, Filtered};
ghost use Rattle.field.specs.Compact.{outcome, Compacted};
ghost use Rattle.rerecast.specs.Answer.{refusal_says, said_of, told_of};
ghost use Rattle.replies.specs.Said.{Said};
ghost use Rattle.runs.specs.Store.{slots_of, unchained, lent, mesh_of, result_of, all_with, IsOf, Follows};

use field::{NONE, Span};
use grid::{Corner, Grid};
use rerecast::{Refusal, compact_heightfield, heightfield, pre_filter, rasterize};
use std::fmt;

// The number that the rules have for an answer.
pub fn number<T: Drop>(answer: Result<T, Refusal>) -> u32
    ensures { MatchResult answer (λ _. result ≡ 0) (λ r. result ≡ (refusal_says r).number) }
{
    match answer {
        Ok(_) => 0,
        Err(refusal) => refusal.number(),
    }
}

pub fn corner(x: f32, y: f32, z: f32) -> Corner
    ensures { result ≡ record { x = x; y = y; z = z } }
{
    Corner { x, y, z }
}

pub const ORIGIN: Corner = Corner {
    x: 0.0,
    y: 0.0,
    z: 0.0,
};

pub const UNIT: f32 = 1.0;

// A grid of unit cells, from the origin up to x, y and z.
pub fn cells(x: f32, y: f32, z: f32) -> Grid
    ensures least { result.min ≡ ORIGIN }
    ensures greatest { result.max ≡ record { x = x; y = y; z = z } }
    ensures unit { (result.cell_size ≡ UNIT) × (result.cell_height ≡ UNIT) }
{
    Grid {
        min: ORIGIN,
        max: corner(x, y, z),
        cell_size: UNIT,
        cell_height: UNIT,
    }
}

// Three numbers for each vertex, three vertex numbers for each triangle, and an area for each triangle.
#[derive(Clone, Copy)]
pub struct Mesh<'a> {
    pub vertices: &'a [f32],
    pub indices: &'a [u32],
    pub areas: &'a [u8],
}

// The entries of a compact result: for cells, and for as many open spaces as each of its slices has room for.
#[derive(Clone, Copy)]
pub struct Compact<const CELLS: usize, const YS: usize, const WORDS: usize, const AREAS: usize> {
    pub cell_indices: [u32; CELLS],
    pub cell_counts: [u8; CELLS],
    pub ys: [u16; YS],
    pub words: [u32; WORDS],
    pub areas: [u8; AREAS],
}

impl<const CELLS: usize, const YS: usize, const WORDS: usize, const AREAS: usize> Compact<
    CELLS,
    YS,
    WORDS,
    AREAS,
> {
    // A number stands in every entry.
    pub fn filled(with: u8) -> Self
        ensures { result_of result ≡ all_with with CELLS YS WORDS AREAS }
    {
        let word = u32::from(with);
        Compact {
            cell_indices: [word; CELLS],
            cell_counts: [with; CELLS],
            ys: [u16::from(with); YS],
            words: [word; WORDS],
            areas: [with; AREAS],
        }
    }
}

// What a slot holds, and the slot that follows it.
#[derive(Clone, Copy)]
pub struct Slot {
    pub floor: u16,
    pub ceiling: u16,
    pub area: u8,
    pub next: u32,
}

impl fmt::Display for Slot {
    fn fmt<W: fmt::Write>(&self, f: &mut fmt::Formatter<W>) -> fmt::Result {
        let Slot {
            floor,
            ceiling,
            area,
            next: _,
        } = *self;
        write!(f, " [{floor},{ceiling}] area {area}")
    }
}

// All that is lent for a field but the marks.
// Arrays side by side, and not spans in one, since the library is lent a store slice by slice, as C lends it.
#[derive(Clone, Copy, PartialEq, Eq)]
pub struct Store<const COLUMNS: usize, const SLOTS: usize> {
    pub heads: [u32; COLUMNS],
    pub free: u32,
    pub floors: [u16; SLOTS],
    pub ceilings: [u16; SLOTS],
    pub areas: [u8; SLOTS],
    pub nexts: [u32; SLOTS],
}

// A call that is lent a store, slice by slice.
macro_rules! lend {
    ($module:ident::$call:ident($store:ident, $grid:ident, $marks:ident, $($own:expr),+)) => {
        $module::$call(
            $grid,
            &mut $store.heads,
            &mut $store.free,
            &mut $store.floors,
            &mut $store.ceilings,
            &mut $store.areas,
            &mut $store.nexts,
            $marks,
            $($own),+
        )
    };
}

impl<const COLUMNS: usize, const SLOTS: usize> Store<COLUMNS, SLOTS> {
    // No head and no free slot. Built where it will lie, since the heads of the widest grid take half of the stack.
    #[inline(always)]
    pub fn empty() -> Self
        ensures heads { result.heads ≡ replicate COLUMNS NONE }
        ensures unchained { slots_of result ≡ unchained SLOTS }
    {
        Store {
            heads: [NONE; COLUMNS],
            free: NONE,
            floors: [0; SLOTS],
            ceilings: [0; SLOTS],
            areas: [0; SLOTS],
            nexts: [NONE; SLOTS],
        }
    }

    // A fresh field, where the store has room for the grid's.
    pub fn new(grid: Grid) -> Self
        ensures { (said : Said) × Freshened grid (replicate COLUMNS NONE) (unchained SLOTS) (made said result.heads (slots_of result)) }
    {
        let mut store = Self::empty();
        let _ = store.fresh(grid);
        store
    }

    pub fn fresh(&mut self, grid: Grid) -> Result<(), Refusal>
        ensures { Freshened grid self.old.heads (slots_of self.old) (made (said_of result) self.new.heads (slots_of self.new)) }
    {
        heightfield::fresh(
            grid,
            &mut self.heads,
            &mut self.free,
            &mut self.floors,
            &mut self.ceilings,
            &mut self.areas,
            &mut self.nexts,
        )
    }

    pub fn add_span(
        &mut self,
        grid: Grid,
        marks: &mut [u8],
        x: u32,
        z: u32,
        new: Span,
        threshold: u16,
    ) -> Result<(), Refusal>
        ensures { Added grid x z new threshold (lent self.old marks.old) (left (said_of result) (lent self.new marks.new)) }
    {
        lend!(heightfield::add_span(self, grid, marks, x, z, new, threshold))
    }

    pub fn rasterize_triangles(
        &mut self,
        grid: Grid,
        marks: &mut [u8],
        mesh: Mesh<'_>,
        threshold: u16,
    ) -> Result<(), Refusal>
        ensures { Rasterized grid (mesh_of mesh.entry) threshold (lent self.old marks.old) (left (said_of result) (lent self.new marks.new)) }
    {
        let Mesh {
            vertices,
            indices,
            areas,
        } = mesh;
        lend!(rasterize::rasterize_triangles(
            self, grid, marks, vertices, indices, areas, threshold
        ))
    }

    pub fn rasterize_triangle(
        &mut self,
        grid: Grid,
        marks: &mut [u8],
        corners: [Corner; 3],
        area: u8,
        threshold: u16,
    ) -> Result<(), Refusal>
        ensures { (a b c : Corner) → corners ≡ a ∷ b ∷ c ∷ []
            → Rasterized grid (single a b c area) threshold (lent self.old marks.old) (left (said_of result) (lent self.new marks.new)) }
    {
        let [a, b, c] = corners;
        lend!(rasterize::rasterize_triangle(self, grid, marks, a, b, c, area, threshold))
    }

    pub fn populate_from_trimesh(
        &mut self,
        grid: Grid,
        marks: &mut [u8],
        mesh: Mesh<'_>,
        walkable_height: u16,
        walkable_climb: u16,
    ) -> Result<(), Refusal>
        ensures { Populated grid (mesh_of mesh.entry) walkable_height walkable_climb (lent self.old marks.old) (left (said_of result) (lent self.new marks.new)) }
    {
        let Mesh {
            vertices,
            indices,
            areas,
        } = mesh;
        lend!(heightfield::populate_from_trimesh(
            self,
            grid,
            marks,
            vertices,
            indices,
            areas,
            walkable_height,
            walkable_climb
        ))
    }

    pub fn filter_low_hanging_walkable_obstacles(
        &mut self,
        grid: Grid,
        marks: &mut [u8],
        walkable_climb: u16,
    ) -> Result<(), Refusal>
        ensures { Filtered grid (low_obstacles walkable_climb) (lent self.old marks.old) (left (said_of result) (lent self.new marks.new)) }
    {
        lend!(pre_filter::filter_low_hanging_walkable_obstacles(self, grid, marks, walkable_climb))
    }

    pub fn filter_ledge_spans(
        &mut self,
        grid: Grid,
        marks: &mut [u8],
        walkable_height: u16,
        walkable_climb: u16,
    ) -> Result<(), Refusal>
        ensures { Filtered grid (ledges (width grid) (height grid) walkable_height walkable_climb) (lent self.old marks.old)
            (left (said_of result) (lent self.new marks.new)) }
    {
        lend!(pre_filter::filter_ledge_spans(self, grid, marks, walkable_height, walkable_climb))
    }

    pub fn filter_walkable_low_height_spans(
        &mut self,
        grid: Grid,
        marks: &mut [u8],
        walkable_height: u16,
    ) -> Result<(), Refusal>
        ensures { Filtered grid (low_ceilings walkable_height) (lent self.old marks.old) (left (said_of result) (lent self.new marks.new)) }
    {
        lend!(pre_filter::filter_walkable_low_height_spans(self, grid, marks, walkable_height))
    }

    pub fn into_compact<
        const CELLS: usize,
        const YS: usize,
        const WORDS: usize,
        const AREAS: usize,
    >(
        &self,
        grid: Grid,
        marks: &mut [u8],
        compact: &mut Compact<CELLS, YS, WORDS, AREAS>,
        walkable_height: u16,
        walkable_climb: u16,
    ) -> Result<f32, Refusal>
        ensures { Compacted grid walkable_height walkable_climb (lent self.now marks.old) (result_of compact.old)
            (outcome (told_of result) (lent self.now marks.new) (result_of compact.new)) }
    {
        compact_heightfield::into_compact(
            grid,
            &self.heads,
            &self.free,
            &self.floors,
            &self.ceilings,
            &self.areas,
            &self.nexts,
            marks,
            &mut compact.cell_indices,
            &mut compact.cell_counts,
            &mut compact.ys,
            &mut compact.words,
            &mut compact.areas,
            walkable_height,
            walkable_climb,
        )
    }

    // The spans from a head up.
    pub fn chain(&self, head: u32) -> Chain<'_>
        ensures from { result.head ≡ head }
        ensures along { IsOf self.now result }
    {
        Chain {
            floors: &self.floors,
            ceilings: &self.ceilings,
            areas: &self.areas,
            nexts: &self.nexts,
            head,
        }
    }
}

// What is left of a chain. A damaged one may run in a circle and have no end.
#[derive(Clone, Copy)]
pub struct Chain<'a> {
    pub floors: &'a [u16],
    pub ceilings: &'a [u16],
    pub areas: &'a [u8],
    pub nexts: &'a [u32],
    pub head: u32,
}

impl Iterator for Chain<'_> {
    type Item = Slot;

    ghost next_gives = { Follows };

    fn next(&mut self) -> Option<Slot> {
        let i = self.head as usize;
        let slot = Slot {
            floor: *self.floors.get(i)?,
            ceiling: *self.ceilings.get(i)?,
            area: *self.areas.get(i)?,
            next: *self.nexts.get(i)?,
        };
        self.head = slot.next;
        Some(slot)
    }
}

impl fmt::Display for Chain<'_> {
    fn fmt<W: fmt::Write>(&self, f: &mut fmt::Formatter<W>) -> fmt::Result {
        for slot in self.take(self.nexts.len()) {
            write!(f, "{slot}")?;
        }
        Ok(())
    }
}
