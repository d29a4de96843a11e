// The compact result of a field: the open spaces above its walkable spans, column by column, and the links between those of columns side by side.
ghost use Rattle.std.specs.Prelude.{◌≡◌, cond, ℕ, ◌+◌, ◌*◌, ◌≤◌, ◌<◌, length, get_or, take, replicate, eqb};
ghost use mathlib.Core.List.{List, map, flatten};
ghost use Rattle.field.specs.Slots.{none, contents, span_at, slots};
ghost use Rattle.field.specs.Field.{Field, Holds, Held};
ghost use Rattle.field.specs.Store.{store};
ghost use Rattle.field.specs.Inner.{Says, Chain};
ghost use Rattle.field.specs.Open.{open_above, opens, columns_of, cells};
ghost use Rattle.field.specs.Links.{passes, largest_missed};
ghost use Rattle.field.specs.Compact.{rows, result_of, Room, Few, complete, outcome, raised_top, complete_says, Compacts, Compacted};
ghost use Rattle.field.specs.Rowing.{Layable, Laid, Filled};
ghost use Rattle.rerecast.specs.Answer.{told_of};
ghost use Rattle.rerecast.specs.Lent.{slots_in, contents_in, compact_of, SameCompact, EvenSlots};
ghost use Rattle.rerecast.specs.Compacting.{Tallies, Placed, LaidIn};

use crate::Refusal;
use crate::admission::admit;
use crate::lent::{Columns, Compact};
use crate::links::link_columns;
use crate::pre_filter::roof_of;
use compact_cell::CompactCell;
use compact_span::CompactSpan;
use field::{NONE, Span};
use grid::{Grid, Size};

// ---- how many open spaces there are

// The number of walkable spans in the column that starts at `head`.
fn count_column(columns: &Columns<'_>, areas: &[u8], head: u32) -> usize
    requires even { length areas.now ≡ length columns.now.nexts.now }
    requires is_chain { (ss : List ℕ) × Chain columns.now.nexts.now head ss }
    ensures { (floors ceilings ss : List ℕ) → Chain columns.now.nexts.now head ss → result ≡ length (opens (map (span_at (contents floors ceilings areas.now)) ss)) }
{
    let mut at = head;
    let mut n: usize = 0;
    while at != NONE {
        let i = at as usize;
        if areas[i] != Span::NOT_WALKABLE {
            n += 1;
        }
        at = columns.nexts[i];
    }
    n
}

// The number of open spaces of all columns, unless some column has more than 255.
fn tally_columns(columns: &Columns<'_>, areas: &[u8]) -> Option<usize>
    requires few { length columns.now.heads.now ≤ 1048576 }
    requires held { (f : Field) × Holds columns.now.heads.now (slots_in columns.now areas.now) f }
    ensures { (f : Field) → Holds columns.now.heads.now (slots_in columns.now areas.now) f → Tallies result (cells (columns_of f)) }
{
    let mut total: usize = 0;
    for head in columns.heads {
        let n = count_column(columns, areas, *head);
        if (CompactCell::MAX_COUNT as usize) < n {
            return None;
        }
        total += n;
    }
    Some(total)
}

// ---- the open spaces stored

// Stores the open space above a span at place `k` and raises the count of its cell, if the span is walkable. Answers the next place.
fn place(compact: &mut Compact<'_>, column: usize, k: usize, span: Span, top: u16) -> usize
    requires room { Room (k + length (open_above span top)) (compact_of compact.old).rows }
    requires cell_there { (column < length compact.old.indices.now) × (column < length compact.old.counts.now)
        × (get_or compact.old.counts.now column 0 + length (open_above span top) ≤ 255) }
    ensures placed { Placed (compact_of compact.old) column k (open_above span top) result (compact_of compact.new) }
    ensures same_compact { SameCompact compact.old compact.new }
{
    if span.area == Span::NOT_WALKABLE {
        return k;
    }
    let s = CompactSpan::new(span.ceiling, CompactSpan::gap(span.ceiling, top));
    compact.ys[k] = s.y;
    compact.words[k] = s.data;
    compact.areas[k] = span.area;
    // No column is crowded by now, so the count has room. The cell is lent as the first of a slice, since two fields of a lent struct can't be lent at once.
    let index = [compact.indices[column]];
    let _raised = compact_cell::raise_at(&index, &mut compact.counts[column..], 0);
    k + 1
}

// Stores the open spaces of the column that starts at `head`, from place `start` on. Answers the place after them.
fn fill_column(
    columns: &Columns<'_>,
    areas: &[u8],
    compact: &mut Compact<'_>,
    head: u32,
    column: usize,
    start: usize,
) -> usize
    requires even { EvenSlots columns.now × (length areas.now ≡ length columns.now.nexts.now) × (column < length compact.old.indices.now) }
    requires layable { (ss : List ℕ)
        × (Chain columns.now.nexts.now head ss × Layable (contents_in columns.now areas.now) ss (compact_of compact.old).rows start compact.old.counts.now column) }
    ensures laid { (ss : List ℕ) → Chain columns.now.nexts.now head ss
        → LaidIn (contents_in columns.now areas.now) ss (compact_of compact.old) start column (compact_of compact.new) result }
    ensures same_compact { SameCompact compact.old compact.new }
{
    let mut at = head;
    let mut k = start;
    while at != NONE {
        let i = at as usize;
        let next = columns.nexts[i];
        let span = Span {
            floor: columns.floors[i],
            ceiling: columns.ceilings[i],
            area: areas[i],
        };
        k = place(compact, column, k, span, roof_of(columns.floors, next));
        at = next;
    }
    k
}

// The index of a column that has `count` open spaces, where `before` come before them.
fn index_of(before: usize, count: usize) -> u32
    requires { before < none }
    ensures { result ≡ cond (eqb count 0) 0 before }
{
    if count == 0 { 0 } else { before as u32 }
}

// Stores the cells and the open spaces of all columns.
fn fill_columns(columns: &Columns<'_>, areas: &[u8], compact: &mut Compact<'_>)
    requires cells_there { (length columns.now.heads.now ≤ 1048576) × (length columns.now.heads.now ≤ length compact.old.indices.now) × (length columns.now.heads.now ≤ length compact.old.counts.now) }
    requires held { (f : Field) × Holds columns.now.heads.now (slots_in columns.now areas.now) f × Few (cells (columns_of f))
        × Room (length (flatten (cells (columns_of f)))) (compact_of compact.old).rows }
    ensures filled { (f : Field) → Holds columns.now.heads.now (slots_in columns.now areas.now) f
        → Filled (columns_of f) (compact_of compact.old) (compact_of compact.new) }
    ensures same_compact { SameCompact compact.old compact.new }
{
    let mut k = 0;
    for (column, head) in columns.heads.iter().enumerate() {
        compact.counts[column] = 0;
        let end = fill_column(columns, areas, compact, *head, column, k);
        compact.indices[column] = index_of(k, end - k);
        k = end;
    }
}

// ---- the whole

// Stores and links the compact result of a field that is not crowded, in slices that have room. Answers the largest layer missed, or 0.
fn complete_columns(
    columns: &Columns<'_>,
    areas: &[u8],
    compact: &mut Compact<'_>,
    size: Size,
    tall: u16,
    climb: u16,
) -> u8
    requires cells_there { (length columns.now.heads.now ≡ size.width * size.height) × (length columns.now.heads.now ≤ length compact.old.indices.now) × (length columns.now.heads.now ≤ length compact.old.counts.now) }
    requires held { (f : Field) × Holds columns.now.heads.now (slots_in columns.now areas.now) f × Few (cells (columns_of f))
        × Room (length (flatten (cells (columns_of f)))) (compact_of compact.old).rows }
    ensures completed { (f : Field) → Holds columns.now.heads.now (slots_in columns.now areas.now) f
        → Room (length (flatten (cells (columns_of f)))) (compact_of compact.old).rows
        → (result ≡ largest_missed (passes tall climb) size.width size.height (cells (columns_of f)))
        × (compact_of compact.new ≡ complete (passes tall climb) size.width size.height (columns_of f) (compact_of compact.old)) }
    ensures same_compact { SameCompact compact.old compact.new }
{
    fill_columns(columns, areas, compact);
    link_columns(compact, size, tall, climb)
}

// Whether the lent result has room for `n` open spaces.
fn has_room(n: usize, compact: &Compact<'_>) -> bool
    ensures { Says result (Room n (compact_of compact.now).rows) }
{
    n <= compact.ys.len() && n <= compact.words.len() && n <= compact.areas.len()
}

// The answer for a complete result, whose box ends at `top`.
fn reply_of(layer: u8, top: f32) -> Result<f32, Refusal>
    ensures { told_of result ≡ complete_says layer top }
{
    if layer == 0 {
        Ok(top)
    } else {
        Err(Refusal::Layers(layer, top))
    }
}

// The greatest y of the reply's box.
fn raised_top(grid: Grid, walkable_height: u16) -> f32
    ensures { result ≡ raised_top grid walkable_height }
{
    grid.max.y + f32::from(walkable_height) * grid.cell_height
}

// The compact result of a field that is known to be sound.
fn compact_field(
    columns: &Columns<'_>,
    areas: &[u8],
    compact: &mut Compact<'_>,
    size: Size,
    top: f32,
    tall: u16,
    climb: u16,
) -> Result<f32, Refusal>
    requires cells_there { (size.width * size.height ≤ length columns.now.heads.now) × (size.width * size.height ≤ length compact.old.indices.now) × (size.width * size.height ≤ length compact.old.counts.now) }
    requires held { Held (take (size.width * size.height) columns.now.heads.now) (slots_in columns.now areas.now) }
    ensures compacts { (marks : List ℕ)
        → Compacts size.width size.height top tall climb (store columns.now.heads.now (slots_in columns.now areas.now) marks) (compact_of compact.old)
        (outcome (told_of result) (store columns.now.heads.now (slots_in columns.now areas.now) (replicate (length columns.now.nexts.now) 0))
        (compact_of compact.new)) }
    ensures same_compact { SameCompact compact.old compact.new }
{
    let held = Columns {
        heads: &columns.heads[..size.columns()],
        ..*columns
    };
    let Some(total) = tally_columns(&held, areas) else {
        return Err(Refusal::Crowded);
    };
    if !has_room(total, compact) {
        return Err(Refusal::SpansShort);
    }
    let layer = complete_columns(&held, areas, compact, size, tall, climb);
    reply_of(layer, top)
}

// The compact result of a field: the open spaces above its walkable spans, each with links to the columns beside. The field is only read.
// Lent slice by slice, as C lends it: see src/lent.rt.
pub fn into_compact(
    grid: Grid,
    heads: &[u32],
    free: &u32,
    floors: &[u16],
    ceilings: &[u16],
    areas: &[u8],
    nexts: &[u32],
    marks: &mut [u8],
    cell_indices: &mut [u32],
    cell_counts: &mut [u8],
    ys: &mut [u16],
    data: &mut [u32],
    span_areas: &mut [u8],
    walkable_height: u16,
    climb: u16,
) -> Result<f32, Refusal>
    ensures { Compacted grid walkable_height climb (store heads.now (slots free.now floors.now ceilings.now areas.now nexts.now) marks.old)
        (result_of cell_indices.old cell_counts.old (rows ys.old «data».old span_areas.old))
        (outcome (told_of result) (store heads.now (slots free.now floors.now ceilings.now areas.now nexts.now) marks.new)
        (result_of cell_indices.new cell_counts.new (rows ys.new «data».new span_areas.new))) }
{
    let columns = Columns {
        heads,
        free: *free,
        floors,
        ceilings,
        nexts,
    };
    let shortest = cell_indices.len().min(cell_counts.len());
    let size = admit(grid, &columns, areas, marks, shortest)?;
    let mut compact = Compact {
        indices: cell_indices,
        counts: cell_counts,
        ys,
        words: data,
        areas: span_areas,
    };
    let top = raised_top(grid, walkable_height);
    compact_field(
        &columns,
        areas,
        &mut compact,
        size,
        top,
        walkable_height,
        climb,
    )
}
