// The filters. They change the areas of spans in columns and nothing else: low obstacles become walkable, and ledges and spans under low ceilings do not
// stay so. Every area is found from the spans as they were before the filter.
ghost use Rattle.std.specs.Prelude.{◌≡◌, cond, List, [], map, ℕ, ◌+◌, ◌<◌, length, get_or, set, ltb, leb};
ghost use Rattle.field.specs.declared.Span.{Span};
ghost use Rattle.field.specs.Slots.{none, span_at, slots};
ghost use Rattle.field.specs.Field.{Field, Holds, Held};
ghost use Rattle.grid.specs.Grid.{width, height};
ghost use Rattle.field.specs.Store.{store, left};
ghost use Rattle.field.specs.Inner.{Chain, Distinct};
ghost use Rattle.field.specs.FilterCode.{Beneath, roof_at};
ghost use Rattle.field.specs.Filters.{ruled, assign, raised, low_obstacles, ledges, roomed, low_ceilings, Filtered};
ghost use Rattle.rerecast.specs.Answer.{said_of};
ghost use Rattle.rerecast.specs.Lent.{slots_in, contents_in, EvenSlots};

use crate::Refusal;
use crate::admission::admit;
use crate::ledges::{Agent, clear_columns};
use crate::lent::Columns;
use field::NONE;
use grid::Grid;

// The height at which a column ends, where no span is above.
pub const MAX_HEIGHTFIELD_HEIGHT: u16 = 65535;

// Puts a number where `old` stands. Most areas stay as they are, and then nothing is written.
pub(crate) fn change_byte(s: &mut [u8], i: usize, old: u8, new: u8)
    requires { (i < length s.old) × (get_or s.old i 0 ≡ old) }
    ensures { s.new ≡ set s.old i new }
{
    if new != old {
        s[i] = new;
    }
}

// The floor of a slot, or the open top where there is none.
pub(crate) fn roof_of(floors: &[u16], s: u32) -> u16
    requires { (s ≡ none → ⊥) → s < length floors.now }
    ensures { result ≡ roof_at floors.now s }
{
    if s == NONE {
        MAX_HEIGHTFIELD_HEIGHT
    } else {
        floors[s as usize]
    }
}

// Whether a height is at most another and a bit more.
pub(crate) fn within(a: u16, b: u16, more: u16) -> bool
    ensures { result ≡ leb a (b + more) }
{
    u32::from(a) <= u32::from(b) + u32::from(more)
}

// Whether there is at least a height between a bottom and a lid.
pub(crate) fn has_room(bottom: u16, height: u16, lid: u16) -> bool
    ensures { result ≡ leb (bottom + height) lid }
{
    u32::from(bottom) + u32::from(height) <= u32::from(lid)
}

// ---- low obstacles

// The area of a span afterwards, from its own ceiling and area and those of the span below it, `ground` being 0 where there is none.
fn raise(climb: u16, base: u16, ground: u8, ceiling: u16, area: u8) -> u8
    ensures { (floor : ℕ) (below : List Span) → Beneath base ground below
        → result ≡ raised climb below (record { floor = floor; ceiling = ceiling; area = area }) }
{
    if area != 0 {
        return area;
    }
    if ground == 0 {
        return 0;
    }
    if within(ceiling, base, climb) {
        return ground;
    }
    0
}

// The filter on the column that starts at `head`.
fn raise_column(columns: &Columns<'_>, areas: &mut [u8], head: u32, climb: u16)
    requires even { (length columns.now.ceilings.now ≡ length columns.now.nexts.now) × (length areas.old ≡ length columns.now.nexts.now) }
    requires is_chain { (ss : List ℕ) × (Chain columns.now.nexts.now head ss × Distinct ss) }
    ensures { (ss : List ℕ) → Chain columns.now.nexts.now head ss
        → areas.new ≡ assign areas.old ss (ruled (λ below s above. raised climb below s) [] (map (span_at (contents_in columns.now areas.old)) ss)) }
{
    let mut at = head;
    let mut base: u16 = 0;
    let mut ground: u8 = 0;
    while at != NONE {
        let i = at as usize;
        let ceiling = columns.ceilings[i];
        let area = areas[i];
        change_byte(areas, i, area, raise(climb, base, ground, ceiling, area));
        base = ceiling;
        ground = area;
        at = columns.nexts[i];
    }
}

// The filter on a sound field.
pub(crate) fn raise_columns(columns: &Columns<'_>, areas: &mut [u8], climb: u16)
    requires { Held columns.now.heads.now (slots_in columns.now areas.old) }
    ensures { (f : Field) → Holds columns.now.heads.now (slots_in columns.now areas.old) f
        → Holds columns.now.heads.now (slots_in columns.now areas.new) (low_obstacles climb f) }
{
    for head in columns.heads {
        raise_column(columns, areas, *head, climb);
    }
}

// Makes low obstacles walkable: an unwalkable span takes the area of a walkable one just below it.
// Lent slice by slice, as C lends it: see src/lent.rt.
pub fn filter_low_hanging_walkable_obstacles(
    grid: Grid,
    heads: &[u32],
    free: &u32,
    floors: &[u16],
    ceilings: &[u16],
    areas: &mut [u8],
    nexts: &[u32],
    marks: &mut [u8],
    walkable_climb: u16,
) -> Result<(), Refusal>
    ensures { Filtered grid (low_obstacles walkable_climb) (store heads.now (slots free.now floors.now ceilings.now areas.old nexts.now) marks.old)
        (left (said_of result) (store heads.now (slots free.now floors.now ceilings.now areas.new nexts.now) marks.new)) }
{
    let columns = Columns {
        heads,
        free: *free,
        floors,
        ceilings,
        nexts,
    };
    let size = admit(grid, &columns, areas, marks, heads.len())?;
    let held = Columns {
        heads: &heads[..size.columns()],
        ..columns
    };
    raise_columns(&held, areas, walkable_climb);
    Ok(())
}

// ---- ledges

// Makes the spans at a ledge unwalkable.
// Lent slice by slice, as C lends it: see src/lent.rt.
pub fn filter_ledge_spans(
    grid: Grid,
    heads: &[u32],
    free: &u32,
    floors: &[u16],
    ceilings: &[u16],
    areas: &mut [u8],
    nexts: &[u32],
    marks: &mut [u8],
    walkable_height: u16,
    walkable_climb: u16,
) -> Result<(), Refusal>
    ensures { Filtered grid (ledges (width grid) (height grid) walkable_height walkable_climb)
        (store heads.now (slots free.now floors.now ceilings.now areas.old nexts.now) marks.old)
        (left (said_of result) (store heads.now (slots free.now floors.now ceilings.now areas.new nexts.now) marks.new)) }
{
    let columns = Columns {
        heads,
        free: *free,
        floors,
        ceilings,
        nexts,
    };
    let size = admit(grid, &columns, areas, marks, heads.len())?;
    let held = Columns {
        heads: &heads[..size.columns()],
        ..columns
    };
    let agent = Agent {
        height: walkable_height,
        climb: walkable_climb,
    };
    clear_columns(&held, areas, size, agent);
    Ok(())
}

// ---- low ceilings

// The area of a span afterwards.
fn lower(height: u16, roof: u16, ceiling: u16, area: u8) -> u8
    ensures { result ≡ cond (ltb roof (ceiling + height)) 0 area }
{
    if has_room(ceiling, height, roof) {
        area
    } else {
        0
    }
}

// The filter on the column that starts at `head`.
fn lower_column(columns: &Columns<'_>, areas: &mut [u8], head: u32, height: u16)
    requires even { EvenSlots columns.now × (length areas.old ≡ length columns.now.nexts.now) }
    requires is_chain { (ss : List ℕ) × (Chain columns.now.nexts.now head ss × Distinct ss) }
    ensures { (ss : List ℕ) → Chain columns.now.nexts.now head ss
        → areas.new ≡ assign areas.old ss (ruled (λ below s above. roomed height s above) [] (map (span_at (contents_in columns.now areas.old)) ss)) }
{
    let mut at = head;
    while at != NONE {
        let i = at as usize;
        let next = columns.nexts[i];
        let roof = roof_of(columns.floors, next);
        areas[i] = lower(height, roof, columns.ceilings[i], areas[i]);
        at = next;
    }
}

// The filter on a sound field.
pub(crate) fn lower_columns(columns: &Columns<'_>, areas: &mut [u8], height: u16)
    requires { Held columns.now.heads.now (slots_in columns.now areas.old) }
    ensures { (f : Field) → Holds columns.now.heads.now (slots_in columns.now areas.old) f
        → Holds columns.now.heads.now (slots_in columns.now areas.new) (low_ceilings height f) }
{
    for head in columns.heads {
        lower_column(columns, areas, *head, height);
    }
}

// Makes the spans unwalkable that have too little room above them.
// Lent slice by slice, as C lends it: see src/lent.rt.
pub fn filter_walkable_low_height_spans(
    grid: Grid,
    heads: &[u32],
    free: &u32,
    floors: &[u16],
    ceilings: &[u16],
    areas: &mut [u8],
    nexts: &[u32],
    marks: &mut [u8],
    walkable_height: u16,
) -> Result<(), Refusal>
    ensures { Filtered grid (low_ceilings walkable_height) (store heads.now (slots free.now floors.now ceilings.now areas.old nexts.now) marks.old)
        (left (said_of result) (store heads.now (slots free.now floors.now ceilings.now areas.new nexts.now) marks.new)) }
{
    let columns = Columns {
        heads,
        free: *free,
        floors,
        ceilings,
        nexts,
    };
    let size = admit(grid, &columns, areas, marks, heads.len())?;
    let held = Columns {
        heads: &heads[..size.columns()],
        ..columns
    };
    lower_columns(&held, areas, walkable_height);
    Ok(())
}
