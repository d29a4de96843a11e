// The filter for ledges on a sound field: which spans lie at a ledge, found column by column from the spans beside.
ghost use Rattle.std.specs.Prelude.{◌≡◌, cond, List, [], map, ℕ, ◌+◌, ◌*◌, ◌≤◌, ◌<◌, length, get_or};
ghost use Rattle.field.specs.declared.Span.{Span};
ghost use Rattle.field.specs.Slots.{span_at};
ghost use Rattle.field.specs.Field.{Field, spans, Holds, Held};
ghost use Rattle.field.specs.Inner.{Chain, Distinct};
ghost use Rattle.field.specs.Marks.{Climbs};
ghost use Rattle.field.specs.Beside.{beside};
ghost use Rattle.field.specs.LedgeTest.{seen, looked, looked_at, tells, ledge};
ghost use Rattle.field.specs.FilterCode.{roof_at, around, greatest, hollow_of, Inside, Cursor};
ghost use Rattle.field.specs.Filters.{ruled, assign, firm, ledges};
ghost use Rattle.rerecast.specs.Lent.{slots_in, contents_in, EvenSlots};
ghost use Rattle.rerecast.specs.PreFilter.{stand_of, Sees, reach_of, sides_of, Serve, AreCursors, Under, AllUnder, AllSlots};

use crate::lent::Columns;
use crate::places::{Cell, next_cell, on_rim};
use crate::pre_filter::{change_byte, has_room, roof_of, within};
use field::NONE;
use grid::Size;

// What an agent needs and can do: the walkable height and the walkable climb.
#[derive(Clone, Copy)]
pub(crate) struct Agent {
    pub height: u16,
    pub climb: u16,
}

// Where an agent stands: the ceiling of a span and the floor above it.
#[derive(Clone, Copy)]
struct Stand {
    top: u16,
    roof: u16,
    agent: Agent,
}

// The least and the greatest ceiling that a look at neighbour spans has found to be stepped to.
#[derive(Clone, Copy)]
struct Reach {
    low: u16,
    high: u16,
}

// A slot in each column beside: nothing below it can be stepped to any more.
#[derive(Clone, Copy)]
struct Sides {
    west: u32,
    north: u32,
    east: u32,
    south: u32,
}

// A span's area afterwards, and how far the slots beside have moved up.
#[derive(Clone, Copy)]
struct Judged {
    area: u8,
    sides: Sides,
}

// One neighbour span more: its ceiling, and the floor above it. Nothing is left where it is a drop. No floor comes here that is too low, nor a ceiling that
// is too high, so only the room between the two is tested.
fn see(st: Stand, ceiling: u16, floor: u16, reach: Reach) -> Option<Reach>
    requires { (st.top + st.agent.height ≤ st.roof) × (st.top + st.agent.height ≤ floor) × (ceiling + st.agent.height ≤ st.roof) }
    ensures { Sees result (seen (stand_of st) ceiling floor (reach_of reach)) }
{
    if !has_room(ceiling, st.agent.height, floor) {
        return Some(reach);
    }
    if !within(st.top, ceiling, st.agent.climb) {
        return None;
    }
    if !within(ceiling, st.top, st.agent.climb) {
        return Some(reach);
    }
    Some(Reach {
        low: reach.low.min(ceiling),
        high: reach.high.max(ceiling),
    })
}

// The neighbour spans from slot `s` up. A drop ends the look, and so does a span that is too high: those above it are too.
fn look(columns: &Columns<'_>, s: u32, st: Stand, start: Reach) -> Option<Reach>
    requires even { EvenSlots columns.now }
    requires is_chain { (ss : List ℕ) × (Chain columns.now.nexts.now s ss × Climbs columns.now.floors.now columns.now.ceilings.now 0 ss) }
    requires height_bound { (st.top + st.agent.height ≤ st.roof) × Under columns.now (st.top + st.agent.height) s }
    ensures { (areas ss : List ℕ) → Chain columns.now.nexts.now s ss
        → Sees result (looked (stand_of st) (reach_of start) (map (span_at (contents_in columns.now areas)) ss)) }
{
    let mut at = s;
    // apart, since a `Reach` carried whole from step to step is packed and unpacked at each
    let mut low = start.low;
    let mut high = start.high;
    while at != NONE {
        let i = at as usize;
        let ceiling = columns.ceilings[i];
        if !has_room(ceiling, st.agent.height, st.roof) {
            break;
        }
        let next = columns.nexts[i];
        let floor = roof_of(columns.floors, next);
        let Some(Reach { low: a, high: b }) = see(st, ceiling, floor, Reach { low, high }) else {
            return None;
        };
        low = a;
        high = b;
        at = next;
    }
    Some(Reach { low, high })
}

// From slot `s` up, the first under a floor of at least `need`.
fn skip(columns: &Columns<'_>, s: u32, need: u32) -> u32
    requires even { length columns.now.floors.now ≡ length columns.now.nexts.now }
    requires is_chain { (ss : List ℕ) × Chain columns.now.nexts.now s ss }
    ensures keeps_cursor { (areas : List ℕ) (whole : List Span) → Cursor (contents_in columns.now areas) columns.now.nexts.now need whole s
        → Cursor (contents_in columns.now areas) columns.now.nexts.now need whole result }
    ensures under { Under columns.now need result }
{
    let mut at = s;
    while at != NONE {
        let next = columns.nexts[at as usize];
        if need <= u32::from(roof_of(columns.floors, next)) {
            break;
        }
        at = next;
    }
    at
}

// The slots beside, each moved up to the first under a floor of at least `need`.
fn follow(columns: &Columns<'_>, sides: Sides, need: u32) -> Sides
    requires even { length columns.now.floors.now ≡ length columns.now.nexts.now }
    requires are_cursors { AreCursors columns.now need sides }
    ensures keeps_cursors { (areas : List ℕ) (at : ℕ → List Span) (w i : ℕ)
        → Serve columns.now areas need at w i sides → Serve columns.now areas need at w i result }
    ensures all_under { AllUnder columns.now need result }
{
    Sides {
        west: skip(columns, sides.west, need),
        north: skip(columns, sides.north, need),
        east: skip(columns, sides.east, need),
        south: skip(columns, sides.south, need),
    }
}

// What can be stepped to of the spans from the slots beside up, where none of them is a drop.
fn look_around(columns: &Columns<'_>, sides: Sides, st: Stand) -> Option<Reach>
    requires even { EvenSlots columns.now }
    requires are_cursors { AreCursors columns.now (st.top + st.agent.height) sides }
    requires height_bound { (st.top + st.agent.height ≤ st.roof) × AllUnder columns.now (st.top + st.agent.height) sides }
    ensures { (areas : List ℕ) (at : ℕ → List Span) (w i : ℕ)
        → Serve columns.now areas (st.top + st.agent.height) at w i sides
        → Sees result (looked_at (stand_of st) at (around w i)) }
{
    let start = Reach {
        low: st.top,
        high: st.top,
    };
    // apart at each step, as in `look`: with `?` the filter takes a tenth more instructions
    let Some(Reach { low, high }) = look(columns, sides.west, st, start) else {
        return None;
    };
    let Some(Reach { low, high }) = look(columns, sides.north, st, Reach { low, high }) else {
        return None;
    };
    let Some(Reach { low, high }) = look(columns, sides.east, st, Reach { low, high }) else {
        return None;
    };
    look(columns, sides.south, st, Reach { low, high })
}

// Whether the spans from the slots beside up show a ledge.
fn looks_steep(columns: &Columns<'_>, sides: Sides, st: Stand) -> bool
    requires even { EvenSlots columns.now }
    requires are_cursors { AreCursors columns.now (st.top + st.agent.height) sides }
    requires height_bound { (st.top + st.agent.height ≤ st.roof) × AllUnder columns.now (st.top + st.agent.height) sides }
    ensures { (areas : List ℕ) (at : ℕ → List Span) (w i : ℕ)
        → Serve columns.now areas (st.top + st.agent.height) at w i sides
        → result ≡ tells (stand_of st) (looked_at (stand_of st) at (around w i)) }
{
    match look_around(columns, sides, st) {
        Some(reach) => !within(reach.high, reach.low, st.agent.climb),
        None => true,
    }
}

// A span's area afterwards, where `hollow` is the highest of the lowest floors beside.
fn judge(columns: &Columns<'_>, sides: Sides, hollow: u16, st: Stand, area: u8) -> Judged
    requires even { EvenSlots columns.now }
    requires are_cursors { AreCursors columns.now (st.top + st.agent.height) sides }
    ensures keeps_cursors { (areas : List ℕ) (at : ℕ → List Span) (w i : ℕ)
        → Serve columns.now areas (st.top + st.agent.height) at w i sides → Serve columns.now areas (st.top + st.agent.height) at w i result.sides }
    ensures judged { (areas : List ℕ) (at : ℕ → List Span) (w i : ℕ)
        → Serve columns.now areas (st.top + st.agent.height) at w i sides → Inside (around w i) → hollow ≡ hollow_of at (around w i)
        → result.area ≡ cond (ledge (stand_of st) at (around w i)) 0 area }
{
    let need = u32::from(st.top) + u32::from(st.agent.height);
    if area == 0 {
        return Judged { area: 0, sides };
    }
    if u32::from(st.roof) < need {
        return Judged { area, sides };
    }
    if need <= u32::from(hollow) {
        return Judged { area: 0, sides };
    }
    let sides = follow(columns, sides, need);
    if looks_steep(columns, sides, st) {
        return Judged { area: 0, sides };
    }
    Judged { area, sides }
}

// The lowest slots of the columns beside a column that is not at the rim.
fn sides_of(heads: &[u32], width: usize, column: usize) -> Sides
    requires { (0 < column) × (width ≤ column) × (column + width < length heads.now) × (column + 1 < length heads.now) }
    ensures { sides_of result ≡ map (λ k. get_or heads.now k 0) (around width column) }
{
    Sides {
        west: heads[column - 1],
        north: heads[column + width],
        east: heads[column + 1],
        south: heads[column - width],
    }
}

// The highest of the floors of the slots beside.
fn hollow_of(floors: &[u16], sides: Sides) -> u16
    requires { AllSlots floors.now sides }
    ensures { result ≡ greatest (map (roof_at floors.now) (sides_of sides)) }
{
    let a = roof_of(floors, sides.west).max(roof_of(floors, sides.north));
    let b = roof_of(floors, sides.east).max(roof_of(floors, sides.south));
    a.max(b)
}

// The filter on a column that is not at the rim.
fn clear_inner(columns: &Columns<'_>, areas: &mut [u8], width: usize, column: usize, agent: Agent)
    requires inside { (0 < column) × (width ≤ column) × (column + width < length columns.now.heads.now) × (column + 1 < length columns.now.heads.now)
        × (length columns.now.heads.now ≤ 1048576) }
    requires even { length areas.old ≡ length columns.now.nexts.now }
    requires held { (areas₀ : List ℕ) × Held columns.now.heads.now (slots_in columns.now areas₀) }
    ensures { (areas₀ : List ℕ) (f : Field) → Holds columns.now.heads.now (slots_in columns.now areas₀) f → (ss : List ℕ)
        → Chain columns.now.nexts.now (get_or columns.now.heads.now column 0) ss
        → areas.new
        ≡ assign areas.old ss
        (ruled (λ below s above. firm agent.height agent.climb (spans f) (around width column) s above) []
        (map (span_at (contents_in columns.now areas.old)) ss)) }
{
    let mut at = columns.heads[column];
    let mut sides = sides_of(columns.heads, width, column);
    let hollow = hollow_of(columns.floors, sides);
    while at != NONE {
        let i = at as usize;
        let next = columns.nexts[i];
        let roof = roof_of(columns.floors, next);
        let st = Stand {
            top: columns.ceilings[i],
            roof,
            agent,
        };
        let area = areas[i];
        let judged = judge(columns, sides, hollow, st, area);
        change_byte(areas, i, area, judged.area);
        sides = judged.sides;
        at = next;
    }
}

// The filter on a column at the rim, where every span is at a ledge.
fn clear_all(columns: &Columns<'_>, areas: &mut [u8], head: u32)
    requires even { length areas.old ≡ length columns.now.nexts.now }
    requires is_chain { (ss : List ℕ) × (Chain columns.now.nexts.now head ss × Distinct ss) }
    ensures { (ss : List ℕ) → Chain columns.now.nexts.now head ss
        → areas.new ≡ assign areas.old ss (ruled (λ below s above. 0) [] (map (span_at (contents_in columns.now areas.old)) ss)) }
{
    let mut at = head;
    while at != NONE {
        let i = at as usize;
        areas[i] = 0;
        at = columns.nexts[i];
    }
}

// The filter on one column, which is at place `c`. Many are empty, and in an empty one there is nothing to look for.
fn clear_column(
    columns: &Columns<'_>,
    areas: &mut [u8],
    size: Size,
    c: Cell,
    column: usize,
    agent: Agent,
)
    requires on_grid { (c.x < size.width) × (c.z < size.height) × (c.x + c.z * size.width ≡ column) × (column < length columns.now.heads.now)
        × (size.width * size.height ≡ length columns.now.heads.now) }
    requires even { length areas.old ≡ length columns.now.nexts.now }
    requires held { (areas₀ : List ℕ) × Held columns.now.heads.now (slots_in columns.now areas₀) }
    ensures { (areas₀ : List ℕ) (f : Field) → Holds columns.now.heads.now (slots_in columns.now areas₀) f → (ss : List ℕ)
        → Chain columns.now.nexts.now (get_or columns.now.heads.now column 0) ss
        → areas.new
        ≡ assign areas.old ss
        (ruled (λ below s above. firm agent.height agent.climb (spans f) (beside size.width size.height column) s above) []
        (map (span_at (contents_in columns.now areas.old)) ss)) }
{
    let head = columns.heads[column];
    if head == NONE {
        return;
    }
    if on_rim(size, c) {
        clear_all(columns, areas, head);
    } else {
        clear_inner(columns, areas, size.width as usize, column, agent);
    }
}

// The filter on a sound field. The place of a column is kept beside its number, since to divide for it would cost each empty column more.
pub(crate) fn clear_columns(columns: &Columns<'_>, areas: &mut [u8], size: Size, agent: Agent)
    requires all_columns { size.width * size.height ≡ length columns.now.heads.now }
    requires held { Held columns.now.heads.now (slots_in columns.now areas.old) }
    ensures { (f : Field) → Holds columns.now.heads.now (slots_in columns.now areas.old) f
        → Holds columns.now.heads.now (slots_in columns.now areas.new) (ledges size.width size.height agent.height agent.climb f) }
{
    let mut c = Cell { x: 0, z: 0 };
    for column in 0..size.columns() {
        clear_column(columns, areas, size, c, column, agent);
        c = next_cell(size, c);
    }
}
