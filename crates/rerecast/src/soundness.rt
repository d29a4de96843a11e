// The test that a store holds a sound field, whatever the lent slices contain: every slot that a chain comes to is marked, a slot met twice breaks the
// chain, and at the end the marked slots are counted.
ghost use Rattle.std.specs.Prelude.{◌≡◌, List, ℕ, ◌+◌, ◌≤◌, length, replicate};
ghost use Rattle.field.specs.Field.{Held};
ghost use Rattle.field.specs.Inner.{Says};
ghost use Rattle.field.specs.Marks.{Flags, unmarked, Climbs, Any, InTurn};
ghost use Rattle.rerecast.specs.Inner.{Marks, MarksAll};
ghost use Rattle.rerecast.specs.Lent.{slots_in, EvenSlots};

use crate::lent::Columns;
use field::NONE;

// Marks the slots of a column's chain, whose spans have to ascend. `seen` slots are marked already. Answers how many are by then, or nothing where the
// chain comes to no slot or to one that is marked already, or does not ascend.
fn mark_column(columns: &Columns<'_>, marks: &mut [u8], head: u32, seen: usize) -> Option<usize>
    requires even { EvenSlots columns.now }
    requires marks_len { (length marks.old ≡ length columns.now.nexts.now) × (length columns.now.nexts.now ≤ 1048576) }
    requires flags { Flags marks.old × (seen + unmarked marks.old ≡ length columns.now.nexts.now) }
    ensures { Marks result columns.now.nexts.now marks.old head (Climbs columns.now.floors.now columns.now.ceilings.now 0) marks.new }
{
    let mut at = head;
    let mut low: u32 = 0;
    let mut n = seen;
    while at != NONE {
        let i = at as usize;
        if i >= columns.nexts.len() || marks[i] != 0 {
            return None;
        }
        let floor = u32::from(columns.floors[i]);
        let ceiling = u32::from(columns.ceilings[i]);
        if floor < low || ceiling < floor {
            return None;
        }
        marks[i] = 1;
        low = ceiling + 1;
        n += 1;
        at = columns.nexts[i];
    }
    Some(n)
}

// Marks the slots from `from` on whose next is the slot after them, up to one that is marked already or has another next, and answers where that is. A
// fresh field's free slots follow one another: walked so, no step waits for the next that it loads.
fn mark_run(nexts: &[u32], marks: &mut [u8], from: usize) -> usize
    requires { (length marks.old ≡ length nexts.now) × (length nexts.now ≤ 1048576) }
    ensures { InTurn nexts.now marks.old from result marks.new }
{
    for i in from..nexts.len() {
        if nexts[i] != (i + 1) as u32 || marks[i] != 0 {
            return i;
        }
        marks[i] = 1;
    }
    from.max(nexts.len())
}

// Marks the slots of the free chain. `seen` slots are marked already. Answers as `mark_column` does.
fn mark_free(nexts: &[u32], marks: &mut [u8], head: u32, seen: usize) -> Option<usize>
    requires marks_len { (length marks.old ≡ length nexts.now) × (length nexts.now ≤ 1048576) }
    requires flags { Flags marks.old × (seen + unmarked marks.old ≡ length nexts.now) }
    ensures { Marks result nexts.now marks.old head Any marks.new }
{
    let mut at = head;
    let mut n = seen;
    while at != NONE {
        let from = at as usize;
        let i = mark_run(nexts, marks, from);
        if i >= nexts.len() || marks[i] != 0 {
            return None;
        }
        marks[i] = 1;
        n += i - from + 1;
        at = nexts[i];
    }
    Some(n)
}

// Marks the slots of all columns, on marks that are all 0.
fn mark_columns(columns: &Columns<'_>, marks: &mut [u8]) -> Option<usize>
    requires even { EvenSlots columns.now }
    requires no_marks { (length columns.now.nexts.now ≤ 1048576) × (marks.old ≡ replicate (length columns.now.nexts.now) 0) }
    ensures { MarksAll result columns.now.heads.now columns.now.floors.now columns.now.ceilings.now columns.now.nexts.now marks.new }
{
    // read once: the marks written could else be thought to change where the slices lie
    let own = *columns;
    let mut n: usize = 0;
    for head in own.heads {
        n = mark_column(&own, marks, *head, n)?;
    }
    Some(n)
}

// Whether the store holds a sound field, on marks that are all 0.
fn test_marked(columns: &Columns<'_>, marks: &mut [u8]) -> bool
    requires even { EvenSlots columns.now }
    requires no_marks { (length columns.now.nexts.now ≤ 1048576) × (marks.old ≡ replicate (length columns.now.nexts.now) 0) }
    ensures { (areas : List ℕ) → length areas ≡ length columns.now.nexts.now → Says result (Held columns.now.heads.now (slots_in columns.now areas)) }
{
    let Some(n) = mark_columns(columns, marks) else {
        return false;
    };
    let Some(m) = mark_free(columns.nexts, marks, columns.free, n) else {
        return false;
    };
    m == columns.nexts.len()
}

// Whether the store holds a sound field. The marks are all 0 afterwards. Not inlined, so that its loops have the registers to themselves.
#[inline(never)]
pub(crate) fn is_sound(columns: &Columns<'_>, marks: &mut [u8]) -> bool
    requires even { EvenSlots columns.now }
    requires marks_len { (length marks.old ≡ length columns.now.nexts.now) × (length columns.now.nexts.now ≤ 1048576) }
    ensures no_marks { marks.new ≡ replicate (length columns.now.nexts.now) 0 }
    ensures sound { (areas : List ℕ) → length areas ≡ length columns.now.nexts.now → Says result (Held columns.now.heads.now (slots_in columns.now areas)) }
{
    marks.fill(0);
    let sound = test_marked(columns, marks);
    marks.fill(0);
    sound
}
