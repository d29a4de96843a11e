// The links between open spaces side by side: to which layer of the cell beside each leads, and the word that holds all four.
ghost use Rattle.std.specs.Prelude.{◌≡◌, cond, ◌+◌, ◌-◌, ◌*◌, ◌≤◌, ◌<◌, min, max, length, get_or};
ghost use mathlib.Core.List.{List, [], map, foldl};
ghost use Rattle.std.proofs.lemmas.List.Edits.{sets};
ghost use Rattle.field.specs.Open.{Open, space};
ghost use Rattle.field.specs.Links.{passes, largest, link, missed, around, word_of, missed_of, words, largest_missed};
ghost use Rattle.field.specs.Rowing.{shown, Climbs, past, AllBehind, NonePasses};
ghost use Rattle.rerecast.specs.Lent.{compact_of, SameCompact};
ghost use Rattle.rerecast.specs.Compacting.{layers_of, Lies, Within, Left, AllLeft, Looked, ShownIn, linked};

use crate::lent::Compact;
use crate::pre_filter::within;
use crate::sides::{Side, around_column};
use compact_span::CompactSpan;
use grid::Size;

// An open space, and what an agent there needs: the walkable height and the climb.
#[derive(Clone, Copy)]
struct Post {
    y: u16,
    height: u8,
    tall: u16,
    climb: u16,
}

// The link in one direction as the word holds it, the layer that it misses, and the layer that was come to: those below it are out of reach for the rest
// of the column.
#[derive(Clone, Copy)]
struct Found {
    layer: u8,
    missed: u8,
    from: u8,
}

// An open space's word, the largest layer that its links miss, and by direction how far the layers of the cell beside are out of reach for the rest of the
// column. A column's open spaces are linked from the lowest up, so what one of them has left behind the next need not look at, and the links of a column
// are linear in floors.
#[derive(Clone, Copy)]
struct Bound {
    word: u32,
    missed: u8,
    cursors: [u8; 4],
}

// The top of the open space of `height` above `y`.
fn top_of(y: u16, height: u8) -> u32
    ensures { result ≡ y + height }
{
    u32::from(y) + u32::from(height)
}

// Whether an agent passes to an open space beside.
fn can_pass(q: Post, y: u16, height: u8) -> bool
    ensures { result ≡ passes q.tall q.climb (space q.y q.height 0) (space y height 0) }
{
    let bottom = u32::from(q.y.max(y)) + u32::from(q.tall);
    let top = top_of(q.y, q.height).min(top_of(y, height));
    bottom <= top && within(y, q.y, q.climb) && within(q.y, y, q.climb)
}

// Whether an agent passes to no open space beside that starts at `y` or above.
fn is_past(q: Post, y: u16) -> bool
    ensures { result ≡ past q.tall q.climb (space q.y q.height 0) y }
{
    let bottom = u32::from(q.y.max(y)) + u32::from(q.tall);
    top_of(q.y, q.height) < bottom || !within(y, q.y, q.climb)
}

// How far a look through the layers of a cell went: to layer `at`, which an agent passes to, or beyond which it passes to none. Both ways the next look
// goes on from there, so it is no `Option`.
#[derive(Clone, Copy)]
struct Look {
    at: u8,
    passes: bool,
}

// Looks through `n` layers from place `first` on, from layer `from` up, to the first that an agent passes to or that is past.
fn look_up(compact: &Compact<'_>, side: Side, from: u8, q: Post) -> Look
    requires lies { Lies compact.now.ys.now compact.now.words.now side }
    requires left { Left q.tall q.climb q.y compact.now.ys.now compact.now.words.now side from }
    ensures { Looked q.tall q.climb (space q.y q.height 0) compact.now.ys.now compact.now.words.now side.first side.count result }
{
    for l in from..side.count {
        let k = side.first + l as usize;
        let y = compact.ys[k];
        if is_past(q, y) {
            return Look {
                at: l,
                passes: false,
            };
        }
        if can_pass(q, y, CompactSpan::height_in(compact.words[k])) {
            return Look {
                at: l,
                passes: true,
            };
        }
    }
    Look {
        at: side.count,
        passes: false,
    }
}

// The largest of the layers from 63 up that an agent passes to, or 0. None below `from` is one.
fn largest_layer(compact: &Compact<'_>, side: Side, from: u8, q: Post) -> u8
    requires lies { (63 ≤ side.count) × (from ≤ side.count) × Lies compact.now.ys.now compact.now.words.now side }
    requires none_passes { NonePasses compact.now.ys.now compact.now.words.now side.first (passes q.tall q.climb (space q.y q.height 0)) 0 from }
    ensures { result ≡ largest (passes q.tall q.climb (space q.y q.height 0)) 0 63 (shown compact.now.ys.now compact.now.words.now (side.first + 63) (side.count - 63)) }
{
    let mut best: u8 = 0;
    for l in from.max(63)..side.count {
        let k = side.first + l as usize;
        let y = compact.ys[k];
        if is_past(q, y) {
            return best;
        }
        if can_pass(q, y, CompactSpan::height_in(compact.words[k])) {
            best = l;
        }
    }
    best
}

// The link of an open space to a cell beside. The layers below `from` are out of reach.
fn link_to(compact: &Compact<'_>, side: Side, from: u8, q: Post) -> Found
    requires lies { Lies compact.now.ys.now compact.now.words.now side }
    requires left { Left q.tall q.climb q.y compact.now.ys.now compact.now.words.now side from }
    ensures { (result.layer ≡ link (passes q.tall q.climb (space q.y q.height 0)) (shown compact.now.ys.now compact.now.words.now side.first side.count))
        × (result.missed ≡ missed (passes q.tall q.climb (space q.y q.height 0)) (shown compact.now.ys.now compact.now.words.now side.first side.count))
        × Left q.tall q.climb q.y compact.now.ys.now compact.now.words.now side result.from }
{
    let look = look_up(compact, side, from, q);
    let from = look.at;
    if !look.passes {
        return Found {
            layer: CompactSpan::NOT_CONNECTED,
            missed: 0,
            from,
        };
    }
    // a link goes to layer 61 at most
    if from < 62 {
        return Found {
            layer: from,
            missed: 0,
            from,
        };
    }
    Found {
        layer: CompactSpan::NOT_CONNECTED,
        missed: largest_layer(compact, side, from, q),
        from,
    }
}

// The word of an open space with its links to the cells beside.
fn bind(compact: &Compact<'_>, sides: &[Side; 4], cursors: &[u8; 4], q: Post) -> Bound
    requires within { (length sides.now ≡ 4) × Within compact.now.ys.now compact.now.words.now sides.now }
    requires left { AllLeft q.tall q.climb q.y compact.now.ys.now compact.now.words.now sides.now cursors.now }
    ensures { (result.word ≡ word_of (passes q.tall q.climb) (layers_of compact.now.ys.now compact.now.words.now sides.now) (space q.y q.height 0))
        × (result.missed ≡ missed_of (passes q.tall q.climb) (layers_of compact.now.ys.now compact.now.words.now sides.now) (space q.y q.height 0))
        × AllLeft q.tall q.climb q.y compact.now.ys.now compact.now.words.now sides.now result.cursors }
{
    let a = link_to(compact, sides[0], cursors[0], q);
    let b = link_to(compact, sides[1], cursors[1], q);
    let c = link_to(compact, sides[2], cursors[2], q);
    let d = link_to(compact, sides[3], cursors[3], q);
    Bound {
        word: CompactSpan::with_links(q.height, [a.layer, b.layer, c.layer, d.layer]),
        missed: a.missed.max(b.missed).max(c.missed).max(d.missed),
        cursors: [a.from, b.from, c.from, d.from],
    }
}

// Links the open spaces of a column to the cells beside it. Answers the largest layer missed so far.
fn link_spans(
    compact: &mut Compact<'_>,
    size: Size,
    column: usize,
    tall: u16,
    climb: u16,
    missed: u8,
) -> u8
    requires on_grid { column < size.width * size.height }
    requires cells_there { (cs : List (List Open)) × (length cs ≡ size.width * size.height) × ShownIn cs (compact_of compact.old) }
    ensures linked { (cs : List (List Open)) → length cs ≡ size.width * size.height → ShownIn cs (compact_of compact.old)
        → (compact_of compact.new
        ≡ linked (compact_of compact.old) (get_or compact.old.indices.now column 0)
        (map (word_of (passes tall climb) (around size.width size.height cs column)) (get_or cs column [])))
        × (result ≡ foldl max missed (map (missed_of (passes tall climb) (around size.width size.height cs column)) (get_or cs column [])))
        × ShownIn cs (compact_of compact.new) }
    ensures same_compact { SameCompact compact.old compact.new }
{
    let sides = around_column(compact, size, column);
    let first = compact.indices[column] as usize;
    let mut most = missed;
    let mut cursors = [0u8; 4];
    for l in 0..compact.counts[column] {
        let k = first + l as usize;
        let q = Post {
            y: compact.ys[k],
            height: CompactSpan::height_in(compact.words[k]),
            tall,
            climb,
        };
        let bound = bind(compact, &sides, &cursors, q);
        compact.words[k] = bound.word;
        cursors = bound.cursors;
        most = most.max(bound.missed);
    }
    most
}

// The same, but for an empty column the cells beside it are not looked at: many columns are empty.
fn link_column(
    compact: &mut Compact<'_>,
    size: Size,
    column: usize,
    tall: u16,
    climb: u16,
    missed: u8,
) -> u8
    requires on_grid { column < size.width * size.height }
    requires cells_there { (cs : List (List Open)) × (length cs ≡ size.width * size.height) × ShownIn cs (compact_of compact.old) }
    ensures linked { (cs : List (List Open)) → length cs ≡ size.width * size.height → ShownIn cs (compact_of compact.old)
        → (compact_of compact.new
        ≡ linked (compact_of compact.old) (get_or compact.old.indices.now column 0)
        (map (word_of (passes tall climb) (around size.width size.height cs column)) (get_or cs column [])))
        × (result ≡ foldl max missed (map (missed_of (passes tall climb) (around size.width size.height cs column)) (get_or cs column [])))
        × ShownIn cs (compact_of compact.new) }
    ensures same_compact { SameCompact compact.old compact.new }
{
    if compact.counts[column] == 0 {
        missed
    } else {
        link_spans(compact, size, column, tall, climb, missed)
    }
}

// Links the open spaces of all columns. Answers the largest layer missed, or 0.
pub(crate) fn link_columns(compact: &mut Compact<'_>, size: Size, tall: u16, climb: u16) -> u8
    requires { (cs : List (List Open)) × (length cs ≡ size.width * size.height) × ShownIn cs (compact_of compact.old) }
    ensures linked { (cs : List (List Open)) → length cs ≡ size.width * size.height → ShownIn cs (compact_of compact.old)
        → (compact_of compact.new ≡ linked (compact_of compact.old) 0 (words (passes tall climb) size.width size.height cs))
        × (result ≡ largest_missed (passes tall climb) size.width size.height cs) }
    ensures same_compact { SameCompact compact.old compact.new }
{
    let mut most: u8 = 0;
    for column in 0..size.columns() {
        most = link_column(compact, size, column, tall, climb, most);
    }
    most
}
