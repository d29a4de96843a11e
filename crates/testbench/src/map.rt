// A map of the field from above, a character for each column.
ghost use Rattle.std.specs.Prelude.{◌<◌};

use crate::store::Slots;
use crate::writer::Out;

// How many characters of a row go out together.
const PIECE: usize = 128;

// What is seen of a column from above.
#[derive(Clone, Copy)]
enum Seen {
    NoSpan,
    NoWalkable,
    // the ceiling of the topmost walkable span
    Top(u16),
}

impl Seen {
    // The chains of a store that is not sound may run in circles: no more spans are looked at than there are slots.
    fn of(head: u32, slots: Slots<'_>) -> Seen {
        // an empty column, of which a wide map has many, is told at once
        if head as usize >= slots.nexts.len() {
            return Seen::NoSpan;
        }
        let mut seen = Seen::NoSpan;
        for span in slots.chain(head, slots.nexts.len()) {
            seen = match seen {
                _ if span.area != 0 => Seen::Top(span.ceiling),
                Seen::NoSpan => Seen::NoWalkable,
                _ => seen,
            };
        }
        seen
    }

    fn top(self) -> Option<u16> {
        match self {
            Seen::Top(top) => Some(top),
            _ => None,
        }
    }
}

// The least and the greatest of the heights on the map.
#[derive(Clone, Copy)]
struct Range {
    low: u16,
    high: u16,
}

impl Range {
    fn of(heads: &[u32], slots: Slots<'_>) -> Option<Range> {
        let mut range: Option<Range> = None;
        for head in heads {
            if let Some(top) = Seen::of(*head, slots).top() {
                let Range { low, high } = range.unwrap_or(Range {
                    low: top,
                    high: top,
                });
                range = Some(Range {
                    low: low.min(top),
                    high: high.max(top),
                });
            }
        }
        range
    }

    // How many heights share a character, so that 36 are enough.
    fn step(self) -> u16
        ensures { 0 < result }
    {
        self.high.saturating_sub(self.low) / 36 + 1
    }

    // 0 to 9, then a to z.
    fn glyph(self, top: u16) -> u8 {
        let level = top.saturating_sub(self.low) / self.step();
        match level {
            0..=9 => b'0' + level as u8,
            10..=35 => b'a' - 10 + level as u8,
            _ => b'z',
        }
    }
}

pub fn map(out: &mut Out, width: u32, heads: &[u32], slots: Slots<'_>) {
    writeln!(out, "show map");
    let range = Range::of(heads, slots);
    say_rows(out, width, heads, slots, range);
    write!(out, ". no span, # no walkable span");
    if let Some(range) = range {
        let Range { low, high } = range;
        let step = range.step();
        write!(
            out,
            "; else the top of the highest walkable span, from 0 for {low} by {step} a character to {high}"
        );
    }
    writeln!(out);
}

// The rows, x from left to right, z downwards. A row's characters go out together, and a long row's in pieces.
fn say_rows(out: &mut Out, width: u32, heads: &[u32], slots: Slots<'_>, range: Option<Range>) {
    let width = (width as usize).max(1);
    for row in heads.chunks(width) {
        for piece in row.chunks(PIECE) {
            let mut glyphs = [b'#'; PIECE];
            for (glyph, head) in glyphs.iter_mut().zip(piece) {
                *glyph = glyph_of(*head, slots, range);
            }
            out.write_bytes(&glyphs[..piece.len().min(PIECE)]);
        }
        // a grid may have more columns than there are heads, and then its last row stops short
        if row.len() == width {
            out.write_bytes(b"\n");
        }
    }
}

fn glyph_of(head: u32, slots: Slots<'_>, range: Option<Range>) -> u8 {
    match (Seen::of(head, slots), range) {
        (Seen::Top(top), Some(range)) => range.glyph(top),
        (Seen::NoSpan, _) => b'.',
        _ => b'#',
    }
}
