// What `show` writes of a store and of a compact result.
use crate::compact::Compact;
use crate::store::{Slots, front};
use crate::writer::{Out, Text};

// A column's place in its row, and its row.
fn say_place(text: &mut Text<'_>, column: usize, width: u32) {
    let width = width as usize;
    text.say_number(column.checked_rem(width).unwrap_or(0) as u64);
    text.put(b' ');
    text.say_number(column.checked_div(width).unwrap_or(0) as u64);
    text.put(b':');
}

// ---- columns

// The columns that have spans. A sound store has no more spans than slots.
pub fn columns(out: &mut Out, width: u32, heads: &[u32], slots: Slots<'_>) {
    writeln!(out, "show columns");
    let mut text = Text::new(out);
    let mut left = slots.nexts.len();
    for (column, head) in heads.iter().enumerate() {
        if (*head as usize) < slots.nexts.len() {
            say_place(&mut text, column, width);
            left = say_chain(&mut text, *head, slots, left);
            text.put(b'\n');
        }
    }
    text.finish();
}

// Answers how many spans more may be written.
fn say_chain(text: &mut Text<'_>, head: u32, slots: Slots<'_>, left: usize) -> usize {
    let mut rest = left;
    for span in slots.chain(head, left) {
        if rest < left {
            text.put(b',');
        }
        text.put(b' ');
        text.say_number(span.floor as u64);
        text.put(b'-');
        text.say_number(span.ceiling as u64);
        text.put(b' ');
        text.say_number(span.area as u64);
        rest = rest.saturating_sub(1);
    }
    rest
}

// ---- raw

pub fn raw(out: &mut Out, heads: &[u32], free: u32, slots: Slots<'_>) {
    let mut text = Text::new(out);
    text.say(b"show raw\n");
    say_list(&mut text, b"heads", heads);
    say_list(&mut text, b"free", &[free]);
    say_list(&mut text, b"floors", slots.floors);
    say_list(&mut text, b"ceilings", slots.ceilings);
    say_list(&mut text, b"areas", slots.areas);
    say_list(&mut text, b"nexts", slots.nexts);
    text.finish();
}

fn say_list<T: Copy + Into<u64>>(text: &mut Text<'_>, name: &[u8], entries: &[T]) {
    text.say(name);
    for entry in entries {
        text.put(b' ');
        text.say_number((*entry).into());
    }
    text.put(b'\n');
}

// ---- the compact result

pub fn compact(out: &mut Out, compact: &Compact) {
    writeln!(out, "show compact");
    if let Some(made) = compact.made {
        let firsts = front(&compact.firsts, made.columns);
        let spans = say_cells(out, made.width, firsts, &compact.counts);
        let ys = front(&compact.ys, compact.lent.min(spans));
        say_spans(out, ys, &compact.links, &compact.areas);
    }
}

// Writes the cells, and answers how many spans they count.
fn say_cells(out: &mut Out, width: u32, firsts: &[u32], counts: &[u8]) -> usize {
    let mut text = Text::new(out);
    let mut spans = 0usize;
    for (column, (first, count)) in firsts.iter().zip(counts).enumerate() {
        text.say(b"cell ");
        say_place(&mut text, column, width);
        text.put(b' ');
        text.say_number(*first as u64);
        text.put(b' ');
        text.say_number(*count as u64);
        text.put(b'\n');
        spans = spans.saturating_add(*count as usize);
    }
    text.finish();
    spans
}

fn say_spans(out: &mut Out, ys: &[u16], links: &[u32], areas: &[u8]) {
    let mut text = Text::new(out);
    for (number, (y, (links, area))) in ys.iter().zip(links.iter().zip(areas)).enumerate() {
        text.say(b"span ");
        text.say_number(number as u64);
        text.say(b": ");
        text.say_number(*y as u64);
        text.put(b' ');
        text.say_bits(*links);
        text.put(b' ');
        text.say_number(*area as u64);
        text.put(b'\n');
    }
    text.finish();
}
