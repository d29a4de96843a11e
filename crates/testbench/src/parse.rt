// Reads a line: a command, and the words that it takes.
use crate::commands::{Call, Command, Damage, Entry, Name, Needs, Offer, Unread, View};
use crate::numbers::Number;
use crate::store::MOST_LENT;
use crate::words::Words;
use field::Span;
use grid::{Corner, Grid};
use std::mem;

// The command of a line without its comment, if there is one.
pub fn command<'a>(line: &'a [u8]) -> Result<Option<Command<'a>>, Unread> {
    let mut words = Words::of(line);
    let Some(word) = words.next() else {
        return Ok(None);
    };
    let Some(name) = Name::of(word) else {
        return Err(Unread::NoCommand);
    };
    match taken(name, &mut words) {
        Some(command) if words.next().is_none() => Ok(Some(command)),
        _ => Err(Unread::Misused(name)),
    }
}

fn number<T: Number>(words: &mut Words<'_>) -> Option<T> {
    T::read(words.next()?)
}

// A command with the words that it takes, if each is what it has to be.
fn taken<'a>(name: Name, words: &mut Words<'a>) -> Option<Command<'a>> {
    let command = match name {
        Name::Case => Command::Case(mem::take(words)),
        Name::Grid => Command::Grid(grid(words)?),
        Name::Slots => Command::Slots(count(words)?),
        Name::Spans => Command::Spans(count(words)?),
        Name::Fresh => Command::Call(Call::Fresh),
        Name::Add => Command::Call(Call::Add(offer(words)?)),
        Name::Vertex => Command::Vertex(three(words)?),
        Name::Area => Command::Area(number(words)?),
        Name::Face => Command::Face(three(words)?),
        Name::NoMesh => Command::NoMesh,
        Name::Rasterize => Command::Call(Call::Rasterize(number(words)?)),
        Name::Populate => Command::Call(Call::Populate(needs(words)?)),
        Name::Low => Command::Call(Call::Low(number(words)?)),
        Name::Ledges => Command::Call(Call::Ledges(needs(words)?)),
        Name::Ceilings => Command::Call(Call::Ceilings(number(words)?)),
        Name::Compact => Command::Call(Call::Compact(needs(words)?)),
        Name::Show => Command::Show(view(words.next()?)?),
        Name::Poke => Command::Poke(damage(words)?),
        Name::Help => Command::Help,
        Name::Terse => Command::Terse,
    };
    Some(command)
}

fn three<T: Number + Drop>(words: &mut Words<'_>) -> Option<[T; 3]> {
    Some([number(words)?, number(words)?, number(words)?])
}

fn needs(words: &mut Words<'_>) -> Option<Needs> {
    Some(Needs {
        height: number(words)?,
        climb: number(words)?,
    })
}

fn offer(words: &mut Words<'_>) -> Option<Offer> {
    Some(Offer {
        x: number(words)?,
        z: number(words)?,
        span: span(words)?,
        threshold: number(words)?,
    })
}

fn corner(words: &mut Words<'_>) -> Option<Corner> {
    Some(Corner {
        x: number(words)?,
        y: number(words)?,
        z: number(words)?,
    })
}

fn grid(words: &mut Words<'_>) -> Option<Grid> {
    Some(Grid {
        min: corner(words)?,
        max: corner(words)?,
        cell_size: number(words)?,
        cell_height: number(words)?,
    })
}

fn span(words: &mut Words<'_>) -> Option<Span> {
    Some(Span {
        floor: number(words)?,
        ceiling: number(words)?,
        area: number(words)?,
    })
}

// How many slots or compact spans are lent.
fn count(words: &mut Words<'_>) -> Option<usize> {
    let n: u32 = number(words)?;
    let n = n as usize;
    if n > MOST_LENT {
        return None;
    }
    Some(n)
}

fn view(word: &[u8]) -> Option<View> {
    match word {
        b"columns" => Some(View::Columns),
        b"raw" => Some(View::Raw),
        b"compact" => Some(View::Compact),
        b"map" => Some(View::Map),
        _ => None,
    }
}

fn damage(words: &mut Words<'_>) -> Option<Damage> {
    match words.next()? {
        b"heads" => entry(words).map(Damage::Head),
        b"free" => entry(words).map(Damage::Free),
        b"floors" => entry(words).map(Damage::Floor),
        b"ceilings" => entry(words).map(Damage::Ceiling),
        b"areas" => entry(words).map(Damage::Area),
        b"nexts" => entry(words).map(Damage::Next),
        b"marks" => entry(words).map(Damage::Mark),
        _ => None,
    }
}

fn entry<T: Number>(words: &mut Words<'_>) -> Option<Entry<T>> {
    let index: u32 = number(words)?;
    Some(Entry {
        index: index as usize,
        value: number(words)?,
    })
}
