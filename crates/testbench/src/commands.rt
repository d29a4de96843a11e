// The commands: their names, how each is written, and what a line says once it is read.
use crate::words::Words;
use field::Span;
use grid::Grid;
use std::fmt;

#[derive(Clone, Copy)]
pub enum Name {
    Case,
    Grid,
    Slots,
    Spans,
    Fresh,
    Add,
    Vertex,
    Area,
    Face,
    NoMesh,
    Rasterize,
    Populate,
    Low,
    Ledges,
    Ceilings,
    Compact,
    Show,
    Poke,
    Help,
    Terse,
}

impl Name {
    // In the order in which `help` lists them.
    pub const ALL: [Name; 20] = [
        Name::Case,
        Name::Grid,
        Name::Slots,
        Name::Spans,
        Name::Fresh,
        Name::Add,
        Name::Vertex,
        Name::Area,
        Name::Face,
        Name::NoMesh,
        Name::Rasterize,
        Name::Populate,
        Name::Low,
        Name::Ledges,
        Name::Ceilings,
        Name::Compact,
        Name::Show,
        Name::Poke,
        Name::Help,
        Name::Terse,
    ];

    // The command that begins with this word.
    pub fn of(word: &[u8]) -> Option<Name> {
        Name::ALL
            .into_iter()
            .find(|name| name.word().as_bytes() == word)
    }

    pub fn word(self) -> &'static str {
        match self {
            Name::Case => "case",
            Name::Grid => "grid",
            Name::Slots => "slots",
            Name::Spans => "spans",
            Name::Fresh => "fresh",
            Name::Add => "add",
            Name::Vertex => "v",
            Name::Area => "area",
            Name::Face => "f",
            Name::NoMesh => "nomesh",
            Name::Rasterize => "rasterize",
            Name::Populate => "populate",
            Name::Low => "low",
            Name::Ledges => "ledges",
            Name::Ceilings => "ceilings",
            Name::Compact => "compact",
            Name::Show => "show",
            Name::Poke => "poke",
            Name::Help => "help",
            Name::Terse => "terse",
        }
    }

    // What follows the word.
    pub fn rest(self) -> &'static str {
        match self {
            Name::Case => " NAME KIND",
            Name::Grid => " MINX MINY MINZ MAXX MAXY MAXZ SIZE HEIGHT",
            Name::Slots | Name::Spans => " N, at most 65536",
            Name::Add => " X Z FLOOR CEILING AREA THRESHOLD",
            Name::Vertex => " X Y Z",
            Name::Area => " A, at most 255",
            Name::Face => " I J K",
            Name::Rasterize => " THRESHOLD",
            Name::Populate | Name::Ledges | Name::Compact => " HEIGHT CLIMB",
            Name::Low => " CLIMB",
            Name::Ceilings => " HEIGHT",
            Name::Show => " columns, show raw, show compact or show map",
            Name::Poke => {
                " SLICE INDEX VALUE, the slice one of heads, free, floors, ceilings, areas, nexts, marks"
            }
            Name::Fresh | Name::NoMesh | Name::Help | Name::Terse => "",
        }
    }
}

// How the command is written.
impl fmt::Display for Name {
    fn fmt<W: fmt::Write>(&self, f: &mut fmt::Formatter<W>) -> fmt::Result {
        write!(f, "{}{}", self.word(), self.rest())
    }
}

// What the robot needs: the walkable height and climb.
#[derive(Clone, Copy)]
pub struct Needs {
    pub height: u16,
    pub climb: u16,
}

// A span that is offered to a column.
#[derive(Clone, Copy)]
pub struct Offer {
    pub x: u32,
    pub z: u32,
    pub span: Span,
    pub threshold: u16,
}

// What `show` shows.
#[derive(Clone, Copy)]
pub enum View {
    Columns,
    Raw,
    Compact,
    Map,
}

// An entry of a slice.
#[derive(Clone, Copy)]
pub struct Entry<T> {
    pub index: usize,
    pub value: T,
}

// What `poke` damages, and what it puts there. The head of the free chain has no index.
#[derive(Clone, Copy)]
pub enum Damage {
    Head(Entry<u32>),
    Free(Entry<u32>),
    Floor(Entry<u16>),
    Ceiling(Entry<u16>),
    Area(Entry<u8>),
    Next(Entry<u32>),
    Mark(Entry<u8>),
}

// A call of the library.
#[derive(Clone, Copy)]
pub enum Call {
    Fresh,
    Add(Offer),
    // the threshold
    Rasterize(u16),
    Populate(Needs),
    // the climb
    Low(u16),
    Ledges(Needs),
    // the height
    Ceilings(u16),
    Compact(Needs),
}

// A line that was read.
#[derive(Clone, Copy)]
pub enum Command<'a> {
    // the words that follow
    Case(Words<'a>),
    Grid(Grid),
    Slots(usize),
    Spans(usize),
    Vertex([f32; 3]),
    Area(u8),
    // vertices, which lines count from 1
    Face([u32; 3]),
    NoMesh,
    Call(Call),
    Show(View),
    Poke(Damage),
    Help,
    Terse,
}

// Why a line cannot be read. It prints as what was expected.
#[derive(Clone, Copy)]
pub enum Unread {
    TooLong,
    NoCommand,
    Misused(Name),
}

impl fmt::Display for Unread {
    fn fmt<W: fmt::Write>(&self, f: &mut fmt::Formatter<W>) -> fmt::Result {
        match self {
            Unread::TooLong => write!(f, "a line of at most 65535 bytes"),
            Unread::NoCommand => write!(f, "a command: help lists them"),
            Unread::Misused(name) => write!(f, "{name}"),
        }
    }
}
