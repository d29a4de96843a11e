#![tactic(auto)]
// Runs of compacting at its limits: a column of 255 floors and one of 256, links to the highest layers, slices that are just long enough, and an agent
// that is too tall for any link. Two columns lie side by side, and the field is made by the library's own calls.
use compact_span::{CompactSpan, NoLink};
use field::Span;
use grid::Grid;
use rerecast::Refusal;
use runs::{Compact, Store, cells, number};
use std::{fmt, io};

// ---- the field

// Two columns, up to y = 64, with cells half a unit high.
fn two_columns() -> Grid {
    Grid {
        cell_height: 0.5,
        ..cells(2.0, 64.0, 1.0)
    }
}

type Columns = Store<2, 256>;

// The entries for both cells and for one past them.
type Cells<const YS: usize, const WORDS: usize, const AREAS: usize> = Compact<3, YS, WORDS, AREAS>;

// One more floor in the column at x, at the height of a stack's layer. The floors of a stack are 10 apart and two high, so an agent stands at 2, 12, 22
// and on.
fn add_floor(columns: &mut Columns, x: u32, layer: u8) {
    let floor = u16::from(layer) * 10;
    let span = Span {
        floor,
        ceiling: floor + 2,
        area: 9,
    };
    let _ = columns.add_span(two_columns(), &mut [0; 256], x, 0, span, 0);
}

// A fresh field where 0 stood in every entry, with a stack of floors in the second column.
fn stack(layers: u8) -> Columns {
    let mut columns = Columns {
        heads: [0; 2],
        free: 0,
        floors: [0; 256],
        ceilings: [0; 256],
        areas: [0; 256],
        nexts: [0; 256],
    };
    let _ = columns.fresh(two_columns());
    for layer in 0..layers {
        add_floor(&mut columns, 1, layer);
    }
    columns
}

// The compact result of the field, for an agent that climbs nothing.
fn into_compact<const YS: usize, const WORDS: usize, const AREAS: usize>(
    columns: &Columns,
    compact: &mut Cells<YS, WORDS, AREAS>,
    tall: u16,
) -> Result<f32, Refusal> {
    columns.into_compact(two_columns(), &mut [0; 256], compact, tall, 0)
}

// ---- crowded columns

// The reply, and the entries of both cells and of the one past them.
fn try_crowd(rt: &impl Print, floors: u16, columns: &Columns) -> io::Result<()> {
    let mut compact = Cells::<256, 256, 256>::filled(7);
    let answer = into_compact(columns, &mut compact, 5);
    print!(rt; "{floors:8}{:6}", number(answer))?;
    for count in compact.cell_counts {
        print!(rt; "{count:6}")?;
    }
    let ys = compact.ys;
    println!(rt; "{:6}{:6}{:6}", ys[0], ys[254], ys[255])
}

fn crowded_columns(rt: &impl Print) -> io::Result<()> {
    println!(rt; "a column of floors beside an empty one; 7 stood in every entry")?;
    println!(rt; "  floors reply  count of 0, of 1, past   first y, last y, past")?;
    let mut columns = stack(255);
    try_crowd(rt, 255, &columns)?;
    add_floor(&mut columns, 1, 255);
    try_crowd(rt, 256, &columns)
}

// ---- links

// The link of a word in a direction: '-' for one that leads nowhere, '?' for a direction that there is not.
#[derive(Clone, Copy)]
struct Linked(u32, u8);

impl fmt::Display for Linked {
    fn fmt<W: fmt::Write>(&self, f: &mut fmt::Formatter<W>) -> fmt::Result {
        let Linked(data, dir) = *self;
        match (CompactSpan { y: 0, data }).con(dir) {
            Ok(Some(layer)) => write!(f, "{layer:6}"),
            Ok(None) => write!(f, "{:>6}", '-'),
            Err(NoLink) => write!(f, "{:>6}", '?'),
        }
    }
}

// A floor beside a stack, level with one of its layers: the reply, the floor's link in direction 2, and the link back from that layer.
fn try_level(rt: &impl Print, layers: u8, level: u8, tall: u16) -> io::Result<()> {
    let mut columns = stack(layers);
    add_floor(&mut columns, 0, level);
    let mut compact = Cells::<256, 256, 256>::filled(7);
    let answer = into_compact(&columns, &mut compact, tall);
    print!(rt; "{layers:6}{level:6}{tall:6}{:6}", number(answer))?;
    match answer {
        Err(Refusal::Layers(layer, _)) => print!(rt; "{layer:6}")?,
        _ => print!(rt; "{:>6}", '-')?,
    }
    print!(rt; "{}", Linked(compact.words[0], 2))?;
    // behind the one floor of the first column
    if let Some(word) = compact.words.get(usize::from(level) + 1) {
        print!(rt; "{}", Linked(*word, 0))?;
    }
    match answer {
        Ok(top) | Err(Refusal::Layers(_, top)) => println!(rt; "   {top}"),
        _ => println!(rt; "   none"),
    }
}

fn links(rt: &impl Print) -> io::Result<()> {
    println!(rt;
        "a floor level with a layer of the stack beside it (direction 2), climb 0, box up to 64, cells 0.5 high"
    )?;
    println!(rt; " stack level  tall reply layer  link  back   raised y")?;
    for (layers, level, tall) in [
        (62, 61, 5),
        (63, 62, 5),
        (64, 63, 5),
        (255, 254, 5),
        (1, 0, 255),
        (1, 0, 256),
    ] {
        try_level(rt, layers, level, tall)?;
    }
    Ok(())
}

// ---- slices

// One floor, and a stack of three beside it: four open spaces.
fn try_slices<const YS: usize, const WORDS: usize, const AREAS: usize>(
    rt: &impl Print,
    name: &str,
    mut compact: Cells<YS, WORDS, AREAS>,
) -> io::Result<()> {
    let mut columns = stack(3);
    add_floor(&mut columns, 0, 1);
    let answer = into_compact(&columns, &mut compact, 5);
    println!(rt; "  {name}: reply {}", number(answer))?;
    let spans = compact.ys.iter().zip(&compact.words);
    for ((y, word), area) in spans.zip(&compact.areas) {
        print!(rt; "    {y:6}{:6}", CompactSpan::height_in(*word))?;
        for dir in 0..4 {
            print!(rt; "{}", Linked(*word, dir))?;
        }
        println!(rt; "{area:6}")?;
    }
    Ok(())
}

fn slices(rt: &impl Print) -> io::Result<()> {
    println!(rt; "four open spaces in slices of different lengths; 7 stood in every entry")?;
    println!(rt; "         y height link0 link1 link2 link3  area")?;
    try_slices(rt, "a y too few", Cells::<3, 4, 4>::filled(7))?;
    try_slices(rt, "a word too few", Cells::<4, 3, 4>::filled(7))?;
    try_slices(rt, "an area too few", Cells::<4, 4, 3>::filled(7))?;
    try_slices(rt, "just enough", Cells::<4, 4, 4>::filled(7))?;
    try_slices(rt, "two more", Cells::<6, 6, 6>::filled(7))
}

fn main(rt: HostRuntime) -> io::Result<()> {
    crowded_columns(&rt)?;
    links(&rt)?;
    slices(&rt)
}
