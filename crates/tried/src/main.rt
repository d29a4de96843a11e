#![tactic(auto)]
// The rules' examples, run: a line each with its name, what the rules say, and what the library does.
use compact_span::CompactSpan;
use field::{NONE, Span};
use grid::Grid;
use rerecast::Refusal;
use runs::{Compact, Store, cells, corner, number};
use std::fmt::Display;
use std::io;

// A line of the table.
fn row(rt: &impl Print, name: &str, expected: &str, got: impl Display + Drop) -> io::Result<()> {
    println!(rt; "{name:<29}{expected:<32}{got}")
}

// ---- one column: insertions, and the filters that look at one column

type Column<const SLOTS: usize> = Store<1, SLOTS>;

// One cell, with room for every height.
fn one_cell() -> Grid {
    cells(1.0, 65535.0, 1.0)
}

fn column_row<const SLOTS: usize>(
    rt: &impl Print,
    name: &str,
    expected: &str,
    answer: Result<(), Refusal>,
    column: &Column<SLOTS>,
) -> io::Result<()> {
    let chain = column.chain(column.heads[0]);
    row(
        rt,
        name,
        expected,
        format_args!("{}:{chain}", number(answer)),
    )
}

fn span(floor: u16, ceiling: u16, area: u8) -> Span {
    Span {
        floor,
        ceiling,
        area,
    }
}

// Four slots, none in use.
const EMPTY: Column<4> = Store {
    heads: [NONE],
    free: 0,
    floors: [0; 4],
    ceilings: [0; 4],
    areas: [0; 4],
    nexts: [1, 2, 3, NONE],
};

// One slot, which holds [2,5].
const FULL: Column<1> = Store {
    heads: [0],
    free: NONE,
    floors: [2],
    ceilings: [5],
    areas: [3],
    nexts: [NONE],
};

// A column that is offered spans one after another, each with its threshold, and the last reply.
fn offered<const SLOTS: usize>(
    mut column: Column<SLOTS>,
    spans: &[(Span, u16)],
) -> (Result<(), Refusal>, Column<SLOTS>) {
    let mut answer = Ok(());
    for (new, threshold) in spans {
        answer = column.add_span(one_cell(), &mut [0; SLOTS], 0, 0, *new, *threshold);
    }
    (answer, column)
}

fn insertions(rt: &impl Print) -> io::Result<()> {
    for (name, expected, spans) in [
        (
            "P1",
            "0: [2,9] area 1",
            [(span(2, 5, 3), 1), (span(5, 9, 1), 1)].as_slice(),
        ),
        (
            "P2",
            "0: [2,6] area 3",
            [(span(2, 5, 3), 1), (span(4, 6, 1), 1)].as_slice(),
        ),
        (
            "P3",
            "0: three spans",
            [(span(2, 5, 3), 1), (span(7, 9, 4), 0), (span(6, 6, 1), 0)].as_slice(),
        ),
        (
            "P4",
            "0: [2,9] area 4",
            [(span(2, 5, 3), 1), (span(7, 9, 4), 0), (span(5, 7, 1), 0)].as_slice(),
        ),
        (
            "P5",
            "0: [0,9] area 1",
            [(span(0, 1, 9), 0), (span(1, 9, 1), 0)].as_slice(),
        ),
        (
            "P5, the other order",
            "0: [0,9] area 9",
            [(span(1, 9, 1), 0), (span(0, 1, 9), 0)].as_slice(),
        ),
    ] {
        let (answer, column) = offered(EMPTY, spans);
        column_row(rt, name, expected, answer, &column)?;
    }
    let (answer, column) = offered(FULL, &[(span(6, 7, 1), 0)]);
    column_row(rt, "P6, apart", "5: [2,5] area 3", answer, &column)?;
    let (answer, column) = offered(FULL, &[(span(5, 7, 1), 0)]);
    column_row(rt, "P6, sharing a height", "0: accepted", answer, &column)
}

fn filters(rt: &impl Print) -> io::Result<()> {
    let (_, mut low) = offered(
        EMPTY,
        &[(span(0, 1, 5), 0), (span(3, 4, 0), 0), (span(5, 6, 0), 0)],
    );
    let answer = low.filter_low_hanging_walkable_obstacles(one_cell(), &mut [0; 4], 3);
    column_row(rt, "P10", "0: areas 5, 5, 0", answer, &low)?;
    for (name, expected, height) in [
        ("P11, walkable height 5", "0: stays", 5),
        ("P11, walkable height 6", "0: cleared", 6),
    ] {
        let (_, mut high) = offered(EMPTY, &[(span(65530, 65530, 7), 0)]);
        let answer = high.filter_walkable_low_height_spans(one_cell(), &mut [0; 4], height);
        column_row(rt, name, expected, answer, &high)?;
    }
    Ok(())
}

// ---- words and numbers

fn words(rt: &impl Print) -> io::Result<()> {
    let linked = CompactSpan::with_links(200, [3, 63, 0, 61]);
    row(rt, "P7", "3371438019", linked)?;
    let unlinked = CompactSpan::with_links(255, [63; 4]);
    row(rt, "P8", "4294967295", unlinked)?;
    row(rt, "P9, truncation of -0.75", "0", ops::truncate(-0.75))?;
    row(rt, "P9, truncation of -1", "-1", ops::truncate(-1.0))?;
    row(rt, "P9, floor of -0.25", "-1", ops::floor(-0.25))
}

fn gaps(rt: &impl Print) -> io::Result<()> {
    row(rt, "P12, next floor 300", "255", CompactSpan::gap(10, 300))?;
    row(rt, "P12, next floor 100", "90", CompactSpan::gap(10, 100))
}

// ---- several columns: ledges, a sliver left of the grid, and an agent that is too tall for any link

// The centre of nine columns of one span each, after the filter for ledges; walkable height 2.
fn ledges(rt: &impl Print) -> io::Result<()> {
    for (name, expected, west, east, climb) in [
        (
            "3 x 3 of [0,10], climb 5",
            "0: only the centre stays",
            10,
            10,
            5,
        ),
        ("east [0,5], climb 5", "0: the centre stays", 10, 5, 5),
        ("east [0,5], climb 4", "0: cleared", 10, 5, 4),
        ("east [0,5], west [0,12]", "0: cleared", 12, 5, 5),
    ] {
        let mut store = Store {
            heads: [0, 1, 2, 3, 4, 5, 6, 7, 8],
            free: NONE,
            floors: [0; 9],
            ceilings: [10, 10, 10, west, 10, east, 10, 10, 10],
            areas: [255; 9],
            nexts: [NONE; 9],
        };
        let answer = store.filter_ledge_spans(cells(3.0, 64.0, 3.0), &mut [0; 9], 2, climb);
        let areas = store.areas;
        let got = format_args!(
            "{}: centre {}, corner {}",
            number(answer),
            areas[4],
            areas[0]
        );
        row(rt, name, expected, got)?;
    }
    Ok(())
}

fn sliver(rt: &impl Print) -> io::Result<()> {
    let grid = cells(4.0, 8.0, 4.0);
    let corners = [
        corner(-2.0, 1.0, 0.5),
        corner(-0.5, 1.0, 0.5),
        corner(1.5, 1.0, 4.5),
    ];
    let mut store = Store {
        heads: [NONE; 16],
        free: 0,
        floors: [0; 8],
        ceilings: [0; 8],
        areas: [0; 8],
        nexts: [1, 2, 3, 4, 5, 6, 7, NONE],
    };
    let answer = store.rasterize_triangle(grid, &mut [0; 8], corners, 255, 1);
    let held = u8::from(store.heads[0] != NONE);
    let got = format_args!("{}: {held} spans", number(answer));
    row(
        rt,
        "a sliver left of the grid",
        "0: 0 spans in column 0 0",
        got,
    )
}

// Two columns with a floor each, level with one another: the links of the first in all directions.
fn tall_agent(rt: &impl Print) -> io::Result<()> {
    let store = Store {
        heads: [0, 1],
        free: NONE,
        floors: [0; 2],
        ceilings: [1; 2],
        areas: [255; 2],
        nexts: [NONE; 2],
    };
    for (name, expected, height) in [
        ("walkable height 255", "0: 4294709247, a link to 0", 255),
        ("walkable height 256", "0: 4294967295, no links", 256),
    ] {
        let mut compact = Compact::<2, 2, 2, 2>::filled(0);
        let answer = store.into_compact(
            cells(2.0, 64.0, 1.0),
            &mut [0; 2],
            &mut compact,
            height,
            1,
        );
        let got = format_args!("{}: {}", number(answer), compact.words[0]);
        row(rt, name, expected, got)?;
    }
    Ok(())
}

fn main(rt: HostRuntime) -> io::Result<()> {
    row(&rt, "example", "expected", "got")?;
    insertions(&rt)?;
    words(&rt)?;
    filters(&rt)?;
    gaps(&rt)?;
    ledges(&rt)?;
    sliver(&rt)?;
    tall_agent(&rt)
}
