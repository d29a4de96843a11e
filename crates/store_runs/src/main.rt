#![tactic(auto)]
// Runs of the store of spans that a simulator that grows its store never makes: full stores, a store of one slot, slices and grids that do not fit, and
// fields damaged in every way. Each line has the call, the number of its reply, and what is left.
use field::{NONE, Span};
use grid::Grid;
use runs::{Store, cells, number};
use std::io;

// Two cells by one.
fn two_cells() -> Grid {
    cells(2.0, 8.0, 1.0)
}

// The grid has two columns, so the last two heads are past what is needed.
type Field<const SLOTS: usize> = Store<4, SLOTS>;

// A store that nobody has written to yet.
fn untouched<const SLOTS: usize>() -> Field<SLOTS> {
    Store {
        heads: [7; 4],
        free: 7,
        floors: [7; SLOTS],
        ceilings: [7; SLOTS],
        areas: [7; SLOTS],
        nexts: [7; SLOTS],
    }
}

#[derive(Clone, Copy)]
enum Call {
    Fresh(Grid),
    // a span from a floor to a ceiling, into the column at x, z
    Add(u32, u32, u16, u16),
}

// One line of the table. Of four marks as many are lent as there are slots.
fn line<const SLOTS: usize>(
    rt: &impl Print,
    name: &str,
    store: &mut Field<SLOTS>,
    marks: &mut [u8; 4],
    call: Call,
) -> io::Result<()> {
    let before = *store;
    let answer = match call {
        Call::Fresh(grid) => store.fresh(grid),
        Call::Add(x, z, floor, ceiling) => {
            let span = Span {
                floor,
                ceiling,
                area: Span::DEFAULT_WALKABLE,
            };
            store.add_span(two_cells(), &mut marks[..SLOTS.min(4)], x, z, span, 1)
        }
    };
    print!(rt; "  {name:<32}{}", number(answer))?;
    if *store == before {
        print!(rt; "  nothing changed")?;
    } else {
        let [first, second, ..] = store.heads;
        print!(rt;
            "  column 0:{}; column 1:{}",
            store.chain(first),
            store.chain(second)
        )?;
    }
    let [a, b, c, d] = *marks;
    println!(rt; "; marks {a}{b}{c}{d}")
}

// Calls one after another on one store: each is lent the marks that the one before left.
fn table<const SLOTS: usize>(
    rt: &impl Print,
    title: &str,
    mut store: Field<SLOTS>,
    calls: &[(&str, Call)],
) -> io::Result<()> {
    println!(rt; "{title}")?;
    let mut marks = [1; 4];
    for (name, call) in calls {
        line(rt, name, &mut store, &mut marks, *call)?;
    }
    Ok(())
}

// Two slots and two columns: the store fills, refuses what shares no height, and takes what does.
fn full_stores(rt: &impl Print) -> io::Result<()> {
    table(
        rt,
        "a store of two slots",
        untouched::<2>(),
        &[
            ("fresh", Call::Fresh(two_cells())),
            ("[2,5] at 0,0", Call::Add(0, 0, 2, 5)),
            ("[7,9] at 1,0", Call::Add(1, 0, 7, 9)),
            ("[6,7] at 0,0, the store is full", Call::Add(0, 0, 6, 7)),
            ("[5,7] at 0,0 shares a height", Call::Add(0, 0, 5, 7)),
            ("[0,1] at 1,0, the store is full", Call::Add(1, 0, 0, 1)),
            ("[0,65535] at 1,0 swallows all", Call::Add(1, 0, 0, 65535)),
        ],
    )?;
    table(
        rt,
        "a store of one slot",
        untouched::<1>(),
        &[
            ("fresh", Call::Fresh(two_cells())),
            ("[2,5] at 0,0", Call::Add(0, 0, 2, 5)),
            ("[6,7] at 0,0", Call::Add(0, 0, 6, 7)),
            ("[5,7] at 0,0", Call::Add(0, 0, 5, 7)),
        ],
    )
}

// Places off the grid, where the flat column number would still be a column.
fn refused_spans(rt: &impl Print) -> io::Result<()> {
    let mut store = untouched::<3>();
    let _ = store.fresh(two_cells());
    table(
        rt,
        "spans that are refused",
        store,
        &[
            ("[2,5] at 2,0, past the width", Call::Add(2, 0, 2, 5)),
            ("[2,5] at 0,1, past the height", Call::Add(0, 1, 2, 5)),
            ("[5,4] at 0,0, floor above", Call::Add(0, 0, 5, 4)),
        ],
    )
}

fn refused_stores(rt: &impl Print) -> io::Result<()> {
    println!(rt; "stores and grids that do not fit")?;
    line(
        rt,
        "fresh, no slots",
        &mut untouched::<0>(),
        &mut [1; 4],
        Call::Fresh(two_cells()),
    )?;
    for (name, call) in [
        (
            "fresh, five columns, four heads",
            Call::Fresh(cells(5.0, 8.0, 1.0)),
        ),
        ("fresh, width 0", Call::Fresh(cells(0.0, 8.0, 1.0))),
        (
            "fresh, a box upside down",
            Call::Fresh(cells(2.0, -1.0, 1.0)),
        ),
        (
            "fresh, cell size 0",
            Call::Fresh(Grid {
                cell_size: 0.0,
                ..two_cells()
            }),
        ),
        ("a span into a store never made", Call::Add(0, 0, 2, 5)),
    ] {
        line(rt, name, &mut untouched::<4>(), &mut [1; 4], call)?;
    }
    Ok(())
}

// A sound field: [2,5] and [7,9] in column 0 (slots 0 and 1), [1,1] in column 1 (slot 2), slot 3 free.
const SOUND: Field<4> = Store {
    heads: [0, 2, 7, 7],
    free: 3,
    floors: [2, 7, 1, 0],
    ceilings: [5, 9, 1, 0],
    areas: [1, 2, 3, 0],
    nexts: [1, NONE, NONE, NONE],
};

fn damaged_fields(rt: &impl Print) -> io::Result<()> {
    println!(rt; "[20,21] at 0,0 offered to a field that is damaged")?;
    for (name, mut store) in [
        ("in no way", SOUND),
        (
            "in no way: a span right above",
            Store {
                floors: [2, 6, 1, 0],
                ..SOUND
            },
        ),
        (
            "a column runs in a circle",
            Store {
                nexts: [0, NONE, NONE, NONE],
                ..SOUND
            },
        ),
        (
            "a slot in two columns",
            Store {
                heads: [0, 1, 7, 7],
                ..SOUND
            },
        ),
        ("a free slot in a column", Store { free: 2, ..SOUND }),
        (
            "a slot in no chain",
            Store {
                free: NONE,
                ..SOUND
            },
        ),
        (
            "a head names no slot",
            Store {
                heads: [0, 4, 7, 7],
                ..SOUND
            },
        ),
        (
            "a next names no slot",
            Store {
                nexts: [1, 4, NONE, NONE],
                ..SOUND
            },
        ),
        (
            "a floor above its ceiling",
            Store {
                floors: [6, 7, 1, 0],
                ..SOUND
            },
        ),
        (
            "two spans share a height",
            Store {
                ceilings: [7, 9, 1, 0],
                ..SOUND
            },
        ),
        (
            "a column does not ascend",
            Store {
                floors: [2, 0, 1, 0],
                ..SOUND
            },
        ),
    ] {
        // marks that are neither 0 nor 1
        line(rt, name, &mut store, &mut [9; 4], Call::Add(0, 0, 20, 21))?;
    }
    Ok(())
}

fn main(rt: HostRuntime) -> io::Result<()> {
    full_stores(&rt)?;
    refused_spans(&rt)?;
    refused_stores(&rt)?;
    damaged_fields(&rt)
}
