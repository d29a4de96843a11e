#![tactic(auto)]
// The rules' examples of the filters, run: the reply, and the areas that are left.
use field::NONE;
use grid::Grid;
use rerecast::Refusal;
use runs::{Store, cells, number};
use std::io;

// ---- ledges

// 3 x 3 columns of one span each, from 0 to its ceiling, and a free slot.
const LEVEL: Store<9, 10> = Store {
    heads: [0, 1, 2, 3, 4, 5, 6, 7, 8],
    free: 9,
    floors: [0; 10],
    ceilings: [10, 10, 10, 10, 10, 10, 10, 10, 10, 0],
    areas: [255, 255, 255, 255, 255, 255, 255, 255, 255, 77],
    nexts: [NONE; 10],
};

// A run's name, its reply, the free slot's area, and the areas as they lie on the grid, x from left to right.
fn try_ledges(rt: &impl Print, name: &str, mut store: Store<9, 10>, climb: u16) -> io::Result<()> {
    let mut marks = [1; 10];
    let answer = store.filter_ledge_spans(cells(3.0, 64.0, 3.0), &mut marks, 2, climb);
    let number = number(answer);
    let free = store.areas[9];
    println!(rt;
        "  {name}: reply {number}, first mark {}, free slot's area {free}",
        marks[0]
    )?;
    for row in store.areas[..9].chunks(3) {
        print!(rt; "     ")?;
        for area in row {
            print!(rt; "{area:4}")?;
        }
        println!(rt; "")?;
    }
    Ok(())
}

fn ledges(rt: &impl Print) -> io::Result<()> {
    let east = Store {
        ceilings: [10, 10, 10, 10, 10, 5, 10, 10, 10, 0],
        ..LEVEL
    };
    let both = Store {
        ceilings: [10, 10, 10, 12, 10, 5, 10, 10, 10, 0],
        ..LEVEL
    };
    println!(rt; "ledges: 3 x 3 columns of [0,10], area 255, walkable height 2")?;
    try_ledges(rt, "climb 5", LEVEL, 5)?;
    try_ledges(rt, "climb 5, east [0,5]", east, 5)?;
    try_ledges(rt, "climb 4, east [0,5]", east, 4)?;
    try_ledges(rt, "climb 5, east [0,5], west [0,12]", both, 5)?;
    try_ledges(
        rt,
        "climb 5, a slot in no chain",
        Store {
            free: NONE,
            ..LEVEL
        },
        5,
    )
}

// ---- one column

type Column = Store<1, 3>;

fn one_cell() -> Grid {
    cells(1.0, 64.0, 1.0)
}

fn areas(
    rt: &impl Print,
    name: &str,
    answer: Result<(), Refusal>,
    column: Column,
) -> io::Result<()> {
    let [low, middle, high] = column.areas;
    println!(rt;
        "  {name}: reply {}, areas{low:4}{middle:4}{high:4}",
        number(answer)
    )
}

fn obstacles(rt: &impl Print) -> io::Result<()> {
    println!(rt; "low obstacles: [0,1] area 5, [3,4] area 0, [5,6] area 0")?;
    for (name, climb) in [("climb 3", 3), ("climb 2", 2)] {
        let mut column = Column {
            heads: [0],
            free: NONE,
            floors: [0, 3, 5],
            ceilings: [1, 4, 6],
            areas: [5, 0, 0],
            nexts: [1, 2, NONE],
        };
        let answer = column.filter_low_hanging_walkable_obstacles(one_cell(), &mut [1; 3], climb);
        areas(rt, name, answer, column)?;
    }
    Ok(())
}

// The highest span has the open top above it, and the others the next floor.
fn try_ceilings(rt: &impl Print, name: &str, marks: &mut [u8], height: u16) -> io::Result<()> {
    let mut column = Column {
        heads: [0],
        free: NONE,
        floors: [0, 7, 65530],
        ceilings: [1, 65520, 65530],
        areas: [7, 8, 9],
        nexts: [1, 2, NONE],
    };
    let answer = column.filter_walkable_low_height_spans(one_cell(), marks, height);
    areas(rt, name, answer, column)
}

fn ceilings(rt: &impl Print) -> io::Result<()> {
    println!(rt; "low ceilings: [0,1] area 7, [7,65520] area 8, [65530,65530] area 9")?;
    // a call is lent the marks that the one before left
    let mut marks = [1; 3];
    try_ceilings(rt, "walkable height 5", &mut marks, 5)?;
    try_ceilings(rt, "walkable height 6", &mut marks, 6)?;
    try_ceilings(rt, "walkable height 7", &mut marks, 7)?;
    try_ceilings(rt, "walkable height 7, a mark too few", &mut [1; 2], 7)
}

fn main(rt: HostRuntime) -> io::Result<()> {
    ledges(&rt)?;
    obstacles(&rt)?;
    ceilings(&rt)
}
