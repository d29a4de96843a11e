#![tactic(auto)]
// Meshes run: what the rules say of triangles at the grid's edge, of a full store, of numbers that are none. Each run has its reply, the place of a stop,
// and the columns that are left.
use grid::Grid;
use rerecast::Refusal;
use runs::{Mesh, Store, cells, corner, number};
use std::io;

// Four by four cells of size 1, 8 high.
fn hall() -> Grid {
    cells(4.0, 8.0, 4.0)
}

// The reply's number, the place where a mesh stopped, and the columns that have spans.
fn show<const COLUMNS: usize, const SLOTS: usize>(
    rt: &impl Print,
    name: &str,
    grid: Grid,
    answer: Result<(), Refusal>,
    store: &Store<COLUMNS, SLOTS>,
) -> io::Result<()> {
    print!(rt; "{name}: reply {}", number(answer))?;
    if let Err(Refusal::Stopped(_, triangle, made)) = answer {
        print!(rt; ", triangle {triangle}, after {made} of its insertions")?;
    }
    println!(rt; "")?;
    let width = grid::check(grid).map_or(1, |size| size.width).max(1) as usize;
    for (i, head) in store.heads.iter().enumerate() {
        if (*head as usize) < SLOTS {
            println!(rt; "  {} {}:{}", i % width, i / width, store.chain(*head))?;
        }
    }
    Ok(())
}

// ---- meshes

// The hall's columns, or those of a grid of 4 x 5 cells, and 32 slots.
type Roomy = Store<32, 32>;

fn try_mesh(rt: &impl Print, name: &str, mesh: Mesh<'_>) -> io::Result<()> {
    let mut store = Roomy::new(hall());
    let answer = store.rasterize_triangles(hall(), &mut [1; 32], mesh, 1);
    show(rt, name, hall(), answer, &store)
}

// The same into four slots, and every slot shown with its next.
fn try_full(rt: &impl Print, name: &str, mesh: Mesh<'_>) -> io::Result<()> {
    let mut store = Store::<16, 4>::new(hall());
    let answer = store.rasterize_triangles(hall(), &mut [1; 4], mesh, 1);
    show(rt, name, hall(), answer, &store)?;
    println!(rt; "  free {}", store.free)?;
    for i in 0..4 {
        if let Some(slot) = store.chain(i).next() {
            println!(rt; "  slot {i}:{slot} next {}", slot.next)?;
        }
    }
    Ok(())
}

// A small triangle in the first cell, then one over half the hall: the store fills at its fourth insertion.
fn full_stores(rt: &impl Print) -> io::Result<()> {
    let mesh = Mesh {
        vertices: &[
            0.2, 1.0, 0.2, 0.8, 1.0, 0.2, 0.2, 1.0, 0.8, 0.0, 3.0, 0.0, 4.0, 3.0, 0.0, 0.0, 3.0,
            4.0,
        ],
        indices: &[0, 1, 2, 3, 4, 5],
        areas: &[7, 9],
    };
    try_full(rt, "two triangles, four slots", mesh)?;
    try_mesh(rt, "the same, 32 slots", mesh)?;
    let mut store = Roomy::new(hall());
    let answer = store.populate_from_trimesh(hall(), &mut [1; 32], mesh, 2, 1);
    show(rt, "the same, and the filters", hall(), answer, &store)
}

fn empty_meshes(rt: &impl Print) -> io::Result<()> {
    let mesh = Mesh {
        vertices: &[1.0, 2.0, 3.0],
        indices: &[0, 0, 1],
        areas: &[255],
    };
    let none = Mesh {
        indices: &[],
        areas: &[],
        ..mesh
    };
    try_mesh(rt, "no triangle", none)?;
    try_mesh(rt, "an index that names no vertex", mesh)?;
    try_mesh(rt, "an area too few", Mesh { areas: &[], ..mesh })?;
    try_mesh(
        rt,
        "a vertex number too few",
        Mesh {
            vertices: &[1.0, 2.0],
            ..mesh
        },
    )
}

// ---- one triangle

// A number that is none, made where the compiler cannot see it coming, so that the library's own test meets it.
fn not_a_number(zero: f32) -> f32 {
    zero / zero
}

fn slivers(rt: &impl Print) -> io::Result<()> {
    for (name, grid, corners) in [
        (
            "a sliver left of the grid: column 0 0 stays empty",
            hall(),
            [
                corner(-2.0, 1.0, 0.5),
                corner(-0.5, 1.0, 0.5),
                corner(1.5, 1.0, 4.5),
            ],
        ),
        (
            "a part that is used up inside the grid leaves no floor behind it",
            Grid {
                min: corner(0.0, 0.0, -1.0),
                cell_size: 0.6,
                ..cells(1.2, 8.0, 0.8000001)
            },
            [
                corner(0.0, 1.0, -1.0),
                corner(1.2, 1.0, -1.0),
                corner(0.0, 1.0, 0.20000003),
            ],
        ),
        (
            "a vertex that is no number",
            hall(),
            [
                corner(0.0, 1.0, 0.0),
                corner(not_a_number(0.0), 1.0, 0.0),
                corner(0.0, 1.0, 4.0),
            ],
        ),
        (
            "a cut that would write an eighth vertex",
            cells(4.0, 8.0, 5.0),
            [
                corner(9.0, 0.0, 8.0),
                corner(1.0000001, 0.0, 1.9999999),
                corner(0.0, 0.0, 0.0),
            ],
        ),
        (
            "a floor that is too high",
            cells(4.0, 80000.0, 4.0),
            [
                corner(0.2, 70000.0, 0.2),
                corner(0.8, 70000.0, 0.2),
                corner(0.2, 70000.0, 0.8),
            ],
        ),
    ] {
        let mut store = Roomy::new(grid);
        let answer = store.rasterize_triangle(grid, &mut [1; 32], corners, 255, 1);
        show(rt, name, grid, answer, &store)?;
    }
    Ok(())
}

// A triangle that leans into the last columns of the last rows of the widest grid that is accepted: 4,096 x 256 cells, as many columns as there may be.
fn widest(rt: &impl Print) -> io::Result<()> {
    let grid = cells(4096.0, 8.0, 256.0);
    let corners = [
        corner(4093.5, 1.0, 255.5),
        corner(4095.5, 2.5, 255.5),
        corner(4095.5, 2.5, 252.5),
    ];
    let mut store = Store::<1048576, 16>::empty();
    let _ = store.fresh(grid);
    let answer = store.rasterize_triangle(grid, &mut [1; 16], corners, 255, 1);
    show(rt, "4,096 by 256 cells", grid, answer, &store)
}

fn main(rt: HostRuntime) -> io::Result<()> {
    full_stores(&rt)?;
    empty_meshes(&rt)?;
    slivers(&rt)?;
    widest(&rt)
}
