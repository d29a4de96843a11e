// What the program knows from line to line, and how it obeys a command.
use crate::answers::Answer;
use crate::commands::{Call, Command, Name, Needs, View};
use crate::compact::{Compact, Made};
use crate::input::Line;
use crate::mesh::Mesh;
use crate::store::{FIRST_LENT, Store};
use crate::words::Words;
use crate::writer::{Out, Text};
use crate::{answers, calls, map, parse, shows};
use grid::{Corner, Grid};
use rerecast::Refusal;
use std::alloc::{AllocError, Global};

#[derive(Drop)]
pub struct Bench {
    // whether only the bare answers are written
    terse: bool,
    plan: Plan,
    compact: Compact,
    mesh: Mesh,
    store: Store,
}

// A grid, its cells in a row (0 of a grid that is refused), and its columns.
#[derive(Clone, Copy)]
pub struct Plan {
    pub grid: Grid,
    pub width: u32,
    pub columns: usize,
}

impl From<Grid> for Plan {
    fn from(grid: Grid) -> Plan {
        let (width, columns) = match grid::check(grid) {
            Ok(size) => (size.width, size.width as usize * size.height as usize),
            Err(_) => (0, 0),
        };
        Plan {
            grid,
            width,
            columns,
        }
    }
}

// A grid that every call refuses.
fn no_grid() -> Grid {
    let origin = Corner {
        x: 0.0,
        y: 0.0,
        z: 0.0,
    };
    Grid {
        min: origin,
        max: origin,
        cell_size: 0.0,
        cell_height: 0.0,
    }
}

impl Bench {
    // In this order, between the input and the output, the lists leave the least of the C library's heap unused.
    pub fn new(alloc: Global) -> Result<Bench, AllocError> {
        Ok(Bench {
            terse: false,
            plan: Plan::from(no_grid()),
            compact: Compact::new(alloc)?,
            mesh: Mesh::new(alloc)?,
            store: Store::new(alloc)?,
        })
    }

    // Forgets all but how the program writes.
    fn forget(&mut self) -> Result<(), AllocError> {
        self.plan = Plan::from(no_grid());
        self.store.clear()?;
        self.mesh.clear();
        self.mesh.area = 255;
        self.compact.made = None;
        self.compact.lend(FIRST_LENT)
    }

    // Reads a line, and obeys.
    pub fn read(&mut self, line: Line<'_>, out: &mut Out) -> Result<(), AllocError> {
        let number = line.number;
        match line.text.and_then(parse::command) {
            Ok(Some(command)) => self.obey(command, number, out)?,
            Ok(None) => {}
            Err(unread) => writeln!(out, "line {number}: cannot be read, expected {unread}"),
        }
        Ok(())
    }

    // Obeys the command of the line of this number.
    fn obey(&mut self, command: Command<'_>, line: u64, out: &mut Out) -> Result<(), AllocError> {
        match command {
            Command::Case(words) => {
                self.terse = true;
                say_case(out, words);
                self.forget()?;
            }
            Command::Grid(grid) => self.lay_out(grid)?,
            Command::Slots(slots) => self.store.lend(slots)?,
            Command::Spans(spans) => self.compact.lend(spans)?,
            Command::Vertex(vertex) => {
                if !self.mesh.add_vertex(vertex)? {
                    say_no_room(out, line);
                }
            }
            Command::Area(area) => self.mesh.area = area,
            Command::Face(face) => {
                if !self.mesh.add_face(face)? {
                    say_no_room(out, line);
                }
            }
            Command::NoMesh => self.mesh.clear(),
            Command::Call(call) => {
                let (name, answer) = self.call(call);
                answers::say(out, self.terse, name, answer);
            }
            Command::Show(view) => self.show(view, out),
            Command::Poke(damage) => {
                if !self.store.put(damage, self.plan.columns) {
                    writeln!(out, "line {line}: nothing is lent there");
                }
            }
            Command::Help => say_help(out),
            Command::Terse => self.terse = true,
        }
        Ok(())
    }

    fn lay_out(&mut self, grid: Grid) -> Result<(), AllocError> {
        self.plan = Plan::from(grid);
        self.store.lend_heads(self.plan.columns)
    }

    fn call(&mut self, call: Call) -> (Name, Answer) {
        let grid = self.plan.grid;
        let store = &mut self.store;
        let (name, done) = match call {
            Call::Fresh => {
                self.compact.made = None;
                (Name::Fresh, calls::fresh(grid, store))
            }
            Call::Add(offer) => (Name::Add, calls::add(grid, store, offer)),
            Call::Rasterize(threshold) => {
                let done = calls::rasterize(grid, store, &self.mesh, threshold);
                (Name::Rasterize, done)
            }
            Call::Populate(needs) => {
                let done = calls::populate(grid, store, &self.mesh, needs);
                (Name::Populate, done)
            }
            Call::Low(climb) => (Name::Low, calls::low(grid, store, climb)),
            Call::Ledges(needs) => (Name::Ledges, calls::ledges(grid, store, needs)),
            Call::Ceilings(height) => (Name::Ceilings, calls::ceilings(grid, store, height)),
            Call::Compact(needs) => return (Name::Compact, self.pack(needs)),
        };
        (name, done.map(|()| None))
    }

    fn pack(&mut self, needs: Needs) -> Answer {
        let done = calls::compact(self.plan.grid, &mut self.store, &mut self.compact, needs);
        let Plan { width, columns, .. } = self.plan;
        self.compact.made = match done {
            Ok(_) | Err(Refusal::Layers(_, _)) => Some(Made { width, columns }),
            Err(_) => None,
        };
        done.map(Some)
    }

    fn show(&self, view: View, out: &mut Out) {
        let width = self.plan.width;
        let heads = self.store.heads(self.plan.columns);
        let slots = self.store.slots();
        match view {
            View::Columns => shows::columns(out, width, heads, slots),
            View::Raw => shows::raw(out, heads, self.store.free, slots),
            View::Compact => shows::compact(out, &self.compact),
            View::Map => map::map(out, width, heads, slots),
        }
    }
}

// A case's line, one space between its words.
fn say_case(out: &mut Out, words: Words<'_>) {
    write!(out, "{}", Name::Case.word());
    let mut text = Text::new(out);
    for word in words {
        text.put(b' ');
        text.say(word);
    }
    text.put(b'\n');
    text.finish();
}

fn say_no_room(out: &mut Out, line: u64) {
    writeln!(
        out,
        "line {line}: no room for more than 2000 vertices and 1000 faces"
    );
}

fn say_help(out: &mut Out) {
    writeln!(
        out,
        "A command a line; # starts a comment. Whole numbers are decimal or 0x; floats are 0x and eight digits of bits, or decimal."
    );
    for name in Name::ALL {
        for piece in ["  ", name.word(), name.rest(), "\n"] {
            out.write_bytes(piece.as_bytes());
        }
    }
}
