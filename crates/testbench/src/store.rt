// The store of spans that is lent to the calls.
ghost use Rattle.std.specs.Iterator.{at_most};

use crate::commands::{Damage, Entry};
use field::{NONE, Span};
use std::alloc::{AllocError, Global};

// How many slots, and how many compact spans, are lent at first.
pub const FIRST_LENT: usize = 1024;

// The most that are ever lent.
pub const MOST_LENT: usize = 65536;

const COLUMNS: usize = 16384;

#[derive(Drop)]
pub struct Store {
    pub heads: Vec<u32>,
    // the head of the free chain
    pub free: u32,
    pub floors: Vec<u16>,
    pub ceilings: Vec<u16>,
    pub areas: Vec<u8>,
    pub nexts: Vec<u32>,
    pub marks: Vec<u8>,
    // how many slots are lent; behind them are more if more were ever lent
    pub lent: usize,
    // the most slots and columns since the case began: what stands behind them is 0
    most_slots: usize,
    most_columns: usize,
}

impl Store {
    // There is room for the most that is ever lent, so that no command runs out of memory.
    pub fn new(alloc: Global) -> Result<Store, AllocError> {
        let mut store = Store {
            heads: Vec::with_capacity(alloc, COLUMNS)?,
            free: 0,
            floors: Vec::with_capacity(alloc, MOST_LENT)?,
            ceilings: Vec::with_capacity(alloc, MOST_LENT)?,
            areas: Vec::with_capacity(alloc, MOST_LENT)?,
            nexts: Vec::with_capacity(alloc, MOST_LENT)?,
            marks: Vec::with_capacity(alloc, MOST_LENT)?,
            lent: 0,
            most_slots: 0,
            most_columns: 0,
        };
        store.lend(FIRST_LENT)?;
        Ok(store)
    }

    // All is 0, as when the program starts. Such a store is not sound. Only what may have been written since the last time is touched.
    pub fn clear(&mut self) -> Result<(), AllocError> {
        front_mut(&mut self.heads, self.most_columns).fill(0);
        self.most_columns = 0;
        self.free = 0;
        let slots = self.most_slots;
        front_mut(&mut self.floors, slots).fill(0);
        front_mut(&mut self.ceilings, slots).fill(0);
        front_mut(&mut self.areas, slots).fill(0);
        front_mut(&mut self.nexts, slots).fill(0);
        front_mut(&mut self.marks, slots).fill(0);
        self.most_slots = 0;
        self.lend(FIRST_LENT)
    }

    // From here on a grid has so many columns. Heads that were never lent are 0, and there are more than these if a grid was ever larger.
    pub fn lend_heads(&mut self, columns: usize) -> Result<(), AllocError> {
        let columns = columns.min(COLUMNS);
        if columns > self.heads.len() {
            self.heads.resize(columns, 0)?;
        }
        self.most_columns = self.most_columns.max(columns);
        Ok(())
    }

    // From here on so many slots are lent. Those that never were are 0.
    pub fn lend(&mut self, slots: usize) -> Result<(), AllocError> {
        if slots > self.nexts.len() {
            self.floors.resize(slots, 0)?;
            self.ceilings.resize(slots, 0)?;
            self.areas.resize(slots, 0)?;
            self.nexts.resize(slots, 0)?;
            self.marks.resize(slots, 0)?;
        }
        self.most_slots = self.most_slots.max(slots);
        self.lent = slots;
        Ok(())
    }

    // The lent slots.
    pub fn slots(&self) -> Slots<'_> {
        Slots {
            floors: front(&self.floors, self.lent),
            ceilings: front(&self.ceilings, self.lent),
            areas: front(&self.areas, self.lent),
            nexts: front(&self.nexts, self.lent),
        }
    }

    // The heads of the first columns.
    pub fn heads(&self, columns: usize) -> &[u32] {
        front(&self.heads, columns)
    }

    // Puts a number where it is said, and answers whether a slice has such a place.
    pub fn put(&mut self, damage: Damage, columns: usize) -> bool {
        let lent = self.lent;
        match damage {
            Damage::Head(head) => put(front_mut(&mut self.heads, columns), head),
            Damage::Free(slot) => {
                self.free = slot.value;
                true
            }
            Damage::Floor(floor) => put(front_mut(&mut self.floors, lent), floor),
            Damage::Ceiling(ceiling) => put(front_mut(&mut self.ceilings, lent), ceiling),
            Damage::Area(area) => put(front_mut(&mut self.areas, lent), area),
            Damage::Next(slot) => put(front_mut(&mut self.nexts, lent), slot),
            Damage::Mark(mark) => put(front_mut(&mut self.marks, lent), mark),
        }
    }
}

// So many of a list's first entries, or all that it has.
pub fn front<T>(all: &[T], count: usize) -> &[T] {
    &all[..count.min(all.len())]
}

// The same, to be written.
pub fn front_mut<T>(all: &mut [T], count: usize) -> &mut [T] {
    let end = count.min(all.len());
    &mut all[..end]
}

fn put<T: Copy>(slice: &mut [T], entry: Entry<T>) -> bool {
    let has_place = entry.index < slice.len();
    if has_place {
        slice[entry.index] = entry.value;
    }
    has_place
}

#[derive(Clone, Copy)]
pub struct Slots<'a> {
    pub floors: &'a [u16],
    pub ceilings: &'a [u16],
    pub areas: &'a [u8],
    pub nexts: &'a [u32],
}

impl<'a> Slots<'a> {
    // The spans of the chain that begins with a slot, at most `left` of them. So a chain that runs in a circle comes to an end.
    pub fn chain(self, slot: u32, left: usize) -> Chain<'a> {
        Chain {
            slots: self,
            slot,
            left,
        }
    }
}

#[derive(Clone, Copy)]
pub struct Chain<'a> {
    slots: Slots<'a>,
    slot: u32,
    pub left: usize,
}

impl Iterator for Chain<'_> {
    type Item = Span;

    ghost remaining = { λ s. at_most s.left };

    fn next(&mut self) -> Option<Span> {
        if self.left == 0 {
            return None;
        }
        let i = self.slot as usize;
        self.slot = *self.slots.nexts.get(i)?;
        self.left -= 1;
        Some(Span {
            floor: *self.slots.floors.get(i)?,
            ceiling: *self.slots.ceilings.get(i)?,
            area: *self.slots.areas.get(i)?,
        })
    }
}
