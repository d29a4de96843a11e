// The slices of a store, a mesh and a compact result, as the inner functions pass them on together. The public calls are lent them one by one, since C
// lends them so, and since a call that first changes the slots and then reads some of them takes them apart in between, which a struct lent whole does not
// allow: its fields can't be lent in two ways at once. Heads stay beside the slots, since most calls lend on only the first of them.

// The slots of a store, to be changed: the first slot of the free chain, the spans that the slots hold, and the slot that follows each.
#[derive(Drop)]
pub(crate) struct Slots<'a> {
    pub free: &'a mut u32,
    pub floors: &'a mut [u16],
    pub ceilings: &'a mut [u16],
    pub areas: &'a mut [u8],
    pub nexts: &'a mut [u32],
}

// The columns of a store, to be read: the lowest slot of each, and of the slots all but the areas.
#[derive(Clone, Copy)]
pub(crate) struct Columns<'a> {
    pub heads: &'a [u32],
    pub free: u32,
    pub floors: &'a [u16],
    pub ceilings: &'a [u16],
    pub nexts: &'a [u32],
}

// A mesh: three numbers for each vertex, three vertex numbers for each triangle, and an area for each triangle.
#[derive(Clone, Copy)]
pub(crate) struct Mesh<'a> {
    pub vertices: &'a [f32],
    pub indices: &'a [u32],
    pub areas: &'a [u8],
}

// What a compact result is written to: an index and a count for each column, and a height, a word of links and an area for each open space.
#[derive(Drop)]
pub(crate) struct Compact<'a> {
    pub indices: &'a mut [u32],
    pub counts: &'a mut [u8],
    pub ys: &'a mut [u16],
    pub words: &'a mut [u32],
    pub areas: &'a mut [u8],
}
