#![tactic(auto)]
// A span, and the number that stands for no slot. The model of a store of spans and the rules on it are definitions: see specs/.

// The number that a head or a next has where there is no slot.
pub const NONE: u32 = 4294967295;

// A filled stretch of a column, from its floor to its ceiling, both in it, with the kind of ground on top of it.
#[derive(Clone, Copy)]
pub struct Span {
    pub floor: u16,
    pub ceiling: u16,
    pub area: u8,
}

impl Span {
    // The largest floor or ceiling.
    pub const MAX_HEIGHT: u16 = 65535;
    // The area of a span that nobody can stand on.
    pub const NOT_WALKABLE: u8 = 0;
    // The area of plain walkable ground.
    pub const DEFAULT_WALKABLE: u8 = 255;
}
