#![tactic(auto)]
// The pure half of rasterising: from a triangle to the cells that it meets and the heights of its part in each.
// What the whole comes to is `triangle_events` in specs/Work.antt; the span store carries it out.

pub mod cell;
pub mod cut;
pub mod frame;
pub mod heights;
pub mod poly;
pub mod rest;
pub mod slices;
