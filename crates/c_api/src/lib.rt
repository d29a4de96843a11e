#![tactic(auto)]
// The library for C: every public call under a plain name, over numbers and slices alone. include/lichenvault.h tells a C programmer what each does.
mod answers;
pub mod compact_heightfield;
pub mod heightfield;
pub mod links;
pub mod numbers;
pub mod pre_filter;
pub mod rasterize;
