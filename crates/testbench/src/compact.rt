// The compact result.
use crate::store::{FIRST_LENT, MOST_LENT};
use std::alloc::{AllocError, Global};

const COLUMNS: usize = 16384;

#[derive(Drop)]
pub struct Compact {
    pub firsts: Vec<u32>,
    pub counts: Vec<u8>,
    pub ys: Vec<u16>,
    pub links: Vec<u32>,
    pub areas: Vec<u8>,
    // how many spans are lent
    pub lent: usize,
    // the size of the grid that the result is of, if there is a result
    pub made: Option<Made>,
}

#[derive(Clone, Copy)]
pub struct Made {
    pub width: u32,
    pub columns: usize,
}

impl Compact {
    // There is room for the most that is ever lent, so that no command runs out of memory.
    pub fn new(alloc: Global) -> Result<Compact, AllocError> {
        let mut compact = Compact {
            firsts: vec![in alloc; 0; COLUMNS]?,
            counts: vec![in alloc; 0; COLUMNS]?,
            ys: Vec::with_capacity(alloc, MOST_LENT)?,
            links: Vec::with_capacity(alloc, MOST_LENT)?,
            areas: Vec::with_capacity(alloc, MOST_LENT)?,
            lent: 0,
            made: None,
        };
        compact.lend(FIRST_LENT)?;
        Ok(compact)
    }

    // From here on so many spans are lent.
    pub fn lend(&mut self, spans: usize) -> Result<(), AllocError> {
        if spans > self.areas.len() {
            self.ys.resize(spans, 0)?;
            self.links.resize(spans, 0)?;
            self.areas.resize(spans, 0)?;
        }
        self.lent = spans;
        Ok(())
    }
}
