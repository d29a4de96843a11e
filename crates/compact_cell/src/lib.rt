#![tactic(auto)]
// A compact cell: the place of a column's first compact span, and how many spans the column has.
// A cell is lent, and its count is raised in place.
ghost use Rattle.std.specs.Prelude.{◌≡◌, ◌+◌, OnErr, IfOk};
ghost use Rattle.compact_cell.specs.Cell.{cell_of, raised_cell, raised_counts};
ghost use Rattle.compact_cell.specs.Replies.{said_of, said_of_at, raise_says, raise_at_says};
ghost use Rattle.compact_cell.specs.declared.RaiseError.TheVariants as error;

use std::ops::Range;

#[derive(Clone, Copy, Debug, PartialEq, Eq)]
pub struct CompactCell {
    pub index: u32,
    pub count: u8,
}

// The places of a cell's spans: from `start`, and before `end`. A `Range` is no `Copy`; `Range::from` makes one of it.
#[derive(Clone, Copy, Debug, PartialEq, Eq)]
pub struct IndexRange {
    pub start: usize,
    pub end: usize,
}

impl From<IndexRange> for Range<usize> {
    ghost from_gives = { λ i r. (r.start ≡ i.start) × (r.end ≡ i.end) };

    fn from(places: IndexRange) -> Range<usize> {
        places.start..places.end
    }
}

// A cell's count can't be raised: it is the largest. Reply 11.
#[derive(Clone, Copy, Debug, PartialEq, Eq)]
pub struct Full;

// Why the count at a place of lent slices can't be raised: `NoCell`, where the place is past either of them, is reply 4.
#[derive(Clone, Copy, Debug, PartialEq, Eq)]
pub enum RaiseError {
    NoCell,
    Full,
}

impl From<Full> for RaiseError {
    ghost from_gives = { λ _ e. e ≡ error.Full };

    fn from(_full: Full) -> RaiseError {
        RaiseError::Full
    }
}

impl CompactCell {
    // The most spans that a column may have.
    pub const MAX_COUNT: u8 = u8::MAX;

    pub fn new(index: u32, count: u8) -> Self
        ensures { result ≡ cell_of index count }
    {
        CompactCell { index, count }
    }

    pub fn index(self) -> u32
        ensures { result ≡ self.index }
    {
        self.index
    }

    pub fn count(self) -> u8
        ensures { result ≡ self.count }
    {
        self.count
    }

    pub fn set_index(self, index: u32) -> Self
        ensures { result ≡ cell_of index self.count }
    {
        CompactCell { index, ..self }
    }

    pub fn set_count(self, count: u8) -> Self
        ensures { result ≡ cell_of self.index count }
    {
        CompactCell { count, ..self }
    }

    // Where the cell's spans stand. The sum can't overflow: both numbers are far below the range of usize.
    pub fn index_range(self) -> IndexRange
        ensures { (result.start ≡ self.index) × (result.end ≡ self.index + self.count) }
    {
        let start = self.index as usize;
        IndexRange {
            start,
            end: start + self.count as usize,
        }
    }

    // One more span in a lent cell: at the largest count it stays, with reply 11.
    pub fn inc_count(&mut self) -> Result<(), Full>
        ensures { (self.new ≡ raised_cell self.old) × (said_of result ≡ raise_says self.old.count) }
    {
        self.count = self.count.checked_add(1).ok_or(Full)?;
        Ok(())
    }

    // The same of a cell by value: it lends its own copy, so that a caller needs no reference to a cell.
    // On a refusal the cell that was passed stays as it is, so none is handed back.
    pub fn raise(self) -> Result<Self, Full>
        ensures reply { said_of result ≡ raise_says self.count }
        ensures raised { IfOk result (λ cell. cell ≡ raised_cell self) }
        ensures stays { OnErr result (self ≡ raised_cell self) }
    {
        let mut cell = self;
        cell.inc_count()?;
        Ok(cell)
    }
}

// One more span in the cell at a place of the lent slices: refused (4) past either of them.
// A cell's two numbers are in two slices, since C lends them so.
pub fn raise_at(indices: &[u32], counts: &mut [u8], place: usize) -> Result<(), RaiseError>
    ensures counts_after { counts.new ≡ raised_counts indices.now counts.old place }
    ensures result_value { said_of_at result ≡ raise_at_says indices.now counts.old place }
{
    let index = indices.get(place).copied().ok_or(RaiseError::NoCell)?;
    let count = counts.get(place).copied().ok_or(RaiseError::NoCell)?;
    let cell = CompactCell::new(index, count).raise()?;
    counts[place] = cell.count;
    Ok(())
}
