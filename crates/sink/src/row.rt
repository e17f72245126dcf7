ghost use Rattle.std.specs.Prelude.{◌≡◌, ◌<◌, length, slice_set};

use crate::refusal::PutRefusal;
use crate::sink::Sink;

// A sink that keeps items in order in a row that its caller lends. That the items fit the row is no ghost field: the toolchain does
// not cover callers that take a struct with one beside its `&mut` by value, to put into it, hand it on or take it apart. So each
// method is right for every length.
#[derive(Drop)]
pub struct RowSink<'a, T> {
    // The places are the caller's, since the library takes no memory of its own.
    row: &'a mut [T],
    // How many of the row's first elements are items: one more with each put, and handed back by `into_parts`.
    len: usize,
}

impl<'a, T: Copy> Sink for RowSink<'a, T> {
    ghost use Rattle.std.specs.Prelude.{ℕ, List};
    ghost use Rattle.std.specs.Borrow.{GName};
    ghost use Rattle.sink.specs.Puts.{Answered};
    ghost use Rattle.sink.specs.Rows.{row_held, row_left, row_makes, row_origin, RowWritten};

    type Item = T;

    ghost Held = { List T };

    ghost held = { row_held };

    ghost makes = { row_makes };

    ghost left = { row_left };

    // The lent row itself, and its length.
    ghost Origin = { GName × ℕ };

    ghost origin = { row_origin };

    fn put(&mut self, item: T) -> Result<(), PutRefusal<T>>
        ensures put { Answered row_held row_makes row_left self.old item result self.new }
        ensures origin { row_origin self.new ≡ row_origin self.old }
        ensures row { RowWritten self.old item result self.new }
    {
        if self.len >= self.row.len() {
            return Err(PutRefusal::Full(item));
        }
        store(self.row, self.len, item);
        self.len += 1;
        Ok(())
    }

    fn places(&self) -> u64 {
        self.row.len().saturating_sub(self.len) as u64
    }
}

impl<'a, T> RowSink<'a, T> {
    ghost use Rattle.std.specs.Prelude.{take};

    // An empty sink with a place for each element of the row. That the row is the same one is said in full here and below,
    // since each contract speaks of another value.
    pub fn new(row: &'a mut [T]) -> RowSink<'a, T>
        ensures { (result.len ≡ 0)
            × (result.row.now ≡ row.old)
            × (result.row.ghost_name ≡ row.entry.ghost_name) }
    {
        RowSink { row, len: 0 }
    }

    // Frees all places; the row's elements stay until they are written over.
    pub fn empty(&mut self)
        ensures { (self.new.len ≡ 0)
            × (self.new.row.now ≡ self.old.row.now)
            × (self.new.row.ghost_name ≡ self.old.row.ghost_name) }
    {
        self.len = 0;
    }

    // The items that it holds, in order.
    pub fn items(&self) -> &[T]
        ensures { result.now ≡ take self.now.len self.now.row.now }
    {
        if self.len < self.row.len() {
            &self.row[..self.len]
        } else {
            &self.row[..]
        }
    }

    // The row back, as the puts have left it, and how many of its elements are items.
    pub fn into_parts(self) -> (&'a mut [T], usize)
        ensures { (result.0.now ≡ self.entry.row.now)
            × (result.0.ghost_name ≡ self.entry.row.ghost_name)
            × (result.1 ≡ self.entry.len) }
    {
        let RowSink { row, len } = self;
        (row, len)
    }
}

// Writes an item into its place of the row. A function, to which the row is handed on: `get_mut` in `put` left its clauses open.
fn store<T: Copy>(row: &mut [T], at: usize, item: T)
    requires { at < length row.old }
    ensures { row.new ≡ slice_set row.old at item }
{
    row[at] = item;
}
