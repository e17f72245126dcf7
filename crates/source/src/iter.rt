ghost use Rattle.std.specs.Prelude.{◌≡◌, length};
ghost use Rattle.stream.specs.Pipelines.{Polled};
ghost use Rattle.source.specs.IterRule.{next_place};
ghost use Rattle.source.specs.IterPipeline.{iter_answers, iter_pipeline};

use stream::poll::Poll;
use stream::stream::Stream;

// Gives the items of a lent row in order. It keeps the whole row and a place in it, since into_parts hands both back: a
// slice's own iterator, or a row that is cut shorter at each poll, has neither, and a sum over a filter of either took twice
// the time.
#[derive(Drop)]
pub struct Iter<'a, T> {
    row: &'a [T],
    at: usize,
}

impl<'a, T> Iter<'a, T> {
    pub fn new(row: &'a [T]) -> Iter<'a, T>
        ensures { (result.row.now ≡ row.now) × (result.at ≡ 0) }
    {
        Iter { row, at: 0 }
    }

    // The row, and the place of the item that comes next.
    pub fn into_parts(self) -> (&'a [T], usize)
        ensures { (result.0.now ≡ self.entry.row.now) × (result.1 ≡ self.entry.at) }
    {
        let Iter { row, at } = self;
        (row, at)
    }
}

impl<'a, T: Copy> Stream for Iter<'a, T> {
    type Item = T;

    ghost answers = { iter_answers };

    ghost pipeline = { iter_pipeline };

    fn poll_next(&mut self) -> Poll<Option<T>>
        ensures polled { Polled iter_answers iter_pipeline self.old result self.new }
        ensures row { self.new.row.now ≡ self.old.row.now }
        ensures place { self.new.at ≡ next_place (length self.old.row.now) self.old.at }
    {
        match self.row.get(self.at) {
            Some(&item) => {
                self.at += 1;
                Poll::Ready(Some(item))
            }
            None => Poll::Ready(None),
        }
    }
}
