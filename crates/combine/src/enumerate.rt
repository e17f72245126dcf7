ghost use Rattle.std.specs.Prelude.{◌≡◌};
ghost use Rattle.stream.specs.Answers.{first, rest};
ghost use Rattle.stream.specs.Itemwise.{called};
ghost use Rattle.stream.specs.Pipelines.{Polled};
ghost use Rattle.combine.specs.EnumeratePipeline.{enumerate_answers, enumerate_pipeline};
ghost use Rattle.combine.specs.EnumerateRule.{next_number};

use stream::poll::Poll;
use stream::ready;
use stream::stream::Stream;

// Pairs each item with the number of items before it.
#[derive(Drop)]
pub struct Enumerate<S> {
    stream: S,
    i: u64,
}

impl<S> Enumerate<S> {
    pub fn new(stream: S) -> Enumerate<S>
        ensures { (result.stream ≡ stream) × (result.i ≡ 0) }
    {
        Enumerate { stream, i: 0 }
    }

    // The stream as it is now, and the number of its next item.
    pub fn into_parts(self) -> (S, u64)
        ensures { (result.0 ≡ self.stream) × (result.1 ≡ self.i) }
    {
        let Enumerate { stream, i } = self;
        (stream, i)
    }
}

impl<S: Stream> Stream for Enumerate<S> {
    type Item = (u64, S::Item);

    ghost answers = { enumerate_answers S.Stream };

    ghost pipeline = { enumerate_pipeline S.Stream };

    fn poll_next(&mut self) -> Poll<Option<(u64, S::Item)>>
        ensures polled { Polled (enumerate_answers S.Stream) (enumerate_pipeline S.Stream) self.old result
            self.new }
        ensures stream { S.Stream.answers self.new.stream ≡ rest (S.Stream.answers self.old.stream) }
        ensures number { self.new.i
            ≡ called (λ i _. next_number i) self.old.i (first (S.Stream.answers self.old.stream)) }
    {
        // A match, since Option's `map` does not promise that a closure that it does not call leaves the number as it was.
        match ready!(self.stream.poll_next()) {
            None => Poll::Ready(None),
            Some(item) => {
                let number = self.i;
                // No stream is too long: past u64::MAX the numbers start again.
                self.i = number.wrapping_add(1);
                Poll::Ready(Some((number, item)))
            }
        }
    }
}
