ghost use Rattle.std.specs.Prelude.{◌≡◌};
ghost use Rattle.stream.specs.Itemwise.{read_past};
ghost use Rattle.stream.specs.Pipelines.{Polled};
ghost use Rattle.limit.specs.SkipPipeline.{skip_answers, skip_pipeline};
ghost use Rattle.limit.specs.SkipRule.{fewer, skips};

use stream::poll::Poll;
use stream::ready;
use stream::stream::Stream;

// Drops the first n items.
#[derive(Drop)]
pub struct Skip<S> {
    stream: S,
    // How many items are still to be dropped.
    n: u64,
}

impl<S> Skip<S> {
    pub fn new(stream: S, n: u64) -> Skip<S>
        ensures { (result.stream ≡ stream) × (result.n ≡ n) }
    {
        Skip { stream, n }
    }

    // The stream as it is now, and how many items are still to be dropped.
    pub fn into_parts(self) -> (S, u64)
        ensures { (result.0 ≡ self.stream) × (result.1 ≡ self.n) }
    {
        let Skip { stream, n } = self;
        (stream, n)
    }
}

impl<S: Stream> Stream for Skip<S>
where
    S::Item: Drop,
{
    type Item = S::Item;

    ghost answers = { skip_answers S.Stream };

    ghost pipeline = { skip_pipeline S.Stream };

    fn poll_next(&mut self) -> Poll<Option<S::Item>>
        ensures polled { Polled (skip_answers S.Stream) (skip_pipeline S.Stream) self.old result self.new }
        ensures parts { (self.new.n, S.Stream.answers self.new.stream)
            ≡ read_past skips fewer self.old.n (S.Stream.answers self.old.stream) }
    {
        loop {
            match ready!(self.stream.poll_next()) {
                None => return Poll::Ready(None),
                Some(item) => match self.n {
                    0 => return Poll::Ready(Some(item)),
                    _ => self.n -= 1,
                },
            }
        }
    }
}
