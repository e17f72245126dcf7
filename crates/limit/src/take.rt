ghost use Rattle.std.specs.Prelude.{◌≡◌};
ghost use Rattle.stream.specs.Answers.{waits_in};
ghost use Rattle.stream.specs.Pipelines.{Polled};
ghost use Rattle.limit.specs.TakePipeline.{TakeTook, take_answers, take_pipeline};

use stream::poll::Poll;
use stream::ready;
use stream::stream::Stream;

// Ends after the nth item, or at the first None.
#[derive(Drop)]
pub struct Take<S> {
    stream: S,
    // How many items may still be passed on.
    n: u64,
}

impl<S> Take<S> {
    pub fn new(stream: S, n: u64) -> Take<S>
        ensures { (result.stream ≡ stream) × (result.n ≡ n) }
    {
        Take { stream, n }
    }

    // The stream as it is now, and how many items may still be passed on.
    pub fn into_parts(self) -> (S, u64)
        ensures { (result.0 ≡ self.stream) × (result.1 ≡ self.n) }
    {
        let Take { stream, n } = self;
        (stream, n)
    }
}

impl<S: Stream> Stream for Take<S> {
    type Item = S::Item;

    ghost answers = { take_answers S.Stream };

    ghost pipeline = { take_pipeline S.Stream };

    fn poll_next(&mut self) -> Poll<Option<S::Item>>
        ensures polled { Polled (take_answers S.Stream) (take_pipeline S.Stream) self.old result self.new }
        ensures parts { TakeTook S.Stream self.old (waits_in result) self.new }
    {
        if self.n == 0 {
            return Poll::Ready(None);
        }
        let next = ready!(self.stream.poll_next());
        match next {
            Some(_) => self.n -= 1,
            None => self.n = 0,
        }
        Poll::Ready(next)
    }
}
