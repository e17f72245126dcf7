ghost use Rattle.std.specs.Prelude.{◌≡◌, false};
ghost use Rattle.stream.specs.Answers.{waits_in};
ghost use Rattle.stream.specs.Pipelines.{Polled};
ghost use Rattle.combine.specs.ChainPipeline.{ChainTook, chain_answers, chain_pipeline};

use limit::fuse::Fuse;
use stream::poll::Poll;
use stream::ready;
use stream::stream::Stream;

// Gives the first stream up to its first None, and then the second up to its first None.
#[derive(Drop)]
pub struct Chain<S, U> {
    first: Fuse<S>,
    second: Fuse<U>,
}

impl<S, U> Chain<S, U> {
    pub fn new(first: S, second: U) -> Chain<S, U>
        ensures { (result.first.stream ≡ first)
            × (result.first.done ≡ false)
            × (result.second.stream ≡ second)
            × (result.second.done ≡ false) }
    {
        Chain {
            first: Fuse::new(first),
            second: Fuse::new(second),
        }
    }

    // The two streams as they are now, each with whether it has answered None.
    pub fn into_parts(self) -> (Fuse<S>, Fuse<U>)
        ensures { (result.0 ≡ self.first) × (result.1 ≡ self.second) }
    {
        let Chain { first, second } = self;
        (first, second)
    }
}

impl<S: Stream, U: Stream<Item = S::Item>> Stream for Chain<S, U> {
    type Item = S::Item;

    ghost answers = { chain_answers S.Stream U.Stream };

    ghost pipeline = { chain_pipeline S.Stream U.Stream };

    // A stream that has answered None is not polled again: its Fuse then answers None by itself.
    fn poll_next(&mut self) -> Poll<Option<S::Item>>
        ensures polled { Polled (chain_answers S.Stream U.Stream) (chain_pipeline S.Stream U.Stream) self.old
            result self.new }
        ensures parts { ChainTook S.Stream U.Stream self.old (waits_in result) self.new }
    {
        match ready!(self.first.poll_next()) {
            None => self.second.poll_next(),
            next => Poll::Ready(next),
        }
    }
}
