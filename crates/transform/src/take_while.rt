ghost use Rattle.std.specs.Prelude.{◌≡◌};
ghost use Rattle.stream.specs.Answers.{first, rest};
ghost use Rattle.stream.specs.Itemwise.{called};
ghost use Rattle.stream.specs.Pipelines.{Polled};
ghost use Rattle.transform.specs.TakeWhilePipeline.{take_while_answers, take_while_pipeline};

use stream::callback::Callback;
use stream::poll::Poll;
use stream::ready;
use stream::stream::Stream;

// Turns each item that the callback turns down into None, and goes on at the next poll.
#[derive(Drop)]
pub struct TakeWhile<S, P> {
    stream: S,
    predicate: P,
}

impl<S, P> TakeWhile<S, P> {
    pub fn new(stream: S, predicate: P) -> TakeWhile<S, P>
        ensures { (result.stream ≡ stream) × (result.predicate ≡ predicate) }
    {
        TakeWhile { stream, predicate }
    }

    // The stream and the callback, as they are now.
    pub fn into_parts(self) -> (S, P)
        ensures { (result.0 ≡ self.stream) × (result.1 ≡ self.predicate) }
    {
        let TakeWhile { stream, predicate } = self;
        (stream, predicate)
    }
}

impl<S: Stream, P: Callback<Input = S::Item, Output = bool>> Stream for TakeWhile<S, P>
where
    S::Item: Copy,
{
    type Item = S::Item;

    ghost answers = { take_while_answers S.Stream P.Callback };

    ghost pipeline = { take_while_pipeline S.Stream P.Callback };

    fn poll_next(&mut self) -> Poll<Option<S::Item>>
        ensures polled { Polled (take_while_answers S.Stream P.Callback)
            (take_while_pipeline S.Stream P.Callback) self.old result self.new }
        ensures stream { S.Stream.answers self.new.stream ≡ rest (S.Stream.answers self.old.stream) }
        ensures callback { self.new.predicate
            ≡ called P.Callback.next self.old.predicate (first (S.Stream.answers self.old.stream)) }
    {
        // A match, since Option's `filter` does not promise that a closure that it does not call leaves the callback as it was.
        match ready!(self.stream.poll_next()) {
            None => Poll::Ready(None),
            Some(item) => Poll::Ready(self.predicate.call(item).then_some(item)),
        }
    }
}
