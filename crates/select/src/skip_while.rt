ghost use Rattle.std.specs.Prelude.{◌≡◌, Some};
ghost use Rattle.stream.specs.Itemwise.{read_past};
ghost use Rattle.stream.specs.Pipelines.{Polled};
ghost use Rattle.select.specs.SkipWhilePipeline.{skip_while_answers, skip_while_pipeline};
ghost use Rattle.select.specs.SkipWhileRule.{let_go, skips_while};

use stream::callback::Callback;
use stream::poll::Poll;
use stream::ready;
use stream::stream::Stream;

// Drops the items up to the first on which the callback says no.
#[derive(Drop)]
pub struct SkipWhile<S, P> {
    stream: S,
    // The callback, until it says no.
    predicate: Option<P>,
}

impl<S, P> SkipWhile<S, P> {
    pub fn new(stream: S, predicate: P) -> SkipWhile<S, P>
        ensures { (result.stream ≡ stream) × (result.predicate ≡ Some predicate) }
    {
        SkipWhile {
            stream,
            predicate: Some(predicate),
        }
    }

    // The stream as it is now, and the callback unless it has said no.
    pub fn into_parts(self) -> (S, Option<P>)
        ensures { (result.0 ≡ self.stream) × (result.1 ≡ self.predicate) }
    {
        let SkipWhile { stream, predicate } = self;
        (stream, predicate)
    }
}

impl<S: Stream, P: Callback<Input = S::Item, Output = bool> + Drop> Stream for SkipWhile<S, P>
where
    S::Item: Copy,
{
    type Item = S::Item;

    ghost answers = { skip_while_answers S.Stream P.Callback };

    ghost pipeline = { skip_while_pipeline S.Stream P.Callback };

    fn poll_next(&mut self) -> Poll<Option<S::Item>>
        ensures polled { Polled (skip_while_answers S.Stream P.Callback)
            (skip_while_pipeline S.Stream P.Callback) self.old result self.new }
        ensures parts { (self.new.predicate, S.Stream.answers self.new.stream)
            ≡ read_past (skips_while P.Callback.output) (let_go P.Callback.output P.Callback.next)
            self.old.predicate (S.Stream.answers self.old.stream) }
    {
        loop {
            match ready!(self.stream.poll_next()) {
                None => return Poll::Ready(None),
                Some(item) => match &mut self.predicate {
                    Some(predicate) => {
                        if !predicate.call(item) {
                            self.predicate = None;
                            return Poll::Ready(Some(item));
                        }
                    }
                    None => return Poll::Ready(Some(item)),
                },
            }
        }
    }
}
