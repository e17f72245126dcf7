ghost use Rattle.std.specs.Prelude.{◌≡◌};
ghost use Rattle.stream.specs.Itemwise.{read_past};
ghost use Rattle.stream.specs.Pipelines.{Polled};
ghost use Rattle.select.specs.FilterPipeline.{filter_answers, filter_pipeline};
ghost use Rattle.select.specs.FilterRule.{filters};

use stream::callback::Callback;
use stream::poll::Poll;
use stream::ready;
use stream::stream::Stream;

// Drops the items on which the callback says no.
#[derive(Drop)]
pub struct Filter<S, P> {
    stream: S,
    predicate: P,
}

impl<S, P> Filter<S, P> {
    pub fn new(stream: S, predicate: P) -> Filter<S, P>
        ensures { (result.stream ≡ stream) × (result.predicate ≡ predicate) }
    {
        Filter { stream, predicate }
    }

    // The stream and the callback, as they are now.
    pub fn into_parts(self) -> (S, P)
        ensures { (result.0 ≡ self.stream) × (result.1 ≡ self.predicate) }
    {
        let Filter { stream, predicate } = self;
        (stream, predicate)
    }
}

impl<S: Stream, P: Callback<Input = S::Item, Output = bool>> Stream for Filter<S, P>
where
    S::Item: Copy,
{
    type Item = S::Item;

    ghost answers = { filter_answers S.Stream P.Callback };

    ghost pipeline = { filter_pipeline S.Stream P.Callback };

    fn poll_next(&mut self) -> Poll<Option<S::Item>>
        ensures polled { Polled (filter_answers S.Stream P.Callback) (filter_pipeline S.Stream P.Callback)
            self.old result self.new }
        ensures parts { (self.new.predicate, S.Stream.answers self.new.stream)
            ≡ read_past (filters P.Callback.output) P.Callback.next self.old.predicate
            (S.Stream.answers self.old.stream) }
    {
        loop {
            match ready!(self.stream.poll_next()) {
                None => return Poll::Ready(None),
                Some(item) if self.predicate.call(item) => return Poll::Ready(Some(item)),
                Some(_) => {}
            }
        }
    }
}
