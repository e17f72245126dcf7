ghost use Rattle.std.specs.Prelude.{◌≡◌};
ghost use Rattle.stream.specs.Answers.{first, rest};
ghost use Rattle.stream.specs.Itemwise.{called};
ghost use Rattle.stream.specs.Pipelines.{Polled};
ghost use Rattle.transform.specs.MapPipeline.{map_answers, map_pipeline};

use stream::callback::Callback;
use stream::poll::Poll;
use stream::ready;
use stream::stream::Stream;

// Replaces each item by the callback's output.
#[derive(Drop)]
pub struct Map<S, F> {
    stream: S,
    f: F,
}

impl<S, F> Map<S, F> {
    pub fn new(stream: S, f: F) -> Map<S, F>
        ensures { (result.stream ≡ stream) × (result.f ≡ f) }
    {
        Map { stream, f }
    }

    // The stream and the callback, as they are now.
    pub fn into_parts(self) -> (S, F)
        ensures { (result.0 ≡ self.stream) × (result.1 ≡ self.f) }
    {
        let Map { stream, f } = self;
        (stream, f)
    }
}

impl<S: Stream, F: Callback<Input = S::Item>> Stream for Map<S, F> {
    type Item = F::Output;

    ghost answers = { map_answers S.Stream F.Callback };

    ghost pipeline = { map_pipeline S.Stream F.Callback };

    fn poll_next(&mut self) -> Poll<Option<F::Output>>
        ensures polled { Polled (map_answers S.Stream F.Callback) (map_pipeline S.Stream F.Callback) self.old
            result self.new }
        ensures stream { S.Stream.answers self.new.stream ≡ rest (S.Stream.answers self.old.stream) }
        ensures callback { self.new.f
            ≡ called F.Callback.next self.old.f (first (S.Stream.answers self.old.stream)) }
    {
        // A match, since Option's `map` does not promise that a closure that it does not call leaves the callback as it was.
        match ready!(self.stream.poll_next()) {
            None => Poll::Ready(None),
            Some(item) => Poll::Ready(Some(self.f.call(item))),
        }
    }
}
