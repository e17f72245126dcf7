ghost use Rattle.std.specs.Prelude.{◌≡◌};
ghost use Rattle.stream.specs.Answers.{first, rest};
ghost use Rattle.stream.specs.Itemwise.{called};
ghost use Rattle.stream.specs.Pipelines.{Polled};
ghost use Rattle.transform.specs.ScanPipeline.{scan_answers, scan_pipeline};

use stream::callback::Callback;
use stream::poll::Poll;
use stream::ready;
use stream::stream::Stream;

// Turns each item into the callback's output, or into None, and goes on at the next poll. The callback holds the state.
// MapWhile does the same; both stay, since the library that they come from names both.
#[derive(Drop)]
pub struct Scan<S, F> {
    stream: S,
    f: F,
}

impl<S, F> Scan<S, F> {
    pub fn new(stream: S, f: F) -> Scan<S, F>
        ensures { (result.stream ≡ stream) × (result.f ≡ f) }
    {
        Scan { stream, f }
    }

    // The stream and the callback, as they are now.
    pub fn into_parts(self) -> (S, F)
        ensures { (result.0 ≡ self.stream) × (result.1 ≡ self.f) }
    {
        let Scan { stream, f } = self;
        (stream, f)
    }
}

impl<S: Stream, F: Callback<Input = S::Item, Output = Option<T>>, T> Stream for Scan<S, F> {
    type Item = T;

    ghost answers = { scan_answers S.Stream F.Callback };

    ghost pipeline = { scan_pipeline S.Stream F.Callback };

    fn poll_next(&mut self) -> Poll<Option<T>>
        ensures polled { Polled (scan_answers S.Stream F.Callback) (scan_pipeline S.Stream F.Callback) self.old
            result self.new }
        ensures stream { S.Stream.answers self.new.stream ≡ rest (S.Stream.answers self.old.stream) }
        ensures callback { self.new.f
            ≡ called F.Callback.next self.old.f (first (S.Stream.answers self.old.stream)) }
    {
        // A match, since Option's `and_then` does not promise that a closure that it does not call leaves the callback as it was.
        match ready!(self.stream.poll_next()) {
            None => Poll::Ready(None),
            Some(item) => Poll::Ready(self.f.call(item)),
        }
    }
}
