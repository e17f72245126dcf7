ghost use Rattle.std.specs.Prelude.{◌≡◌};
ghost use Rattle.stream.specs.Itemwise.{read_past};
ghost use Rattle.stream.specs.Pipelines.{Polled};
ghost use Rattle.select.specs.FilterMapPipeline.{filter_map_answers, filter_map_pipeline};
ghost use Rattle.select.specs.FilterMapRule.{filter_maps};

use stream::callback::Callback;
use stream::poll::Poll;
use stream::ready;
use stream::stream::Stream;

// Turns each item into the callback's output, and drops those for which it gives nothing.
#[derive(Drop)]
pub struct FilterMap<S, F> {
    stream: S,
    f: F,
}

impl<S, F> FilterMap<S, F> {
    pub fn new(stream: S, f: F) -> FilterMap<S, F>
        ensures { (result.stream ≡ stream) × (result.f ≡ f) }
    {
        FilterMap { stream, f }
    }

    // The stream and the callback, as they are now.
    pub fn into_parts(self) -> (S, F)
        ensures { (result.0 ≡ self.stream) × (result.1 ≡ self.f) }
    {
        let FilterMap { stream, f } = self;
        (stream, f)
    }
}

impl<S: Stream, F: Callback<Input = S::Item, Output = Option<T>>, T> Stream for FilterMap<S, F> {
    type Item = T;

    ghost answers = { filter_map_answers S.Stream F.Callback };

    ghost pipeline = { filter_map_pipeline S.Stream F.Callback };

    fn poll_next(&mut self) -> Poll<Option<T>>
        ensures polled { Polled (filter_map_answers S.Stream F.Callback)
            (filter_map_pipeline S.Stream F.Callback) self.old result self.new }
        ensures parts { (self.new.f, S.Stream.answers self.new.stream)
            ≡ read_past (filter_maps F.Callback.output) F.Callback.next self.old.f
            (S.Stream.answers self.old.stream) }
    {
        loop {
            match ready!(self.stream.poll_next()) {
                None => return Poll::Ready(None),
                Some(item) => {
                    if let Some(output) = self.f.call(item) {
                        return Poll::Ready(Some(output));
                    }
                }
            }
        }
    }
}
