ghost use Rattle.std.specs.Prelude.{◌≡◌, None};
ghost use Rattle.stream.specs.Answers.{waits_in};
ghost use Rattle.stream.specs.Pipelines.{Polled};
ghost use Rattle.nest.specs.FlatMapPipeline.{FlatMapTook, flat_map_answers, flat_map_pipeline};

use crate::inner::poll_inner;
use stream::callback::Callback;
use stream::poll::Poll;
use stream::stream::Stream;
use transform::map::Map;

// Gives the items of the streams that the callback makes of a stream's items, one stream after another.
#[derive(Drop)]
pub struct FlatMap<S, U, F> {
    stream: Map<S, F>,
    // The inner stream that has not answered None yet.
    inner_stream: Option<U>,
}

impl<S, U, F> FlatMap<S, U, F> {
    pub fn new(stream: S, f: F) -> FlatMap<S, U, F>
        ensures { (result.stream.stream ≡ stream) × (result.stream.f ≡ f) × (result.inner_stream ≡ None) }
    {
        FlatMap {
            stream: Map::new(stream, f),
            inner_stream: None,
        }
    }

    // The stream, the callback and the held inner stream, if any, as they are now.
    pub fn into_parts(self) -> (S, F, Option<U>)
        ensures { (result.0 ≡ self.stream.stream)
            × (result.1 ≡ self.stream.f)
            × (result.2 ≡ self.inner_stream) }
    {
        let FlatMap {
            stream,
            inner_stream,
        } = self;
        let (stream, f) = stream.into_parts();
        (stream, f, inner_stream)
    }
}

impl<S: Stream, U: Stream + Drop, F: Callback<Input = S::Item, Output = U>> Stream
    for FlatMap<S, U, F> {
    type Item = U::Item;

    ghost answers = { flat_map_answers S.Stream F.Callback U.Stream };

    ghost pipeline = { flat_map_pipeline S.Stream F.Callback U.Stream };

    fn poll_next(&mut self) -> Poll<Option<U::Item>>
        ensures polled { Polled (flat_map_answers S.Stream F.Callback U.Stream)
            (flat_map_pipeline S.Stream F.Callback U.Stream) self.old result self.new }
        ensures parts { FlatMapTook S.Stream F.Callback U.Stream self.old (waits_in result) self.new }
    {
        poll_inner(&mut self.stream, &mut self.inner_stream)
    }
}
