ghost use Rattle.std.specs.Prelude.{◌≡◌, None};
ghost use Rattle.stream.specs.Answers.{waits_in};
ghost use Rattle.stream.specs.Pipelines.{Polled};
ghost use Rattle.nest.specs.FlattenPipeline.{FlattenTook, flatten_answers, flatten_pipeline};

use crate::inner::poll_inner;
use stream::poll::Poll;
use stream::stream::Stream;

// Gives the items of the streams that a stream gives, one stream after another.
#[derive(Drop)]
pub struct Flatten<S: Stream> {
    stream: S,
    // The inner stream that has not answered None yet.
    inner_stream: Option<S::Item>,
}

impl<S: Stream> Flatten<S> {
    pub fn new(stream: S) -> Flatten<S>
        ensures { (result.stream ≡ stream) × (result.inner_stream ≡ None) }
    {
        Flatten {
            stream,
            inner_stream: None,
        }
    }

    // The outer stream and the held inner stream, if any, as they are now.
    pub fn into_parts(self) -> (S, Option<S::Item>)
        ensures { (result.0 ≡ self.stream) × (result.1 ≡ self.inner_stream) }
    {
        let Flatten {
            stream,
            inner_stream,
        } = self;
        (stream, inner_stream)
    }
}

impl<S: Stream<Item = U>, U: Stream + Drop> Stream for Flatten<S> {
    type Item = U::Item;

    ghost answers = { flatten_answers S.Stream U.Stream };

    ghost pipeline = { flatten_pipeline S.Stream U.Stream };

    fn poll_next(&mut self) -> Poll<Option<U::Item>>
        ensures polled { Polled (flatten_answers S.Stream U.Stream) (flatten_pipeline S.Stream U.Stream) self.old
            result self.new }
        ensures parts { FlattenTook S.Stream U.Stream self.old (waits_in result) self.new }
    {
        poll_inner(&mut self.stream, &mut self.inner_stream)
    }
}
