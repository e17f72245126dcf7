ghost use Rattle.std.specs.Prelude.{◌≡◌, None};
ghost use Rattle.stream.specs.Answers.{waits_in};
ghost use Rattle.stream.specs.Pipelines.{Polled};
ghost use Rattle.nest.specs.ThenPipeline.{ThenTook, then_answers, then_pipeline};

use stream::callback::Callback;
use stream::future::Future;
use stream::poll::Poll;
use stream::ready;
use stream::stream::Stream;

// Replaces each item by the output of the future that the callback makes of it.
#[derive(Drop)]
pub struct Then<S, F, Fut> {
    stream: S,
    // The future that has still to give its output.
    future: Option<Fut>,
    f: F,
}

impl<S, F, Fut> Then<S, F, Fut> {
    pub fn new(stream: S, f: F) -> Then<S, F, Fut>
        ensures { (result.stream ≡ stream) × (result.future ≡ None) × (result.f ≡ f) }
    {
        Then {
            stream,
            future: None,
            f,
        }
    }

    // The stream, the held future, if any, and the callback, as they are now.
    pub fn into_parts(self) -> (S, Option<Fut>, F)
        ensures { (result.0 ≡ self.stream) × (result.1 ≡ self.future) × (result.2 ≡ self.f) }
    {
        let Then { stream, future, f } = self;
        (stream, future, f)
    }
}

impl<S: Stream, F: Callback<Input = S::Item, Output = Fut>, Fut: Future + Drop> Stream
    for Then<S, F, Fut> {
    type Item = Fut::Output;

    ghost answers = { then_answers S.Stream F.Callback Fut.Future };

    ghost pipeline = { then_pipeline S.Stream F.Callback Fut.Future };

    // Polls the stream only while no future is held, and then the future.
    fn poll_next(&mut self) -> Poll<Option<Fut::Output>>
        ensures polled { Polled (then_answers S.Stream F.Callback Fut.Future)
            (then_pipeline S.Stream F.Callback Fut.Future) self.old result self.new }
        ensures parts { ThenTook S.Stream F.Callback Fut.Future self.old (waits_in result) self.new }
    {
        loop {
            if let Some(future) = &mut self.future {
                let item = ready!(future.poll());
                self.future = None;
                return Poll::Ready(Some(item));
            } else if let Some(item) = ready!(self.stream.poll_next()) {
                self.future = Some(self.f.call(item));
            } else {
                return Poll::Ready(None);
            }
        }
    }
}
