ghost use Rattle.std.specs.Prelude.{◌≡◌};
ghost use Rattle.stream.specs.declared.poll.Poll.TheVariants.{Pending};
ghost use Rattle.stream.specs.Futures.{FuturePolled, own_waits};
ghost use Rattle.stream.specs.Views.{options};
ghost use Rattle.source.specs.FirstFutureMeaning.{PolledAtWait, first_future_output, first_future_waits};

use stream::future::Future;
use stream::poll::Poll;
use stream::stream::Stream;

// Has as its output the first answer of a stream that is no wait: an item or None.
#[derive(Drop)]
pub struct FirstFuture<S: Stream> {
    stream: S,
    // What was answered last, and a wait at first: it says both whether to poll on and, in the end, what the output is.
    answer: Poll<Option<S::Item>>,
}

impl<S: Stream> FirstFuture<S> {
    pub fn new(stream: S) -> FirstFuture<S>
        ensures { (result.stream ≡ stream) × (result.answer ≡ Pending) }
    {
        FirstFuture {
            stream,
            answer: Poll::Pending,
        }
    }

    // The stream, and what was answered last: the output, or a wait while that is still to come.
    pub fn into_parts(self) -> (S, Poll<Option<S::Item>>)
        ensures { (result.0 ≡ self.stream) × (result.1 ≡ self.answer) }
    {
        let FirstFuture { stream, answer } = self;
        (stream, answer)
    }
}

impl<S: Stream> Future for FirstFuture<S>
where
    S::Item: Copy,
{
    type Output = Option<S::Item>;

    ghost waits = { first_future_waits S.Stream };

    ghost output = { first_future_output S.Stream };

    ghost outputs = { options S.Stream.pipeline.view };

    ghost took = { own_waits (first_future_waits S.Stream) };

    // Polls the stream only while the output is still to come.
    fn poll(&mut self) -> Poll<Option<S::Item>>
        ensures polled { FuturePolled (first_future_waits S.Stream) (first_future_output S.Stream)
            (own_waits (first_future_waits S.Stream)) self.old result self.new }
        ensures answer { self.new.answer ≡ result }
        ensures stream { PolledAtWait S.Stream self.old.answer self.old.stream result self.new.stream }
    {
        if self.answer.is_pending() {
            self.answer = self.stream.poll_next();
        }
        self.answer
    }
}
