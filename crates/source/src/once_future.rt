ghost use Rattle.std.specs.Prelude.{◌≡◌, Some};
ghost use Rattle.stream.specs.Pipelines.{Polled};
ghost use Rattle.source.specs.OnceFuturePipeline.{SlotPolled, once_future_answers, once_future_pipeline};

use stream::future::Future;
use stream::poll::Poll;
use stream::ready;
use stream::stream::Stream;

// Gives the output of a future as its one item.
#[derive(Drop)]
pub struct OnceFuture<F> {
    future: Option<F>,
}

impl<F> OnceFuture<F> {
    pub fn new(future: F) -> OnceFuture<F>
        ensures { result.future ≡ Some future }
    {
        OnceFuture {
            future: Some(future),
        }
    }

    // The future, while its output is still to come.
    pub fn into_parts(self) -> Option<F>
        ensures { result ≡ self.future }
    {
        let OnceFuture { future } = self;
        future
    }
}

impl<F: Future + Drop> Stream for OnceFuture<F> {
    type Item = F::Output;

    ghost answers = { once_future_answers F.Future };

    ghost pipeline = { once_future_pipeline F.Future };

    // Drops the future with its output, so that it is not polled again.
    fn poll_next(&mut self) -> Poll<Option<F::Output>>
        ensures polled { Polled (once_future_answers F.Future) (once_future_pipeline F.Future) self.old result
            self.new }
        ensures future { SlotPolled F.Future self.old.future result self.new.future }
    {
        match &mut self.future {
            None => Poll::Ready(None),
            Some(future) => {
                let output = ready!(future.poll());
                self.future = None;
                Poll::Ready(Some(output))
            }
        }
    }
}
