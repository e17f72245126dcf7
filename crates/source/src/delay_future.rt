ghost use Rattle.std.specs.Prelude.{◌≡◌};
ghost use Rattle.stream.specs.Futures.{FuturePolled, one_less, own_waits};
ghost use Rattle.stream.specs.Views.{plain};
ghost use Rattle.source.specs.DelayFutureMeaning.{delay_output, delay_waits};

use stream::future::Future;
use stream::poll::Poll;

// Has a given number of waits, and then gives its output at every poll.
#[derive(Clone, Copy)]
pub struct DelayFuture<T> {
    waits: u64,
    output: T,
}

impl<T> DelayFuture<T> {
    pub fn new(waits: u64, output: T) -> DelayFuture<T>
        ensures { (result.waits ≡ waits) × (result.output ≡ output) }
    {
        DelayFuture { waits, output }
    }

    // The waits still to come, and the output.
    pub fn into_parts(self) -> (u64, T)
        ensures { (result.0 ≡ self.waits) × (result.1 ≡ self.output) }
    {
        let DelayFuture { waits, output } = self;
        (waits, output)
    }
}

impl<T: Copy> Future for DelayFuture<T> {
    type Output = T;

    ghost waits = { delay_waits };

    ghost output = { delay_output };

    ghost outputs = { plain };

    ghost took = { own_waits delay_waits };

    fn poll(&mut self) -> Poll<T>
        ensures polled { FuturePolled delay_waits delay_output (own_waits delay_waits) self.old result self.new }
        ensures waits { self.new.waits ≡ one_less self.old.waits }
        ensures output { self.new.output ≡ self.old.output }
    {
        if self.waits == 0 {
            Poll::Ready(self.output)
        } else {
            self.waits -= 1;
            Poll::Pending
        }
    }
}
