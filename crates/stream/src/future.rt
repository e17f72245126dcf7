ghost use Rattle.std.specs.Prelude.{ℕ};
ghost use Rattle.stream.specs.Futures.{FuturePolled};
ghost use Rattle.stream.specs.Views.{View};

use crate::poll::Poll;

// A value that may have to be waited for.
pub trait Future {
    type Output;

    // How many polls are still answered by a wait.
    ghost waits: { Self → ℕ };

    // What every later poll answers.
    ghost output: { Self → Self.Output };

    // How its output is seen: `plain` for plain values, `streams` for streams.
    ghost outputs: { View Self.Output };

    // What a poll of it takes: `own_waits waits`.
    ghost took: { Self → ℕ → Self → Type 0 };

    // Above 0 answers a wait and lowers the count by one; at 0 answers the output.
    fn poll(&mut self) -> Poll<Self::Output>
        ensures polled { FuturePolled waits output took self.old result self.new };
}
