ghost use Rattle.std.specs.Prelude.{◌≡◌};
ghost use Rattle.stream.specs.Views.{View};

// A function that may hold a state: from what it holds and one input to one output and what it holds next. A trait and no
// closure: one interface with named input and output types serves all adapters, and list rules need those two as functions,
// where a closure's contract has relations.
pub trait Callback {
    type Input;

    type Output;

    ghost output: { Self → Self.Input → Self.Output };

    ghost next: { Self → Self.Input → Self };

    // How its outputs are seen: `plain` for plain values, `streams` for streams.
    ghost outputs: { View Self.Output };

    fn call(&mut self, input: Self::Input) -> Self::Output
        ensures output { result ≡ output self.old input }
        ensures next { self.new ≡ next self.old input };
}
