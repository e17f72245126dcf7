ghost use Rattle.consume.specs.Meanings.{Meaning};
ghost use Rattle.consume.specs.Polls.{Polled};

use crate::step::{Ended, Step};
use sink::sink::Sink;
use stream::stream::Stream;

// Takes the items of a stream to an end, in polls.
pub trait Consumer: Sized {
    type Item;

    type Below: Stream<Item = Self::Item>;

    // What it puts in the first sink, and in the second.
    type First;

    type Second;

    type Output;

    type Error;

    type Callback;

    // Its stream, what it keeps, what it does with an item, and what it hands back.
    ghost meaning: { Meaning Self Self.Below Self.Item Self.First Self.Second Self.Output Self.Error Self.Callback };

    // Offers what it keeps, and then reads on: up to the first wait of its stream, to the first put that is refused, or to
    // its end. Two sinks and no struct of both: a caller lends each by itself, and one that is not used stays as it was.
    fn poll<X: Sink<Item = Self::First>, Y: Sink<Item = Self::Second>>(
        self,
        first: &mut X,
        second: &mut Y,
    ) -> StepOf<Self>
        ensures { Polled meaning Self.Below.Stream X.Sink Y.Sink self first.old second.old result
            first.new second.new };
}

// What a poll of the consumer C answers.
pub type StepOf<C> = Step<
    C,
    EndedOf<C, <C as Consumer>::Output>,
    EndedOf<C, <C as Consumer>::Error>,
>;

// What the consumer C hands back at its end, with its output or its fault as V.
pub type EndedOf<C, V> = Ended<V, <C as Consumer>::Below, <C as Consumer>::Callback>;
