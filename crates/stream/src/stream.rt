ghost use Rattle.std.specs.Prelude.{List};
ghost use Rattle.stream.specs.Answers.{Answer};
ghost use Rattle.stream.specs.Pipelines.{Pipeline, Polled};

use crate::poll::Poll;

// Gives items when it is polled, each of which may have to be waited for.
pub trait Stream {
    type Item;

    // The answers still to come; after them it answers None for ever.
    ghost answers: { Self → List (Answer Self.Item) };

    // What its polls take from below, and which pipelines are built alike: `source answers view` for a stream that is no
    // delay-insensitive adapter.
    ghost pipeline: { Pipeline answers };

    // Answers the first of its list, and leaves the rest. An implementation that promises more repeats this clause: its own
    // stand in place of the trait's. A clause `parts` by a relation (`ZipTook` and the like) says by name what `took` says; one
    // by `read_past` says more, what the fields hold afterwards.
    fn poll_next(&mut self) -> Poll<Option<Self::Item>>
        ensures polled { Polled answers pipeline self.old result self.new };
}
