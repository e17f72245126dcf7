ghost use Rattle.std.specs.Prelude.{◌≡◌, Some, None};
ghost use Rattle.sink.specs.Refusals.{item as item_of};
ghost use Rattle.consume.specs.Polls.{Polled};
ghost use Rattle.fallible.specs.TryCollects.{try_collects};

use crate::offer::offer;
use consume::consumer::{Consumer, StepOf};
use consume::step::{Ended, Step};
use sink::refusal::PutRefusal;
use sink::sink::Sink;
use stream::poll::Poll;
use stream::stream::Stream;

// Puts the good items of a stream of results in the first sink, up to the first None or the first fault.
#[derive(Drop)]
pub struct TryCollectFuture<S, T> {
    stream: S,
    // The item that found no place; it is offered before the next poll reads on.
    kept: Option<T>,
}

impl<S, T> TryCollectFuture<S, T> {
    pub fn new(stream: S) -> TryCollectFuture<S, T>
        ensures { (result.stream ≡ stream) × (result.kept ≡ None) }
    {
        TryCollectFuture { stream, kept: None }
    }

    // The stream, and the item that is kept, if any.
    pub fn into_parts(self) -> (S, Option<T>)
        ensures { (result.0 ≡ self.stream) × (result.1 ≡ self.kept) }
    {
        let TryCollectFuture { stream, kept } = self;
        (stream, kept)
    }
}

impl<T, E, S: Stream<Item = Result<T, E>>> Consumer for TryCollectFuture<S, T> {
    type Item = Result<T, E>;

    type Below = S;

    type First = T;

    type Second = T;

    type Output = ();

    type Error = E;

    type Callback = ();

    ghost meaning = { try_collects };

    fn poll<X: Sink<Item = T>, Y: Sink<Item = T>>(
        self,
        first: &mut X,
        second: &mut Y,
    ) -> StepOf<Self> {
        let TryCollectFuture { stream, kept } = self;
        if let Some(item) = kept {
            if let Err(refusal) = first.put(item) {
                return Step::Full(keeping(stream, refusal));
            }
        }
        read_on(stream, first, second)
    }
}

// A poll with no item kept.
fn read_on<T, E, S: Stream<Item = Result<T, E>>, X: Sink<Item = T>, Y: Sink<Item = T>>(
    mut stream: S,
    first: &mut X,
    second: &mut Y,
) -> StepOf<TryCollectFuture<S, T>>
    ensures { Polled try_collects S.Stream X.Sink Y.Sink (record { stream = stream; kept = None })
        first.old second.old result first.new second.new }
{
    loop {
        match stream.poll_next() {
            Poll::Pending => return Step::Wait(TryCollectFuture { stream, kept: None }),
            Poll::Ready(None) => return Step::Done(Ended {
                value: (),
                stream,
                callback: (),
            }),
            Poll::Ready(Some(item)) => match offer(first, item) {
                Ok(Ok(())) => {}
                Ok(Err(refusal)) => return Step::Full(keeping(stream, refusal)),
                Err(fault) => return Step::Fault(Ended {
                    value: fault,
                    stream,
                    callback: (),
                }),
            },
        }
    }
}

// The consumer that keeps the item which found no place.
fn keeping<S, T>(stream: S, refusal: PutRefusal<T>) -> TryCollectFuture<S, T>
    ensures { (result.stream ≡ stream) × (result.kept ≡ Some (item_of refusal)) }
{
    TryCollectFuture {
        stream,
        kept: Some(refusal.into_item()),
    }
}
