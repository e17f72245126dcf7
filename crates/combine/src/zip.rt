ghost use Rattle.std.specs.Prelude.{◌≡◌, None};
ghost use Rattle.stream.specs.Answers.{waits_in};
ghost use Rattle.stream.specs.Pipelines.{Polled};
ghost use Rattle.combine.specs.ZipPipeline.{ZipTook, zip_answers, zip_pipeline};

use stream::poll::Poll;
use stream::ready;
use stream::stream::Stream;

// Pairs each item of the first stream with the next of the second.
#[derive(Drop)]
pub struct Zip<A: Stream, B> {
    // The item of the first stream that waits for one of the second.
    item_slot: Option<A::Item>,
    first: A,
    second: B,
}

impl<A: Stream, B> Zip<A, B> {
    pub fn new(first: A, second: B) -> Zip<A, B>
        ensures { (result.item_slot ≡ None) × (result.first ≡ first) × (result.second ≡ second) }
    {
        Zip {
            item_slot: None,
            first,
            second,
        }
    }

    // The kept item, if any, and the two streams, as they are now.
    pub fn into_parts(self) -> (Option<A::Item>, A, B)
        ensures { (result.0 ≡ self.item_slot) × (result.1 ≡ self.first) × (result.2 ≡ self.second) }
    {
        let Zip {
            item_slot,
            first,
            second,
        } = self;
        (item_slot, first, second)
    }
}

impl<A: Stream, B: Stream> Stream for Zip<A, B>
where
    A::Item: Drop,
{
    type Item = (A::Item, B::Item);

    ghost answers = { zip_answers A.Stream B.Stream };

    ghost pipeline = { zip_pipeline A.Stream B.Stream };

    // Polls the first stream only while no item is kept, and the second only while one is.
    fn poll_next(&mut self) -> Poll<Option<(A::Item, B::Item)>>
        ensures polled { Polled (zip_answers A.Stream B.Stream) (zip_pipeline A.Stream B.Stream) self.old result
            self.new }
        ensures parts { ZipTook A.Stream B.Stream self.old (waits_in result) self.new }
    {
        if self.item_slot.is_none() {
            match ready!(self.first.poll_next()) {
                None => return Poll::Ready(None),
                item => self.item_slot = item,
            }
        }
        let second = ready!(self.second.poll_next());
        let first = self.item_slot.take().unwrap();
        Poll::Ready(second.map(|item| (first, item)))
    }
}
