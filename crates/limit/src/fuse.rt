ghost use Rattle.std.specs.Prelude.{◌≡◌, false};
ghost use Rattle.stream.specs.Answers.{waits_in};
ghost use Rattle.stream.specs.Pipelines.{Polled};
ghost use Rattle.limit.specs.FusePipeline.{FuseTook, fuse_answers, fuse_pipeline};

use stream::poll::Poll;
use stream::ready;
use stream::stream::Stream;

// Ends at the first None, and does not poll after it.
#[derive(Drop)]
pub struct Fuse<S> {
    stream: S,
    // A flag and no Option round the stream: these are the fields of the source, and the stream is handed back also once it has
    // ended.
    done: bool,
}

impl<S> Fuse<S> {
    pub fn new(stream: S) -> Fuse<S>
        ensures { (result.stream ≡ stream) × (result.done ≡ false) }
    {
        Fuse {
            stream,
            done: false,
        }
    }

    // The stream as it is now, and whether it has answered None.
    pub fn into_parts(self) -> (S, bool)
        ensures { (result.0 ≡ self.stream) × (result.1 ≡ self.done) }
    {
        let Fuse { stream, done } = self;
        (stream, done)
    }

    pub fn is_done(&self) -> bool
        ensures { result ≡ self.now.done }
    {
        self.done
    }
}

impl<S: Stream> Stream for Fuse<S> {
    type Item = S::Item;

    ghost answers = { fuse_answers S.Stream };

    ghost pipeline = { fuse_pipeline S.Stream };

    fn poll_next(&mut self) -> Poll<Option<S::Item>>
        ensures polled { Polled (fuse_answers S.Stream) (fuse_pipeline S.Stream) self.old result self.new }
        ensures parts { FuseTook S.Stream self.old (waits_in result) self.new }
    {
        if self.done {
            return Poll::Ready(None);
        }
        let next = ready!(self.stream.poll_next());
        if next.is_none() {
            self.done = true;
        }
        Poll::Ready(next)
    }
}
