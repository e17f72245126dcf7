ghost use Rattle.stream.specs.Pipelines.{Polled};
ghost use Rattle.nest.specs.Nested.{pair_answers, pair_pipeline};

use stream::poll::Poll;
use stream::ready;
use stream::stream::Stream;

// Polls the inner stream that is held, up to its None, and then the outer one for the next to hold.
pub fn poll_inner<S: Stream<Item = U>, U: Stream + Drop>(
    stream: &mut S,
    inner_stream: &mut Option<U>,
) -> Poll<Option<U::Item>>
    ensures polled { Polled (pair_answers S.Stream U.Stream) (pair_pipeline S.Stream U.Stream)
        (stream.old, inner_stream.old) result (stream.new, inner_stream.new) }
{
    loop {
        if let Some(inner) = inner_stream {
            match ready!(inner.poll_next()) {
                Some(item) => return Poll::Ready(Some(item)),
                None => *inner_stream = None,
            }
        }
        match ready!(stream.poll_next()) {
            Some(inner) => *inner_stream = Some(inner),
            None => return Poll::Ready(None),
        }
    }
}
