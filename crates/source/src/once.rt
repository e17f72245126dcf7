ghost use Rattle.std.specs.Prelude.{◌≡◌, Some, None};
ghost use Rattle.stream.specs.Pipelines.{Polled};
ghost use Rattle.source.specs.OncePipeline.{once_answers, once_pipeline};

use stream::poll::Poll;
use stream::stream::Stream;

// Gives one item.
#[derive(Drop)]
pub struct Once<T> {
    value: Option<T>,
}

impl<T> Once<T> {
    pub fn new(value: T) -> Once<T>
        ensures { result.value ≡ Some value }
    {
        Once { value: Some(value) }
    }

    // The item, while it is still to come.
    pub fn into_parts(self) -> Option<T>
        ensures { result ≡ self.value }
    {
        let Once { value } = self;
        value
    }
}

impl<T> Stream for Once<T> {
    type Item = T;

    ghost answers = { once_answers };

    ghost pipeline = { once_pipeline };

    fn poll_next(&mut self) -> Poll<Option<T>>
        ensures polled { Polled once_answers once_pipeline self.old result self.new }
        ensures value { self.new.value ≡ None }
    {
        Poll::Ready(self.value.take())
    }
}
