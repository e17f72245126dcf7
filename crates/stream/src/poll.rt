ghost use Rattle.std.specs.Prelude.{◌≡◌, not};
ghost use Rattle.stream.specs.Answers.{ready};

// What a poll answers: a value, or a wait. An enum as Rust's core has it: the kit's is not Copy, which FirstFuture needs, and in
// an Option of an Option a wait and an end would read alike.
#[derive(Clone, Copy, Debug, PartialEq)]
pub enum Poll<T> {
    Ready(T),
    Pending,
}

impl<T> Poll<T> {
    pub fn is_ready(&self) -> bool
        ensures { result ≡ ready self.now }
    {
        matches!(self, Poll::Ready(_))
    }

    pub fn is_pending(&self) -> bool
        ensures { result ≡ not (ready self.now) }
    {
        !self.is_ready()
    }
}

// What a poll has ready; a wait is the answer of the function that polls.
#[macro_export]
macro_rules! ready {
    ($answer:expr) => {
        match $answer {
            $crate::poll::Poll::Ready(value) => value,
            $crate::poll::Poll::Pending => return $crate::poll::Poll::Pending,
        }
    };
}
