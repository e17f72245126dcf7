use stream::poll::Poll;

// Which of two pipelines is polled next.
#[derive(Clone, Copy)]
pub enum Turn {
    First,
    Second,
}

// What a poll of one of two pipelines answered. Cases by name and no Either: the law speaks of a first and a second.
#[derive(Drop)]
pub enum Shown<A, B> {
    First(Poll<Option<A>>),
    Second(Poll<Option<B>>),
}
