ghost use Rattle.std.specs.Prelude.{◌≡◌};
ghost use Rattle.std.specs.Int.{from_bool};
ghost use Rattle.consume.specs.Runs.{fulls_of};

// What a poll of a consumer answers. The consumer comes back with a wait and with full; it is gone after done and fault. Four
// cases and no Result: with full a poll has neither ended nor failed.
#[derive(Drop)]
pub enum Step<C, D, E> {
    Wait(C),
    Full(C),
    Done(D),
    Fault(E),
}

impl<C, D, E> Step<C, D, E> {
    // Whether a put found no place.
    pub fn is_full(&self) -> bool
        ensures { from_bool result ≡ fulls_of self.now }
    {
        matches!(self, Step::Full(_))
    }
}

// What a consumer hands back at its end: its output or its fault, its stream, and its callback if it has one.
#[derive(Drop)]
pub struct Ended<V, S, F> {
    // The output with done, the fault with a fault.
    pub value: V,
    pub stream: S,
    pub callback: F,
}
