ghost use Rattle.std.specs.Prelude.{◌≡◌};
ghost use Rattle.limit.specs.Refusals.{number, stream_of};

// Why a StepBy is not made, with the stream handed back as it was. An enum of one case, since each refusal of the list is a
// case of one. A put's is alike, but neither crate stands on the other, and a common crate for one case each is no plainer.
#[derive(Debug, Drop, PartialEq, Eq)]
pub enum StepRefusal<S> {
    ZeroStep(S),
}

impl<S> StepRefusal<S> {
    // Its number in the list of refusals, by which refusals are known. No trait has it, since nothing takes refusals of more
    // than one kind.
    pub fn number(&self) -> u8
        ensures { result ≡ number self.now }
    {
        match self {
            StepRefusal::ZeroStep(_) => 1,
        }
    }

    // The stream, which was not polled.
    pub fn into_stream(self) -> S
        ensures { result ≡ stream_of self }
    {
        let StepRefusal::ZeroStep(stream) = self;
        stream
    }
}
