ghost use Rattle.std.specs.Prelude.{◌≡◌, ◌<◌, Ok, Err};
ghost use Rattle.limit.specs.declared.refusal.StepRefusal.TheVariants.{ZeroStep};

use crate::refusal::StepRefusal;
use stream::poll::Poll;
use stream::ready;
use stream::stream::Stream;

// Keeps the first item and then every step-th.
#[derive(Drop)]
pub struct StepBy<S> {
    stream: S,
    step: u64,
    // How many items are dropped before the next that is kept.
    i: u64,
    ghost positive: { 0 < step },
}

impl<S> StepBy<S> {
    // A step of 0 is refused, and the stream comes back as it was.
    pub fn new(stream: S, step: u64) -> Result<StepBy<S>, StepRefusal<S>>
        ensures { elim result [
          | Ok m ↦ (0 < step) × (m.stream ≡ stream) × (m.step ≡ step) × (m.i ≡ 0)
          | Err e ↦ (step ≡ 0) × (e ≡ ZeroStep stream)
        ] }
    {
        if step == 0 {
            return Err(StepRefusal::ZeroStep(stream));
        }
        Ok(StepBy { stream, step, i: 0 })
    }

    // The stream as it is now, the step, and how many items are dropped before the next that is kept.
    pub fn into_parts(self) -> (S, u64, u64)
        ensures { (result.0 ≡ self.stream) × (result.1 ≡ self.step) × (result.2 ≡ self.i) }
    {
        let StepBy { stream, step, i } = self;
        (stream, step, i)
    }
}

impl<S: Stream> Stream for StepBy<S>
where
    S::Item: Drop,
{
    // These stand here and not at the head of the file, where the struct with its ghost field would import them, in a circle.
    ghost use Rattle.stream.specs.Itemwise.{read_past};
    ghost use Rattle.stream.specs.Pipelines.{Polled};
    ghost use Rattle.limit.specs.StepByPipeline.{step_by_answers, step_by_pipeline};
    ghost use Rattle.limit.specs.StepByRule.{counts_down, steps};

    type Item = S::Item;

    ghost answers = { step_by_answers S.Stream };

    ghost pipeline = { step_by_pipeline S.Stream };

    fn poll_next(&mut self) -> Poll<Option<S::Item>>
        ensures polled { Polled (step_by_answers S.Stream) (step_by_pipeline S.Stream) self.old result self.new }
        ensures parts { ((self.new.step, self.new.i), S.Stream.answers self.new.stream)
            ≡ read_past steps counts_down (self.old.step, self.old.i)
            (S.Stream.answers self.old.stream) }
    {
        loop {
            match ready!(self.stream.poll_next()) {
                None => return Poll::Ready(None),
                Some(item) => {
                    if self.i == 0 {
                        self.i = self.step - 1;
                        return Poll::Ready(Some(item));
                    }
                    self.i -= 1;
                }
            }
        }
    }
}
