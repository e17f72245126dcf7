ghost use Rattle.std.specs.Prelude.{◌≡◌, ℕ, List};
ghost use Rattle.stream.specs.Answers.{Answer, Agree};
ghost use Rattle.script.specs.Sources.{script_answers};
ghost use Rattle.delays.specs.Pipeline.{whole};
ghost use Rattle.delays.specs.PipelineRule.{summed};

use crate::callbacks::{Odd, Slowly, Total};
use combine::chain::Chain;
use combine::enumerate::Enumerate;
use ext::stream_ext::StreamExt;
use limit::skip::Skip;
use limit::take::Take;
use nest::then::Then;
use script::script::Script;
use select::filter::Filter;
use source::delay_future::DelayFuture;
use source::once::Once;
use transform::map::Map;

// Seven adapters over a script.
pub type Pipeline<'a> = Take<
    Chain<
        Then<Map<Enumerate<Filter<Skip<Script<'a>>, Odd>>, Total>, Slowly, DelayFuture<u64>>,
        Once<u64>,
    >,
>;

// Its list is the rule's; and if the source agrees with a list, it is built alike to a pipeline whose source has that list.
pub fn pipeline<'a>(source: Script<'a>) -> Pipeline<'a>
    ensures list { whole.answers result ≡ summed (script_answers source.entry) }
    ensures alike { (ys : List (Answer ℕ))
        → Agree (λ a b. a ≡ b) (script_answers source.entry) ys
        → whole.pipeline.alike result (summed ys) }
{
    source
        .skip(1)
        .filter(Odd)
        .enumerate()
        .map(Total { sum: 0 })
        .then(Slowly)
        .chain(Once::new(7))
        .take(9)
}
