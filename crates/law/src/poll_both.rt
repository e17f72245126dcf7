ghost use Rattle.law.specs.Laws.{PolledLawfully};

use crate::shown::{Shown, Turn};
use stream::callback::Callback;
use stream::stream::Stream;

// Polls two pipelines so many times in all, in any order: the viewer is shown each answer, and says whose turn is next.
// A turn is a value and no closure, so that the law can speak of every order of turns.
pub fn poll_both<P: Stream, Q: Stream, V: Callback<Input = Shown<P::Item, Q::Item>, Output = Turn>>(
    p: &mut P,
    q: &mut Q,
    viewer: &mut V,
    start: Turn,
    polls: u64,
) -> Turn
    ensures { PolledLawfully P.Stream Q.Stream V.Callback p.old q.old viewer.old start polls p.new q.new
        viewer.new result }
{
    let mut turn = start;
    for _ in 0..polls {
        turn = match turn {
            Turn::First => viewer.call(Shown::First(p.poll_next())),
            Turn::Second => viewer.call(Shown::Second(q.poll_next())),
        };
    }
    turn
}
