ghost use Rattle.consume.specs.Runs.{Reported};

use crate::consumer::{Consumer, EndedOf};
use crate::step::Step;
use sink::sink::Sink;

// How a run ended, and how many of its polls answered wait and full. A run that ends in a wait has used up its polls.
#[derive(Drop)]
pub struct Report<C, D, E> {
    pub polls: u64,
    pub waits: u64,
    pub fulls: u64,
    pub end: Step<C, D, E>,
}

// Polls a consumer to done, full, fault or so many times.
pub fn run<C: Consumer, X: Sink<Item = C::First>, Y: Sink<Item = C::Second>>(
    mut consumer: C,
    first: &mut X,
    second: &mut Y,
    polls: u64,
) -> Report<C, EndedOf<C, C::Output>, EndedOf<C, C::Error>>
    ensures { Reported C.Consumer.meaning C.Below.Stream X.Sink Y.Sink consumer first.old second.old polls
        result first.new second.new }
{
    for waits in 0..polls {
        match consumer.poll(first, second) {
            Step::Wait(next) => consumer = next,
            end => {
                return Report {
                    polls: waits + 1,
                    waits,
                    fulls: u64::from(end.is_full()),
                    end,
                };
            }
        }
    }
    Report {
        polls,
        waits: polls,
        fulls: 0,
        end: Step::Wait(consumer),
    }
}
