ghost use Rattle.std.specs.Prelude.{◌≡◌, ◌^◌, ◌<◌, List, [], length};
ghost use Rattle.gateway.specs.Lines.{Said, lines_from, Printed};
ghost use Rattle.gateway.specs.Reports.{Reports};

use crate::input::open;
use crate::line::{End, Line, Printer};
use consume::run::run;
use consume::step::{Ended, Step};
use ext::stream_ext::StreamExt;
use fallible::try_collect::TryCollectFuture;
use reading::fault::Fault;
use reading::readings::Readings;
use sink::row::RowSink;
use stream::stream::Stream;

// How many readings a poll can put.
const PLACES: usize = 4;

// Prints a line for each poll of the readings that the input makes, or one line for an input that is refused.
pub fn report<P: Printer>(input: &[u8], printer: &mut P)
    ensures { (ls : List Said) × Reports input.now ls × Printed P.Printer.prints printer.old ls printer.new }
{
    match open(input) {
        Err(refusal) => printer.print(Line::Refused(refusal)),
        Ok((high, low)) => print_polls(high.zip(low).enumerate().map(Readings), printer),
    }
}

// Prints a line for each poll, up to done or a fault. The row is emptied after each poll.
fn print_polls<S: Stream<Item = Result<i32, Fault>> + Drop, P: Printer>(stream: S, printer: &mut P)
    requires { length (S.Stream.answers stream) < 2 ^ 63 }
    ensures { Printed P.Printer.prints printer.old (lines_from 1 [] (S.Stream.answers stream)) printer.new }
{
    // An array, since no heap is asked for.
    let mut row = [0i32; PLACES];
    let mut sink = RowSink::new(&mut row);
    let mut unused = RowSink::new(&mut []);
    let mut consumer = TryCollectFuture::new(stream);
    for poll in 1..=u64::MAX {
        let (end, next) = ending(run(consumer, &mut sink, &mut unused, 1).end);
        printer.print(Line::Poll {
            poll,
            end,
            watts: sink.items(),
        });
        let Some(next) = next else { return };
        consumer = next;
        sink.empty();
    }
    // There are fewer answers than numbers.
    unreachable!()
}

// How a poll ended, and the consumer if it came back.
fn ending<C, D: Drop, S: Drop>(step: Step<C, D, Ended<Fault, S, ()>>) -> (End, Option<C>)
    ensures { elim step [
      | Step.Wait c ↦ result ≡ (End.Wait, Some c)
      | Step.Full c ↦ result ≡ (End.Full, Some c)
      | Step.Done d ↦ result ≡ (End.Done, None)
      | Step.Fault d ↦ result ≡ (End.Fault d.value, None)
    ] }
{
    match step {
        Step::Wait(next) => (End::Wait, Some(next)),
        Step::Full(next) => (End::Full, Some(next)),
        Step::Done(_) => (End::Done, None),
        Step::Fault(ended) => (End::Fault(ended.value), None),
    }
}
