#![tactic(auto)]

use console::input::read_up_to;
use console::output::Output;
use gateway::printer::write_report;
use std::io;

// How many bytes a list of inputs may have; what follows is not read.
const LIST_LEN: usize = 65536;

// Runs the inputs of a list, each behind its length in two bytes, high byte first, with a blank line after the lines of
// each. A last input that is cut short is run as it is.
fn main(rt: HostRuntime) -> io::Result<()> {
    // An array, since no heap is asked for.
    let mut buffer = [0u8; LIST_LEN];
    let mut rest = read_up_to(&mut rt.stdin(), &mut buffer)?;
    while let [high, low, inputs @ ..] = rest {
        // As the gateway reads a header; a line is no function.
        let length = usize::from(u16::from_be_bytes([*high, *low])).min(inputs.len());
        let (input, next) = inputs.split_at(length);
        // As `watts` does with its one input; two lines are no function.
        let (output, written) = write_report(input, Output::new(&rt));
        output.finish(written)?;
        println!(rt)?;
        rest = next;
    }
    Ok(())
}
