#![tactic(auto)]

use console::input::{INPUT_LEN, read_up_to};
use console::output::Output;
use gateway::printer::write_report;
use std::io;

fn main(rt: HostRuntime) -> io::Result<()> {
    // An array, since no heap is asked for.
    let mut buffer = [0u8; INPUT_LEN];
    let input = read_up_to(&mut rt.stdin(), &mut buffer)?;
    let (output, written) = write_report(input, Output::new(&rt));
    output.finish(written)
}
