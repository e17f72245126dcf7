ghost use Rattle.std.specs.Prelude.{◌≡◌, List, IfOk, string_bytes};
ghost use Rattle.gateway.specs.Lines.{Said};
ghost use Rattle.gateway.specs.Reports.{Reports};
ghost use Rattle.gateway.specs.Texts.{lines_text};

use gateway::printer::write_report;
use std::alloc::Global;
use std::fmt;

// All that is printed for an input.
pub fn printed(heap: Global, input: &[u8]) -> Result<String, fmt::Error>
    ensures { IfOk result (λ s. (ls : List Said) × Reports input.now ls × (string_bytes s ≡ lines_text ls)) }
{
    let (text, written) = write_report(input, String::new(heap));
    written?;
    Ok(text)
}
