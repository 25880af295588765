// Runs the sheet on standard input and writes the text of its run to standard output.
// Where reading or writing fails, a line on standard error says why, and its status is 1.
#![tactic(auto)]

ghost use Rattle.std.specs.Prelude.{◌≡◌, length};

use run_sheet::{INPUT_BYTES, TEXT_BYTES};
use std::io::{Error, Read};

// Standard input.
const STDIN: i32 = 0;

fn main(rt: HostRuntime) -> std::io::Result<()> {
    let mut sheet = zeros::<INPUT_BYTES>();
    let n = io::read_full(STDIN, &mut sheet);
    // A short count does not tell the input's end from an error, and one more read does.
    let mut more = [0u8; 1];
    if n < INPUT_BYTES && rt.stdin().read(&mut more)? != 0 {
        return Err(Error::other("standard input goes on after its end"));
    }
    let mut text = zeros::<TEXT_BYTES>();
    let written = run_sheet::run_sheet(&sheet[..n], &mut text);
    rt.write_all(&text[..written])
}

// So many zeros. That it is so many is shown of any number: of a number at hand the check would write them out.
fn zeros<const N: usize>() -> [u8; N]
    ensures { N ≡ length result }
{
    [0; N]
}
