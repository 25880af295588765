// The run sheet: bytes of a sheet in, bytes of text out.
#![tactic(auto)]

mod run;

ghost use Rattle.std.specs.Prelude.{[], ◌∷◌, ◌≡◌, ◌+◌, length};
ghost use Rattle.io.specs.Counts.{IsPrefixLen};
ghost use Rattle.sheet_codec.specs.Format.{sheet_bytes};
ghost use Rattle.sheet_codec.specs.Put.{Put};
ghost use Rattle.run_sheet.specs.Run.{text_bytes, printed};

use mapping::MappingList;
use sheet_codec::{format, text};

// The bytes of the largest sheet.
pub const SHEET_BYTES: usize = format::SHEET_BYTES;

// How much is read as a sheet: a byte more than the largest has, since a sheet with that byte is broken.
pub const INPUT_BYTES: usize = SHEET_BYTES + 1;

// How much room a text needs, so that the largest sheet's fits.
pub const TEXT_BYTES: usize = text::LINE_BYTES * (format::MOST_MAPPINGS + format::MOST_STEPS + 1);

// The constants. A constant carries no contract, so this function ties them to the definitions.
pub fn sizes() -> [usize; 3]
    ensures { result ≡ sheet_bytes ∷ (sheet_bytes + 1) ∷ text_bytes ∷ [] }
{
    [SHEET_BYTES, INPUT_BYTES, TEXT_BYTES]
}

// Runs a sheet on a machine that starts empty, and writes what is printed to the front of text. Answers how many bytes it wrote: none
// where text is shorter than TEXT_BYTES.
pub fn run_sheet(sheet: &[u8], text: &mut [u8]) -> usize
    ensures put { Put text.old 0 (printed (length text.old) sheet.now) text_bytes text.new result }
    ensures prefix_len { IsPrefixLen result text.new }
{
    if text.len() < TEXT_BYTES {
        return 0;
    }
    if format::is_broken(sheet) {
        return text::refused_line(text, 0);
    }
    run::run_unbroken(sheet, text)
}

// How far a run has come: the list, the place after the text, and the flushes and purges of the answers.
#[derive(Clone, Copy)]
pub struct Progress {
    pub list: MappingList,
    pub at: usize,
    pub flushes: u64,
    pub purges: u64,
}
