// The run of a sheet for programs in C or Rust: `rt lib` in this folder makes the library that they link, `out/libsheet_ffi.a`.
#![tactic(auto)]

ghost use Rattle.std.specs.Prelude.{length};
ghost use Rattle.io.specs.Counts.{IsPrefixLen};
ghost use Rattle.sheet_codec.specs.Put.{Put};
ghost use Rattle.run_sheet.specs.Run.{text_bytes, printed};

// `run_sheet::run_sheet` under a name to link. In C a slice is a pointer and a length.
#[unsafe(no_mangle)]
pub extern "C" fn sheet_ffi_run(sheet: &[u8], text: &mut [u8]) -> usize
    ensures put { Put text.old 0 (printed (length text.old) sheet.now) text_bytes text.new result }
    ensures prefix_len { IsPrefixLen result text.new }
{
    run_sheet::run_sheet(sheet, text)
}
