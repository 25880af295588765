// Runs the sheets in the files that the arguments name, each after its file's name, and then sheets at the limits of the counts.
// A file ends with the text that it prints, worked out by hand from documents 01 and 02.
#![tactic(auto)]

mod hex;
mod large;

ghost use Rattle.std.specs.Prelude.{◌≡◌, ◌<◌, ◌≤◌, length};

use printing::BestEffort;
use run_sheet::{INPUT_BYTES, SHEET_BYTES, TEXT_BYTES};
use std::env::FillError;
use std::fs::File;
use std::io::Result;
use std::os::fd::AsRawFd;
use std::rt::Env;

// The last line of the largest sheet's text, with its line end.
const LAST_BYTES: usize = 14;

// What the program is given: standard output, on which it goes on where a text cannot be written, and the files.
type Host<'a> = BestEffort<&'a HostRuntime>;

// Runs the sheets, all of them also where text cannot be written; the status is 0.
fn main(rt: HostRuntime) {
    let _ = sheets(&BestEffort(&rt), &mut zeros::<TEXT_BYTES>());
}

// Each sheet's text goes into the one buffer.
fn sheets(rt: &Host, text: &mut [u8]) -> Result<()> {
    files(rt, text)?;
    filled::<1289>(rt, "257 mappings", 257, 0, text)?;
    filled::<36877>(rt, "4097 steps", 0, 4097, text)?;
    filled::<INPUT_BYTES>(rt, "256 mappings, 4096 steps and one byte", 256, 4096, text)?;
    largest(rt, text)
}

// ---- sheets in files

// The sheets in the files that the arguments name. An argument that does not fit is taken for an empty name.
fn files(rt: &Host, text: &mut [u8]) -> Result<()> {
    for i in 1..usize::MAX {
        let mut name = io::buffer();
        let n = match rt.0.arg(i, &mut name) {
            Ok(n) => n,
            Err(FillError::TooLong) => 0,
            Err(FillError::NotPresent) => break,
        };
        file(rt, &name[..n], text)?;
    }
    Ok(())
}

// The sheet in a file, or a line on standard error that says why there is none; the sheets after it run also where that cannot be written.
fn file(rt: &Host, name: &[u8], text: &mut [u8]) -> Result<()> {
    rt.write_all(name)?;
    println!(rt)?;
    let Ok(path) = str::from_utf8(name) else {
        let _ = eprintln!(rt.0; "the name is not UTF-8");
        return Ok(());
    };
    match File::open(rt.0, path) {
        Ok(sheet) => {
            let mut digits = io::large_buffer();
            let n = io::read_full(sheet.as_raw_fd(), &mut digits);
            written(rt, &digits[..n], text)
        }
        Err(e) => {
            let _ = eprintln!(rt.0; "{path}: {e}");
            Ok(())
        }
    }
}

// The sheet that a text of hexadecimal digits has.
fn written(rt: &Host, digits: &[u8], text: &mut [u8]) -> Result<()> {
    let mut sheet = zeros::<INPUT_BYTES>();
    let n = hex::bytes(digits, &mut sheet);
    run(rt, &sheet[..n], text)
}

fn run(rt: &Host, sheet: &[u8], text: &mut [u8]) -> Result<()> {
    let n = run_sheet::run_sheet(sheet, text);
    rt.write_all(&text[..n])
}

// ---- sheets at the limits of the counts

// The first N bytes of the sheet of some mappings and steps, after a line that says which.
fn filled<const N: usize>(
    rt: &Host,
    which: &str,
    mappings: usize,
    steps: usize,
    text: &mut [u8],
) -> Result<()>
    requires { (mappings < 65536) × (steps < 65536) × (N ≤ 65536) }
{
    println!(rt; "{which}")?;
    let mut sheet = zeros::<N>();
    large::fill(mappings, steps, &mut sheet);
    run(rt, &sheet, text)
}

// The largest sheet, and its text in short.
fn largest(rt: &Host, text: &mut [u8]) -> Result<()> {
    println!(rt; "256 mappings, 4096 steps")?;
    let mut sheet = zeros::<SHEET_BYTES>();
    large::fill(256, 4096, &mut sheet);
    let n = run_sheet::run_sheet(&sheet, text);
    in_short(rt, &text[..n])
}

// The length of a text, its checksum and its last line.
fn in_short(rt: &Host, text: &[u8]) -> Result<()> {
    let length = text.len();
    let checksum = adler(text);
    println!(rt; "{length} bytes, Adler-32 {checksum}")?;
    match text.last_chunk::<LAST_BYTES>() {
        Some(last) => rt.write_all(last),
        None => Ok(()),
    }
}

// The checksum of RFC 1950.
fn adler(text: &[u8]) -> u64 {
    let mut low = 1;
    let mut high = 0;
    for &byte in text {
        low = (low + u64::from(byte)) % 65521;
        high = (high + low) % 65521;
    }
    65536 * high + low
}

// So many zeros. That it is so many is shown of any number: of a number at hand the check would write them out.
fn zeros<const N: usize>() -> [u8; N]
    ensures { N ≡ length result }
{
    [0; N]
}
