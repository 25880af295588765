// Runs scripts of calls of the manager, of the machine and of the position hold. Each line of a script is a setting or a call, and each call has a line of
// text with its answer and with all that it changed in what was lent. README.md says what a script is.
#![tactic(auto)]

mod commands;
mod lent;
mod numbers;
mod on_machine;
mod on_manager;
mod slips;
mod state;
mod tell;

ghost use Rattle.std.specs.Io.{ReadsAtMost};

use commands::{Call, Command, Subject};
use numbers::{Args, Numbers};
use printing::BestEffort;
use slips::{Slip, Stop};
use state::State;
use std::env::FillError;
use std::fs::File;
use std::os::fd::AsRawFd;
use std::rt::Env;

// What the program is given: standard output, on which it goes on where a text cannot be written, and the files.
type Host<'a> = BestEffort<&'a HostRuntime>;

// Runs the scripts that the arguments name, each from the start, also where text cannot be written; the status is 0.
fn main(rt: HostRuntime) {
    let _ = scripts(&BestEffort(&rt));
}

// Runs the scripts one after the other. An argument that does not fit is taken for an empty name.
fn scripts(rt: &Host) -> std::io::Result<()> {
    for i in 1..usize::MAX {
        let mut name = io::buffer();
        let n = match rt.0.arg(i, &mut name) {
            Ok(n) => n,
            Err(FillError::TooLong) => 0,
            Err(FillError::NotPresent) => break,
        };
        script(rt, &name[..n])?;
    }
    Ok(())
}

// Runs a script from the start, and says so where there is none. What ends it before its last line is told there.
fn script(rt: &Host, name: &[u8]) -> std::io::Result<()> {
    written(rt, name)?;
    let mut text = io::large_buffer();
    match read(rt, name, &mut text) {
        Ok(n) => match lines(rt, name, &text[..n], &mut State::start(), outer) {
            Err(Stop::Output(error)) => Err(error),
            _ => Ok(()),
        },
        Err(slip) => told(rt, name, 0, slip),
    }
}

// Reads a script, which has fewer bytes than the buffer takes, and answers how many it has.
fn read(rt: &Host, name: &[u8], text: &mut [u8]) -> Result<usize, Slip>
    ensures { ReadsAtMost result text.new }
{
    let path = str::from_utf8(name).map_err(|_| Slip::NoScript)?;
    let file = File::open(rt.0, path).map_err(|_| Slip::NoScript)?;
    let n = io::read_full(file.as_raw_fd(), text);
    if n == text.len() {
        return Err(Slip::TooLong);
    }
    if n == 0 {
        return Err(Slip::NoScript);
    }
    Ok(n)
}

// ---- lines

// Carries out the lines of a script up to its end, or to one that has a slip, which is told.
fn lines<F>(rt: &Host, name: &[u8], text: &[u8], s: &mut State, carry_out: F) -> Result<(), Stop>
where
    F: Fn(&Host, &[u8], &mut State) -> Result<(), Stop>,
    requires { F.IsAlwaysCallable carry_out }
{
    for (line, number) in text.split(|b| *b == b'\n').zip(1u64..) {
        match carry_out(rt, line, s) {
            Err(Stop::Slip(slip)) => {
                told(rt, name, number, slip)?;
                return Err(Stop::Slip(slip));
            }
            done => done?,
        }
    }
    Ok(())
}

// Says what is wrong with a line of a script.
fn told(rt: &impl Print, name: &[u8], number: u64, slip: Slip) -> std::io::Result<()> {
    rt.write_all(name)?;
    println!(rt; ":{number}: {slip}")
}

// Writes a line as it stands.
fn written(rt: &impl Print, line: &[u8]) -> std::io::Result<()> {
    rt.write_all(line)?;
    println!(rt)
}

// Carries out a line that may call a script by `do NAME NUMBER..`. The line is written, and its numbers stand for `$1` and so on in that script.
fn outer(rt: &Host, text: &[u8], s: &mut State) -> Result<(), Stop> {
    let Some(call) = text.strip_prefix(b"do ") else {
        return line(rt, text, s);
    };
    written(rt, text)?;
    let (name, numbers) = numbers::first_word(call);
    s.called = Args::new(numbers, &[]).all()?;
    let mut text = io::large_buffer();
    let n = read(rt, name, &mut text)?;
    lines(rt, name, &text[..n], s, line)?;
    s.called = Numbers::none();
    Ok(())
}

// Carries out a line. One that starts with `#` is for the reader, and one with a quote is written as it stands.
fn line(rt: &Host, text: &[u8], s: &mut State) -> Result<(), Stop> {
    match text.first() {
        None | Some(b'#') => return Ok(()),
        Some(b'"') => return Ok(written(rt, text)?),
        Some(_) => {}
    }
    let (word, numbers) = numbers::first_word(text);
    let word = str::from_utf8(word).map_err(|_| Slip::NoCommand)?;
    let called = s.called;
    let mut args = Args::new(numbers, called.as_slice());
    let command = commands::parsed(word, s.subject, &mut args)?;
    let read = args.end()?;
    match command {
        Command::Setting(setting) => s.set(setting)?,
        Command::Call(call) => {
            tell::call(rt, word, read.as_slice())?;
            made(rt, call, s)?;
        }
    }
    Ok(())
}

// Makes a call, and tells its answer and what it changed.
fn made(rt: &Host, call: Call, s: &mut State) -> std::io::Result<()> {
    let list = s.list;
    let lent = s.lent;
    match s.subject {
        Subject::Machine => on_machine::call(rt, s, call)?,
        Subject::Manager => on_manager::call(rt, s, call)?,
    }
    tell::list_changes(rt, &list, &s.list)?;
    tell::changes(rt, &lent, &s.lent)?;
    println!(rt)
}
