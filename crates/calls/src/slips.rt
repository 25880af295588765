// What can be wrong with a line of a script, and what ends a script.
use std::{fmt, io};

// What is wrong with a line, or with the script that it calls.
#[derive(Clone, Copy, Debug, PartialEq, Eq)]
pub enum Slip {
    NoCommand,
    Missing,
    Extra,
    Misfit,
    NoNumber,
    NoScript,
    TooLong,
}

impl fmt::Display for Slip {
    fn fmt<W: fmt::Write>(&self, f: &mut fmt::Formatter<W>) -> fmt::Result {
        f.write_str(match self {
            Slip::NoCommand => "no such command",
            Slip::Missing => "a number is missing",
            Slip::Extra => "a number too many",
            Slip::Misfit => "a number does not fit",
            Slip::NoNumber => "not a number",
            Slip::NoScript => "no such script",
            Slip::TooLong => "the script is too long",
        })
    }
}

// What ends a script before its last line: a slip, or text that cannot be written.
#[derive(Debug, Drop)]
pub enum Stop {
    Slip(Slip),
    Output(io::Error),
}

impl From<Slip> for Stop {
    fn from(slip: Slip) -> Stop {
        Stop::Slip(slip)
    }
}

impl From<io::Error> for Stop {
    fn from(error: io::Error) -> Stop {
        Stop::Output(error)
    }
}
