// Why a call is refused: the error of every call, plan and test.
ghost use Rattle.std.specs.Prelude.{◌≡◌};
ghost use Rattle.manager.specs.Answers.{refusal_number, refusal_in};

use std::error::Error;
use std::fmt;

// The causes of refusal, in the order in which they are tested: of two, the lesser is answered.
#[derive(Clone, Copy, Debug, PartialEq, Eq, PartialOrd, Ord)]
pub enum Refusal {
    // A lent buffer of another length.
    WrongLength,
    // A list of more mappings than a batch has, or of not as many as there are answers.
    WrongBatch,
    // What is lent breaks its rules.
    BrokenRules,
    // A space or a page past its limit.
    NoSuchPage,
    NoSuchFrame,
    NoSuchRights,
    // An offset or a line past its limit.
    NoSuchOffset,
    // A part of a page without words, or with words past the page.
    NoSuchPart,
    AlreadyMapped,
    NotMapped,
    ListFull,
    // A write through rights that are not to read and write.
    NotWritable,
    // A fetch through rights that are not to read and fetch.
    NotFetchable,
    // A transfer that has begun bars the call.
    Busy,
    // A word or an end without its transfer.
    NoTransfer,
}

impl Refusal {
    // The number that stands for the refusal in a byte: a sheet's text, an answer of a list of mappings.
    pub fn number(self) -> u8
        ensures { result ≡ refusal_number self }
    {
        match self {
            Refusal::WrongLength => 1,
            Refusal::BrokenRules => 2,
            Refusal::NoSuchPage => 3,
            Refusal::NoSuchFrame => 4,
            Refusal::NoSuchRights => 5,
            Refusal::NoSuchOffset => 6,
            Refusal::AlreadyMapped => 7,
            Refusal::NotMapped => 8,
            Refusal::ListFull => 9,
            Refusal::NotWritable => 10,
            Refusal::WrongBatch => 12,
            Refusal::NoSuchPart => 13,
            Refusal::Busy => 15,
            Refusal::NoTransfer => 16,
            Refusal::NotFetchable => 17,
        }
    }
}

// The number of what a test refuses, or 0 where it refuses nothing.
pub fn number_in(test: Result<(), Refusal>) -> u8
    ensures { result ≡ refusal_in test }
{
    match test {
        Ok(()) => 0,
        Err(refusal) => refusal.number(),
    }
}

impl fmt::Display for Refusal {
    fn fmt<W: fmt::Write>(&self, f: &mut fmt::Formatter<W>) -> fmt::Result {
        f.write_str(match self {
            Refusal::WrongLength => "a lent buffer of another length",
            Refusal::WrongBatch => "too many mappings, or not as many as answers",
            Refusal::BrokenRules => "what is lent breaks its rules",
            Refusal::NoSuchPage => "no such page",
            Refusal::NoSuchFrame => "no such frame",
            Refusal::NoSuchRights => "no such rights",
            Refusal::NoSuchOffset => "no such offset or line",
            Refusal::NoSuchPart => "no such part of a page",
            Refusal::AlreadyMapped => "the page is mapped already",
            Refusal::NotMapped => "the page is not mapped",
            Refusal::ListFull => "the mapping list is full",
            Refusal::NotWritable => "the rights do not allow a write",
            Refusal::NotFetchable => "the rights do not allow a fetch",
            Refusal::Busy => "a transfer of the frame bars the call",
            Refusal::NoTransfer => "the frame has no such transfer",
        })
    }
}

impl Error for Refusal {}
