// The manager: keeps the page states of all frames and says which operations are due (document 01: orders). This file has what a plan and an answer say
// where a call is not refused, and the names by which a kernel calls it.
#![tactic(auto)]

pub mod batch;
mod calls;
pub mod commits;
pub mod lent;
pub mod plans;
pub mod records;
mod refusal;
pub mod refusals;

ghost use Rattle.std.specs.Prelude.{◌≡◌};
ghost use Rattle.manager.specs.Calls.{no_ops};

pub use calls::{
    begin_read, begin_write, bring_word, device_read, device_write, device_write_part,
    end_transfer, fetch, map, map_all, read, start, take_word, unmap, write,
};
use page_model::{FrameRecord, Op, Ops};
pub use refusal::{Refusal, number_in};

// The operations of a call, on one frame.
#[derive(Clone, Copy, Debug, PartialEq, Eq)]
pub struct FrameOps {
    pub frame: u8,
    pub ops: Ops,
}

// The accesses of the processor.
#[derive(Clone, Copy, Debug, PartialEq, Eq)]
pub enum AccessKind {
    Read,
    Write,
    Fetch,
}

// What a step makes of one frame's record.
#[derive(Clone, Copy, Debug, PartialEq, Eq)]
pub struct Change {
    pub frame: u8,
    pub next: FrameRecord,
    pub ops: Ops,
}

// No operations: the answer of an accepted call that needs none.
pub fn nothing() -> FrameOps
    ensures { result ≡ record { frame = 0; ops = no_ops } }
{
    FrameOps {
        frame: 0,
        ops: Ops {
            first: Op::None,
            second: Op::None,
        },
    }
}
