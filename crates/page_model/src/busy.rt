// The busy mark of a frame (request N6): what transfer that takes a while a device has begun there and not ended.
ghost use Rattle.std.specs.Prelude.{◌≡◌};
ghost use Rattle.page_model.specs.Busy.{mark_after};
ghost use Rattle.page_model.specs.Cases.{step_of, mark_at};
ghost use Rattle.page_model.specs.Record.{mark_fits};

use super::Step;

// No transfer; a device reads the frame; a device writes it.
pub const FREE: u32 = 0;

pub const READING: u32 = 1;

pub const WRITING: u32 = 2;

// Whether a mark goes with a flag and a held mask: while a device reads no colour is dirty, while one writes none is present or dirty.
pub fn mark_fits(mark: u32, flag: u32, held: u32) -> bool
    ensures { result ≡ mark_fits mark flag held }
{
    match mark {
        FREE => true,
        READING => flag == 0,
        WRITING => held == 0,
        _ => false,
    }
}

// The mark after a step: a beginning sets it, and any other leaves it.
pub fn mark_after(step: Step, mark: u32) -> u32
    ensures { result ≡ mark_after (step_of step) mark }
{
    match step {
        Step::BeginRead => READING,
        Step::BeginWrite => WRITING,
        _ => mark,
    }
}

// The same by the number of the step in the tables: a number that stands for no step leaves the mark.
pub fn mark_at(step: u8, mark: u32) -> u32
    ensures { result ≡ mark_at step mark }
{
    match step {
        5 => READING,
        6 => WRITING,
        _ => mark,
    }
}
