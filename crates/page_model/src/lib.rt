// The page model: a frame's record, and what each step makes of it.
#![tactic(auto)]

pub mod busy;
pub mod masks;
mod table;

ghost use Rattle.std.specs.Prelude.{◌≡◌, true, false, cond, List, ◌++◌, ◌≤◌, ◌<◌, eqb};
ghost use Rattle.std.specs.Int.Count.{count_trailing_zeros};
ghost use Rattle.bits.specs.Mask.{width};
ghost use Rattle.page_model.specs.Busy.{bars};
ghost use Rattle.page_model.specs.Cases.{step_of, state_of_code, operation_of_code, instruction_classes, operation_at, instruction_operation_at};
ghost use Rattle.page_model.specs.Record.{keeps_rules, colours_keep_rules, instructions_keep_rules, state_from, state_of, instruction_state_of, is_held, is_dirty, is_fetched, freed};
ghost use Rattle.page_model.specs.declared.Op.{Op};
ghost use Rattle.page_model.specs.Masks.{moved};
ghost use Rattle.page_model.specs.Step.{stepped, first_two, op_list};
ghost use Rattle.page_model.specs.Table.{reach};

use masks::{Classes, MaskState, Masks};
pub use table::Step;
use table::{ColourState, Operation};

// An operation that a cache is to carry out on one colour of a frame, the data cache but for PurgeInstructions: document 01's order.
#[derive(Clone, Copy, Debug, PartialEq, Eq)]
pub enum Op {
    None,
    Flush(usize),
    Purge(usize),
    PurgeInstructions(usize),
}

// The operations of one step, in order; None stands last.
#[derive(Clone, Copy, Debug, PartialEq, Eq)]
pub struct Ops {
    pub first: Op,
    pub second: Op,
}

// What is known of a frame in the caches: the masks of its held and its stale colours, and dirty, 0 or 1. The mark busy is 0 where the frame is free,
// 1 while a device reads it and 2 while a device writes it. The dirty colour is the number of colours where none is dirty. Request N8's masks say which
// colours are held and stale in the instruction cache.
#[derive(Clone, Copy, Debug, PartialEq, Eq)]
pub struct FrameRecord {
    pub masks: Masks,
    pub dirty: u32,
    pub busy: u32,
    pub dirty_colour: u32,
    pub instructions: Masks,
}

// The record after a step, and the operations that come first.
#[derive(Clone, Copy, Debug, PartialEq, Eq)]
pub struct Stepped {
    pub next: FrameRecord,
    pub ops: Ops,
}

impl FrameRecord {
    // Whether the record keeps the rules.
    #[tactic(auto, using(crate::proofs::Rules::told_colour), unfolding(crate::specs::Record::keeps_rules))]
    pub fn keeps_rules(self, colours: usize) -> bool
        requires { colours ≤ width }
        ensures { result ≡ keeps_rules colours self }
    {
        busy::mark_fits(self.busy, self.dirty, self.masks.held)
            && self.colours_keep_rules(colours)
            && self.instructions_keep_rules(colours)
            && self.dirty_colour == self.told_colour(colours as u32)
    }

    // Whether the masks for instructions keep the rules, with none held beside a dirty colour, nor while a device writes: one test, and no branch on
    // what the record holds.
    #[tactic(auto, unfolding(crate::specs::Record::instructions_keep_rules))]
    fn instructions_keep_rules(self, colours: usize) -> bool
        requires { colours ≤ width }
        ensures { result ≡ instructions_keep_rules colours self }
    {
        self.instructions.keep_rules(colours)
            && (self.instructions.held == 0) | (self.dirty != 1) & (self.busy != busy::WRITING)
    }

    // Whether no bit is past the colours, none in both masks, the flag 0 or 1, and with the flag set exactly one held bit.
    #[tactic(auto, using(crate::proofs::Rules::rules_are))]
    fn colours_keep_rules(self, colours: usize) -> bool
        requires { colours ≤ width }
        ensures { result ≡ colours_keep_rules colours self }
    {
        self.masks.keep_rules(colours)
            && (self.dirty == 0 || self.dirty == 1 && self.masks.held.count_ones() == 1)
    }

    // The dirty colour that flag and held mask tell: with the flag set the first held one, and without it none, by its number.
    fn told_colour(self, none: u32) -> u32
        ensures { result ≡ cond (eqb self.dirty 1) (count_trailing_zeros width self.masks.held) none }
    {
        if self.dirty == 1 {
            self.masks.held.trailing_zeros()
        } else {
            none
        }
    }

    // A step through one of the colours, or a transfer: the next record and the operations. Of a record that breaks the rules what it gives is free.
    //
    // Each class of colours takes its cell, and goes to the mask of its next state. The classes are the own colour and of the others those that are
    // held, which are all present or the one dirty, those that are stale and those that are empty. In every row none of the others but the dirty one
    // has an operation, and none is dirty afterwards. A transfer goes through no colour, and its cells do not look at one. For instructions the
    // colours go by the same classes, and in every row none but the own one has an operation.
    #[tactic(auto, using(crate::proofs::Colours::below_width))]
    pub fn step(self, step: Step, colours: usize) -> Stepped
        requires { (colours ≤ width) × (reach (step_of step) ≤ colours) }
        ensures { keeps_rules colours self ≡ true → result ≡ stepped colours (step_of step) self }
    {
        let colour = step.colour();
        let own = step.cell(true, self.state(colour));
        let held = step.cell(false, self.held_state());
        let stale = step.cell(false, ColourState::Stale);
        let empty = step.cell(false, ColourState::Empty);
        let to = Classes {
            own: own.next.in_masks(),
            held: held.next.in_masks(),
            stale: stale.next.in_masks(),
            empty: empty.next.in_masks(),
        };
        let fetched = step.instruction_cell(true, self.instructions.state(colour));
        let dirty = own.next.is_dirty();
        let next = FrameRecord {
            masks: self.masks.moved(colours, colour, to),
            dirty: u32::from(dirty),
            busy: busy::mark_after(step, self.busy),
            dirty_colour: if dirty { colour } else { colours } as u32,
            instructions: self.instructions_after(step, colours, colour, fetched.next),
        };
        let first = elsewhere(held.operation, self.dirty_colour as usize, colour);
        let second = operation(own.operation, colour);
        let last = Ops {
            first: instruction_operation(fetched.operation, colour),
            second: Op::None,
        };
        let ops = put_first(first, put_first(second, last));
        Stepped { next, ops }
    }

    // The masks for instructions after a step, where the own colour becomes what is given.
    fn instructions_after(self, step: Step, colours: usize, colour: usize, own: MaskState) -> Masks
        requires { (colours ≤ width) × (colour < width) }
        ensures { result ≡ moved colours colour (instruction_classes (step_of step) own) self.instructions }
    {
        let held = step.instruction_cell(false, MaskState::Held);
        let stale = step.instruction_cell(false, MaskState::Stale);
        let empty = step.instruction_cell(false, MaskState::Empty);
        let to = Classes {
            own,
            held: held.next,
            stale: stale.next,
            empty: empty.next,
        };
        self.instructions.moved(colours, colour, to)
    }

    // A device ends its transfer.
    pub fn end(self) -> FrameRecord
        ensures { result ≡ freed self }
    {
        FrameRecord {
            busy: busy::FREE,
            ..self
        }
    }

    // Whether the busy mark bars a step.
    pub fn bars(self, step: Step) -> bool
        ensures { result ≡ bars self.busy (step_of step) }
    {
        match step {
            Step::Read(_) | Step::Fetch(_) => self.busy == busy::WRITING,
            Step::Write(_)
            | Step::DeviceRead
            | Step::DeviceWrite
            | Step::DeviceWritePart
            | Step::BeginRead
            | Step::BeginWrite => self.busy != busy::FREE,
        }
    }

    // Whether a colour is present or dirty, in any record.
    pub fn holds(self, colour: usize) -> bool
        requires { colour < width }
        ensures { result ≡ is_held (state_of self colour) }
    {
        self.state(colour).is_held()
    }

    // Whether a colour is dirty, in any record.
    pub fn holds_dirty(self, colour: usize) -> bool
        requires { colour < width }
        ensures { result ≡ is_dirty (state_of self colour) }
    {
        self.state(colour).is_dirty()
    }

    // Whether a colour is held for instructions, in any record.
    #[tactic(auto, unfolding(crate::specs::Record::instruction_state_of))]
    pub fn holds_instructions(self, colour: usize) -> bool
        requires { colour < width }
        ensures { result ≡ is_fetched (instruction_state_of self colour) }
    {
        matches!(self.instructions.state(colour), MaskState::Held)
    }

    // The state that every held colour is in.
    fn held_state(self) -> ColourState
        ensures { state_of_code result ≡ state_from false true (eqb self.dirty 1) }
    {
        if self.dirty == 1 {
            ColourState::Dirty
        } else {
            ColourState::Present
        }
    }

    // A colour's state, in any record.
    #[tactic(auto, unfolding(crate::specs::Record::state_of))]
    fn state(self, colour: usize) -> ColourState
        requires { colour < width }
        ensures { state_of_code result ≡ state_of self colour }
    {
        match self.masks.state(colour) {
            MaskState::Empty => ColourState::Empty,
            MaskState::Held => self.held_state(),
            MaskState::Stale => ColourState::Stale,
        }
    }
}

// An operation, if any, on a colour.
fn operation(operation: Option<Operation>, colour: usize) -> Op
    ensures { result ≡ operation_at (operation_of_code operation) colour }
{
    match operation {
        None => Op::None,
        Some(Operation::Flush) => Op::Flush(colour),
        Some(Operation::Purge) => Op::Purge(colour),
    }
}

// An operation, if any, on a colour in the instruction cache, which has purges alone.
fn instruction_operation(operation: Option<Operation>, colour: usize) -> Op
    ensures { result ≡ instruction_operation_at (operation_of_code operation) colour }
{
    match operation {
        Some(Operation::Purge) => Op::PurgeInstructions(colour),
        Some(Operation::Flush) | None => Op::None,
    }
}

// The operation on the dirty colour, if that is not the step's own. Where none is dirty there is none.
fn elsewhere(held: Option<Operation>, dirty: usize, own: usize) -> Op
    ensures { result ≡ cond (eqb dirty own) Op.None (operation_at (operation_of_code held) dirty) }
{
    if dirty == own {
        Op::None
    } else {
        operation(held, dirty)
    }
}

// An operation, or None, in front of others: the first two of them.
fn put_first(first: Op, rest: Ops) -> Ops
    ensures { (l : List Op) → rest ≡ first_two l → result ≡ first_two (op_list first ++ l) }
{
    match first {
        Op::None => rest,
        _ => Ops {
            first,
            second: rest.first,
        },
    }
}
