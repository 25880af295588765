// Document 01's two tables, request N3's row, request N6's two and request N8's, by cases: what a step makes of one colour's state, own or other, for
// data and for instructions. Steps, rows and states stand in the papers' order.
ghost use Rattle.std.specs.Prelude.{◌≡◌};
ghost use Rattle.page_model.specs.Cases.{step_of, state_of_code, mask_state_of, cell_of_code, row_of, instruction_of_code, instruction_cell_of_code, instruction_row_of};
ghost use Rattle.page_model.specs.Record.{is_held, is_dirty};
ghost use Rattle.page_model.specs.Table.{own_of, role_if};

use super::masks::MaskState;
use ColourState::{Dirty, Empty, Present, Stale};
use Operation::{Flush, Purge};

// The state of a colour. Present is what document 01 calls held.
#[derive(Clone, Copy, Debug, PartialEq, Eq)]
pub enum ColourState {
    Empty,
    Present,
    Dirty,
    Stale,
}

// An operation on a colour, which document 01 calls an order.
#[derive(Clone, Copy, Debug, PartialEq, Eq)]
pub enum Operation {
    Flush,
    Purge,
}

// A step: a read, write or fetch of the processor through a colour, or a device's transfer or the beginning of one.
#[derive(Clone, Copy, Debug, PartialEq, Eq)]
pub enum Step {
    Read(usize),
    Write(usize),
    DeviceRead,
    DeviceWrite,
    DeviceWritePart,
    BeginRead,
    BeginWrite,
    Fetch(usize),
}

// A cell of the tables: an operation, if any, and the state after it.
#[derive(Clone, Copy, Debug, PartialEq, Eq)]
pub struct Cell<S> {
    pub operation: Option<Operation>,
    pub next: S,
}

impl<S> Cell<S> {
    // A cell of this operation and this state.
    fn new(operation: Option<Operation>, next: S) -> Self
        ensures { result ≡ record { operation = operation; next = next } }
    {
        Cell { operation, next }
    }
}

impl ColourState {
    // Whether a colour in this state is held, present or dirty.
    pub fn is_held(self) -> bool
        ensures { result ≡ is_held (state_of_code self) }
    {
        matches!(self, Present | Dirty)
    }

    // Whether it is dirty.
    pub fn is_dirty(self) -> bool
        ensures { result ≡ is_dirty (state_of_code self) }
    {
        matches!(self, Dirty)
    }

    // Where the masks have a colour in this state.
    pub fn in_masks(self) -> MaskState
        ensures { result ≡ mask_state_of (state_of_code self) }
    {
        match self {
            Empty => MaskState::Empty,
            Present | Dirty => MaskState::Held,
            Stale => MaskState::Stale,
        }
    }
}

impl Step {
    // The colour that a step goes through; a transfer goes through none, and 0 stands for that: its cells do not look at it.
    pub fn colour(self) -> usize
        ensures { result ≡ own_of (step_of self) }
    {
        match self {
            Step::Read(colour) | Step::Write(colour) | Step::Fetch(colour) => colour,
            _ => 0,
        }
    }

    // The cell of a step at a colour, its own or another, in a state.
    pub fn cell(self, own: bool, state: ColourState) -> Cell<ColourState>
        ensures { cell_of_code result ≡ row_of (step_of self) (role_if own) (state_of_code state) }
    {
        match self {
            // processor read, own colour
            Step::Read(_) if own => match state {
                Empty => Cell::new(None, Present),
                Present => Cell::new(None, Present),
                Dirty => Cell::new(None, Dirty),
                Stale => Cell::new(Some(Purge), Present),
            },
            // others
            Step::Read(_) => match state {
                Empty => Cell::new(None, Empty),
                Present => Cell::new(None, Present),
                Dirty => Cell::new(Some(Flush), Present),
                Stale => Cell::new(None, Stale),
            },
            // processor write, own colour
            Step::Write(_) if own => match state {
                Empty => Cell::new(None, Dirty),
                Present => Cell::new(None, Dirty),
                Dirty => Cell::new(None, Dirty),
                Stale => Cell::new(Some(Purge), Dirty),
            },
            // others
            Step::Write(_) => match state {
                Empty => Cell::new(None, Empty),
                Present => Cell::new(None, Stale),
                Dirty => Cell::new(Some(Flush), Stale),
                Stale => Cell::new(None, Stale),
            },
            // device read (memory to device), every colour
            Step::DeviceRead => match state {
                Empty => Cell::new(None, Empty),
                Present => Cell::new(None, Present),
                Dirty => Cell::new(Some(Flush), Present),
                Stale => Cell::new(None, Stale),
            },
            // device write (device to memory), every colour
            Step::DeviceWrite => match state {
                Empty => Cell::new(None, Empty),
                Present => Cell::new(None, Stale),
                Dirty => Cell::new(Some(Purge), Empty),
                Stale => Cell::new(None, Stale),
            },
            // part transfer, every colour
            Step::DeviceWritePart => match state {
                Empty => Cell::new(None, Empty),
                Present => Cell::new(None, Stale),
                Dirty => Cell::new(Some(Flush), Stale),
                Stale => Cell::new(None, Stale),
            },
            // begin read, every colour
            Step::BeginRead => match state {
                Empty => Cell::new(None, Empty),
                Present => Cell::new(None, Present),
                Dirty => Cell::new(Some(Flush), Present),
                Stale => Cell::new(None, Stale),
            },
            // begin write, every colour
            Step::BeginWrite => match state {
                Empty => Cell::new(None, Empty),
                Present => Cell::new(None, Stale),
                Dirty => Cell::new(Some(Flush), Stale),
                Stale => Cell::new(None, Stale),
            },
            // fetch, every colour
            Step::Fetch(_) => match state {
                Empty => Cell::new(None, Empty),
                Present => Cell::new(None, Present),
                Dirty => Cell::new(Some(Flush), Present),
                Stale => Cell::new(None, Stale),
            },
        }
    }

    // The same for instructions, whose state is what the masks say: the operation is one in the instruction cache.
    pub fn instruction_cell(self, own: bool, state: MaskState) -> Cell<MaskState>
        ensures { instruction_cell_of_code result ≡ instruction_row_of (step_of self) (role_if own) (instruction_of_code state) }
    {
        match self {
            // processor read, device read and begin read, every colour
            Step::Read(_) | Step::DeviceRead | Step::BeginRead => match state {
                MaskState::Empty => Cell::new(None, MaskState::Empty),
                MaskState::Held => Cell::new(None, MaskState::Held),
                MaskState::Stale => Cell::new(None, MaskState::Stale),
            },
            // processor write, device write, part transfer and begin write, every colour
            Step::Write(_) | Step::DeviceWrite | Step::DeviceWritePart | Step::BeginWrite =>
                match state {
                    MaskState::Empty => Cell::new(None, MaskState::Empty),
                    MaskState::Held => Cell::new(None, MaskState::Stale),
                    MaskState::Stale => Cell::new(None, MaskState::Stale),
                },
            // fetch, own colour
            Step::Fetch(_) if own => match state {
                MaskState::Empty => Cell::new(None, MaskState::Held),
                MaskState::Held => Cell::new(None, MaskState::Held),
                MaskState::Stale => Cell::new(Some(Purge), MaskState::Held),
            },
            // others
            Step::Fetch(_) => match state {
                MaskState::Empty => Cell::new(None, MaskState::Empty),
                MaskState::Held => Cell::new(None, MaskState::Held),
                MaskState::Stale => Cell::new(None, MaskState::Stale),
            },
        }
    }
}
