// The masks of the colours that are held and of those that are stale, and how a step moves the colours between them: class by class.
ghost use Rattle.std.specs.Prelude.{◌≡◌, ◌≤◌, ◌<◌};
ghost use Rattle.bits.specs.Mask.{width, bit};
ghost use Rattle.page_model.specs.Cases.{instruction_of_code, mask_state};
ghost use Rattle.page_model.specs.Masks.{masks_keep_rules, with_class, moved};
ghost use Rattle.page_model.specs.Record.{instruction_state_from};

// Bit c of a mask stands for colour c. Present and dirty colours are held.
#[derive(Clone, Copy, Debug, PartialEq, Eq)]
pub struct Masks {
    pub held: u32,
    pub stale: u32,
}

// What the masks say of a colour. Of the masks for instructions, for which none is dirty, it is the colour's state.
#[derive(Clone, Copy, Debug, PartialEq, Eq)]
pub enum MaskState {
    Empty,
    Held,
    Stale,
}

// What each class of colours becomes: a step's own colour, and of the others those that are held, stale and empty.
#[derive(Clone, Copy, Debug, PartialEq, Eq)]
pub struct Classes {
    pub own: MaskState,
    pub held: MaskState,
    pub stale: MaskState,
    pub empty: MaskState,
}

impl From<u8> for MaskState {
    ghost from_gives = { λ number state. state ≡ mask_state number };

    // The state of a colour by the number of its state in the tables; of any other number, that of neither mask.
    fn from(number: u8) -> MaskState {
        match number {
            1 | 2 => MaskState::Held,
            3 => MaskState::Stale,
            _ => MaskState::Empty,
        }
    }
}

impl Masks {
    // Whether no bit is past the colours, and none in both masks.
    #[tactic(auto, using(crate::proofs::Moving::masks_are))]
    pub fn keep_rules(self, colours: usize) -> bool
        requires { colours ≤ width }
        ensures { result ≡ masks_keep_rules colours self }
    {
        bits::within(self.held | self.stale, colours) && self.held & self.stale == 0
    }

    // What the masks say of a colour, stale where it is in both.
    pub fn state(self, colour: usize) -> MaskState
        requires { colour < width }
        ensures { instruction_of_code result ≡ instruction_state_from (bit self.stale colour) (bit self.held colour) }
    {
        if bits::bit(self.stale, colour) {
            MaskState::Stale
        } else if bits::bit(self.held, colour) {
            MaskState::Held
        } else {
            MaskState::Empty
        }
    }

    // The masks after each class of colours went to its state. A colour that is in both masks counts as stale.
    #[tactic(auto, using(crate::proofs::Moving::moved_is))]
    pub fn moved(self, colours: usize, colour: usize, to: Classes) -> Masks
        requires { (colours ≤ width) × (colour < width) }
        ensures { result ≡ moved colours colour to self }
    {
        let every = bits::below(colours);
        let own = every & bits::with_bit(0, colour);
        let others = every ^ own;
        let stale = others & self.stale;
        let rest = others ^ stale;
        let held = rest & self.held;
        let empty = rest ^ held;
        Masks { held: 0, stale: 0 }
            .with(own, to.own)
            .with(stale, to.stale)
            .with(held, to.held)
            .with(empty, to.empty)
    }

    // The masks with a class of colours, so far in neither, put in a state.
    fn with(self, class: u32, state: MaskState) -> Masks
        ensures { result ≡ with_class self class state }
    {
        match state {
            MaskState::Empty => self,
            MaskState::Held => Masks {
                held: class | self.held,
                ..self
            },
            MaskState::Stale => Masks {
                stale: class | self.stale,
                ..self
            },
        }
    }
}
