// What is lent to the calls, by letters: r records, p protections, m memory, w the caches' words, t their tags, b the device's buffer, a answers; and the
// settings of it. Each has one place more than a call takes, so that a script can lend too many as well as too few.
use crate::numbers::{Numbers, fitted};
use crate::slips::Slip;

// How many buffers there are.
pub const BUFFERS: usize = 7;

// How many places each has.
pub const RECORDS: usize = 449;

pub const PROTECTIONS: usize = 257;

pub const MEMORY: usize = 4097;

pub const WORDS: usize = 1025;

pub const TAGS: usize = 129;

pub const BUFFER: usize = 65;

pub const ANSWERS: usize = 65;

// The buffers.
#[derive(Clone, Copy)]
pub struct Lent {
    pub records: [u32; RECORDS],
    pub protections: [u8; PROTECTIONS],
    pub memory: [u32; MEMORY],
    pub words: [u32; WORDS],
    pub tags: [u8; TAGS],
    pub buffer: [u32; BUFFER],
    pub answers: [u8; ANSWERS],
}

// How many places are lent, in the order in which `with` has them: of R P M W T B A to the machine, of R P A to the manager. A call of either takes them in
// its own order, also where the other's `with` set them.
pub type Lengths = [usize; BUFFERS];

// One of the buffers.
#[derive(Clone, Copy, Debug, PartialEq, Eq)]
pub enum Buffer {
    Records,
    Protections,
    Memory,
    Words,
    Tags,
    Device,
    Answers,
}

impl Buffer {
    // The buffer that a letter names.
    pub fn named(letter: u8) -> Option<Buffer> {
        match letter {
            b'r' => Some(Buffer::Records),
            b'p' => Some(Buffer::Protections),
            b'm' => Some(Buffer::Memory),
            b'w' => Some(Buffer::Words),
            b't' => Some(Buffer::Tags),
            b'b' => Some(Buffer::Device),
            b'a' => Some(Buffer::Answers),
            _ => None,
        }
    }

    // Its last place.
    pub fn last(self) -> usize {
        match self {
            Buffer::Records => RECORDS - 1,
            Buffer::Protections => PROTECTIONS - 1,
            Buffer::Memory => MEMORY - 1,
            Buffer::Words => WORDS - 1,
            Buffer::Tags => TAGS - 1,
            Buffer::Device => BUFFER - 1,
            Buffer::Answers => ANSWERS - 1,
        }
    }

    // The largest value of its places.
    pub fn most(self) -> u64 {
        if self.has_words() {
            u64::from(u32::MAX)
        } else {
            u64::from(u8::MAX)
        }
    }

    // Whether its places are words; those of the others are bytes.
    pub fn has_words(self) -> bool {
        matches!(
            self,
            Buffer::Records | Buffer::Memory | Buffer::Words | Buffer::Device
        )
    }
}

// What a buffer is set to: the same everywhere, each place one more than the one before, or values from a place on.
#[derive(Clone, Copy)]
pub enum Content {
    Same(u64),
    Counted(u32),
    Values { at: usize, values: Numbers },
}

impl Lent {
    // All zeros.
    pub fn zeros() -> Lent {
        Lent {
            records: [0; RECORDS],
            protections: [0; PROTECTIONS],
            memory: [0; MEMORY],
            words: [0; WORDS],
            tags: [0; TAGS],
            buffer: [0; BUFFER],
            answers: [0; ANSWERS],
        }
    }

    // Records as the manager starts with.
    pub fn start(&mut self) {
        manager::start(&mut self.records);
    }

    // Sets a buffer, where the content fits it.
    pub fn set(&mut self, buffer: Buffer, content: Content) -> Result<(), Slip> {
        match buffer {
            Buffer::Records => content.put(&mut self.records),
            Buffer::Protections => content.put(&mut self.protections),
            Buffer::Memory => content.put(&mut self.memory),
            Buffer::Words => content.put(&mut self.words),
            Buffer::Tags => content.put(&mut self.tags),
            Buffer::Device => content.put(&mut self.buffer),
            Buffer::Answers => content.put(&mut self.answers),
        }
    }
}

impl Content {
    // Puts it into places, where its values fit them. A value past the last place is left out.
    fn put<T: Copy + TryFrom<u64>>(self, places: &mut [T]) -> Result<(), Slip>
    where
        T::Error: Drop,
    {
        match self {
            Content::Same(value) => {
                let value = fitted(value)?;
                for place in places {
                    *place = value;
                }
            }
            Content::Counted(first) => {
                let mut n = first;
                for place in places {
                    *place = fitted(u64::from(n))?;
                    n = n.wrapping_add(1);
                }
            }
            Content::Values { at, values } => {
                for (place, value) in places.iter_mut().skip(at).zip(values.as_slice()) {
                    *place = fitted(*value)?;
                }
            }
        }
        Ok(())
    }
}
