// The bytes of a sheet, read by position, and the lines of text that tell what came of it.
#![tactic(auto)]

pub mod answers;
pub mod format;
pub mod text;

ghost use Rattle.std.specs.Prelude.{◌≡◌, ok_or};
ghost use Rattle.sheet_codec.specs.Format.{kind_of, unknown};

// The kind of a step.
#[derive(Clone, Copy, Debug, PartialEq, Eq)]
pub enum Kind {
    Read,
    Write,
    DeviceRead,
    DeviceWrite,
    DeviceWritePart,
    BeginRead,
    BeginWrite,
    BringWord,
    TakeWord,
    EndTransfer,
    Fetch,
    Evict,
    Unmap,
}

// A number that no kind of step has.
#[derive(Clone, Copy, Debug, PartialEq, Eq)]
pub struct UnknownKind(pub u8);

impl TryFrom<u8> for Kind {
    type Error = UnknownKind;

    ghost try_from_gives = { λ n r. r ≡ ok_or (kind_of n) (unknown n) };

    // The kind that a number stands for.
    fn try_from(n: u8) -> Result<Kind, UnknownKind> {
        match n {
            1 => Ok(Kind::Read),
            2 => Ok(Kind::Write),
            3 => Ok(Kind::DeviceRead),
            4 => Ok(Kind::DeviceWrite),
            5 => Ok(Kind::Evict),
            6 => Ok(Kind::Unmap),
            7 => Ok(Kind::DeviceWritePart),
            8 => Ok(Kind::BeginRead),
            9 => Ok(Kind::BeginWrite),
            10 => Ok(Kind::BringWord),
            11 => Ok(Kind::TakeWord),
            12 => Ok(Kind::EndTransfer),
            13 => Ok(Kind::Fetch),
            _ => Err(UnknownKind(n)),
        }
    }
}

// A step's fields, as document 01 names them.
#[derive(Clone, Copy, Debug, PartialEq, Eq)]
pub struct Fields {
    pub kind: u8,
    pub s: u8,
    pub p: u16,
    pub o: u8,
    pub w: u32,
}
