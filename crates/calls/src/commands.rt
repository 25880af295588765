// A line of a script as a command: a setting, or a call of the manager or of the machine.
use crate::lent::{
    ANSWERS, BUFFER, Buffer, Content, Lengths, MEMORY, PROTECTIONS, RECORDS, TAGS, WORDS,
};
use crate::numbers::{Args, Numbers};
use crate::slips::Slip;
use manager::AccessKind;
use mapping::{BATCH, CAPACITY, Mapping};

// How many values one `put` has at most.
const VALUES: usize = 10;

// What a line that is not only written asks for.
#[derive(Clone, Copy)]
pub enum Command {
    Setting(Setting),
    Call(Call),
}

// Whose calls the lines are.
#[derive(Clone, Copy, Debug, PartialEq, Eq)]
pub enum Subject {
    Machine,
    Manager,
}

// What the next calls are made on.
#[derive(Clone, Copy)]
pub enum Setting {
    Subject(Subject),
    With(Lengths),
    Content(Buffer, Content),
    Start,
    Empty,
    Entry(usize, Mapping),
    Listed(usize),
    Pages(Pages),
    Keep,
    Back,
    Batch(usize),
    Item(usize, Mapping),
    Items(Pages),
}

// The first pages of a space, all of one frame and with the same rights.
#[derive(Clone, Copy, Debug, PartialEq, Eq)]
pub struct Pages {
    pub number: usize,
    pub space: u8,
    pub frame: u8,
    pub rights: u8,
}

impl Pages {
    // The mapping of one of them.
    pub fn mapping(self, page: u16) -> Mapping {
        Mapping {
            space: self.space,
            page,
            frame: self.frame,
            rights: self.rights,
        }
    }
}

// A call. The manager is not told the offset and the word of an access, nor the word that a device brings, and has no calls of the last kind.
#[derive(Clone, Copy)]
pub enum Call {
    // of those that change the list
    List(ListCall),
    Access(Access),
    // of a frame: in one step, or a step of one that takes a while
    Transfer(u8, Transfer),
    LongTransfer(u8, LongTransfer),
    OfMachine(MachineCall),
}

#[derive(Clone, Copy)]
pub enum ListCall {
    Map(Mapping),
    Unmap(u8, u16),
    MapAll,
}

#[derive(Clone, Copy, Debug, PartialEq, Eq)]
pub struct Access {
    pub kind: AccessKind,
    pub space: u8,
    pub page: u16,
    pub offset: usize,
    pub word: u32,
}

#[derive(Clone, Copy, Debug, PartialEq, Eq)]
pub enum Transfer {
    Read,
    Write,
    WritePart(usize, usize),
}

#[derive(Clone, Copy, Debug, PartialEq, Eq)]
pub enum LongTransfer {
    BeginRead,
    BeginWrite,
    BringWord(usize, u32),
    TakeWord(usize),
    End,
}

#[derive(Clone, Copy, Debug, PartialEq, Eq)]
pub enum MachineCall {
    Evict(usize),
    Look {
        space: u8,
        page: u16,
        clock: u32,
        hold: u32,
    },
}

// The command that a word stands for, with its numbers.
pub fn parsed(word: &str, subject: Subject, args: &mut Args) -> Result<Command, Slip> {
    match parse_setting(word, subject, args)? {
        Some(setting) => Ok(Command::Setting(setting)),
        None => Ok(Command::Call(parse_call(word, subject, args)?)),
    }
}

// The setting that a word stands for, if it does.
fn parse_setting(word: &str, subject: Subject, args: &mut Args) -> Result<Option<Setting>, Slip> {
    Ok(Some(match word {
        "machine" => Setting::Subject(Subject::Machine),
        "manager" => Setting::Subject(Subject::Manager),
        "with" => Setting::With(lengths(subject, args)?),
        "fill" => filled(args)?,
        "count" => counted(args)?,
        "put" => put(args)?,
        "start" => Setting::Start,
        "empty" => Setting::Empty,
        "entry" => Setting::Entry(args.up_to(CAPACITY - 1)?, mapping(args)?),
        "listed" => Setting::Listed(args.number()?),
        "pages" => Setting::Pages(parse_pages(CAPACITY, args)?),
        "keep" => Setting::Keep,
        "back" => Setting::Back,
        "batch" => Setting::Batch(args.number()?),
        "item" => Setting::Item(args.up_to(BATCH - 1)?, mapping(args)?),
        "items" => Setting::Items(parse_pages(BATCH, args)?),
        _ => return Ok(None),
    }))
}

// The call that a word stands for: of the list, an access, or one of the others.
fn parse_call(word: &str, subject: Subject, args: &mut Args) -> Result<Call, Slip> {
    Ok(match word {
        "map" => Call::List(ListCall::Map(mapping(args)?)),
        "unmap" => Call::List(ListCall::Unmap(args.number()?, args.number()?)),
        "map-all" => Call::List(ListCall::MapAll),
        "read" => parse_access(AccessKind::Read, subject, args)?,
        "write" => parse_access(AccessKind::Write, subject, args)?,
        "fetch" => parse_access(AccessKind::Fetch, subject, args)?,
        _ => of_device(word, subject, args)?,
    })
}

// A device's transfer, in one step or in several, or a call of the machine alone.
fn of_device(word: &str, subject: Subject, args: &mut Args) -> Result<Call, Slip> {
    Ok(match word {
        "device-read" => Call::Transfer(args.number()?, Transfer::Read),
        "device-write" => Call::Transfer(args.number()?, Transfer::Write),
        "device-write-part" => Call::Transfer(
            args.number()?,
            Transfer::WritePart(args.number()?, args.number()?),
        ),
        "begin-read" => Call::LongTransfer(args.number()?, LongTransfer::BeginRead),
        "begin-write" => Call::LongTransfer(args.number()?, LongTransfer::BeginWrite),
        "bring-word" => Call::LongTransfer(
            args.number()?,
            LongTransfer::BringWord(args.number()?, machines(subject, args)?),
        ),
        "take-word" => Call::LongTransfer(args.number()?, LongTransfer::TakeWord(args.number()?)),
        "end-transfer" => Call::LongTransfer(args.number()?, LongTransfer::End),
        _ => Call::OfMachine(of_machine(word, subject, args)?),
    })
}

// A call that the machine has and the manager has not.
fn of_machine(word: &str, subject: Subject, args: &mut Args) -> Result<MachineCall, Slip> {
    if subject == Subject::Manager {
        return Err(Slip::NoCommand);
    }
    Ok(match word {
        "evict" => MachineCall::Evict(args.number()?),
        "look" => MachineCall::Look {
            space: args.number()?,
            page: args.number()?,
            clock: args.number()?,
            hold: args.number()?,
        },
        _ => return Err(Slip::NoCommand),
    })
}

// ---- numbers of commands

// A number that only the machine's call has; the manager's has 0 there.
fn machines<T: Default + TryFrom<u64>>(subject: Subject, args: &mut Args) -> Result<T, Slip>
where
    T::Error: Drop,
{
    match subject {
        Subject::Machine => args.number(),
        Subject::Manager => Ok(T::default()),
    }
}

// SPACE PAGE, the machine's with OFFSET, and with WORD for a write
fn parse_access(kind: AccessKind, subject: Subject, args: &mut Args) -> Result<Call, Slip> {
    let space = args.number()?;
    let page = args.number()?;
    let offset = machines(subject, args)?;
    let word = match kind {
        AccessKind::Write => machines(subject, args)?,
        AccessKind::Read | AccessKind::Fetch => 0,
    };
    Ok(Call::Access(Access {
        kind,
        space,
        page,
        offset,
        word,
    }))
}

// SPACE PAGE FRAME RIGHTS
fn mapping(args: &mut Args) -> Result<Mapping, Slip> {
    Ok(Mapping {
        space: args.number()?,
        page: args.number()?,
        frame: args.number()?,
        rights: args.number()?,
    })
}

// NUMBER SPACE FRAME RIGHTS
fn parse_pages(most: usize, args: &mut Args) -> Result<Pages, Slip> {
    Ok(Pages {
        number: args.up_to(most)?,
        space: args.number()?,
        frame: args.number()?,
        rights: args.number()?,
    })
}

// R P M W T B A, or R P A: the manager is lent records, protections and answers.
fn lengths(subject: Subject, args: &mut Args) -> Result<Lengths, Slip> {
    let records = args.up_to(RECORDS)?;
    let protections = args.up_to(PROTECTIONS)?;
    Ok(match subject {
        Subject::Machine => [
            records,
            protections,
            args.up_to(MEMORY)?,
            args.up_to(WORDS)?,
            args.up_to(TAGS)?,
            args.up_to(BUFFER)?,
            args.up_to(ANSWERS)?,
        ],
        Subject::Manager => [records, protections, args.up_to(ANSWERS)?, 0, 0, 0, 0],
    })
}

// BUFFER VALUE
fn filled(args: &mut Args) -> Result<Setting, Slip> {
    let buffer = args.buffer()?;
    let value = args.up_to(buffer.most())?;
    Ok(Setting::Content(buffer, Content::Same(value)))
}

// BUFFER FIRST, of a buffer of words
fn counted(args: &mut Args) -> Result<Setting, Slip> {
    let buffer = args.buffer()?;
    if !buffer.has_words() {
        return Err(Slip::Misfit);
    }
    Ok(Setting::Content(buffer, Content::Counted(args.number()?)))
}

// BUFFER PLACE VALUE.., one value to ten, each with a place
fn put(args: &mut Args) -> Result<Setting, Slip> {
    let buffer = args.buffer()?;
    let at = args.up_to(buffer.last())?;
    let mut values = Numbers::none();
    for place in (at..).take(VALUES) {
        let Some(value) = args.next_number()? else {
            break;
        };
        if place > buffer.last() || value > buffer.most() {
            return Err(Slip::Misfit);
        }
        values.push(value)?;
    }
    if values.as_slice().is_empty() {
        return Err(Slip::Missing);
    }
    Ok(Setting::Content(buffer, Content::Values { at, values }))
}
