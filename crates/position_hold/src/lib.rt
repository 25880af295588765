// Position hold: a look at the fix page through a mapping, which draws the position of the last fix, or blank.
#![tactic(auto)]

mod fix;
mod refusal;

ghost use Rattle.std.specs.Prelude.{◌≡◌};
ghost use Rattle.board.specs.Board.{board01};
ghost use Rattle.machine.specs.State.{machine_of};
ghost use Rattle.position_hold.specs.Fix.{displayed};
ghost use Rattle.position_hold.specs.Look.{fix_reads, look, looked, reads, words_found};

use fix::Fix;
pub use fix::Position;
use manager::Refusal;
use mapping::MappingList;
pub use refusal::LookRefusal;

// The seconds that a fix may be held for.
pub const SHORTEST_HOLD: u32 = 2;

pub const LONGEST_HOLD: u32 = 30;

// The words of a fix, which stand at the front of its page.
const FIX_WORDS: usize = 4;

// Looks at the position through a page of a space, at a time of the clock, with a fix held for so many seconds: the position that is drawn, `None` where
// it is blank, or the refusal. All four words are read before any is judged; a refused read ends the look.
pub fn look(
    list: MappingList,
    records: &mut [u32],
    protections: &mut [u8],
    memory: &mut [u32],
    words: &mut [u32],
    tags: &mut [u8],
    space: u8,
    page: u16,
    clock: u32,
    hold: u32,
) -> Result<Option<Position>, LookRefusal>
    ensures { looked (displayed result)
        (machine_of list records.new protections.new memory.new words.new tags.new)
        ≡ look board01
        (machine_of list records.old protections.old memory.old words.old tags.old)
        space page clock hold }
{
    if !(SHORTEST_HOLD..=LONGEST_HOLD).contains(&hold) {
        return Err(LookRefusal::WrongHold);
    }
    let fix = read_fix(list, records, protections, memory, words, tags, space, page)?;
    Ok(fix::judge(fix, clock, hold))
}

// Reads the words of a fix, in their order, up to the first that is refused.
fn read_fix(
    list: MappingList,
    records: &mut [u32],
    protections: &mut [u8],
    memory: &mut [u32],
    words: &mut [u32],
    tags: &mut [u8],
    space: u8,
    page: u16,
) -> Result<Fix, Refusal>
    ensures { reads (words_found result)
        (machine_of list records.new protections.new memory.new words.new tags.new)
        ≡ fix_reads board01
        (machine_of list records.old protections.old memory.old words.old tags.old)
        space page }
{
    let mut read = [0u32; FIX_WORDS];
    for (offset, word) in read.iter_mut().enumerate() {
        let loaded = machine::read(
            list,
            records,
            protections,
            memory,
            words,
            tags,
            space,
            page,
            offset,
        )?;
        *word = loaded.word;
    }
    let [number, second, latitude, longitude] = read;
    Ok(Fix {
        number,
        second,
        latitude,
        longitude,
    })
}
