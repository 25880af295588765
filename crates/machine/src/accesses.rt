// The processor's accesses, and a line turned out of its cache.
ghost use Rattle.std.specs.Prelude.{◌≡◌, ◌<◌, []};
ghost use Rattle.std.proofs.Math.Option.{none};
ghost use Rattle.board.specs.Board.{board01, cache_pages};
ghost use Rattle.manager.specs.Answers.{outcome};
ghost use Rattle.machine.specs.State as call;
ghost use Rattle.machine.specs.State.{machine_of};
ghost use Rattle.machine.specs.Scaffold.Loads.{access_through, page_through, loads};
ghost use Rattle.machine.specs.Step.{answer, loaded, result_of, step};

use super::{Loaded, operations, plans};
use board::BOARD01;
use manager::commits::COLOURS;
use manager::plans::plan_access;
use manager::{AccessKind, FrameOps, Refusal};
use mapping::MappingList;

// The processor reads a word.
pub fn read(
    list: MappingList,
    records: &mut [u32],
    protections: &mut [u8],
    memory: &mut [u32],
    words: &mut [u32],
    tags: &mut [u8],
    space: u8,
    page: u16,
    offset: usize,
) -> Result<Loaded, Refusal>
    ensures { result_of (loaded result)
        (machine_of list records.new protections.new memory.new words.new tags.new)
        ≡ step board01
        (machine_of list records.old protections.old memory.old words.old tags.old)
        (call.read space page offset) }
{
    load(
        list,
        records,
        protections,
        memory,
        words,
        tags,
        space,
        page,
        offset,
        Cache::Data,
    )
}

// The processor writes a word.
pub fn write(
    list: MappingList,
    records: &mut [u32],
    protections: &mut [u8],
    memory: &mut [u32],
    words: &mut [u32],
    tags: &mut [u8],
    space: u8,
    page: u16,
    offset: usize,
    word: u32,
) -> Result<FrameOps, Refusal>
    ensures { result_of (answer (outcome result) none [])
        (machine_of list records.new protections.new memory.new words.new tags.new)
        ≡ step board01
        (machine_of list records.old protections.old memory.old words.old tags.old)
        (call.write space page offset word) }
{
    let own = plans::access_refusal(BOARD01, memory, words, tags, BOARD01.page, offset);
    let looked = mapping::look(BOARD01, list, space, page);
    let managers = plan_access(
        BOARD01,
        looked,
        records,
        protections,
        space,
        page,
        AccessKind::Write,
    );
    let change = plans::earlier(own, managers)?;
    let operations = manager::commits::carry_out(COLOURS, list, records, protections, change);
    let colour = BOARD01.colour_of(usize::from(page));
    operations::put(
        BOARD01, memory, words, tags, operations, colour, offset, word,
    );
    Ok(operations)
}

// The processor fetches an instruction: it reads a word through the instruction cache.
pub fn fetch(
    list: MappingList,
    records: &mut [u32],
    protections: &mut [u8],
    memory: &mut [u32],
    words: &mut [u32],
    tags: &mut [u8],
    space: u8,
    page: u16,
    offset: usize,
) -> Result<Loaded, Refusal>
    ensures { result_of (loaded result)
        (machine_of list records.new protections.new memory.new words.new tags.new)
        ≡ step board01
        (machine_of list records.old protections.old memory.old words.old tags.old)
        (call.fetch space page offset) }
{
    load(
        list,
        records,
        protections,
        memory,
        words,
        tags,
        space,
        page,
        offset,
        Cache::Instructions,
    )
}

// A line is written back if it is dirty, and emptied: document 01's turning out.
pub fn evict(
    list: MappingList,
    records: &[u32],
    protections: &mut [u8],
    memory: &mut [u32],
    words: &[u32],
    tags: &mut [u8],
    line: usize,
) -> Result<FrameOps, Refusal>
    ensures { result_of (answer (outcome result) none [])
        (machine_of list records.now protections.new memory.new words.now tags.new)
        ≡ step board01
        (machine_of list records.now protections.old memory.old words.now tags.old)
        (call.evict line) }
{
    let own = plans::access_refusal(BOARD01, memory, words, tags, BOARD01.lines(), line);
    let kept = mapping::keeps_rules(BOARD01, list);
    let managers = manager::refusals::tables_refusal(BOARD01, kept, records, protections);
    plans::earlier(own, managers)?;
    manager::records::refill(COLOURS, list, records, protections);
    cache::line::evict(BOARD01, memory, words, tags, line);
    Ok(manager::nothing())
}

// The processor reads a word through a cache.
#[inline(always)]
fn load(
    list: MappingList,
    records: &mut [u32],
    protections: &mut [u8],
    memory: &mut [u32],
    words: &mut [u32],
    tags: &mut [u8],
    space: u8,
    page: u16,
    offset: usize,
    cache: Cache,
) -> Result<Loaded, Refusal>
    ensures { result_of (loaded result)
        (machine_of list records.new protections.new memory.new words.new tags.new)
        ≡ step board01
        (machine_of list records.old protections.old memory.old words.old tags.old)
        (loads cache space page offset) }
{
    let own = plans::access_refusal(BOARD01, memory, words, tags, BOARD01.page, offset);
    let looked = mapping::look(BOARD01, list, space, page);
    let kind = cache.access();
    let managers = plan_access(BOARD01, looked, records, protections, space, page, kind);
    let change = plans::earlier(own, managers)?;
    let operations = manager::commits::carry_out(COLOURS, list, records, protections, change);
    let through = cache.page(BOARD01.colour_of(usize::from(page)));
    let word = operations::load(BOARD01, memory, words, tags, operations, through, offset);
    Ok(Loaded { operations, word })
}

// The caches.
#[derive(Clone, Copy, Debug, PartialEq, Eq)]
enum Cache {
    Data,
    Instructions,
}

impl Cache {
    // The access that reads a word through the cache.
    fn access(self) -> AccessKind
        ensures { result ≡ access_through self }
    {
        match self {
            Cache::Data => AccessKind::Read,
            Cache::Instructions => AccessKind::Fetch,
        }
    }

    // The page of the caches that the cache has for a colour.
    fn page(self, colour: usize) -> usize
        requires { colour < board01.colours }
        ensures value { result ≡ page_through board01 self colour }
        ensures within { result < cache_pages board01 }
    {
        match self {
            Cache::Data => colour,
            Cache::Instructions => BOARD01.instruction_page(colour),
        }
    }
}
