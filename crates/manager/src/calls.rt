// The calls that a kernel makes. Each answers a Result: the refusal of the first cause that applies, which leaves all as it was, or the list or the
// operations. It makes a plan, which changes nothing, and commits it unless that is refused. A word and the end of a transfer need no operations: they
// only test for a refusal before they commit. A list of mappings is its items in order.
#![tactic(auto, using(board::proofs::Geometry::board01_regular))]

ghost use Rattle.std.specs.Prelude.{◌≡◌, ◌≤◌, length};
ghost use Rattle.board.specs.Board.{board01};
ghost use Rattle.page_model.specs.Cases.{step_of};
ghost use Rattle.page_model.specs.Table.{reach};
ghost use Rattle.mapping.specs.Batch.{items_of};
ghost use Rattle.manager.specs.Answers.{outcome};
ghost use Rattle.manager.specs.Batch.{batch_result, map_all_call};
ghost use Rattle.manager.specs.Tables.{tables, tabulate, start_word};
ghost use Rattle.manager.specs.Calls.{call_result, step_result, plan_access, plan_transfer, list_outcome, list_left, map_call, unmap_call, read_call, write_call, fetch_call, device_read_call, device_write_call, device_write_part_call, begin_read_call, begin_write_call, move_word_call, bring_word_call, take_word_call, end_transfer_call};

use super::batch::map_batch;
use super::commits::{COLOURS, commit_change, commit_map, commit_plan, commit_unmap};
use super::plans::{plan_access, plan_device_write_part, plan_map, plan_transfer, plan_unmap};
use super::records::{record_at, refill};
use super::refusals::{end_refusal, tables_refusal, word_refusal};
use super::{AccessKind, FrameOps, Refusal, nothing, number_in, records};
use board::BOARD01;
use mapping::{Batch, Mapping, MappingList};
use page_model::{Step, busy};

// Makes every frame's record that of the start, which a kernel lends first: nothing cached, and no dirty colour.
pub fn start(records: &mut [u32])
    ensures { records.new ≡ tabulate (length records.old) (start_word board01.colours) }
{
    records::start(COLOURS, records);
}

// Gives a page of a space its frame.
pub fn map(
    list: MappingList,
    records: &[u32],
    protections: &mut [u8],
    m: Mapping,
) -> Result<MappingList, Refusal>
    ensures { call_result (list_outcome result) (tables (list_left list result) records.now protections.new)
        ≡ map_call board01 (tables list records.now protections.old) m.space m.page m.frame m.rights }
{
    let place = plan_map(BOARD01, list, records, protections, m)?;
    Ok(commit_map(COLOURS, list, records, protections, place, m))
}

// Gives each item's page its frame, in order, and answers each: 0, or the number of its refusal. Only WrongLength and WrongBatch refuse the whole.
pub fn map_all(
    list: MappingList,
    records: &[u32],
    protections: &mut [u8],
    batch: Batch,
    answers: &mut [u8],
) -> Result<MappingList, Refusal>
    ensures { batch_result (list_outcome result) answers.new (tables (list_left list result) records.now protections.new)
        ≡ map_all_call board01 (tables list records.now protections.old) (items_of batch) answers.old }
{
    let kept = mapping::keeps_rules(BOARD01, list);
    let lent = tables_refusal(BOARD01, kept, records, protections);
    map_batch(
        BOARD01,
        list,
        records,
        protections,
        batch,
        answers,
        number_in(lent),
    )
}

// Takes the mapping of a page of a space off the list. The frame's record stays: words may lie in the cache.
pub fn unmap(
    list: MappingList,
    records: &[u32],
    protections: &mut [u8],
    space: u8,
    page: u16,
) -> Result<MappingList, Refusal>
    ensures { call_result (list_outcome result) (tables (list_left list result) records.now protections.new)
        ≡ unmap_call board01 (tables list records.now protections.old) space page }
{
    let place = plan_unmap(BOARD01, list, records, protections, space, page)?;
    Ok(commit_unmap(COLOURS, list, records, protections, place))
}

// The processor reads a page of a space.
pub fn read(
    list: MappingList,
    records: &mut [u32],
    protections: &mut [u8],
    space: u8,
    page: u16,
) -> Result<FrameOps, Refusal>
    ensures { call_result (outcome result) (tables list records.new protections.new)
        ≡ read_call board01 (tables list records.old protections.old) space page }
{
    access(list, records, protections, space, page, AccessKind::Read)
}

// The processor writes a page of a space.
pub fn write(
    list: MappingList,
    records: &mut [u32],
    protections: &mut [u8],
    space: u8,
    page: u16,
) -> Result<FrameOps, Refusal>
    ensures { call_result (outcome result) (tables list records.new protections.new)
        ≡ write_call board01 (tables list records.old protections.old) space page }
{
    access(list, records, protections, space, page, AccessKind::Write)
}

// The processor fetches an instruction of a page of a space.
pub fn fetch(
    list: MappingList,
    records: &mut [u32],
    protections: &mut [u8],
    space: u8,
    page: u16,
) -> Result<FrameOps, Refusal>
    ensures { call_result (outcome result) (tables list records.new protections.new)
        ≡ fetch_call board01 (tables list records.old protections.old) space page }
{
    access(list, records, protections, space, page, AccessKind::Fetch)
}

// A device reads a frame from memory.
pub fn device_read(
    list: MappingList,
    records: &mut [u32],
    protections: &mut [u8],
    frame: u8,
) -> Result<FrameOps, Refusal>
    ensures { call_result (outcome result) (tables list records.new protections.new)
        ≡ device_read_call board01 (tables list records.old protections.old) frame }
{
    transfer(list, records, protections, frame, Step::DeviceRead)
}

// A device writes a frame in memory.
pub fn device_write(
    list: MappingList,
    records: &mut [u32],
    protections: &mut [u8],
    frame: u8,
) -> Result<FrameOps, Refusal>
    ensures { call_result (outcome result) (tables list records.new protections.new)
        ≡ device_write_call board01 (tables list records.old protections.old) frame }
{
    device_write_part(list, records, protections, frame, 0, BOARD01.page)
}

// A device writes so many words of a frame in memory, from an offset on.
pub fn device_write_part(
    list: MappingList,
    records: &mut [u32],
    protections: &mut [u8],
    frame: u8,
    first: usize,
    number: usize,
) -> Result<FrameOps, Refusal>
    ensures { call_result (outcome result) (tables list records.new protections.new)
        ≡ device_write_part_call board01 (tables list records.old protections.old) frame first number }
{
    let plan = plan_device_write_part(BOARD01, list, records, protections, frame, first, number);
    commit_plan(COLOURS, list, records, protections, plan)
}

// A device begins to read a frame from memory, word by word.
pub fn begin_read(
    list: MappingList,
    records: &mut [u32],
    protections: &mut [u8],
    frame: u8,
) -> Result<FrameOps, Refusal>
    ensures { call_result (outcome result) (tables list records.new protections.new)
        ≡ begin_read_call board01 (tables list records.old protections.old) frame }
{
    transfer(list, records, protections, frame, Step::BeginRead)
}

// A device begins to write a frame in memory, word by word.
pub fn begin_write(
    list: MappingList,
    records: &mut [u32],
    protections: &mut [u8],
    frame: u8,
) -> Result<FrameOps, Refusal>
    ensures { call_result (outcome result) (tables list records.new protections.new)
        ≡ begin_write_call board01 (tables list records.old protections.old) frame }
{
    transfer(list, records, protections, frame, Step::BeginWrite)
}

// A device that writes a frame brings a word of it to memory.
pub fn bring_word(
    list: MappingList,
    records: &[u32],
    protections: &mut [u8],
    frame: u8,
    offset: usize,
) -> Result<FrameOps, Refusal>
    ensures { call_result (outcome result) (tables list records.now protections.new)
        ≡ bring_word_call board01 (tables list records.now protections.old) frame offset }
{
    move_word(list, records, protections, frame, offset, busy::WRITING)
}

// A device that reads a frame takes a word of it from memory.
pub fn take_word(
    list: MappingList,
    records: &[u32],
    protections: &mut [u8],
    frame: u8,
    offset: usize,
) -> Result<FrameOps, Refusal>
    ensures { call_result (outcome result) (tables list records.now protections.new)
        ≡ take_word_call board01 (tables list records.now protections.old) frame offset }
{
    move_word(list, records, protections, frame, offset, busy::READING)
}

// A device ends its transfer.
pub fn end_transfer(
    list: MappingList,
    records: &mut [u32],
    protections: &mut [u8],
    frame: u8,
) -> Result<FrameOps, Refusal>
    ensures { call_result (outcome result) (tables list records.new protections.new)
        ≡ end_transfer_call board01 (tables list records.old protections.old) frame }
{
    let kept = mapping::keeps_rules(BOARD01, list);
    end_refusal(BOARD01, kept, records, protections, frame)?;
    let next = record_at(records, frame).end();
    commit_change(COLOURS, list, records, protections, frame, next);
    Ok(nothing())
}

// The processor accesses a page of a space.
fn access(
    list: MappingList,
    records: &mut [u32],
    protections: &mut [u8],
    space: u8,
    page: u16,
    kind: AccessKind,
) -> Result<FrameOps, Refusal>
    ensures { call_result (outcome result) (tables list records.new protections.new)
        ≡ step_result board01 (tables list records.old protections.old)
        (plan_access board01 (tables list records.old protections.old) space page kind) }
{
    let looked = mapping::look(BOARD01, list, space, page);
    let plan = plan_access(BOARD01, looked, records, protections, space, page, kind);
    commit_plan(COLOURS, list, records, protections, plan)
}

// A device's transfer of a page, or the beginning of one.
fn transfer(
    list: MappingList,
    records: &mut [u32],
    protections: &mut [u8],
    frame: u8,
    step: Step,
) -> Result<FrameOps, Refusal>
    requires { reach (step_of step) ≤ board01.colours }
    ensures { call_result (outcome result) (tables list records.new protections.new)
        ≡ step_result board01 (tables list records.old protections.old)
        (plan_transfer board01 (tables list records.old protections.old) frame (step_of step)) }
{
    let plan = plan_transfer(BOARD01, list, records, protections, frame, step);
    commit_plan(COLOURS, list, records, protections, plan)
}

// A transfer with this mark moves a word.
fn move_word(
    list: MappingList,
    records: &[u32],
    protections: &mut [u8],
    frame: u8,
    offset: usize,
    mark: u32,
) -> Result<FrameOps, Refusal>
    ensures { call_result (outcome result) (tables list records.now protections.new)
        ≡ move_word_call board01 (tables list records.now protections.old) frame offset mark }
{
    let kept = mapping::keeps_rules(BOARD01, list);
    word_refusal(BOARD01, kept, records, protections, frame, offset, mark)?;
    refill(COLOURS, list, records, protections);
    Ok(nothing())
}
