// A device's transfers: whole, in part, and word by word.
ghost use Rattle.std.specs.Prelude.{◌≡◌, []};
ghost use Rattle.std.proofs.Math.Option.{none};
ghost use Rattle.board.specs.Board.{board01};
ghost use Rattle.manager.specs.Answers.{outcome};
ghost use Rattle.machine.specs.State as call;
ghost use Rattle.machine.specs.State.{machine_of};
ghost use Rattle.machine.specs.Step.{answer, loaded, result_of, step};
ghost use Rattle.machine.specs.Scaffold.Plans.{begins};

use super::{Loaded, operations, plans};
use board::BOARD01;
use manager::commits::COLOURS;
use manager::{FrameOps, Refusal};
use mapping::MappingList;
use page_model::{Step, busy};

// A device reads a frame: its buffer is filled.
pub fn device_read(
    list: MappingList,
    records: &mut [u32],
    protections: &mut [u8],
    memory: &mut [u32],
    words: &[u32],
    tags: &mut [u8],
    buffer: &mut [u32],
    frame: u8,
) -> Result<FrameOps, Refusal>
    ensures { result_of (answer (outcome result) none buffer.new)
        (machine_of list records.new protections.new memory.new words.now tags.new)
        ≡ step board01
        (machine_of list records.old protections.old memory.old words.now tags.old)
        (call.device_read frame buffer.old) }
{
    let own = plans::transfer_refusal(BOARD01, memory, words, tags, buffer, BOARD01.page);
    let managers = manager::plans::plan_transfer(
        BOARD01,
        list,
        records,
        protections,
        frame,
        Step::DeviceRead,
    );
    let change = plans::earlier(own, managers)?;
    let operations = manager::commits::carry_out(COLOURS, list, records, protections, change);
    operations::send(BOARD01, memory, words, tags, operations, buffer);
    Ok(operations)
}

// A device writes a frame: its buffer is only read.
pub fn device_write(
    list: MappingList,
    records: &mut [u32],
    protections: &mut [u8],
    memory: &mut [u32],
    words: &[u32],
    tags: &mut [u8],
    buffer: &[u32],
    frame: u8,
) -> Result<FrameOps, Refusal>
    ensures { result_of (answer (outcome result) none [])
        (machine_of list records.new protections.new memory.new words.now tags.new)
        ≡ step board01
        (machine_of list records.old protections.old memory.old words.now tags.old)
        (call.device_write frame buffer.now) }
{
    device_write_part(
        list,
        records,
        protections,
        memory,
        words,
        tags,
        buffer,
        frame,
        0,
        BOARD01.page,
    )
}

// A device writes so many words of a frame, from an offset on: its buffer, of that many words, is only read.
pub fn device_write_part(
    list: MappingList,
    records: &mut [u32],
    protections: &mut [u8],
    memory: &mut [u32],
    words: &[u32],
    tags: &mut [u8],
    buffer: &[u32],
    frame: u8,
    first: usize,
    number: usize,
) -> Result<FrameOps, Refusal>
    ensures { result_of (answer (outcome result) none [])
        (machine_of list records.new protections.new memory.new words.now tags.new)
        ≡ step board01
        (machine_of list records.old protections.old memory.old words.now tags.old)
        (call.device_write_part frame first number buffer.now) }
{
    let own = plans::transfer_refusal(BOARD01, memory, words, tags, buffer, number);
    let managers = manager::plans::plan_device_write_part(
        BOARD01,
        list,
        records,
        protections,
        frame,
        first,
        number,
    );
    let change = plans::earlier(own, managers)?;
    let operations = manager::commits::carry_out(COLOURS, list, records, protections, change);
    operations::receive(BOARD01, memory, words, tags, operations, first, buffer);
    Ok(operations)
}

// A device begins to read a frame, word by word.
pub fn begin_read(
    list: MappingList,
    records: &mut [u32],
    protections: &mut [u8],
    memory: &mut [u32],
    words: &[u32],
    tags: &mut [u8],
    frame: u8,
) -> Result<FrameOps, Refusal>
    ensures { result_of (answer (outcome result) none [])
        (machine_of list records.new protections.new memory.new words.now tags.new)
        ≡ step board01
        (machine_of list records.old protections.old memory.old words.now tags.old)
        (call.begin_read frame) }
{
    begin(
        list,
        records,
        protections,
        memory,
        words,
        tags,
        frame,
        false,
    )
}

// A device begins to write a frame, word by word.
pub fn begin_write(
    list: MappingList,
    records: &mut [u32],
    protections: &mut [u8],
    memory: &mut [u32],
    words: &[u32],
    tags: &mut [u8],
    frame: u8,
) -> Result<FrameOps, Refusal>
    ensures { result_of (answer (outcome result) none [])
        (machine_of list records.new protections.new memory.new words.now tags.new)
        ≡ step board01
        (machine_of list records.old protections.old memory.old words.now tags.old)
        (call.begin_write frame) }
{
    begin(list, records, protections, memory, words, tags, frame, true)
}

// A device that writes a frame brings a word to an offset of it.
pub fn bring_word(
    list: MappingList,
    records: &[u32],
    protections: &mut [u8],
    memory: &mut [u32],
    words: &[u32],
    tags: &[u8],
    frame: u8,
    offset: usize,
    word: u32,
) -> Result<FrameOps, Refusal>
    ensures { result_of (answer (outcome result) none [])
        (machine_of list records.now protections.new memory.new words.now tags.now)
        ≡ step board01
        (machine_of list records.now protections.old memory.old words.now tags.now)
        (call.bring_word frame offset word) }
{
    let own = plans::store_refusal(BOARD01, memory, words, tags);
    let kept = mapping::keeps_rules(BOARD01, list);
    let managers = manager::refusals::word_refusal(
        BOARD01,
        kept,
        records,
        protections,
        frame,
        offset,
        busy::WRITING,
    );
    plans::earlier(own, managers)?;
    manager::records::refill(COLOURS, list, records, protections);
    cache::device::bring_word(BOARD01, memory, usize::from(frame), offset, word);
    Ok(manager::nothing())
}

// A device that reads a frame takes the word at an offset of it.
pub fn take_word(
    list: MappingList,
    records: &[u32],
    protections: &mut [u8],
    memory: &[u32],
    words: &[u32],
    tags: &[u8],
    frame: u8,
    offset: usize,
) -> Result<Loaded, Refusal>
    ensures { result_of (loaded result)
        (machine_of list records.now protections.new memory.now words.now tags.now)
        ≡ step board01
        (machine_of list records.now protections.old memory.now words.now tags.now)
        (call.take_word frame offset) }
{
    let own = plans::store_refusal(BOARD01, memory, words, tags);
    let kept = mapping::keeps_rules(BOARD01, list);
    let managers = manager::refusals::word_refusal(
        BOARD01,
        kept,
        records,
        protections,
        frame,
        offset,
        busy::READING,
    );
    plans::earlier(own, managers)?;
    manager::records::refill(COLOURS, list, records, protections);
    let word = cache::device::take_word(BOARD01, memory, usize::from(frame), offset);
    let operations = manager::nothing();
    Ok(Loaded { operations, word })
}

// A device ends its transfer.
pub fn end_transfer(
    list: MappingList,
    records: &mut [u32],
    protections: &mut [u8],
    memory: &[u32],
    words: &[u32],
    tags: &[u8],
    frame: u8,
) -> Result<FrameOps, Refusal>
    ensures { result_of (answer (outcome result) none [])
        (machine_of list records.new protections.new memory.now words.now tags.now)
        ≡ step board01
        (machine_of list records.old protections.old memory.now words.now tags.now)
        (call.end_transfer frame) }
{
    let own = plans::store_refusal(BOARD01, memory, words, tags);
    let kept = mapping::keeps_rules(BOARD01, list);
    let managers = manager::refusals::end_refusal(BOARD01, kept, records, protections, frame);
    plans::earlier(own, managers)?;
    let next = manager::records::record_at(records, frame).end();
    manager::commits::commit_change(COLOURS, list, records, protections, frame, next);
    Ok(manager::nothing())
}

// A device begins a transfer, a write or a read.
fn begin(
    list: MappingList,
    records: &mut [u32],
    protections: &mut [u8],
    memory: &mut [u32],
    words: &[u32],
    tags: &mut [u8],
    frame: u8,
    writes: bool,
) -> Result<FrameOps, Refusal>
    ensures { result_of (answer (outcome result) none [])
        (machine_of list records.new protections.new memory.new words.now tags.new)
        ≡ step board01
        (machine_of list records.old protections.old memory.old words.now tags.old)
        (begins writes frame) }
{
    let own = plans::store_refusal(BOARD01, memory, words, tags);
    let step = if writes {
        Step::BeginWrite
    } else {
        Step::BeginRead
    };
    let managers = manager::plans::plan_transfer(BOARD01, list, records, protections, frame, step);
    let change = plans::earlier(own, managers)?;
    let operations = manager::commits::carry_out(COLOURS, list, records, protections, change);
    operations::carry_out(BOARD01, memory, words, tags, operations);
    Ok(operations)
}
