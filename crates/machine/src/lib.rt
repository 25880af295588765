// The machine: memory and cache as the hardware has them. Each call asks the manager, carries out its operations, then makes the access. Here are the calls that change the list.
#![tactic(auto, using(board::proofs::Geometry::board01_regular))]

mod accesses;
mod operations;
mod plans;
mod transfers;

ghost use Rattle.std.specs.Prelude.{◌≡◌, []};
ghost use Rattle.std.proofs.Math.Option.{none};
ghost use Rattle.board.specs.Board.{board01};
ghost use Rattle.manager.specs.Calls.{list_outcome, list_left};
ghost use Rattle.machine.specs.State as call;
ghost use Rattle.machine.specs.State.{machine_of};
ghost use Rattle.machine.specs.Step.{answer, result_of, step};
ghost use Rattle.machine.specs.Call.{perform};
ghost use Rattle.mapping.specs.Batch.{items_of};

pub use accesses::{evict, fetch, read, write};
use board::BOARD01;
use manager::commits::COLOURS;
use manager::{FrameOps, Refusal};
use mapping::{Batch, Mapping, MappingList};
pub use transfers::{
    begin_read, begin_write, bring_word, device_read, device_write, device_write_part,
    end_transfer, take_word,
};

// What a read or fetch answers, and a word that a device takes: the operations and the word.
#[derive(Clone, Copy, Debug, PartialEq, Eq)]
pub struct Loaded {
    pub operations: FrameOps,
    pub word: u32,
}

// Gives a page of a space its frame.
pub fn map(
    list: MappingList,
    records: &[u32],
    protections: &mut [u8],
    memory: &[u32],
    words: &[u32],
    tags: &[u8],
    m: Mapping,
) -> Result<MappingList, Refusal>
    ensures { result_of (answer (list_outcome result) none [])
        (machine_of (list_left list result) records.now protections.new memory.now words.now tags.now)
        ≡ step board01
        (machine_of list records.now protections.old memory.now words.now tags.now)
        (call.map m.space m.page m.frame m.rights) }
{
    let own = plans::store_refusal(BOARD01, memory, words, tags);
    let managers = manager::plans::plan_map(BOARD01, list, records, protections, m);
    let place = plans::earlier(own, managers)?;
    Ok(manager::commits::commit_map(COLOURS, list, records, protections, place, m))
}

// Gives each item's page its frame, in order, and answers each: 0, or the number of its refusal. Only 1 and 12 refuse the whole.
pub fn map_all(
    list: MappingList,
    records: &[u32],
    protections: &mut [u8],
    memory: &[u32],
    words: &[u32],
    tags: &[u8],
    batch: Batch,
    answers: &mut [u8],
) -> Result<MappingList, Refusal>
    ensures { result_of (answer (list_outcome result) none answers.new)
        (machine_of (list_left list result) records.now protections.new memory.now words.now tags.now)
        ≡ perform board01
        (machine_of list records.now protections.old memory.now words.now tags.now)
        (call.map_all (items_of batch) answers.old) }
{
    let own = plans::store_refusal(BOARD01, memory, words, tags);
    let kept = mapping::keeps_rules(BOARD01, list);
    let managers = manager::refusals::tables_refusal(BOARD01, kept, records, protections);
    let lent = plans::earlier(own, managers);
    manager::batch::map_batch(
        BOARD01,
        list,
        records,
        protections,
        batch,
        answers,
        manager::number_in(lent),
    )
}

// Takes the mapping of a page of a space off the list.
pub fn unmap(
    list: MappingList,
    records: &[u32],
    protections: &mut [u8],
    memory: &[u32],
    words: &[u32],
    tags: &[u8],
    space: u8,
    page: u16,
) -> Result<MappingList, Refusal>
    ensures { result_of (answer (list_outcome result) none [])
        (machine_of (list_left list result) records.now protections.new memory.now words.now tags.now)
        ≡ step board01
        (machine_of list records.now protections.old memory.now words.now tags.now)
        (call.unmap space page) }
{
    let own = plans::store_refusal(BOARD01, memory, words, tags);
    let managers = manager::plans::plan_unmap(BOARD01, list, records, protections, space, page);
    let place = plans::earlier(own, managers)?;
    Ok(manager::commits::commit_unmap(COLOURS, list, records, protections, place))
}
