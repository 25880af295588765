// What each call with operations, and each change of the list, would do. A plan is a Result and changes nothing: it is the refusal of the first cause
// that applies, or the change of one frame's record, or a place in the list.
ghost use Rattle.std.specs.Prelude.{◌≡◌, true, cond, ℕ, ◌≤◌, List, length};
ghost use Rattle.board.specs.Board.{Regular};
ghost use Rattle.page_model.specs.Busy.{bars};
ghost use Rattle.page_model.specs.Cases.{step_of};
ghost use Rattle.page_model.specs.Record as frame_record;
ghost use Rattle.page_model.specs.Table.{reach};
ghost use Rattle.mapping.specs.declared.MappingList as any;
ghost use Rattle.mapping.specs.Entry.{capacity};
ghost use Rattle.mapping.specs.Look.{look};
ghost use Rattle.manager.specs.Answers.{by_number};
ghost use Rattle.manager.specs.Calls.{plan_map, plan_unmap, planned, change_of, plan_access, plan_transfer, plan_device_write_part};
ghost use Rattle.manager.specs.Tables.{tables, record_at};

use super::records::record_at;
use super::refusals::{
    mapping_at, mapping_refusal, part_refusal, rights_refusal, tested, transfer_refusal,
};
use super::{AccessKind, Change, Refusal};
use board::Board;
use mapping::{Mapping, MappingList, Seen};
use page_model::{Step, Stepped};

// Whether a mapping can be listed, and where.
pub fn plan_map(
    board: Board,
    list: MappingList,
    records: &[u32],
    protections: &[u8],
    m: Mapping,
) -> Result<usize, Refusal>
    requires { Regular board }
    ensures { by_number result ≡ plan_map board (tables list records.now protections.now) m.space m.page m.frame m.rights }
{
    let looked = mapping::look(board, list, m.space, m.page);
    let seen = tested(board, looked, records, protections)?;
    mapping_refusal(board, seen, m)?;
    Ok(seen.place)
}

// Whether a page of a space is mapped, and at which place.
pub fn plan_unmap(
    board: Board,
    list: MappingList,
    records: &[u32],
    protections: &[u8],
    space: u8,
    page: u16,
) -> Result<usize, Refusal>
    requires { Regular board }
    ensures { by_number result ≡ plan_unmap board (tables list records.now protections.now) space page }
{
    let looked = mapping::look(board, list, space, page);
    let seen = tested(board, looked, records, protections)?;
    mapping_at(seen, space, page)?;
    Ok(seen.place)
}

// What an access of the processor makes of the page's frame, where `looked` is what a look at the list told of the page. The list
// itself is not handed on: that would copy it once more.
pub fn plan_access(
    board: Board,
    looked: Option<Seen>,
    records: &[u32],
    protections: &[u8],
    space: u8,
    page: u16,
    kind: AccessKind,
) -> Result<Change, Refusal>
    requires { Regular board }
    ensures { (list : any.MappingList) → length list.items ≡ capacity → looked ≡ look board list space page
        → by_number result ≡ plan_access board (tables list records.now protections.now) space page kind }
{
    let seen = tested(board, looked, records, protections)?;
    let mapping = mapping_at(seen, space, page)?;
    rights_refusal(kind, mapping.rights)?;
    let colour = board.colour_of(usize::from(page));
    let step = match kind {
        AccessKind::Read => Step::Read(colour),
        AccessKind::Write => Step::Write(colour),
        AccessKind::Fetch => Step::Fetch(colour),
    };
    plan_step(board, records, mapping.frame, step)
}

// What a device's transfer of a page, or the beginning of one, makes of a frame.
#[inline(always)]
pub fn plan_transfer(
    board: Board,
    list: MappingList,
    records: &[u32],
    protections: &[u8],
    frame: u8,
    step: Step,
) -> Result<Change, Refusal>
    requires { Regular board × (reach (step_of step) ≤ board.colours) }
    ensures { by_number result ≡ plan_transfer board (tables list records.now protections.now) frame (step_of step) }
{
    let kept = mapping::keeps_rules(board, list);
    transfer_refusal(board, kept, records, protections, frame)?;
    plan_step(board, records, frame, step)
}

// What a device's write of so many words from an offset on makes of a frame.
pub fn plan_device_write_part(
    board: Board,
    list: MappingList,
    records: &[u32],
    protections: &[u8],
    frame: u8,
    first: usize,
    number: usize,
) -> Result<Change, Refusal>
    requires { Regular board }
    ensures { by_number result ≡ plan_device_write_part board (tables list records.now protections.now) frame first number }
{
    let kept = mapping::keeps_rules(board, list);
    part_refusal(board, kept, records, protections, frame, first, number)?;
    let step = if number < board.page {
        Step::DeviceWritePart
    } else {
        Step::DeviceWrite
    };
    plan_step(board, records, frame, step)
}

// What a step makes of a frame's record, which its mark may bar.
#[inline(always)]
fn plan_step(board: Board, records: &[u32], frame: u8, step: Step) -> Result<Change, Refusal>
    requires { Regular board × (reach (step_of step) ≤ board.colours) }
    ensures { (list : any.MappingList) (protections : List ℕ) → frame_record.keeps_rules board.colours (record_at records.now frame) ≡ true
        → by_number result ≡ planned (cond (bars (record_at records.now frame).busy (step_of step)) 15 0) (change_of board (tables list records.now protections) frame (step_of step)) }
{
    let record = record_at(records, frame);
    if record.bars(step) {
        return Err(Refusal::Busy);
    }
    let Stepped { next, ops } = record.step(step, board.colours);
    Ok(Change { frame, next, ops })
}
