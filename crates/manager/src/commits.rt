// What carries a plan out. Of the board a commit asks only how many colours it has.
#![tactic(auto, unfolding(crate::specs::Tables::refill))]

ghost use Rattle.std.specs.Prelude.{◌≡◌, ℕ};
ghost use Rattle.board.specs.declared.Board as any;
ghost use Rattle.manager.specs.Answers.{numbered_by, outcome_by};
ghost use Rattle.manager.specs.Calls.{commit_map, commit_unmap, commit_change, call_result, step_result};
ghost use Rattle.manager.specs.Tables.{tables, Colours};

use super::records::{put_record, refill};
use super::{Change, FrameOps};
use board::BOARD01;
use mapping::{Mapping, MappingList};
use page_model::FrameRecord;

// The colours of the board that the calls run on. Commits take this number, not the board: the compiler then knows it where a page's colour is
// found, and makes no division there.
pub const COLOURS: usize = BOARD01.colours;

// Lists a mapping at a place, and hands back the list.
pub fn commit_map(
    colours: usize,
    list: MappingList,
    records: &[u32],
    protections: &mut [u8],
    place: usize,
    m: Mapping,
) -> MappingList
    requires { Colours colours }
    ensures { (b : any.Board) → b.colours ≡ colours
        → tables result records.now protections.new ≡ commit_map b (tables list records.now protections.old) place m }
{
    let next = mapping::insert_at(list, place, m);
    refill(colours, next, records, protections);
    next
}

// Takes the mapping at a place off the list, and hands back the list.
pub fn commit_unmap(
    colours: usize,
    list: MappingList,
    records: &[u32],
    protections: &mut [u8],
    place: usize,
) -> MappingList
    requires { Colours colours }
    ensures { (b : any.Board) → b.colours ≡ colours
        → tables result records.now protections.new ≡ commit_unmap b (tables list records.now protections.old) place }
{
    let next = mapping::remove(list, place);
    refill(colours, next, records, protections);
    next
}

// Stores a frame's next record, and brings the protections up to it.
#[inline(always)]
pub fn commit_change(
    colours: usize,
    list: MappingList,
    records: &mut [u32],
    protections: &mut [u8],
    frame: u8,
    next: FrameRecord,
)
    requires { Colours colours }
    ensures { (b : any.Board) → b.colours ≡ colours
        → tables list records.new protections.new ≡ commit_change b (tables list records.old protections.old) frame next }
{
    put_record(records, frame, next);
    refill(colours, list, records, protections);
}

// Commits a step's change, and answers its operations.
#[inline(always)]
pub fn carry_out(
    colours: usize,
    list: MappingList,
    records: &mut [u32],
    protections: &mut [u8],
    change: Change,
) -> FrameOps
    requires { Colours colours }
    ensures operations { result ≡ record { frame = change.frame; ops = change.ops } }
    ensures tables { (b : any.Board) → b.colours ≡ colours
        → tables list records.new protections.new ≡ commit_change b (tables list records.old protections.old) change.frame change.next }
{
    let Change { frame, next, ops } = change;
    commit_change(colours, list, records, protections, frame, next);
    FrameOps { frame, ops }
}

// Carries a plan out, or hands on its refusal, of any type, and commits nothing.
pub fn commit_plan<E>(
    colours: usize,
    list: MappingList,
    records: &mut [u32],
    protections: &mut [u8],
    plan: Result<Change, E>,
) -> Result<FrameOps, E>
    requires { Colours colours }
    ensures { (b : any.Board) (number : E → ℕ) → b.colours ≡ colours
        → call_result (outcome_by number result) (tables list records.new protections.new)
        ≡ step_result b (tables list records.old protections.old) (numbered_by number plan) }
{
    let change = plan?;
    Ok(carry_out(colours, list, records, protections, change))
}
