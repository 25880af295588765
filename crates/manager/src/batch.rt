// A list of mappings in one call: what is lent is tested once, and the protections are filled once.
ghost use Rattle.std.specs.Prelude.{◌≡◌, true, ◌≤◌, nat_eq, length};
ghost use Rattle.board.specs.Board.{Regular};
ghost use Rattle.mapping.specs.Batch.{batch_size, items_of};
ghost use Rattle.mapping.specs.Rules.{keeps_rules};
ghost use Rattle.manager.specs.Answers.{refusal_in};
ghost use Rattle.manager.specs.Calls.{list_outcome, list_left};
ghost use Rattle.manager.specs.Scaffold.Inserted.{list_after_items, refusal_at, whole_refusal, batch_made};
ghost use Rattle.manager.specs.Batch.{batch_result};
ghost use Rattle.manager.specs.Tables.{tables, tabulate};

use super::Refusal;
use super::records::refill;
use super::refusals::mapping_refusal;
use board::Board;
use mapping::{Batch, MappingList};

// Maps the items in turn, where `lent` is the number of the refusal in what is lent, or 0. Each item's answer is 0, or the number of its refusal.
pub fn map_batch(
    board: Board,
    list: MappingList,
    records: &[u32],
    protections: &mut [u8],
    batch: Batch,
    answers: &mut [u8],
    lent: u8,
) -> Result<MappingList, Refusal>
    requires { Regular board × (lent ≡ 0 → keeps_rules board list ≡ true) }
    ensures { batch_result (list_outcome result) answers.new (tables (list_left list result) records.now protections.new)
        ≡ batch_made board lent (tables list records.now protections.old) (items_of batch) answers.old }
{
    whole_refusal(lent, batch.count, answers.len())?;
    if lent != 0 {
        answers.fill(lent);
        return Ok(list);
    }
    let next = insert_all(board, list, batch, answers);
    if next.count != list.count {
        refill(board.colours, next, records, protections);
    }
    Ok(next)
}

// The refusal of the whole.
#[tactic(auto, unfolding(crate::specs::Refusals::first_refusal, crate::specs::Scaffold::Inserted::whole_refusal))]
fn whole_refusal(lent: u8, items: usize, answers: usize) -> Result<(), Refusal>
    ensures { refusal_in result ≡ whole_refusal lent items answers }
{
    if lent == Refusal::WrongLength.number() {
        return Err(Refusal::WrongLength);
    }
    if items > mapping::BATCH || answers != items {
        return Err(Refusal::WrongBatch);
    }
    Ok(())
}

// Inserts each item that is not refused, and answers each.
fn insert_all(board: Board, list: MappingList, batch: Batch, answers: &mut [u8]) -> MappingList
    requires { (length answers.old ≡ batch.count) × (batch.count ≤ batch_size) × (keeps_rules board list ≡ true) }
    ensures { (result ≡ list_after_items board list (items_of batch) batch.count) × (answers.new ≡ tabulate batch.count (refusal_at board list (items_of batch))) }
{
    let mut next = list;
    for (i, answer) in answers.iter_mut().enumerate() {
        let m = batch.items[i];
        let seen = mapping::find(next, m.space, m.page);
        *answer = match mapping_refusal(board, seen, m) {
            Ok(()) => {
                next = mapping::insert_at(next, seen.place, m);
                0
            }
            Err(refusal) => refusal.number(),
        };
    }
    next
}
