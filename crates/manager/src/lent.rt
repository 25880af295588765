// A kernel's own list of mappings, laid out in one call: request N1's "one call for a lent list".
ghost use Rattle.std.specs.Prelude.{◌≡◌};
ghost use Rattle.board.specs.Board.{board01};
ghost use Rattle.manager.specs.Batch.{batch_result, map_all_call};
ghost use Rattle.manager.specs.Calls.{list_outcome, list_left};
ghost use Rattle.manager.specs.Tables.{tables};

use super::Refusal;
use mapping::{Mapping, MappingList};

// `map_all` of items that are lent where they lie, with an answer for each. More than a batch has are refused as a WrongBatch.
pub fn map_all(
    list: MappingList,
    records: &[u32],
    protections: &mut [u8],
    items: &[Mapping],
    answers: &mut [u8],
) -> Result<MappingList, Refusal>
    ensures { batch_result (list_outcome result) answers.new (tables (list_left list result) records.now protections.new)
        ≡ map_all_call board01 (tables list records.now protections.old) items.now answers.old }
{
    let batch = mapping::lent::batch(items);
    super::map_all(list, records, protections, batch, answers)
}
