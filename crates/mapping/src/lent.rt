// Lent mapping records: lookups in the list in a kernel's own memory, with a count beside it, that copy none of it; and a batch of lent items.
ghost use Rattle.std.specs.Prelude.{◌≡◌, slice_index_or};
ghost use Rattle.mapping.specs.Entry.{zero_mapping};
ghost use Rattle.mapping.specs.Lookup.{lookup};
ghost use Rattle.mapping.specs.Lent.{lent};
ghost use Rattle.mapping.specs.Batch.{batch_of};

use crate::{Batch, Mapping};
use std::array;

// The record at place i, all 0 past the last.
pub fn at(list: &[Mapping], i: usize) -> Mapping
    ensures { result ≡ slice_index_or list.now i zero_mapping }
{
    list.get(i).copied().unwrap_or_default()
}

// The first listed place with this space and page. The first count records are listed, or all where they are fewer.
pub fn lookup(list: &[Mapping], count: usize, space: u8, page: u16) -> Option<usize>
    ensures { result ≡ lookup (lent list.now count) space page }
{
    list.iter().take(count).position(|m| m.is_at(space, page))
}

// The batch of a lent list: its first BATCH records in order, zero records past its last, and its length as count, also where that is more.
pub fn batch(list: &[Mapping]) -> Batch
    ensures { result ≡ batch_of list.now }
{
    Batch {
        items: array::from_fn(|i| at(list, i)),
        count: list.len(),
    }
}
