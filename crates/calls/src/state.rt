// What a script has at a line: what is lent and how much of it, the list and another that it keeps, the items of a call over many mappings, whose calls are
// made, and the numbers that it was called with.
use crate::commands::{Pages, Setting, Subject};
use crate::lent::{BUFFERS, Lengths, Lent};
use crate::numbers::Numbers;
use crate::slips::Slip;
use mapping::{BATCH, Batch, CAPACITY, Mapping, MappingList};

#[derive(Clone, Copy)]
pub struct State {
    pub lent: Lent,
    pub lengths: Lengths,
    pub list: MappingList,
    pub kept: MappingList,
    pub batch: Batch,
    pub subject: Subject,
    pub called: Numbers,
}

impl State {
    // Buffers of zeros of which nothing is lent, and an empty list.
    pub fn start() -> State {
        State {
            lent: Lent::zeros(),
            lengths: [0; BUFFERS],
            list: mapping::empty(),
            kept: mapping::empty(),
            batch: no_items(),
            subject: Subject::Machine,
            called: Numbers::none(),
        }
    }

    // Carries out a setting.
    pub fn set(&mut self, setting: Setting) -> Result<(), Slip> {
        match setting {
            Setting::Subject(subject) => self.subject = subject,
            Setting::With(lengths) => self.lengths = lengths,
            Setting::Content(buffer, content) => self.lent.set(buffer, content)?,
            Setting::Start => self.lent.start(),
            Setting::Empty => self.list = mapping::empty(),
            Setting::Entry(place, mapping) => self.list = entered(self.list, place, mapping)?,
            Setting::Listed(count) => self.list.count = count,
            Setting::Pages(first) => self.list = listed(first),
            Setting::Keep => self.kept = self.list,
            Setting::Back => self.list = self.kept,
            Setting::Batch(count) => self.batch.count = count,
            Setting::Item(place, mapping) => {
                if let Some(item) = self.batch.items.get_mut(place) {
                    *item = mapping;
                }
            }
            Setting::Items(first) => self.batch = items(first),
        }
        Ok(())
    }
}

// The list with a mapping at a place that is listed, or behind the last.
fn entered(list: MappingList, place: usize, mapping: Mapping) -> Result<MappingList, Slip> {
    if list.count >= CAPACITY || place > list.count {
        return Err(Slip::Misfit);
    }
    Ok(mapping::insert_at(list, place, mapping))
}

// The list of the first pages of a space.
fn listed(first: Pages) -> MappingList {
    let mut list = mapping::empty();
    for page in (0u16..).take(first.number) {
        list = mapping::insert_at(list, list.count, first.mapping(page));
    }
    list
}

// A batch without items.
fn no_items() -> Batch {
    Batch {
        items: [Mapping::zero(); BATCH],
        count: 0,
    }
}

// The batch of the first pages of a space.
fn items(first: Pages) -> Batch {
    let mut batch = no_items();
    for (item, page) in batch.items.iter_mut().take(first.number).zip(0u16..) {
        *item = first.mapping(page);
    }
    batch.count = first.number;
    batch
}
