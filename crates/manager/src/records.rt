// The frame records, one after the other in lent words, and the protections.
ghost use Rattle.std.specs.Prelude.{◌≡◌, ◌<◌, ◌+◌, ◌*◌, ℕ, length, get_or, set};
ghost use Rattle.board.specs.declared.Board as any;
ghost use Rattle.board.specs.Board.{Regular};
ghost use Rattle.manager.specs.Tables.{record_words, record_at, put_record, start_word, records_keep_rules, mapping_state, instructions_of, protection, protection_at, tabulate, Colours};

use board::Board;
use mapping::{Mapping, MappingList};
use page_model::FrameRecord;
use page_model::masks::Masks;

// The words of a record: held, stale, dirty, busy, dirty colour; held and stale in the instruction cache.
pub const RECORD_WORDS: usize = 7;

// The word at a place, 0 past the end.
fn word_at(words: &[u32], i: usize) -> u32
    ensures { result ≡ get_or words.now i 0 }
{
    words.get(i).copied().unwrap_or(0)
}

// Stores a word at a place; past the end nothing changes.
fn put_word(words: &mut [u32], i: usize, word: u32)
    ensures { words.new ≡ set words.old i word }
{
    if i < words.len() {
        words[i] = word;
    }
}

// The record of a frame.
pub fn record_at(records: &[u32], frame: u8) -> FrameRecord
    ensures { result ≡ record_at records.now frame }
{
    let [
        held,
        stale,
        dirty,
        busy,
        dirty_colour,
        instructions_held,
        instructions_stale,
    ] = words_at(records, frame);
    FrameRecord {
        masks: Masks { held, stale },
        dirty,
        busy,
        dirty_colour,
        instructions: Masks {
            held: instructions_held,
            stale: instructions_stale,
        },
    }
}

// The words of a frame's record, 0 where they lie past the end. One test says that none does.
fn words_at(records: &[u32], frame: u8) -> [u32; RECORD_WORDS]
    ensures { (k : ℕ) → k < record_words → get_or result k 0 ≡ get_or records.now (frame * record_words + k) 0 }
{
    let at = usize::from(frame) * RECORD_WORDS;
    match records.get(at..at + RECORD_WORDS) {
        Some(words) => words.try_into().unwrap(),
        None => std::array::from_fn(|i| word_at(records, at + i)),
    }
}

// Stores the record of a frame.
pub fn put_record(records: &mut [u32], frame: u8, record: FrameRecord)
    ensures { records.new ≡ put_record records.old frame «record» }
{
    let at = usize::from(frame) * RECORD_WORDS;
    put_word(records, at, record.masks.held);
    put_word(records, at + 1, record.masks.stale);
    put_word(records, at + 2, record.dirty);
    put_word(records, at + 3, record.busy);
    put_word(records, at + 4, record.dirty_colour);
    put_word(records, at + 5, record.instructions.held);
    put_word(records, at + 6, record.instructions.stale);
}

// Makes every record that of the start: nothing cached, and no dirty colour.
pub fn start(colours: usize, records: &mut [u32])
    requires { Colours colours }
    ensures { records.new ≡ tabulate (length records.old) (start_word colours) }
{
    for (at, word) in records.iter_mut().enumerate() {
        *word = start_word(colours, at);
    }
}

// The word at a place of the records at the start.
fn start_word(colours: usize, i: usize) -> u32
    requires { Colours colours }
    ensures { result ≡ start_word colours i }
{
    if i % RECORD_WORDS == 4 {
        colours as u32
    } else {
        0
    }
}

// Whether the record of every frame keeps the rules.
pub fn records_keep_rules(board: Board, records: &[u32]) -> bool
    requires { Regular board }
    ensures { result ≡ records_keep_rules board records.now }
{
    let frames = u8::try_from(board.frames).unwrap();
    for frame in 0..frames {
        if !record_at(records, frame).keeps_rules(board.colours) {
            return false;
        }
    }
    true
}

// What a mapping lets its program do without a stop: 0 nothing, 1 read, 2 read and write, and 4 more to fetch. The sum of three tests, not a branch on
// what the record holds, which a processor could not foresee.
fn protection_of(colours: usize, records: &[u32], m: Mapping) -> u8
    requires { Colours colours }
    ensures { (b : any.Board) → b.colours ≡ colours → result ≡ protection (mapping_state b records.now m) (instructions_of b records.now m) m.rights }
{
    let r = record_at(records, m.frame);
    let colour = usize::from(m.page) % colours;
    let written = r.holds_dirty(colour) & (m.rights == mapping::READ_WRITE);
    let fetched = r.holds_instructions(colour) & (m.rights == mapping::READ_FETCH);
    u8::from(r.holds(colour)) + u8::from(written) + 4 * u8::from(fetched)
}

// Fills the whole buffer of protections as the list and the records say, where a page's colour is its number modulo colours. The list is read
// in place: handing it on copies it.
pub fn refill(colours: usize, list: MappingList, records: &[u32], protections: &mut [u8])
    requires { Colours colours }
    ensures { (b : any.Board) → b.colours ≡ colours
        → protections.new ≡ tabulate (length protections.old) (protection_at b list records.now) }
{
    let unlisted = Mapping::zero();
    let listed = list.count.min(protections.len());
    for (i, protection) in protections[..listed].iter_mut().enumerate() {
        let m = list.items.get(i).unwrap_or(&unlisted);
        *protection = protection_of(colours, records, *m);
    }
    protections[listed..].fill(0);
}
