// A processor's access to a word: offset of a frame through a page of the caches, a colour's in the data cache or in the instruction cache.
ghost use Rattle.std.specs.Prelude.{◌≡◌, ◌<◌};
ghost use Rattle.board.specs.Board.{Regular, cache_pages, lines, line_of};
ghost use Rattle.cache.specs.Store.{store, WellFormedStore};
ghost use Rattle.cache.specs.Cache.{replace, access, read_word, put_word, write_word};

use crate::line::{fill, write_back};
use crate::tag::{Tag, names};
use board::Board;

// Reads the word, after the access that it takes.
#[tactic(auto, unfolding(crate::specs::Cache::read_word))]
pub fn read_word(
    board: Board,
    memory: &mut [u32],
    words: &mut [u32],
    tags: &mut [u8],
    frame: usize,
    colour: usize,
    offset: usize,
) -> u32
    requires { WellFormedStore board (store memory.old words.old tags.old) × (frame < board.frames) × (colour < cache_pages board) × (offset < board.page) × Regular board }
    ensures word { result ≡ read_word board frame colour offset (store memory.old words.old tags.old) }
    ensures state { store memory.new words.new tags.new ≡ access board frame colour offset (store memory.old words.old tags.old) }
{
    access(board, memory, words, tags, frame, colour, offset);
    let from = board.cache_at(colour, offset);
    words[from]
}

// Writes the word, after the access that it takes, and makes its line dirty.
#[tactic(auto, unfolding(crate::specs::Cache::write_word, crate::specs::Cache::put_word))]
pub fn write_word(
    board: Board,
    memory: &mut [u32],
    words: &mut [u32],
    tags: &mut [u8],
    frame: usize,
    colour: usize,
    offset: usize,
    word: u32,
)
    requires { WellFormedStore board (store memory.old words.old tags.old) × (frame < board.frames) × (colour < board.colours) × (offset < board.page) × Regular board }
    ensures { store memory.new words.new tags.new ≡ write_word board frame colour offset word (store memory.old words.old tags.old) }
{
    access(board, memory, words, tags, frame, colour, offset);
    let at = board.cache_at(colour, offset);
    words[at] = word;
    let line = board.line_of(colour, offset);
    tags[line] = Tag::Dirty(frame).byte();
}

// Has the word's line hold the frame's words: nothing is done on a hit, and on a miss the line is replaced.
#[tactic(auto, using(crate::proofs::Laws::Access::access_hit, crate::proofs::Laws::Access::access_miss))]
pub fn access(
    board: Board,
    memory: &mut [u32],
    words: &mut [u32],
    tags: &mut [u8],
    frame: usize,
    colour: usize,
    offset: usize,
)
    requires { WellFormedStore board (store memory.old words.old tags.old) × (frame < board.frames) × (colour < cache_pages board) × (offset < board.page) × Regular board }
    ensures { store memory.new words.new tags.new ≡ access board frame colour offset (store memory.old words.old tags.old) }
{
    let line = board.line_of(colour, offset);
    if !names(tags[line], frame) {
        replace(board, memory, words, tags, frame, line);
    }
}

// Writes a line back if it is dirty, and fills it from a frame.
#[tactic(auto, using(crate::proofs::Laws::WriteBack::write_back_kept), unfolding(crate::specs::Cache::replace))]
fn replace(
    board: Board,
    memory: &mut [u32],
    words: &mut [u32],
    tags: &mut [u8],
    frame: usize,
    line: usize,
)
    requires { WellFormedStore board (store memory.old words.old tags.old) × (frame < board.frames) × (line < lines board) × Regular board }
    ensures { store memory.new words.new tags.new ≡ replace board frame line (store memory.old words.old tags.old) }
{
    write_back(board, memory, words, tags, line);
    fill(board, memory, words, tags, frame, line);
}
