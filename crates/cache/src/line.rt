// What is done to one line: written back, evicted, filled.
ghost use Rattle.std.specs.Prelude.{◌≡◌, List, ℕ, ◌<◌, length};
ghost use Rattle.board.specs.Board.{Regular, lines, memory_words, cache_words};
ghost use Rattle.cache.specs.Store.{store, WellFormedStore};
ghost use Rattle.cache.specs.Cache.{copy_out, write_back, evict, fill};

use crate::copy::copy;
use crate::tag::Tag;
use board::Board;

// Writes a line back to memory if its tag is dirty.
#[tactic(auto, using(crate::proofs::Laws::Tag::says_not_dirty, crate::proofs::Laws::WriteBack::write_back_clean))]
pub fn write_back(board: Board, memory: &mut [u32], words: &[u32], tags: &[u8], line: usize)
    requires { WellFormedStore board (store memory.old words.now tags.now) × (line < lines board) × Regular board }
    ensures { store memory.new words.now tags.now ≡ write_back board line (store memory.old words.now tags.now) }
{
    if let Tag::Dirty(frame) = Tag::from(tags[line]) {
        copy_out(board, memory, words, frame, line);
    }
}

// Writes a line back if its tag is dirty, and empties it.
#[tactic(auto, unfolding(crate::specs::Cache::evict, crate::specs::Cache::empty))]
pub fn evict(board: Board, memory: &mut [u32], words: &[u32], tags: &mut [u8], line: usize)
    requires { WellFormedStore board (store memory.old words.now tags.old) × (line < lines board) × Regular board }
    ensures { store memory.new words.now tags.new ≡ evict board line (store memory.old words.now tags.old) }
{
    write_back(board, memory, words, tags, line);
    tags[line] = Tag::Empty.byte();
}

// Fills a line from memory of a frame, as clean.
#[tactic(auto, using(crate::proofs::Laws::Part::length_part, crate::proofs::Laws::Part::part_lent, crate::proofs::Laws::Part::part_back), unfolding(crate::specs::Cache::fill))]
pub fn fill(
    board: Board,
    memory: &[u32],
    words: &mut [u32],
    tags: &mut [u8],
    frame: usize,
    line: usize,
)
    requires { WellFormedStore board (store memory.now words.old tags.old) × (frame < board.frames) × (line < lines board) × Regular board }
    ensures { store memory.now words.new tags.new ≡ fill board frame line (store memory.now words.old tags.old) }
{
    let from = board.memory_at(frame, board.line_offset(line));
    let at = board.line_at(line);
    copy(
        &mut words[at..at + board.line],
        &memory[from..from + board.line],
    );
    tags[line] = Tag::Clean(frame).byte();
}

// Copies a line's words to memory of a frame.
#[tactic(auto, using(crate::proofs::Laws::Part::length_part, crate::proofs::Laws::Part::part_lent, crate::proofs::Laws::Part::part_back), unfolding(crate::specs::Cache::copy_out, crate::specs::Cache::line_words_of))]
fn copy_out(board: Board, memory: &mut [u32], words: &[u32], frame: usize, line: usize)
    requires { (length memory.old ≡ memory_words board) × (length words.now ≡ cache_words board) × (frame < board.frames) × (line < lines board) × Regular board }
    ensures { (tags : List ℕ) → store memory.new words.now tags ≡ copy_out board frame line (store memory.old words.now tags) }
{
    let at = board.memory_at(frame, board.line_offset(line));
    let from = board.line_at(line);
    copy(
        &mut memory[at..at + board.line],
        &words[from..from + board.line],
    );
}
