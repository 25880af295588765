// The two operations on a frame in a page of the caches, flush and purge: document 01's orders. What goes by `colour` is such a page.
ghost use Rattle.std.specs.Prelude.{◌≡◌, List, ℕ, ◌<◌, length};
ghost use Rattle.board.specs.Board.{Regular, cache_pages, lines};
ghost use Rattle.cache.specs.Store.{store, WellFormedStore};
ghost use Rattle.cache.specs.Cache.{leaving, flush_line, purge_line, flush, purge};

use crate::line::write_back;
use crate::tag::{Tag, names};
use board::Board;

// Writes back each dirty line of a frame in a page of the caches, and leaves the lines that name the frame there in, clean.
#[tactic(auto, using(crate::proofs::Laws::Sweep::sweep_more, crate::proofs::Laws::Operations::flush_done), unfolding(crate::specs::Cache::sweep))]
pub fn flush(
    board: Board,
    memory: &mut [u32],
    words: &[u32],
    tags: &mut [u8],
    frame: usize,
    colour: usize,
)
    requires { WellFormedStore board (store memory.old words.now tags.old) × (frame < board.frames) × (colour < cache_pages board) × Regular board }
    ensures { store memory.new words.now tags.new ≡ flush board frame colour (store memory.old words.now tags.old) }
{
    for i in 0..board.page_lines() {
        flush_line(
            board,
            memory,
            words,
            tags,
            frame,
            board.colour_line(colour, i),
        );
    }
}

// Empties every line that names a frame in a page of the caches, and writes none back.
#[tactic(auto, using(crate::proofs::Laws::Sweep::sweep_more), unfolding(crate::specs::Cache::sweep))]
pub fn purge(board: Board, tags: &mut [u8], frame: usize, colour: usize)
    requires { (length tags.old ≡ lines board) × (frame < board.frames) × (colour < cache_pages board) × Regular board }
    ensures { (memory words : List ℕ) → store memory words tags.new ≡ purge board frame colour (store memory words tags.old) }
{
    for i in 0..board.page_lines() {
        purge_line(board, tags, frame, board.colour_line(colour, i));
    }
}

// Writes back a line that names a frame if it is dirty, and leaves it clean; another stays.
#[tactic(auto, using(crate::proofs::Laws::Operations::flush_line_named, crate::proofs::Laws::Operations::flush_line_other), unfolding(crate::specs::Cache::write_back_as))]
fn flush_line(
    board: Board,
    memory: &mut [u32],
    words: &[u32],
    tags: &mut [u8],
    frame: usize,
    line: usize,
)
    requires { WellFormedStore board (store memory.old words.now tags.old) × (frame < board.frames) × (line < lines board) × Regular board }
    ensures { store memory.new words.now tags.new ≡ flush_line board leaving frame line (store memory.old words.now tags.old) }
{
    if names(tags[line], frame) {
        write_back(board, memory, words, tags, line);
        tags[line] = Tag::Clean(frame).byte();
    }
}

// Empties a line that names a frame; another stays.
#[tactic(auto, using(crate::proofs::Laws::Operations::purge_line_named, crate::proofs::Laws::Operations::purge_line_other), unfolding(crate::specs::Cache::empty))]
fn purge_line(board: Board, tags: &mut [u8], frame: usize, line: usize)
    requires { (length tags.old ≡ lines board) × (frame < board.frames) × (line < lines board) × Regular board }
    ensures { (memory words : List ℕ) → store memory words tags.new ≡ purge_line frame line (store memory words tags.old) }
{
    if names(tags[line], frame) {
        tags[line] = Tag::Empty.byte();
    }
}
