// A device's transfer of a frame's words, in order of offset or one at a time.
ghost use Rattle.std.specs.Prelude.{◌≡◌, List, ℕ, ◌+◌, ◌<◌, ◌≤◌, length};
ghost use Rattle.board.specs.Board.{Regular, memory_words};
ghost use Rattle.cache.specs.Store.{store, memory_word};
ghost use Rattle.cache.specs.Cache.{device_read, device_write, bring_word};

use crate::copy::copy;
use board::Board;

// Copies a frame's words in memory to the device's buffer.
pub fn device_read(board: Board, memory: &[u32], buffer: &mut [u32], frame: usize)
    requires { (length memory.now ≡ memory_words board) × (length buffer.old ≡ board.page) × (frame < board.frames) × Regular board }
    ensures { (words tags : List ℕ) → buffer.new ≡ device_read board frame (store memory.now words tags) }
{
    let from = board.memory_at(frame, 0);
    copy(buffer, &memory[from..from + board.page]);
}

// Copies the words of the device's buffer, of which there are some, to a frame's words in memory from an offset on.
#[tactic(auto, using(crate::proofs::Laws::Part::part_back), unfolding(crate::specs::Cache::device_write))]
pub fn device_write(board: Board, memory: &mut [u32], buffer: &[u32], frame: usize, first: usize)
    requires { (length memory.old ≡ memory_words board) × (0 < length buffer.now) × (first + length buffer.now ≤ board.page) × (frame < board.frames) × Regular board }
    ensures { (words tags : List ℕ) → store memory.new words tags ≡ device_write board frame first buffer.now (store memory.old words tags) }
{
    let at = board.memory_at(frame, first);
    copy(&mut memory[at..at + buffer.len()], buffer);
}

// Stores a word that a device brings at an offset of a frame.
#[tactic(auto, unfolding(crate::specs::Cache::bring_word))]
pub fn bring_word(board: Board, memory: &mut [u32], frame: usize, offset: usize, word: u32)
    requires { (length memory.old ≡ memory_words board) × (frame < board.frames) × (offset < board.page) × Regular board }
    ensures { (words tags : List ℕ) → store memory.new words tags ≡ bring_word board frame offset word (store memory.old words tags) }
{
    memory[board.memory_at(frame, offset)] = word;
}

// The word at an offset of a frame, for a device to take.
pub fn take_word(board: Board, memory: &[u32], frame: usize, offset: usize) -> u32
    requires { (length memory.now ≡ memory_words board) × (frame < board.frames) × (offset < board.page) × Regular board }
    ensures { (words tags : List ℕ) → result ≡ memory_word board (store memory.now words tags) frame offset }
{
    memory[board.memory_at(frame, offset)]
}
