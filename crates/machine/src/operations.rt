// The manager's operations, carried out on memory and cache, and the access after them.
ghost use Rattle.std.specs.Prelude.{◌≡◌, ◌<◌};
ghost use Rattle.board.specs.Board.{Regular};
ghost use Rattle.page_model.specs.Step.{OpBelow};
ghost use Rattle.manager.specs.Answers.{operation_on, accepted};
ghost use Rattle.cache.specs.Cache.{read_word, access, write_word, device_read, device_write};
ghost use Rattle.cache.specs.Store.{store, WellFormedStore};
ghost use Rattle.machine.specs.Scaffold.Ready.{OperationsReady, AccessReady, TransferReady, PartReady};
ghost use Rattle.machine.specs.Step.{operate, carry_out};

use board::Board;
use manager::FrameOps;
use page_model::{Op, Ops};

// Carries out one operation on a frame.
fn operate(board: Board, memory: &mut [u32], words: &[u32], tags: &mut [u8], frame: usize, op: Op)
    requires { WellFormedStore board (store memory.old words.now tags.old) × (frame < board.frames) × OpBelow board.colours op × Regular board }
    ensures { store memory.new words.now tags.new
        ≡ operate board (operation_on frame op) (store memory.old words.now tags.old) }
{
    match op {
        Op::None => {}
        Op::Flush(colour) => cache::operation::flush(board, memory, words, tags, frame, colour),
        Op::Purge(colour) => cache::operation::purge(board, tags, frame, colour),
        Op::PurgeInstructions(colour) => {
            let page = board.instruction_page(colour);
            cache::operation::purge(board, tags, frame, page)
        }
    }
}

// Carries out the operations on a frame, in order.
pub fn carry_out(
    board: Board,
    memory: &mut [u32],
    words: &[u32],
    tags: &mut [u8],
    operations: FrameOps,
)
    requires { OperationsReady board (store memory.old words.now tags.old) operations.frame operations.ops }
    ensures { store memory.new words.now tags.new
        ≡ carry_out board (accepted operations.frame operations.ops) (store memory.old words.now tags.old) }
{
    let frame = usize::from(operations.frame);
    let Ops { first, second } = operations.ops;
    operate(board, memory, words, tags, frame, first);
    operate(board, memory, words, tags, frame, second);
}

// Reads a word of a frame through a page of the caches, after its operations.
pub fn load(
    board: Board,
    memory: &mut [u32],
    words: &mut [u32],
    tags: &mut [u8],
    operations: FrameOps,
    colour: usize,
    offset: usize,
) -> u32
    requires { AccessReady board (store memory.old words.old tags.old) operations.frame operations.ops colour offset }
    ensures word { result
        ≡ read_word board operations.frame colour offset (carry_out board (accepted operations.frame operations.ops) (store memory.old words.old tags.old)) }
    ensures state { store memory.new words.new tags.new
        ≡ access board operations.frame colour offset (carry_out board (accepted operations.frame operations.ops) (store memory.old words.old tags.old)) }
{
    carry_out(board, memory, words, tags, operations);
    let frame = usize::from(operations.frame);
    cache::access::read_word(board, memory, words, tags, frame, colour, offset)
}

// Writes a word of a frame after its operations.
pub fn put(
    board: Board,
    memory: &mut [u32],
    words: &mut [u32],
    tags: &mut [u8],
    operations: FrameOps,
    colour: usize,
    offset: usize,
    word: u32,
)
    requires { AccessReady board (store memory.old words.old tags.old) operations.frame operations.ops colour offset × (colour < board.colours) }
    ensures { store memory.new words.new tags.new
        ≡ write_word board operations.frame colour offset word (carry_out board (accepted operations.frame operations.ops) (store memory.old words.old tags.old)) }
{
    carry_out(board, memory, words, tags, operations);
    let frame = usize::from(operations.frame);
    cache::access::write_word(board, memory, words, tags, frame, colour, offset, word);
}

// Fills a device's buffer with a frame's words after its operations.
pub fn send(
    board: Board,
    memory: &mut [u32],
    words: &[u32],
    tags: &mut [u8],
    operations: FrameOps,
    buffer: &mut [u32],
)
    requires { TransferReady board (store memory.old words.now tags.old) operations.frame operations.ops buffer.old }
    ensures state { store memory.new words.now tags.new
        ≡ carry_out board (accepted operations.frame operations.ops) (store memory.old words.now tags.old) }
    ensures filled { buffer.new
        ≡ device_read board operations.frame (carry_out board (accepted operations.frame operations.ops) (store memory.old words.now tags.old)) }
{
    carry_out(board, memory, words, tags, operations);
    let frame = usize::from(operations.frame);
    cache::device::device_read(board, memory, buffer, frame);
}

// Stores a device's buffer as a frame's words from an offset on, after its operations.
pub fn receive(
    board: Board,
    memory: &mut [u32],
    words: &[u32],
    tags: &mut [u8],
    operations: FrameOps,
    first: usize,
    buffer: &[u32],
)
    requires { PartReady board (store memory.old words.now tags.old) operations.frame operations.ops first buffer.now }
    ensures { store memory.new words.now tags.new
        ≡ device_write board operations.frame first buffer.now (carry_out board (accepted operations.frame operations.ops) (store memory.old words.now tags.old)) }
{
    carry_out(board, memory, words, tags, operations);
    let frame = usize::from(operations.frame);
    cache::device::device_write(board, memory, buffer, frame, first);
}
