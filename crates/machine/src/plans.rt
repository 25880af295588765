// What a call would do, found before anything changes: the machine's own refusal and the manager's plan or refusal are found apart, and of two refusals the one that is tested earlier is given.
ghost use Rattle.std.specs.Prelude.{◌≡◌, true, nat_eq, length};
ghost use Rattle.board.specs.Board.{Regular};
ghost use Rattle.manager.specs.Answers.{refusal_in, by_number};
ghost use Rattle.manager.specs.Refusals.{first_refusal};
ghost use Rattle.cache.specs.Store.{store};
ghost use Rattle.machine.specs.Scaffold.Plans.{store_causes, access_causes, earlier, with_own};

use board::Board;
use manager::Refusal;

// The refusal in memory, cache words and tags.
pub fn store_refusal(
    board: Board,
    memory: &[u32],
    words: &[u32],
    tags: &[u8],
) -> Result<(), Refusal>
    requires { Regular board }
    ensures { refusal_in result ≡ first_refusal (store_causes board (store memory.now words.now tags.now) true) }
{
    if memory.len() != board.memory_words() {
        return Err(Refusal::WrongLength);
    }
    if words.len() != board.cache_words() {
        return Err(Refusal::WrongLength);
    }
    if tags.len() != board.lines() {
        return Err(Refusal::WrongLength);
    }
    if !cache::tag::tags_keep_rules(board, tags) {
        return Err(Refusal::BrokenRules);
    }
    Ok(())
}

// The same with a device's buffer of so many words.
pub fn transfer_refusal(
    board: Board,
    memory: &[u32],
    words: &[u32],
    tags: &[u8],
    buffer: &[u32],
    number: usize,
) -> Result<(), Refusal>
    requires { Regular board }
    ensures { refusal_in result ≡ first_refusal (store_causes board (store memory.now words.now tags.now) (nat_eq (length buffer.now) number)) }
{
    if buffer.len() != number {
        return Err(Refusal::WrongLength);
    }
    store_refusal(board, memory, words, tags)
}

// The same with an offset, or a line, and its limit.
pub fn access_refusal(
    board: Board,
    memory: &[u32],
    words: &[u32],
    tags: &[u8],
    limit: usize,
    offset: usize,
) -> Result<(), Refusal>
    requires { Regular board }
    ensures { refusal_in result ≡ first_refusal (access_causes board (store memory.now words.now tags.now) limit offset) }
{
    store_refusal(board, memory, words, tags)?;
    if offset >= limit {
        return Err(Refusal::NoSuchOffset);
    }
    Ok(())
}

// What the manager plans, unless the machine's own refusal, or the manager's, refuses the call: of both the earlier.
pub fn earlier<T: Copy>(
    own: Result<(), Refusal>,
    managers: Result<T, Refusal>,
) -> Result<T, Refusal>
    ensures plan { by_number result ≡ with_own (refusal_in own) (by_number managers) }
    ensures refusal { refusal_in result ≡ earlier (refusal_in own) (refusal_in managers) }
{
    match (own, managers) {
        (Err(own), Err(managers)) => Err(own.min(managers)),
        (Err(own), Ok(_)) => Err(own),
        (Ok(()), _) => managers,
    }
}
