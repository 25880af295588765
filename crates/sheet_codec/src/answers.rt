// What is told of an answer: its number, its operations, and how many of them are flushes and purges.
ghost use Rattle.std.specs.Prelude.{◌≡◌, ◌≤◌, ℕ};
ghost use Rattle.manager.specs.Answers.{operations_of, outcome, outcome_by, number_of};
ghost use Rattle.manager.specs.Calls.{list_outcome, list_left};
ghost use Rattle.sheet_codec.specs.Totals.{flushes_of, purges_of, Counts};

use manager::{FrameOps, Refusal};
use mapping::MappingList;
use page_model::Op;

// The refusal's number, or 0.
pub fn number_of(answer: Result<FrameOps, Refusal>) -> u8
    ensures { result ≡ number_of (outcome answer) }
{
    match answer {
        Ok(_) => 0,
        Err(refusal) => refusal.number(),
    }
}

// The operations with their frame: of a refusal, of any type, none, on frame 0.
pub fn operations_of<E: Drop>(answer: Result<FrameOps, E>) -> FrameOps
    ensures { (number : E → ℕ) → result ≡ operations_of (outcome_by number answer) }
{
    answer.unwrap_or(manager::nothing())
}

// The answer of a call that changes the list: it has no operations.
pub fn listed(answer: Result<MappingList, Refusal>) -> Result<FrameOps, Refusal>
    ensures { outcome result ≡ list_outcome answer }
{
    answer.map(|_| manager::nothing())
}

// The list after such a call: a refusal leaves it.
pub fn list_after(list: MappingList, answer: Result<MappingList, Refusal>) -> MappingList
    ensures { result ≡ list_left list answer }
{
    answer.unwrap_or(list)
}

// How many flushes an answer has.
pub fn flushes_of(answer: Result<FrameOps, Refusal>) -> u64
    ensures { (result ≡ flushes_of (outcome answer)) × (result ≤ 2) }
{
    count_of(answer, |op| matches!(op, Op::Flush(_)))
}

// How many purges an answer has, those in the instruction cache too.
pub fn purges_of(answer: Result<FrameOps, Refusal>) -> u64
    ensures { (result ≡ purges_of (outcome answer)) × (result ≤ 2) }
{
    count_of(answer, |op| {
        matches!(op, Op::Purge(_) | Op::PurgeInstructions(_))
    })
}

// How many operations of an answer a test picks.
fn count_of<F: Fn(Op) -> bool>(answer: Result<FrameOps, Refusal>, picks: F) -> u64
    requires { F.IsAlwaysCallable picks }
    ensures { Counts F.post picks (operations_of (outcome answer)).ops result }
{
    let ops = operations_of(answer).ops;
    u64::from(picks(ops.first)) + u64::from(picks(ops.second))
}
