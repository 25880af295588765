// Request N11: what a step costs by the contract's tariff, in whole cycles, and the accounts that it goes to.
#![tactic(auto)]

ghost use Rattle.std.specs.Prelude.{◌≡◌, false, ◌||◌, ◌<◌, length};
ghost use Rattle.tariff.specs.Accounts.{balance, overdrawn, charged};
ghost use Rattle.tariff.specs.Tariff.{is_flush, is_purge, charge, rates};

use page_model::{Op, Ops};

// For what a step is charged: the rows of the tariff. A begin of a transfer is charged as the transfer is, and a part as a device's write.
#[derive(Clone, Copy, Debug, PartialEq, Eq)]
pub enum ChargeKind {
    Read,
    Write,
    Fetch,
    DeviceRead,
    DeviceWrite,
}

// How many accounts there are: those of the spaces, and last that of the transfers.
pub const ACCOUNTS: usize = 17;

pub const TRANSFER_ACCOUNT: usize = 16;

// The most that a charge may bring an account to.
const LIMIT: u64 = 4_000_000_000;

// Whether an account has no room for what a step with these orders costs; one that is not there holds 0.
pub fn lacks_room(accounts: &[u32], account: usize, kind: ChargeKind, ops: Ops) -> bool
    ensures { result ≡ overdrawn (balance accounts.now account) (charge kind ops) }
{
    overdrawn(balance(accounts, account), charge(kind, ops))
}

// Charges an account for a step with these orders.
#[tactic(auto, using(crate::proofs::Laws::fits), unfolding(crate::specs::Accounts::charged))]
pub fn pay(accounts: &mut [u32], account: usize, kind: ChargeKind, ops: Ops)
    requires { (account < length accounts.old) × (overdrawn (balance accounts.old account) (charge kind ops) ≡ false) }
    ensures { accounts.new ≡ charged accounts.old account (charge kind ops) }
{
    let cycles = charge(kind, ops);
    accounts[account] += cycles;
}

// What a step with these orders costs.
#[tactic(auto, unfolding(crate::specs::Tariff::charge))]
fn charge(kind: ChargeKind, ops: Ops) -> u32
    ensures { result ≡ charge kind ops }
{
    let [none, flush, purge, both] = rates(kind);
    match (has_flush(ops), has_purge(ops)) {
        (false, false) => none,
        (true, false) => flush,
        (false, true) => purge,
        (true, true) => both,
    }
}

// The cycles of a kind of charge, by the orders: none, a flush, a purge, both.
fn rates(kind: ChargeKind) -> [u32; 4]
    ensures { result ≡ rates kind }
{
    match kind {
        ChargeKind::Read => [0, 1910, 1590, 2210],
        ChargeKind::Write => [0, 1970, 1650, 2270],
        ChargeKind::Fetch => [0, 2120, 1800, 2420],
        ChargeKind::DeviceRead => [0, 930, 0, 0],
        ChargeKind::DeviceWrite => [0, 920, 600, 0],
    }
}

// Whether there is a flush among some orders.
fn has_flush(ops: Ops) -> bool
    ensures { result ≡ (is_flush ops.first || is_flush ops.second) }
{
    [ops.first, ops.second]
        .iter()
        .any(|op| matches!(op, Op::Flush(_)))
}

// Whether there is a purge among them, in either cache.
fn has_purge(ops: Ops) -> bool
    ensures { result ≡ (is_purge ops.first || is_purge ops.second) }
{
    [ops.first, ops.second]
        .iter()
        .any(|op| matches!(op, Op::Purge(_) | Op::PurgeInstructions(_)))
}

// What an account holds; one that is not there holds 0.
fn balance(accounts: &[u32], account: usize) -> u32
    ensures { result ≡ balance accounts.now account }
{
    accounts.get(account).copied().unwrap_or(0)
}

// Whether a charge above 0 would take an account that holds so much past the limit.
#[tactic(auto, unfolding(crate::specs::Accounts::overdrawn))]
fn overdrawn(held: u32, cycles: u32) -> bool
    ensures { result ≡ overdrawn held cycles }
{
    cycles > 0 && u64::from(held) + u64::from(cycles) > LIMIT
}
