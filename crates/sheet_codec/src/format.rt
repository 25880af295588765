// The bytes of a sheet: its numbers, a step's fields, and the test of the whole sheet.
ghost use Rattle.std.specs.Prelude.{◌≡◌, ◌+◌, ◌*◌, ◌^◌, ◌<◌, ◌≤◌};
ghost use Rattle.bits.specs.Mask.{all};
ghost use Rattle.machine.specs.State as call;
ghost use Rattle.sheet_codec.specs.Format.{byte_at, two_bytes, four_bytes, mapping_count, step_count, mapping_place, mapping_call, most_mappings, count_bytes, step_bytes, head_bytes, step_place, fields_at, keeps, step_keeps, is_broken};

use crate::{Fields, Kind};
use mapping::Mapping;

// The most mappings and steps that a sheet has.
pub const MOST_MAPPINGS: usize = 256;

pub const MOST_STEPS: usize = 4096;

// The bytes of a count, of a mapping and of a step.
pub const COUNT_BYTES: usize = 2;

pub const MAPPING_BYTES: usize = 5;

pub const STEP_BYTES: usize = 9;

// The bytes of the largest sheet before its steps, and all its bytes.
const HEAD_BYTES: usize = COUNT_BYTES + MAPPING_BYTES * MOST_MAPPINGS + COUNT_BYTES;

pub const SHEET_BYTES: usize = HEAD_BYTES + STEP_BYTES * MOST_STEPS;

// Whether the sheet is broken: a count past its limit, bytes too few or too many, another kind, or an unused field not 0.
pub fn is_broken(sheet: &[u8]) -> bool
    ensures { result ≡ is_broken sheet.now }
{
    let mappings = mapping_count(sheet);
    if mappings > MOST_MAPPINGS {
        return true;
    }
    let steps = step_count(sheet, mappings);
    if steps > MOST_STEPS {
        return true;
    }
    let first = first_step(mappings);
    let length = first + STEP_BYTES * steps;
    if sheet.len() != length {
        return true;
    }
    !steps_keep(sheet, first, steps)
}

// How many mappings the sheet says that it has.
#[tactic(auto, unfolding(crate::specs::Format::mapping_count))]
pub fn mapping_count(sheet: &[u8]) -> usize
    ensures { result ≡ mapping_count sheet.now }
{
    usize::from(two_bytes(sheet, 0))
}

// How many steps the sheet says that it has.
pub fn step_count(sheet: &[u8], mappings: usize) -> usize
    requires { (mappings ≡ mapping_count sheet.now) × (mappings ≤ most_mappings) }
    ensures { result ≡ step_count sheet.now }
{
    usize::from(two_bytes(sheet, COUNT_BYTES + MAPPING_BYTES * mappings))
}

// The place of the first step after that many mappings.
#[tactic(auto, unfolding(crate::specs::Format::mapping_place))]
pub fn first_step(mappings: usize) -> usize
    requires { mappings ≤ most_mappings }
    ensures { (result ≡ mapping_place mappings + count_bytes) × (result ≤ head_bytes) }
{
    COUNT_BYTES + MAPPING_BYTES * mappings + COUNT_BYTES
}

// Whether the first count steps, which start at a place, keep to the format.
fn steps_keep(sheet: &[u8], first: usize, count: usize) -> bool
    requires { (first ≡ step_place sheet.now 0) × (first + step_bytes * count < 2 ^ 64) }
    ensures { result ≡ all count (step_keeps sheet.now) }
{
    (0..count).all(|k| step_keeps(sheet, first, k))
}

// Whether step k keeps to the format, where the steps start at a place.
fn step_keeps(sheet: &[u8], first: usize, k: usize) -> bool
    requires { (first ≡ step_place sheet.now 0) × (first + step_bytes * (k + 1) < 2 ^ 64) }
    ensures { result ≡ step_keeps sheet.now k }
{
    let f = fields_at(sheet, first + STEP_BYTES * k);
    Kind::try_from(f.kind).is_ok_and(|kind| keeps(kind, f))
}

// Whether a step of a kind has 0 in the fields that it does not use.
fn keeps(kind: Kind, f: Fields) -> bool
    ensures { result ≡ keeps kind f }
{
    match kind {
        Kind::Write | Kind::DeviceWritePart => true,
        Kind::Read | Kind::Fetch => f.w == 0,
        Kind::BringWord => f.p == 0,
        Kind::DeviceWrite => f.p == 0 && f.o == 0,
        Kind::TakeWord => f.p == 0 && f.w == 0,
        Kind::Unmap => f.o == 0 && f.w == 0,
        Kind::DeviceRead | Kind::BeginRead | Kind::BeginWrite | Kind::EndTransfer | Kind::Evict =>
            f.p == 0 && f.o == 0 && f.w == 0,
    }
}

// The fields of the step at a place.
#[tactic(auto, unfolding(crate::specs::Format::fields_at))]
pub fn fields_at(sheet: &[u8], at: usize) -> Fields
    requires { at + step_bytes < 2 ^ 64 }
    ensures { result ≡ fields_at sheet.now at }
{
    Fields {
        kind: byte_at(sheet, at),
        s: byte_at(sheet, at + 1),
        p: two_bytes(sheet, at + 2),
        o: byte_at(sheet, at + 4),
        w: four_bytes(sheet, at + 5),
    }
}

// Mapping k.
#[tactic(auto, unfolding(crate::specs::Format::mapping_call))]
pub fn mapping_at(sheet: &[u8], k: usize) -> Mapping
    requires { k < most_mappings }
    ensures { call.map result.space result.page result.frame result.rights ≡ mapping_call sheet.now k }
{
    let at = COUNT_BYTES + MAPPING_BYTES * k;
    Mapping {
        space: byte_at(sheet, at),
        page: two_bytes(sheet, at + 1),
        frame: byte_at(sheet, at + 3),
        rights: byte_at(sheet, at + 4),
    }
}

// The number of four bytes at a place, low byte first.
#[tactic(auto, unfolding(crate::specs::Format::two_bytes, crate::specs::Format::four_bytes))]
fn four_bytes(sheet: &[u8], at: usize) -> u32
    requires { at + 4 < 2 ^ 64 }
    ensures { result ≡ four_bytes sheet.now at }
{
    u32::from_le_bytes([
        byte_at(sheet, at),
        byte_at(sheet, at + 1),
        byte_at(sheet, at + 2),
        byte_at(sheet, at + 3),
    ])
}

// The number of two bytes at a place, low byte first.
#[tactic(auto, unfolding(crate::specs::Format::two_bytes))]
fn two_bytes(sheet: &[u8], at: usize) -> u16
    requires { at + 2 < 2 ^ 64 }
    ensures { result ≡ two_bytes sheet.now at }
{
    u16::from_le_bytes([byte_at(sheet, at), byte_at(sheet, at + 1)])
}

// The byte at a place, 0 past the end.
#[tactic(auto, unfolding(crate::specs::Format::byte_at))]
fn byte_at(sheet: &[u8], at: usize) -> u8
    ensures { result ≡ byte_at sheet.now at }
{
    sheet.get(at).copied().unwrap_or(0)
}
