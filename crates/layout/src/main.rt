// Lays out a program of 64 mappings, in one call or by one call each, for tests/measure to count what each costs. Two bytes on standard input say how
// many mappings are listed before, and how the 64 are mapped: 0 not at all, 1 singly, 2 at once. Writes how many are listed then, and the sum of
// the protections.
#![tactic(auto)]

ghost use Rattle.std.specs.Prelude.{◌≤◌, length};

use mapping::{BATCH, Batch, Mapping, MappingList};
use std::array;

// Standard input.
const STDIN: i32 = 0;

// Lays the program out. Where text cannot be written it is left out, and the status is 0 all the same.
fn main(rt: HostRuntime) {
    let _ = layout(&rt);
}

fn layout(rt: &impl Print) -> std::io::Result<()> {
    let mut how = [0u8; 2];
    io::read_full(STDIN, &mut how);
    let [first, way] = how;
    // Frame 0 is present in every colour, so each mapping of it, one of 64, has the protection 1.
    let mut records = [0u32; 448];
    manager::start(&mut records);
    records[0] = 255;
    let mut protections = [0u8; 256];
    let before = listed(first);
    let after = match way {
        1 => singly(before, &records, &mut protections, first),
        2 => at_once(before, &records, &mut protections, first),
        _ => before,
    };
    println!(rt; "{} listed, protections {}", after.count, sum(&protections))
}

// Mapping k: page k of space 0, in frame k modulo 64, to read and write.
fn mapping_of(k: u16) -> Mapping {
    Mapping {
        space: 0,
        page: k,
        frame: (k % 64) as u8,
        rights: mapping::READ_WRITE,
    }
}

// The list of the first mappings.
fn listed(count: u8) -> MappingList {
    let mut list = mapping::empty();
    for k in 0..u16::from(count) {
        list = mapping::insert_at(list, list.count, mapping_of(k));
    }
    list
}

// Maps the 64 from `first` on, one call each.
fn singly(
    list: MappingList,
    records: &[u32; 448],
    protections: &mut [u8; 256],
    first: u8,
) -> MappingList {
    let mut next = list;
    for m in batch(first).items {
        next = manager::map(next, records, protections, m).unwrap_or(next);
    }
    next
}

// Maps them in one call.
fn at_once(
    list: MappingList,
    records: &[u32; 448],
    protections: &mut [u8; 256],
    first: u8,
) -> MappingList {
    let mut answers = [0u8; BATCH];
    manager::map_all(list, records, protections, batch(first), &mut answers).unwrap_or(list)
}

// The 64 from `first` on.
fn batch(first: u8) -> Batch {
    Batch {
        items: array::from_fn(|i| mapping_of(u16::from(first) + i as u16)),
        count: BATCH,
    }
}

// The sum of the protections.
fn sum(protections: &[u8]) -> u64
    requires { length protections.now ≤ 256 }
{
    protections
        .iter()
        .map(|protection| u64::from(*protection))
        .sum()
}
