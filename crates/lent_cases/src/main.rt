// Runs what is lent records where they lie, as a kernel has them, on cases worked out by hand from documents 01 and 02: lookups, a batch, and a list
// of mappings in one call.
#![tactic(auto)]

ghost use Rattle.std.specs.Prelude.{◌≤◌};

use mapping::{Batch, Mapping, lent};
use printing::BestEffort;
use std::io::Result;

// Runs the cases, all of them also where text cannot be written; the status is 0.
fn main(rt: HostRuntime) {
    let _ = cases(&BestEffort(&rt));
}

fn cases(rt: &impl Print) -> Result<()> {
    let records = four();
    lookups(rt, &records)?;
    places(rt, &records)?;
    shown(rt, lent::batch(&records))?;
    laid(rt, &records, 4)?;
    laid(rt, &records, 3)
}

// Records in no order, of which the first and the third are of one page.
fn four() -> [Mapping; 4] {
    [
        entry(1, 9, 3, 1),
        entry(0, 0, 5, 2),
        entry(1, 9, 7, 2),
        entry(15, 1023, 63, 1),
    ]
}

// The first of two; out of order; the last; the last, past the count and with a count past the records; a count of none; space and page exchanged; a
// space with another's page.
fn lookups(rt: &impl Print, records: &[Mapping]) -> Result<()> {
    found(rt, records, 4, 1, 9)?;
    found(rt, records, 4, 0, 0)?;
    found(rt, records, 4, 15, 1023)?;
    found(rt, records, 3, 15, 1023)?;
    found(rt, records, usize::MAX, 15, 1023)?;
    found(rt, records, 0, 1, 9)?;
    found(rt, records, 4, 9, 1)?;
    found(rt, records, 4, 1, 0)?;
    found(rt, records, 4, 0, 9)
}

// The first, the last and those past it: each place with the record there.
fn places(rt: &impl Print, records: &[Mapping]) -> Result<()> {
    for place in [0, 1, 3, 4, usize::MAX] {
        print!(rt; "at {place}")?;
        fields(rt, lent::at(records, place))?;
        println!(rt)?;
    }
    Ok(())
}

// ---- one line each

// The count, space, page, and the place that is found.
fn found(rt: &impl Print, records: &[Mapping], count: usize, space: u8, page: u16) -> Result<()> {
    print!(rt; "lookup {count} {space} {page}")?;
    match lent::lookup(records, count, space, page) {
        Some(place) => println!(rt; " {place}"),
        None => println!(rt; " -"),
    }
}

// The count, and the items at places 0, 3, 4 and 63.
fn shown(rt: &impl Print, batch: Batch) -> Result<()> {
    let Batch { items, count } = batch;
    print!(rt; "batch {count}")?;
    fields(rt, items[0])?;
    fields(rt, items[3])?;
    fields(rt, items[4])?;
    fields(rt, items[63])?;
    println!(rt)
}

// The records as items of a call on an empty list, with so many answers, each 8 before it: the refusal or 0, how many are listed, the answers, and
// the first four protections, each 9 before it. Frame 5 is dirty in colour 0, so its mapping, which stands first then, has the protection 2.
fn laid(rt: &impl Print, items: &[Mapping], n: usize) -> Result<()>
    requires { n ≤ 4 }
{
    let mut records = [0u32; 448];
    manager::start(&mut records);
    records[35] = 1;
    records[37] = 1;
    records[39] = 0;
    let list = mapping::empty();
    let mut protections = [9u8; 256];
    let mut answers = [8u8; 4];
    match manager::lent::map_all(list, &records, &mut protections, items, &mut answers[..n]) {
        Ok(next) => print!(rt; "map all 0 {}", next.count)?,
        Err(refusal) => print!(rt; "map all {} {}", refusal.number(), list.count)?,
    }
    bytes(rt, &answers)?;
    bytes(rt, &protections[..4])?;
    println!(rt)
}

// Each byte.
fn bytes(rt: &impl Print, bytes: &[u8]) -> Result<()> {
    for byte in bytes {
        print!(rt; " {byte}")?;
    }
    Ok(())
}

// Space, page, frame and rights.
fn fields(rt: &impl Print, m: Mapping) -> Result<()> {
    print!(rt; " {}.{}.{}.{}", m.space, m.page, m.frame, m.rights)
}

// The mapping of a page of a space to a frame.
fn entry(space: u8, page: u16, frame: u8, rights: u8) -> Mapping {
    Mapping {
        space,
        page,
        frame,
        rights,
    }
}
