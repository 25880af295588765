// A call of the machine, or a look at the position, on as much of each buffer as the script says. A function has few calls here: its proof takes time by
// the square of the slices that it hands on.
use crate::commands::{Access, Call, ListCall, LongTransfer, MachineCall, Transfer};
use crate::lent::{ANSWERS, BUFFER, MEMORY, PROTECTIONS, RECORDS, TAGS, WORDS};
use crate::state::State;
use crate::tell::{drawn, found, listed, told};
use manager::AccessKind;
use mapping::{Batch, MappingList};
use std::io::Result;

// Makes a call, and tells its answer.
pub fn call(rt: &impl Print, s: &mut State, call: Call) -> Result<()> {
    let [records, protections, memory, words, tags, buffer, answers] = s.lengths;
    let list = s.list;
    let batch = s.batch;
    let lent = &mut s.lent;
    let r: &mut [u32] = &mut lent.records;
    let p: &mut [u8] = &mut lent.protections;
    let m: &mut [u32] = &mut lent.memory;
    let w: &mut [u32] = &mut lent.words;
    let t: &mut [u8] = &mut lent.tags;
    let b: &mut [u32] = &mut lent.buffer;
    let a: &mut [u8] = &mut lent.answers;
    s.list = chosen(
        rt,
        call,
        list,
        batch,
        &mut r[..records.min(RECORDS)],
        &mut p[..protections.min(PROTECTIONS)],
        &mut m[..memory.min(MEMORY)],
        &mut w[..words.min(WORDS)],
        &mut t[..tags.min(TAGS)],
        &mut b[..buffer.min(BUFFER)],
        &mut a[..answers.min(ANSWERS)],
    )?;
    Ok(())
}

// Makes a call of any kind, and hands back the list that it leaves.
fn chosen(
    rt: &impl Print,
    call: Call,
    list: MappingList,
    batch: Batch,
    r: &mut [u32],
    p: &mut [u8],
    m: &mut [u32],
    w: &mut [u32],
    t: &mut [u8],
    b: &mut [u32],
    a: &mut [u8],
) -> Result<MappingList> {
    match call {
        Call::List(call) => return listing(rt, call, list, batch, r, p, m, w, t, a),
        Call::Access(call) => access(rt, call, list, r, p, m, w, t)?,
        Call::Transfer(frame, call) => transfer(rt, frame, call, list, r, p, m, w, t, b)?,
        Call::LongTransfer(frame, call) => slow(rt, frame, call, list, r, p, m, w, t)?,
        Call::OfMachine(call) => other(rt, call, list, r, p, m, w, t)?,
    }
    Ok(list)
}

// Calls that change the list.
fn listing(
    rt: &impl Print,
    call: ListCall,
    list: MappingList,
    batch: Batch,
    r: &[u32],
    p: &mut [u8],
    m: &[u32],
    w: &[u32],
    t: &[u8],
    a: &mut [u8],
) -> Result<MappingList> {
    match call {
        ListCall::Map(mapping) => listed(rt, list, machine::map(list, r, p, m, w, t, mapping)),
        ListCall::Unmap(space, page) => {
            listed(rt, list, machine::unmap(list, r, p, m, w, t, space, page))
        }
        ListCall::MapAll => listed(rt, list, machine::map_all(list, r, p, m, w, t, batch, a)),
    }
}

// Accesses.
fn access(
    rt: &impl Print,
    call: Access,
    list: MappingList,
    r: &mut [u32],
    p: &mut [u8],
    m: &mut [u32],
    w: &mut [u32],
    t: &mut [u8],
) -> Result<()> {
    let Access {
        kind,
        space,
        page,
        offset,
        word,
    } = call;
    match kind {
        AccessKind::Read => found(rt, machine::read(list, r, p, m, w, t, space, page, offset)),
        AccessKind::Fetch => found(rt, machine::fetch(list, r, p, m, w, t, space, page, offset)),
        AccessKind::Write => told(
            rt,
            machine::write(list, r, p, m, w, t, space, page, offset, word),
        ),
    }
}

// Evictions, and looks at the position.
fn other(
    rt: &impl Print,
    call: MachineCall,
    list: MappingList,
    r: &mut [u32],
    p: &mut [u8],
    m: &mut [u32],
    w: &mut [u32],
    t: &mut [u8],
) -> Result<()> {
    match call {
        MachineCall::Evict(line) => told(rt, machine::evict(list, r, p, m, w, t, line)),
        MachineCall::Look {
            space,
            page,
            clock,
            hold,
        } => drawn(
            rt,
            position_hold::look(list, r, p, m, w, t, space, page, clock, hold),
        ),
    }
}

// Transfers in one step.
fn transfer(
    rt: &impl Print,
    frame: u8,
    call: Transfer,
    list: MappingList,
    r: &mut [u32],
    p: &mut [u8],
    m: &mut [u32],
    w: &[u32],
    t: &mut [u8],
    b: &mut [u32],
) -> Result<()> {
    match call {
        Transfer::Read => told(rt, machine::device_read(list, r, p, m, w, t, b, frame)),
        Transfer::Write => told(rt, machine::device_write(list, r, p, m, w, t, b, frame)),
        Transfer::WritePart(first, number) => told(
            rt,
            machine::device_write_part(list, r, p, m, w, t, b, frame, first, number),
        ),
    }
}

// Transfers that take a while.
fn slow(
    rt: &impl Print,
    frame: u8,
    call: LongTransfer,
    list: MappingList,
    r: &mut [u32],
    p: &mut [u8],
    m: &mut [u32],
    w: &[u32],
    t: &mut [u8],
) -> Result<()> {
    match call {
        LongTransfer::BeginRead => told(rt, machine::begin_read(list, r, p, m, w, t, frame)),
        LongTransfer::BeginWrite => told(rt, machine::begin_write(list, r, p, m, w, t, frame)),
        LongTransfer::BringWord(offset, word) => told(
            rt,
            machine::bring_word(list, r, p, m, w, t, frame, offset, word),
        ),
        LongTransfer::TakeWord(offset) => {
            found(rt, machine::take_word(list, r, p, m, w, t, frame, offset))
        }
        LongTransfer::End => told(rt, machine::end_transfer(list, r, p, m, w, t, frame)),
    }
}
