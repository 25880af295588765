// A call of the manager, on as many records, protections and answers as the script says.
use crate::commands::{Access, Call, ListCall, LongTransfer, Transfer};
use crate::lent::{ANSWERS, PROTECTIONS, RECORDS};
use crate::state::State;
use crate::tell::{listed, told};
use manager::AccessKind;
use mapping::{Batch, MappingList};
use std::io::Result;

// Makes a call, and tells its answer.
pub fn call(rt: &impl Print, s: &mut State, call: Call) -> Result<()> {
    let [records, protections, answers, ..] = s.lengths;
    let list = s.list;
    let batch = s.batch;
    let lent = &mut s.lent;
    let r: &mut [u32] = &mut lent.records;
    let p: &mut [u8] = &mut lent.protections;
    let a: &mut [u8] = &mut lent.answers;
    s.list = chosen(
        rt,
        call,
        list,
        batch,
        &mut r[..records.min(RECORDS)],
        &mut p[..protections.min(PROTECTIONS)],
        &mut a[..answers.min(ANSWERS)],
    )?;
    Ok(())
}

// Makes a call of any kind that the manager has, and hands back the list that it leaves.
fn chosen(
    rt: &impl Print,
    call: Call,
    list: MappingList,
    batch: Batch,
    r: &mut [u32],
    p: &mut [u8],
    a: &mut [u8],
) -> Result<MappingList> {
    match call {
        Call::List(call) => return listing(rt, call, list, batch, r, p, a),
        Call::Access(call) => access(rt, call, list, r, p)?,
        Call::Transfer(frame, call) => transfer(rt, frame, call, list, r, p)?,
        Call::LongTransfer(frame, call) => slow(rt, frame, call, list, r, p)?,
        Call::OfMachine(_) => {}
    }
    Ok(list)
}

// Calls that change the list.
fn listing(
    rt: &impl Print,
    call: ListCall,
    list: MappingList,
    batch: Batch,
    r: &[u32],
    p: &mut [u8],
    a: &mut [u8],
) -> Result<MappingList> {
    match call {
        ListCall::Map(mapping) => listed(rt, list, manager::map(list, r, p, mapping)),
        ListCall::Unmap(space, page) => listed(rt, list, manager::unmap(list, r, p, space, page)),
        ListCall::MapAll => listed(rt, list, manager::map_all(list, r, p, batch, a)),
    }
}

// Accesses.
fn access(
    rt: &impl Print,
    call: Access,
    list: MappingList,
    r: &mut [u32],
    p: &mut [u8],
) -> Result<()> {
    let Access { space, page, .. } = call;
    match call.kind {
        AccessKind::Read => told(rt, manager::read(list, r, p, space, page)),
        AccessKind::Write => told(rt, manager::write(list, r, p, space, page)),
        AccessKind::Fetch => told(rt, manager::fetch(list, r, p, space, page)),
    }
}

// Transfers in one step.
fn transfer(
    rt: &impl Print,
    frame: u8,
    call: Transfer,
    list: MappingList,
    r: &mut [u32],
    p: &mut [u8],
) -> Result<()> {
    match call {
        Transfer::Read => told(rt, manager::device_read(list, r, p, frame)),
        Transfer::Write => told(rt, manager::device_write(list, r, p, frame)),
        Transfer::WritePart(first, number) => told(
            rt,
            manager::device_write_part(list, r, p, frame, first, number),
        ),
    }
}

// Transfers that take a while.
fn slow(
    rt: &impl Print,
    frame: u8,
    call: LongTransfer,
    list: MappingList,
    r: &mut [u32],
    p: &mut [u8],
) -> Result<()> {
    match call {
        LongTransfer::BeginRead => told(rt, manager::begin_read(list, r, p, frame)),
        LongTransfer::BeginWrite => told(rt, manager::begin_write(list, r, p, frame)),
        LongTransfer::BringWord(offset, _) => {
            told(rt, manager::bring_word(list, r, p, frame, offset))
        }
        LongTransfer::TakeWord(offset) => told(rt, manager::take_word(list, r, p, frame, offset)),
        LongTransfer::End => told(rt, manager::end_transfer(list, r, p, frame)),
    }
}
