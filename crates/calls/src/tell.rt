// Text on a call: the refusal, or 0, the two operations and the word, or what is drawn; and what changed.
use crate::lent::Lent;
use machine::Loaded;
use manager::{FrameOps, Refusal};
use mapping::MappingList;
use page_model::Op;
use position_hold::{LookRefusal, Position};
use std::fmt::Display;
use std::io;

// ---- a call and its answer

// The word of a call with its numbers.
pub fn call(rt: &impl Print, word: &str, numbers: &[u64]) -> io::Result<()> {
    print!(rt; "{word}")?;
    for n in numbers {
        print!(rt; " {n}")?;
    }
    print!(rt; ":")
}

// The answer of a call that finds a word.
pub fn found(rt: &impl Print, answer: Result<Loaded, Refusal>) -> io::Result<()> {
    match answer {
        Ok(Loaded { operations, word }) => {
            accepted(rt, operations)?;
            print!(rt; " {word}")
        }
        Err(refusal) => refused(rt, refusal.number()),
    }
}

// The answer of another call.
pub fn told(rt: &impl Print, answer: Result<FrameOps, Refusal>) -> io::Result<()> {
    match answer {
        Ok(operations) => accepted(rt, operations),
        Err(refusal) => refused(rt, refusal.number()),
    }
}

// The answer of a call that changes the list, and the list after it, which a refusal leaves.
pub fn listed(
    rt: &impl Print,
    list: MappingList,
    answer: Result<MappingList, Refusal>,
) -> io::Result<MappingList> {
    told(rt, answer.map(|_| manager::nothing()))?;
    Ok(answer.unwrap_or(list))
}

// What a look at the position draws, or its refusal.
pub fn drawn(rt: &impl Print, look: Result<Option<Position>, LookRefusal>) -> io::Result<()> {
    match look {
        Ok(Some(p)) => print!(rt; " position {} {}", p.latitude, p.longitude),
        Ok(None) => print!(rt; " blank"),
        Err(refusal) => refused(rt, refusal.number()),
    }
}

// A refusal, by its number.
fn refused(rt: &impl Print, number: u8) -> io::Result<()> {
    print!(rt; " {number}")
}

// The operations of a call that was not refused.
fn accepted(rt: &impl Print, operations: FrameOps) -> io::Result<()> {
    print!(rt; " 0")?;
    operation(rt, operations.frame, operations.ops.first)?;
    operation(rt, operations.frame, operations.ops.second)
}

// An operation, with its frame and colour.
fn operation(rt: &impl Print, frame: u8, op: Op) -> io::Result<()> {
    match op {
        Op::None => print!(rt; " -"),
        Op::Flush(colour) => print!(rt; " F{frame}.{colour}"),
        Op::Purge(colour) => print!(rt; " P{frame}.{colour}"),
        Op::PurgeInstructions(colour) => print!(rt; " I{frame}.{colour}"),
    }
}

// ---- changes of the list: n, its count, and l, its places with space, page, frame and rights

// The count and the places that are others than before.
pub fn list_changes(rt: &impl Print, before: &MappingList, after: &MappingList) -> io::Result<()> {
    if before.count != after.count {
        let count = after.count;
        print!(rt; " n={count}")?;
    }
    for (place, (old, new)) in before.items.iter().zip(&after.items).enumerate() {
        if *old != *new {
            print!(rt;
                " l{place}={}.{}.{}.{}",
                new.space, new.page, new.frame, new.rights
            )?;
        }
    }
    Ok(())
}

// ---- changes of what is lent: the letter, the place or the first and the last of a run of places, and their new value

// The changes of all buffers.
pub fn changes(rt: &impl Print, before: &Lent, after: &Lent) -> io::Result<()> {
    changed(rt, 'r', &before.records, &after.records)?;
    changed(rt, 'p', &before.protections, &after.protections)?;
    changed(rt, 'm', &before.memory, &after.memory)?;
    changed(rt, 'w', &before.words, &after.words)?;
    changed(rt, 't', &before.tags, &after.tags)?;
    changed(rt, 'b', &before.buffer, &after.buffer)?;
    changed(rt, 'a', &before.answers, &after.answers)
}

// Places one behind the other that have changed to one value.
#[derive(Clone, Copy)]
struct Run<T> {
    first: usize,
    last: usize,
    value: T,
}

// The runs of a buffer.
fn changed<T: Copy + PartialEq + Display>(
    rt: &impl Print,
    letter: char,
    before: &[T],
    after: &[T],
) -> io::Result<()> {
    let mut run: Option<Run<T>> = None;
    for (place, (old, new)) in before.iter().zip(after).enumerate() {
        let is_changed = *old != *new;
        if let Some(r) = &mut run
            && is_changed
            && r.value == *new
        {
            r.last = place;
            continue;
        }
        if let Some(over) = run {
            ended(rt, letter, over)?;
            run = None;
        }
        if is_changed {
            run = Some(Run {
                first: place,
                last: place,
                value: *new,
            });
        }
    }
    match run {
        Some(last) => ended(rt, letter, last),
        None => Ok(()),
    }
}

// A run that is over.
fn ended<T: Copy + Display>(rt: &impl Print, letter: char, run: Run<T>) -> io::Result<()> {
    let Run { first, last, value } = run;
    if first < last {
        print!(rt; " {letter}{first}-{last}={value}")
    } else {
        print!(rt; " {letter}{first}={value}")
    }
}
