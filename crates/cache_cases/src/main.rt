// Runs the cache on cases worked out by hand, and writes what each leaves: a word, a line's tag, a word of memory.
// Memory starts as 64 f + o at offset o of frame f, and the cache as empty lines of zeros.
#![tactic(auto)]

mod store;

use printing::BestEffort;
use std::array;
use std::io::Result;
use store::Store;

// Runs the cases, all of them also where text cannot be written; the status is 0.
fn main(rt: HostRuntime) {
    let _ = cases(&mut Store::start(&BestEffort(&rt)));
}

// The cases, one after the other on one store.
fn cases(s: &mut Store<impl Print>) -> Result<()> {
    aliases(s)?;
    purges(s)?;
    flushes(s)?;
    losses(s)?;
    evictions(s)?;
    fetches(s)?;
    transfers(s)?;
    words_moved(s)?;
    rules(s)
}

// One frame through two colours: the second finds memory's word until the first line is written back.
fn aliases(s: &mut Store<impl Print>) -> Result<()> {
    println!(s.rt; "aliases")?;
    s.read(3, 1, 10)?;
    s.write(3, 1, 11, 5000)?;
    s.read(3, 1, 11)?;
    s.read(3, 2, 11)?;
    s.read(5, 1, 8)?;
    s.memory_word(3, 11)?;
    s.read(3, 2, 11)
}

// A purge empties a clean line, whose words stay; the next access finds memory's.
fn purges(s: &mut Store<impl Print>) -> Result<()> {
    println!(s.rt; "purges")?;
    s.purge(3, 2)?;
    s.line(17, 3)?;
    s.read(3, 2, 11)
}

// A flush writes the dirty line and leaves both in, clean; another frame's line in the colour stays, and stays dirty. A word that a device brings then is
// not found by a read, which hits the line, and is not written over when the line, now clean, is flushed once more or evicted.
fn flushes(s: &mut Store<impl Print>) -> Result<()> {
    println!(s.rt; "flushes")?;
    s.write(3, 2, 63, 6000)?;
    s.flush(3, 2)?;
    s.memory_word(3, 63)?;
    s.line(17, 3)?;
    s.line(23, 7)?;
    s.write(5, 1, 8, 7000)?;
    s.flush(3, 1)?;
    s.line(9, 0)?;
    s.memory_word(5, 8)?;
    s.bring_word(3, 63, 6500)?;
    s.read(3, 2, 63)?;
    s.flush(3, 2)?;
    s.memory_word(3, 63)?;
    s.evict(23)?;
    s.memory_word(3, 63)
}

// A purge of a dirty line writes nothing.
fn losses(s: &mut Store<impl Print>) -> Result<()> {
    println!(s.rt; "losses")?;
    s.write(63, 7, 63, 77)?;
    s.purge(63, 7)?;
    s.line(63, 7)?;
    s.memory_word(63, 63)
}

// Evicting a dirty line writes it; an empty line stays empty.
fn evictions(s: &mut Store<impl Print>) -> Result<()> {
    println!(s.rt; "evictions")?;
    s.write(0, 0, 0, 9)?;
    s.evict(0)?;
    s.line(0, 0)?;
    s.memory_word(0, 0)?;
    s.evict(1)?;
    s.line(1, 0)?;
    s.memory_word(0, 8)
}

// Through the instruction page of colour 1, which is page 9: the line is number 73, a word written in the data cache is not found until it is flushed and
// the line purged, and its eviction writes nothing.
fn fetches(s: &mut Store<impl Print>) -> Result<()> {
    println!(s.rt; "fetches")?;
    s.read(3, 9, 11)?;
    s.line(73, 3)?;
    s.write(3, 1, 11, 8000)?;
    s.read(3, 9, 11)?;
    s.flush(3, 1)?;
    s.read(3, 9, 11)?;
    s.purge(3, 9)?;
    s.read(3, 9, 11)?;
    s.evict(73)?;
    s.line(73, 3)?;
    s.memory_word(3, 11)
}

// A transfer moves the 64 words of its frame, or its last twelve, and touches no neighbour.
fn transfers(s: &mut Store<impl Print>) -> Result<()> {
    println!(s.rt; "transfers")?;
    let mut buffer = array::from_fn(|i| 100 + i as u32);
    s.device_write(&buffer, 62, 0)?;
    s.memory_word(61, 63)?;
    s.memory_word(62, 0)?;
    s.memory_word(62, 63)?;
    s.memory_word(63, 0)?;
    buffer = array::from_fn(|i| 7000 + i as u32);
    s.device_write(&buffer[0..12], 62, 52)?;
    s.memory_word(62, 51)?;
    s.memory_word(62, 52)?;
    s.memory_word(62, 63)?;
    s.memory_word(63, 0)?;
    s.device_read(&mut buffer, 3)?;
    println!(s.rt; "buffer {}", buffer[0])?;
    println!(s.rt; "buffer {}", buffer[11])?;
    println!(s.rt; "buffer {}", buffer[63])
}

// A word that a device brings, to the last offset and to the first, touches no neighbour; one that it takes is memory's.
fn words_moved(s: &mut Store<impl Print>) -> Result<()> {
    println!(s.rt; "words")?;
    s.bring_word(62, 63, 500)?;
    s.memory_word(62, 62)?;
    s.memory_word(62, 63)?;
    s.memory_word(63, 0)?;
    s.bring_word(62, 0, 600)?;
    s.memory_word(61, 63)?;
    s.memory_word(62, 0)?;
    s.memory_word(62, 1)?;
    s.take_word(62, 63)?;
    s.take_word(3, 11)
}

// Which tag bytes keep the rules.
fn rules(s: &mut Store<impl Print>) -> Result<()> {
    println!(s.rt; "rules")?;
    for tag in [0, 1, 64, 65, 128, 129, 192, 193, 0] {
        s.rule(0, tag)?;
    }
    for tag in [64, 65, 129] {
        s.rule(64, tag)?;
    }
    s.rule(63, 129)?;
    s.rule(64, 0)
}
