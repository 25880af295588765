// Memory and the words and tags of both caches, and a method for each step, which writes a line of text on what it left. A step whose tags break the
// rules is left out.
#![tactic(auto, using(crate::proofs::Document01::regular, crate::proofs::Document01::memory_words_is, crate::proofs::Document01::cache_words_is, crate::proofs::Document01::lines_is, crate::proofs::Document01::well_formed))]

ghost use Rattle.std.specs.Prelude.{◌+◌, ◌<◌, ◌≤◌, ◌≡◌, length};
ghost use Rattle.board.specs.Board.{board01, cache_pages};
ghost use Rattle.cache.specs.Tag.{tags_keep_rules};

use board::BOARD01;
use cache::{access, device, line, operation, tag};
use std::array;
use std::io::Result;

#[derive(Drop)]
pub struct Store<'a, P: Print> {
    pub rt: &'a P,
    memory: [u32; 4096],
    words: [u32; 1024],
    tags: [u8; 128],
}

impl<'a, P: Print> Store<'a, P> {
    // What the cases start from.
    pub fn start(rt: &'a P) -> Store<'a, P> {
        Store {
            rt,
            memory: array::from_fn(|i| i as u32),
            words: [0; 1024],
            tags: [0; 128],
        }
    }

    // Reads a word, and writes it and the line's tag.
    pub fn read(&mut self, frame: usize, colour: usize, offset: usize) -> Result<()>
        requires { (frame < board01.frames) × (colour < cache_pages board01) × (offset < board01.page) }
    {
        if !self.tags_keep_rules() {
            return Ok(());
        }
        let (memory, words, tags) = (&mut self.memory, &mut self.words, &mut self.tags);
        let word = access::read_word(BOARD01, memory, words, tags, frame, colour, offset);
        let tag = self.tags[BOARD01.line_of(colour, offset)];
        println!(self.rt; "read {word} {tag}")
    }

    // Writes a word, and writes out the line's tag and the word that memory holds.
    pub fn write(&mut self, frame: usize, colour: usize, offset: usize, word: u32) -> Result<()>
        requires { (frame < board01.frames) × (colour < board01.colours) × (offset < board01.page) }
    {
        if !self.tags_keep_rules() {
            return Ok(());
        }
        let (memory, words, tags) = (&mut self.memory, &mut self.words, &mut self.tags);
        access::write_word(BOARD01, memory, words, tags, frame, colour, offset, word);
        let tag = self.tags[BOARD01.line_of(colour, offset)];
        let home = self.memory[BOARD01.memory_at(frame, offset)];
        println!(self.rt; "write {tag} {home}")
    }

    // Flushes a frame in a colour.
    pub fn flush(&mut self, frame: usize, colour: usize) -> Result<()>
        requires { (frame < board01.frames) × (colour < cache_pages board01) }
    {
        if !self.tags_keep_rules() {
            return Ok(());
        }
        let (memory, tags) = (&mut self.memory, &mut self.tags);
        operation::flush(BOARD01, memory, &self.words, tags, frame, colour);
        println!(self.rt; "flush {frame} {colour}")
    }

    // Purges a frame in a colour.
    pub fn purge(&mut self, frame: usize, colour: usize) -> Result<()>
        requires { (frame < board01.frames) × (colour < cache_pages board01) }
    {
        operation::purge(BOARD01, &mut self.tags, frame, colour);
        println!(self.rt; "purge {frame} {colour}")
    }

    // Evicts a line.
    pub fn evict(&mut self, line: usize) -> Result<()>
        requires { line < 128 }
    {
        if !self.tags_keep_rules() {
            return Ok(());
        }
        line::evict(BOARD01, &mut self.memory, &self.words, &mut self.tags, line);
        println!(self.rt; "evict {line}")
    }

    // Transfers a device's buffer to a frame, from an offset on.
    pub fn device_write(&mut self, buffer: &[u32], frame: usize, first: usize) -> Result<()>
        requires { (frame < board01.frames) × (0 < length buffer.now) × (first + length buffer.now ≤ board01.page) }
    {
        device::device_write(BOARD01, &mut self.memory, buffer, frame, first);
        println!(self.rt; "device write {frame} {first}")
    }

    // Transfers a frame to a device's buffer.
    pub fn device_read(&self, buffer: &mut [u32; 64], frame: usize) -> Result<()>
        requires { frame < board01.frames }
    {
        device::device_read(BOARD01, &self.memory, buffer, frame);
        println!(self.rt; "device read {frame}")
    }

    // Brings a word to an offset of a frame.
    pub fn bring_word(&mut self, frame: usize, offset: usize, word: u32) -> Result<()>
        requires { (frame < board01.frames) × (offset < board01.page) }
    {
        device::bring_word(BOARD01, &mut self.memory, frame, offset, word);
        println!(self.rt; "bring word {frame} {offset}")
    }

    // Takes the word at an offset of a frame.
    pub fn take_word(&self, frame: usize, offset: usize) -> Result<()>
        requires { (frame < board01.frames) × (offset < board01.page) }
    {
        let word = device::take_word(BOARD01, &self.memory, frame, offset);
        println!(self.rt; "take word {word}")
    }

    // Writes a line's tag and one of its words.
    pub fn line(&self, line: usize, place: usize) -> Result<()>
        requires { (line < 128) × (place < board01.line) }
    {
        let tag = self.tags[line];
        let word = self.words[BOARD01.line_at(line) + place];
        println!(self.rt; "line {tag} {word}")
    }

    // Writes memory's word at an offset of a frame.
    pub fn memory_word(&self, frame: usize, offset: usize) -> Result<()>
        requires { (frame < board01.frames) × (offset < board01.page) }
    {
        let word = self.memory[BOARD01.memory_at(frame, offset)];
        println!(self.rt; "memory {word}")
    }

    // Puts a tag in a place, and writes whether all tags keep the rules.
    pub fn rule(&mut self, place: usize, tag: u8) -> Result<()>
        requires { place < 128 }
    {
        self.tags[place] = tag;
        if self.tags_keep_rules() {
            println!(self.rt; "kept")
        } else {
            println!(self.rt; "broken")
        }
    }

    // Whether all tags keep the rules.
    fn tags_keep_rules(&self) -> bool
        ensures { result ≡ tags_keep_rules board01 self.now.tags }
    {
        tag::tags_keep_rules(BOARD01, &self.tags)
    }
}
