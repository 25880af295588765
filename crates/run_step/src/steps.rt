// One step of a sheet, made on the machine.
ghost use Rattle.std.specs.Prelude.{◌≡◌, ◌^◌, ◌≤◌, [], ◌∷◌, length, replicate};
ghost use Rattle.board.specs.Board.{board01};
ghost use Rattle.manager.specs.Answers.{outcome};
ghost use Rattle.manager.specs.Tables.{tabulate};
ghost use Rattle.machine.specs.State as call;
ghost use Rattle.machine.specs.State.{machine_of};
ghost use Rattle.run_step.specs.Did.{Did};
ghost use Rattle.sheet_codec.specs.Format.{sent_word, call_of};
ghost use Rattle.sheet_codec.specs.Text.{first_word};

use crate::Told;
use board::BOARD01;
use manager::{FrameOps, Refusal};
use mapping::MappingList;
use sheet_codec::{Fields, Kind, answers};

// The most words that a step's field o counts.
const MOST_SENT: usize = 255;

// A step of a kind; an unmap alone changes the list.
pub fn step(
    list: &mut MappingList,
    records: &mut [u32],
    protections: &mut [u8],
    memory: &mut [u32],
    words: &mut [u32],
    tags: &mut [u8],
    kind: Kind,
    f: Fields,
) -> Told
    ensures { Did
        (machine_of list.old records.old protections.old memory.old words.old tags.old)
        (call_of board01 kind f)
        (machine_of list.new records.new protections.new memory.new words.new tags.new)
        (outcome result.answer) result.shown }
{
    let offset = usize::from(f.o);
    match kind {
        Kind::Read => Told::from(machine::read(
            *list,
            records,
            protections,
            memory,
            words,
            tags,
            f.s,
            f.p,
            offset,
        )),
        Kind::Write => Told::from(machine::write(
            *list,
            records,
            protections,
            memory,
            words,
            tags,
            f.s,
            f.p,
            offset,
            f.w,
        )),
        Kind::Fetch => Told::from(machine::fetch(
            *list,
            records,
            protections,
            memory,
            words,
            tags,
            f.s,
            f.p,
            offset,
        )),
        Kind::DeviceRead => device_read(*list, records, protections, memory, words, tags, f),
        Kind::DeviceWrite => device_write(*list, records, protections, memory, words, tags, f),
        Kind::DeviceWritePart => {
            device_write_part(*list, records, protections, memory, words, tags, f)
        }
        Kind::BeginRead => Told::from(machine::begin_read(
            *list,
            records,
            protections,
            memory,
            words,
            tags,
            f.s,
        )),
        Kind::BeginWrite => Told::from(machine::begin_write(
            *list,
            records,
            protections,
            memory,
            words,
            tags,
            f.s,
        )),
        Kind::BringWord => Told::from(machine::bring_word(
            *list,
            records,
            protections,
            memory,
            words,
            tags,
            f.s,
            offset,
            f.w,
        )),
        Kind::TakeWord => Told::from(machine::take_word(
            *list,
            records,
            protections,
            memory,
            words,
            tags,
            f.s,
            offset,
        )),
        Kind::EndTransfer => Told::from(machine::end_transfer(
            *list,
            records,
            protections,
            memory,
            words,
            tags,
            f.s,
        )),
        Kind::Evict => Told::from(machine::evict(
            *list,
            records,
            protections,
            memory,
            words,
            tags,
            usize::from(f.s),
        )),
        Kind::Unmap => {
            let got = machine::unmap(*list, records, protections, memory, words, tags, f.s, f.p);
            *list = answers::list_after(*list, got);
            Told::from(answers::listed(got))
        }
    }
}

// A device reads a frame, into a buffer of zeros; its first word is shown.
fn device_read(
    list: MappingList,
    records: &mut [u32],
    protections: &mut [u8],
    memory: &mut [u32],
    words: &[u32],
    tags: &mut [u8],
    f: Fields,
) -> Told
    ensures { Did
        (machine_of list records.old protections.old memory.old words.now tags.old)
        (call.device_read f.s (replicate board01.page 0))
        (machine_of list records.new protections.new memory.new words.now tags.new)
        (outcome result.answer) result.shown }
{
    let mut buffer = [0u32; BOARD01.page];
    let answer = machine::device_read(
        list,
        records,
        protections,
        memory,
        words,
        tags,
        &mut buffer,
        f.s,
    );
    let shown = first_word(answer, buffer[0]);
    Told { answer, shown }
}

// A device writes a frame: w, w + 1 and so on.
fn device_write(
    list: MappingList,
    records: &mut [u32],
    protections: &mut [u8],
    memory: &mut [u32],
    words: &[u32],
    tags: &mut [u8],
    f: Fields,
) -> Told
    ensures { Did
        (machine_of list records.old protections.old memory.old words.now tags.old)
        (call.device_write f.s (tabulate board01.page (sent_word f.w)))
        (machine_of list records.new protections.new memory.new words.now tags.new)
        (outcome result.answer) result.shown }
{
    let mut buffer = [0u32; BOARD01.page];
    count_up(&mut buffer, f.w);
    Told::from(machine::device_write(
        list,
        records,
        protections,
        memory,
        words,
        tags,
        &buffer,
        f.s,
    ))
}

// A device writes o words of a frame, from offset p on: w, w + 1 and so on.
fn device_write_part(
    list: MappingList,
    records: &mut [u32],
    protections: &mut [u8],
    memory: &mut [u32],
    words: &[u32],
    tags: &mut [u8],
    f: Fields,
) -> Told
    ensures { Did
        (machine_of list records.old protections.old memory.old words.now tags.old)
        (call.device_write_part f.s f.p f.o (tabulate f.o (sent_word f.w)))
        (machine_of list records.new protections.new memory.new words.now tags.new)
        (outcome result.answer) result.shown }
{
    let mut buffer = [0u32; MOST_SENT];
    let number = usize::from(f.o);
    let part = &mut buffer[..number];
    count_up(part, f.w);
    Told::from(machine::device_write_part(
        list,
        records,
        protections,
        memory,
        words,
        tags,
        part,
        f.s,
        usize::from(f.p),
        number,
    ))
}

// The word of an accepted device read.
fn first_word(answer: Result<FrameOps, Refusal>, word: u32) -> Option<u32>
    ensures { result ≡ first_word (outcome answer) (word ∷ []) }
{
    answer.is_ok().then_some(word)
}

// The words w, w + 1 and so on, modulo 2^32.
fn count_up(buffer: &mut [u32], w: u32)
    requires { length buffer.old ≤ 2 ^ 32 }
    ensures { buffer.new ≡ tabulate (length buffer.old) (sent_word w) }
{
    for (i, word) in buffer.iter_mut().enumerate() {
        *word = w.wrapping_add(i as u32);
    }
}
