// The numbers behind a line's word, each read and held to what it is for.
// A number is decimal; `~` is the largest, `$1` to `$12` are the numbers that the script was called with, and a letter names a buffer.
use crate::lent::Buffer;
use crate::slips::Slip;

// How many numbers a line may have.
const ARGS: usize = 12;

// The largest number that digits stand for: the largest of 64 bits that ends in 9. Those above it are refused, and only `~` stands for a larger one.
const MOST_DECIMAL: u64 = 18446744073709551609;

// Numbers of a line, in their order.
#[derive(Clone, Copy)]
pub struct Numbers {
    args: [u64; ARGS],
    count: usize,
}

impl Numbers {
    // No numbers.
    pub fn none() -> Numbers {
        Numbers {
            args: [0; ARGS],
            count: 0,
        }
    }

    // As many as there are.
    pub fn as_slice(&self) -> &[u64] {
        self.args.get(..self.count).unwrap_or(&self.args)
    }

    // Puts a number behind the others.
    pub fn push(&mut self, n: u64) -> Result<(), Slip> {
        if self.count >= ARGS {
            return Err(Slip::Extra);
        }
        self.args[self.count] = n;
        self.count += 1;
        Ok(())
    }
}

// The numbers of a line: the text of those that are still to be read, or what is wrong with a word of it; what `$` means; and those that were read.
#[derive(Drop)]
pub struct Args<'a> {
    text: Result<&'a [u8], Slip>,
    called: &'a [u64],
    read: Numbers,
}

impl<'a> Args<'a> {
    // The numbers of a text, of which none is read yet. A malformed word is told of before all else, and of several the last.
    pub fn new(text: &'a [u8], called: &'a [u64]) -> Args<'a> {
        let malformed = text
            .split(|b| *b == b' ')
            .filter(|word| !word.is_empty())
            .filter_map(|word| Word::parsed(word).err())
            .last();
        Args {
            text: match malformed {
                Some(slip) => Err(slip),
                None => Ok(text),
            },
            called,
            read: Numbers::none(),
        }
    }

    // The next number, where it fits its type.
    pub fn number<T: TryFrom<u64>>(&mut self) -> Result<T, Slip>
    where
        T::Error: Drop,
    {
        fitted(self.next_number()?.ok_or(Slip::Missing)?)
    }

    // The next number, where it is no larger than `most`.
    pub fn up_to<T: Copy + PartialOrd + TryFrom<u64>>(&mut self, most: T) -> Result<T, Slip>
    where
        T::Error: Drop,
    {
        let n = self.number()?;
        if n > most { Err(Slip::Misfit) } else { Ok(n) }
    }

    // The next number, if there is one.
    pub fn next_number(&mut self) -> Result<Option<u64>, Slip> {
        let Some(word) = self.next_word()? else {
            return Ok(None);
        };
        let n = match word {
            Word::Number(n) => n,
            Word::Called(place) => self.meant(place)?,
            Word::Letter(_) => return Err(Slip::NoNumber),
        };
        self.read.push(n)?;
        Ok(Some(n))
    }

    // The buffer that the next letter names.
    pub fn buffer(&mut self) -> Result<Buffer, Slip> {
        match self.next_word()?.ok_or(Slip::Missing)? {
            Word::Letter(letter) => Buffer::named(letter).ok_or(Slip::Misfit),
            Word::Number(_) | Word::Called(_) => Err(Slip::NoNumber),
        }
    }

    // All numbers of a line that has only numbers.
    pub fn all(mut self) -> Result<Numbers, Slip> {
        for _ in 0..ARGS {
            if self.next_number()?.is_none() {
                break;
            }
        }
        self.end()
    }

    // The numbers that were read, where none is left.
    pub fn end(mut self) -> Result<Numbers, Slip> {
        match self.next_number()? {
            Some(_) => Err(Slip::Extra),
            None => Ok(self.read),
        }
    }

    // The number that the script was called with at a place, which is counted from 1.
    fn meant(&self, place: u64) -> Result<u64, Slip> {
        let place: usize = fitted(place)?;
        let before = place.checked_sub(1).ok_or(Slip::Missing)?;
        self.called.get(before).copied().ok_or(Slip::Missing)
    }

    // The next word, of those that spaces part, if there is one.
    fn next_word(&mut self) -> Result<Option<Word>, Slip> {
        let text = self.text?;
        let Some(start) = text.iter().position(|b| *b != b' ') else {
            return Ok(None);
        };
        let (word, others) = first_word(&text[start..]);
        self.text = Ok(others);
        Ok(Some(Word::parsed(word)?))
    }
}

// What a word is: a number, the place of one that the script was called with, or a letter.
#[derive(Clone, Copy, Debug, PartialEq, Eq)]
enum Word {
    Number(u64),
    Called(u64),
    Letter(u8),
}

impl Word {
    // What bytes without a space are, where they are well formed.
    fn parsed(word: &[u8]) -> Result<Word, Slip> {
        match word {
            [b'0'..=b'9', ..] => Ok(Word::Number(decimal(word)?)),
            [b'$', place @ ..] => Ok(Word::Called(decimal(place)?)),
            [b'~'] => Ok(Word::Number(u64::MAX)),
            [letter] => Ok(Word::Letter(*letter)),
            _ => Err(Slip::NoNumber),
        }
    }
}

// The text before the first space, and that behind it.
pub fn first_word(text: &[u8]) -> (&[u8], &[u8]) {
    match text.iter().position(|b| *b == b' ') {
        Some(end) => (&text[..end], &text[end + 1..]),
        None => (text, &[]),
    }
}

// The number as a type in which it fits.
pub fn fitted<T: TryFrom<u64>>(n: u64) -> Result<T, Slip>
where
    T::Error: Drop,
{
    T::try_from(n).map_err(|_| Slip::Misfit)
}

// The number that digits stand for, 0 where there are none. Of several bytes that are wrong, the last is told of.
fn decimal(digits: &[u8]) -> Result<u64, Slip> {
    let mut value = 0;
    let mut read = Ok(());
    for digit in digits {
        match with_digit(value, *digit) {
            Ok(more) => value = more,
            Err(slip) => read = Err(slip),
        }
    }
    read.map(|_| value)
}

// A value with a digit more.
fn with_digit(value: u64, digit: u8) -> Result<u64, Slip> {
    if !digit.is_ascii_digit() {
        return Err(Slip::NoNumber);
    }
    if value > MOST_DECIMAL / 10 {
        return Err(Slip::Misfit);
    }
    Ok(value * 10 + u64::from(digit - b'0'))
}
