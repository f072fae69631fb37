// The text that the test programs read and write: lines of decimal numbers.
#![tactic(auto)]

ghost use Rattle.std.specs.Prelude.{◌≡◌, ◌+◌, ◌*◌, ◌-◌, ◌<◌, ◌≤◌, ◌^◌, ℕ, length, vec_len, slice_index, slice_get, get_or, false, true, Some, Ok, IsNone, IfSome, IfOk, OnOk, ◌++◌, codes, flat_map};
ghost use Rattle.std.specs.Char.{is_ascii_digit};
ghost use Rattle.std.specs.Fmt.{decimal};
ghost use Rattle.std.specs.Io.KnownBytes.{Appends};
ghost use Rattle.std.specs.Io.{StartsWith};
ghost use Rattle.std.specs.Iterator.{at_most};

use std::alloc::{AllocError, Global};
use std::io;
use std::io::Write;

pub fn say<W: Write>(out: &mut W, text: &[u8]) -> io::Result<()>
    ensures { OnOk result (Appends (W.contents out.old) (W.contents out.new) text.now) }
{
    out.write_all(text)
}

pub fn line_ends<W: Write>(out: &mut W) -> io::Result<()>
    ensures { OnOk result (Appends (W.contents out.old) (W.contents out.new) (codes "\n")) }
{
    say(out, b"\n")
}

pub fn number<W: Write>(out: &mut W, n: u64) -> io::Result<()>
    ensures { OnOk result (Appends (W.contents out.old) (W.contents out.new) (codes " " ++ decimal n)) }
{
    write!(out, " {n}")
}

// The rest of a line of numbers.
pub fn write_numbers<W: Write>(out: &mut W, words: &[u64]) -> io::Result<()>
    ensures { OnOk result (Appends (W.contents out.old) (W.contents out.new) (flat_map (λ n. codes " " ++ decimal n) words.now ++ codes "\n")) }
{
    for word in words {
        number(out, *word)?;
    }
    line_ends(out)
}

// The line of a call: its reply and the words of its step table.
pub fn reply_line<W: Write>(out: &mut W, reply: u64, words: &[u64]) -> io::Result<()>
    ensures { OnOk result (Appends (W.contents out.old) (W.contents out.new) (codes "r " ++ decimal reply ++ flat_map (λ n. codes " " ++ decimal n) words.now ++ codes "\n")) }
{
    write!(out, "r {reply}")?;
    write_numbers(out, words)
}

// The first byte of a line that is of no kind.
#[derive(Clone, Copy, Debug, PartialEq, Eq)]
pub struct OtherLine(pub u8);

// The kind of a line, which its first byte says, if it is of one.
pub fn kind_of<K: TryFrom<u8, Error = OtherLine>>(line: &[u8]) -> Option<K>
    ensures first { IfSome result (λ kind. (b : ℕ) × (slice_get line.now 0 ≡ Some b) × K.try_from_gives b (Ok kind)) }
    ensures other { IsNone result → IfSome (slice_get line.now 0) (λ b. (e : OtherLine) × K.try_from_gives b (Err e)) }
{
    let first = line.first()?;
    K::try_from(*first).ok()
}

// A number with one more digit. One that would not fit in a word stays.
fn with_digit(value: u64, digit: u8) -> u64
    ensures fits { value * 10 + (digit - 48) < 2 ^ 64 → result ≡ value * 10 + (digit - 48) }
    ensures stays { 2 ^ 64 ≤ value * 10 + (digit - 48) → result ≡ value }
{
    let digit = u64::from(digit.saturating_sub(b'0'));
    value
        .checked_mul(10)
        .and_then(|tens| tens.checked_add(digit))
        .unwrap_or(value)
}

// How many digits a text begins with. Its first byte is one.
fn digits_at(text: &[u8]) -> usize
    requires { 0 < length text.now }
    ensures { (0 < result) × (result ≤ length text.now) }
{
    text[1..]
        .iter()
        .position(|b| !b.is_ascii_digit())
        .map_or(text.len(), |others| others + 1)
}

// The numbers in what is left of a line, in order: each run of digits is one.
#[derive(Drop)]
pub struct NumbersIn<'a> {
    pub rest: &'a [u8],
}

impl Iterator for NumbersIn<'_> {
    type Item = u64;

    ghost remaining = { λ numbers. at_most (length numbers.rest.now) };

    fn next(&mut self) -> Option<u64> {
        let first = self.rest.iter().position(u8::is_ascii_digit)?;
        let from = &self.rest[first..];
        let (digits, rest) = from.split_at(digits_at(from));
        self.rest = rest;
        Some(
            digits
                .iter()
                .fold(0, |value, digit| with_digit(value, *digit)),
        )
    }
}

// A line without the number that its end cuts off, which it has where no newline ends it.
pub fn without_cut(line: &[u8]) -> &[u8]
    ensures starts { StartsWith line.now result.now }
    ensures ends { (i : ℕ) → i + 1 ≡ length result.now → is_ascii_digit (slice_index line.now i) ≡ false }
    ensures cut { (i : ℕ) → length result.now ≤ i → i < length line.now → is_ascii_digit (slice_index line.now i) ≡ true }
{
    match line.iter().rposition(|b| !b.is_ascii_digit()) {
        Some(last) => &line[..last + 1],
        None => &[],
    }
}

pub fn numbers_in(line: &[u8]) -> NumbersIn<'_>
    ensures { result.rest.now ≡ line.now }
{
    NumbersIn { rest: line }
}

// Fills the words with the numbers of a line, as many as they hold, and answers how many of them ended before the line did: one that its end
// cuts off is among the words, but not in the count.
pub fn numbers(line: &[u8], words: &mut [u64]) -> usize
    ensures most { result ≤ length words.old }
    ensures length { length words.new ≡ length words.old }
{
    let mut numbers = numbers_in(line);
    for (ended, word) in words.iter_mut().enumerate() {
        let Some(number) = numbers.next() else {
            return ended;
        };
        *word = number;
        if numbers.rest.is_empty() {
            return ended;
        }
    }
    words.len()
}

// The numbers of a line, at most so many.
pub fn read_numbers(alloc: Global, line: &[u8], most: usize) -> Result<Vec<u64>, AllocError>
    ensures { IfOk result (λ ns. vec_len ns ≤ most) }
{
    numbers_in(line).take(most).collect(alloc)
}

// The kind of a line, if it is of one, and its numbers, at most so many. Only a line of kind `uncut` keeps a number that its end cuts off.
pub fn kind_and_numbers<K: TryFrom<u8, Error = OtherLine> + PartialEq + Copy>(
    alloc: Global,
    line: &[u8],
    uncut: K,
    most: usize,
) -> Result<Option<(K, Vec<u64>)>, AllocError>
    ensures first { IfOk result (λ told. IfSome told (λ t. (b : ℕ) × (slice_get line.now 0 ≡ Some b) × K.try_from_gives b (Ok t.0))) }
    ensures other { IfOk result (λ told. IsNone told → IfSome (slice_get line.now 0) (λ b. (e : OtherLine) × K.try_from_gives b (Err e))) }
    ensures most { IfOk result (λ told. IfSome told (λ t. vec_len t.1 ≤ most)) }
{
    let Some(kind) = kind_of::<K>(line) else {
        return Ok(None);
    };
    let whole = if kind == uncut {
        line
    } else {
        without_cut(line)
    };
    Ok(Some((kind, read_numbers(alloc, whole, most)?)))
}

// The first of some numbers; those that are missing are 0.
pub fn first_of<const N: usize>(numbers: &[u64]) -> [u64; N]
    ensures { (i : ℕ) → i < N → slice_index result i ≡ get_or numbers.now i 0 }
{
    let mut first = [0; N];
    let n = numbers.len().min(N);
    first[..n].copy_from_slice(&numbers[..n]);
    first
}

#[cfg(test)]
mod tests {
    use super::*;
    use std::test::Fail;

    #[test]
    fn reads_numbers(rt: HostRuntime) -> Result<(), Fail> {
        // The third is one more than fits, and loses its last digit.
        let line = b"m 12 0 18446744073709551616x7";
        let read = read_numbers(rt.alloc(), line, 256)?;
        assert_eq!(rt;
            read.as_slice(),
            [12, 0, 1_844_674_407_370_955_161, 7].as_slice()
        );
        let two = read_numbers(rt.alloc(), line, 2)?;
        assert_eq!(rt; two.as_slice(), [12, 0].as_slice());
        let whole = read_numbers(rt.alloc(), without_cut(line), 256)?;
        assert_eq!(rt;
            whole.as_slice(),
            [12, 0, 1_844_674_407_370_955_161].as_slice()
        );
        assert_eq!(rt; first_of::<3>(&two).as_slice(), [12, 0, 0].as_slice());
        Ok(())
    }

    #[test]
    fn fills_words(rt: HostRuntime) -> Result<(), Fail> {
        // The words and the count that the five 0s become.
        let filled = |line: &[u8]| {
            let mut words = [0; 5];
            let ended = numbers(line, &mut words[1..4]);
            (words, ended)
        };
        assert_eq!(rt; filled(b"m 12 0\n"), ([0, 12, 0, 0, 0], 2));
        assert_eq!(rt; filled(b"m 12 0 x7"), ([0, 12, 0, 7, 0], 2));
        assert_eq!(rt; filled(b"m 12 7"), ([0, 12, 7, 0, 0], 1));
        assert_eq!(rt; filled(b"1 2 3 4 5\n"), ([0, 1, 2, 3, 0], 3));
        assert_eq!(rt; filled(b"1 2 3 4"), ([0, 1, 2, 3, 0], 3));
        assert_eq!(rt; filled(b""), ([0; 5], 0));
        assert_eq!(rt; numbers(b"1 2\n", &mut []), 0);
        Ok(())
    }

    #[derive(Clone, Copy, Debug, PartialEq, Eq)]
    enum Kind {
        Cut,
        Uncut,
    }

    impl TryFrom<u8> for Kind {
        type Error = OtherLine;

        fn try_from(first: u8) -> Result<Self, OtherLine> {
            match first {
                b'm' => Ok(Kind::Cut),
                b'n' => Ok(Kind::Uncut),
                _ => Err(OtherLine(first)),
            }
        }
    }

    #[test]
    fn reads_kinds(rt: HostRuntime) -> Result<(), Fail> {
        let cut = kind_and_numbers(rt.alloc(), b"m 1 23", Kind::Uncut, 256)?;
        assert!(rt;
            cut.is_some_and(|(kind, n)| kind == Kind::Cut && n.as_slice() == [1].as_slice())
        );
        let uncut = kind_and_numbers(rt.alloc(), b"n 1 23", Kind::Uncut, 256)?;
        assert!(rt;
            uncut.is_some_and(|(kind, n)| kind == Kind::Uncut && n.as_slice() == [1, 23].as_slice())
        );
        let other = kind_and_numbers(rt.alloc(), b"x 1\n", Kind::Uncut, 256)?;
        assert!(rt; other.is_none());
        Ok(())
    }

    #[test]
    fn writes_lines(rt: HostRuntime) -> Result<(), Fail> {
        let mut out = Vec::new(rt.alloc());
        say(&mut out, b"r")?;
        number(&mut out, 0)?;
        number(&mut out, u64::MAX)?;
        line_ends(&mut out)?;
        assert_eq!(rt; out.as_slice(), b"r 0 18446744073709551615\n".as_slice());
        out.clear();
        write_numbers(&mut out, &[7, 0])?;
        reply_line(&mut out, 3, &[10])?;
        assert_eq!(rt; out.as_slice(), b" 7 0\nr 3 10\n".as_slice());
        Ok(())
    }
}
