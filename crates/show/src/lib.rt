// How the runs write their lines: a call's name, its answer, and after ` | ` the numbers of each list lent for
// results.

#![tactic(auto)]

use itoa::{Buffer, Integer};
use scheme::Refusal;
use std::fmt::Display;
use std::io;
use std::io::Write;

// What each place of a result list holds before a call, so that a line shows which places the call left as they were.
pub const MARK: u32 = 61681;

// The same for a list of bytes, which cannot hold that number: its last byte.
pub const BYTE_MARK: u8 = 241;

pub fn text(to: &mut impl Write, bytes: &[u8]) -> io::Result<()> {
    to.write_all(bytes)
}

pub fn number(to: &mut impl Write, x: impl Display + Drop) -> io::Result<()> {
    write!(to, " {x}")
}

// Places for the text of so many numbers of a list: each has a blank and at most 40 digits.
const TEXT: usize = 4096;

const NUMBERS: usize = 99;

// A blank and a number's digits put at a place of a text; the place after them. A text that is full stays as it is.
fn put(text: &mut [u8; TEXT], at: usize, digits: &[u8]) -> usize {
    if TEXT - digits.len().min(TEXT) <= at {
        return at;
    }
    let end = at + 1 + digits.len();
    text[at] = b' ';
    text[at + 1..end].copy_from_slice(digits);
    end
}

// So many numbers of a list, in one write. Lists are long, and `itoa` makes digits in less time than `write!`.
fn numbers<T: Integer>(to: &mut impl Write, part: &[T]) -> io::Result<()> {
    let mut text = [0; TEXT];
    let mut digits = Buffer::new();
    let mut at = 0;
    for x in part {
        at = put(&mut text, at, digits.format(*x).as_bytes());
    }
    to.write_all(&text[..at.min(TEXT)])
}

// A list that was lent, after the call: of anything that can be written. `integers` writes the same of whole numbers, in less time.
pub fn list<T: Display>(to: &mut impl Write, xs: &[T]) -> io::Result<()> {
    start(to, xs.is_empty())?;
    for x in xs {
        write!(to, " {x}")?;
    }
    Ok(())
}

// A list of whole numbers that was lent, after the call.
pub fn integers<T: Integer>(to: &mut impl Write, xs: &[T]) -> io::Result<()> {
    start(to, xs.is_empty())?;
    for part in xs.chunks(NUMBERS) {
        numbers(to, part)?;
    }
    Ok(())
}

// The number that stands for a byte that a call had to leave as it was: the mark of the other lists for one that is still the mark.
fn left(x: u8) -> u32 {
    if x == BYTE_MARK {
        return MARK;
    }
    u32::from(x)
}

// A list of bytes that a call had to leave as it was.
pub fn left_bytes(to: &mut impl Write, xs: &[u8]) -> io::Result<()> {
    start(to, xs.is_empty())?;
    for part in xs.chunks(NUMBERS) {
        let mut places = [0; NUMBERS];
        for (place, x) in places.iter_mut().zip(part) {
            *place = left(*x);
        }
        numbers(to, &places[..part.len().min(NUMBERS)])?;
    }
    Ok(())
}

fn start(to: &mut impl Write, none: bool) -> io::Result<()> {
    to.write_all(if none { b" | " } else { b" |" })
}

pub fn refused(to: &mut impl Write, why: impl Display + Drop) -> io::Result<()> {
    text(to, b" REFUSED")?;
    number(to, why)
}

// The answer of a call that does or refuses.
pub fn outcome(to: &mut impl Write, a: Result<(), Refusal>) -> io::Result<()> {
    match a {
        Ok(()) => text(to, b" OK"),
        Err(why) => refused(to, why),
    }
}

// The code that a call answers, or why there is none.
pub fn code(to: &mut impl Write, a: Result<u32, Refusal>) -> io::Result<()> {
    match a {
        Ok(x) => {
            text(to, b" OK")?;
            number(to, x)
        }
        Err(why) => refused(to, why),
    }
}

#[cfg(test)]
mod tests {
    use super::*;
    use std::test::Fail;

    // Lists of what `integers` does not take, and one with nothing in it: document 01's numbers of two refusals, and texts.
    #[test]
    fn lists_what_is_no_number(rt: HostRuntime) -> Result<(), Fail> {
        let mut to = Vec::new(rt.alloc());
        list(&mut to, &[Refusal::NotBelowP, Refusal::CardNotIn])?;
        list(&mut to, &["driver", "crew"])?;
        list::<char>(&mut to, &[])?;
        assert_eq!(rt; to.as_slice(), b" | 9 22 | driver crew | ".as_slice());
        Ok(())
    }
}
