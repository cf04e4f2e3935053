// Sheets of many inputs against a second program. Standard input is one input after another, each with five bytes before it: 0 to print the
// sheet in full, 1 to print only two checks of its bytes; and the input's length in four bytes, the lowest first.
//
// The file stdin is made by tools/sheet_inputs.py, and the file stdout by tools/expect_sheets.py, which asks the second program.

#![tactic(auto)]

use residue::Modulus;
use std::io;
use std::io::Write;

const MODULUS: u32 = 65521;

// A check of bytes: each in turn is added to `by` times what was before.
fn check_of(before: u32, by: u32, text: &[u8]) -> u32 {
    let m = Modulus::new(MODULUS);
    text.iter()
        .fold(before, |check, byte| m.mul_add(*byte as u32, check, by))
}

// Prints the checks of a file's sheet, once its first empty part was seen.
fn print_checks(to: &mut impl Write, file: &[u8]) -> io::Result<()> {
    let mut space = [0; 1048576];
    let mut first = 0;
    let mut second = 0;
    for k in 0..sheet_out::PARTS {
        let text = sheet_out::part(file, k, &mut space);
        if text.is_empty() {
            writeln!(to, "{first}")?;
            return writeln!(to, "{second}");
        }
        first = check_of(first, 31, text);
        second = check_of(second, 257, text);
    }
    Ok(())
}

// Answers each input; one that is not all there ends them. No `for`: how far the rest of the input moves on is read from the input.
fn answer_all(to: &mut impl Write, all: &[u8]) -> io::Result<()> {
    let mut rest = all;
    while let [checks, a, b, c, d, tail @ ..] = rest {
        let size = u32::from_le_bytes([*a, *b, *c, *d]) as usize;
        let Some((file, next)) = tail.split_at_checked(size) else {
            break;
        };
        if *checks == 0 {
            sheet_out::print(to, file)?;
        } else {
            print_checks(to, file)?;
        }
        rest = next;
    }
    Ok(())
}

// A part of a sheet is one write, and a check two: they need no buffer.
fn main(rt: HostRuntime) -> io::Result<()> {
    let mut space = [0u8; 262144];
    let n = input::read_full(&mut rt.reader(), &mut space)?;
    answer_all(&mut io::writer(&rt), &space[..n])
}
