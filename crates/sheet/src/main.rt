// The sheet of a scheme file. Standard input is the file, of any length; standard output is its sheet, or the line REFUSED with the number.
//
// The file stdin is that of document 01's scheme S; the file stdout is what the second program answers:
//   python3 tools/expect_sheets.py FOLDER < crates/sheet/stdin
// where FOLDER has the second program.

#![tactic(auto)]

use std::io;

// A part of the sheet is one write, so that it needs no buffer.
fn main(rt: HostRuntime) -> io::Result<()> {
    // One byte more than the longest file has: a longer input is of wrong length whatever follows.
    let mut space = [0; 1537];
    let n = input::read_full(&mut rt.reader(), &mut space)?;
    sheet_out::print(&mut io::writer(&rt), &space[..n])
}
