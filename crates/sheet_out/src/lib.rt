// The sheet of a file, written to a writer.

#![tactic(auto)]

use std::io;
use std::io::Write;

// 4,096 lines a part, as many as are asked in one run: a sheet has 65,537 lines at most, so that there are no more than 18 parts, the last
// of them empty.
pub const PARTS: u32 = 18;

// Part k in the places lent; no byte after the last part.
pub fn part<'a>(file: &[u8], k: u32, out: &'a mut [u8; 1048576]) -> &'a [u8] {
    let n = sheets::part(file, k, out).unwrap_or(0);
    &out[..n.min(out.len())]
}

// Prints the sheet of a file, a part at a write. An error where nobody takes a part, and no more is printed then.
pub fn print(to: &mut impl Write, file: &[u8]) -> io::Result<()> {
    let mut space = [0; 1048576];
    for k in 0..PARTS {
        let text = part(file, k, &mut space);
        if text.is_empty() {
            break;
        }
        to.write_all(text)?;
    }
    Ok(())
}
