// A run over source document 002's Example 4.2.9: of all matrices of 3 rows and 2 columns modulo 5, one row a participant, how many have
// the product verdict yes, and how many of these are also "any two of three" by the threshold verdict for t = 1. The file stdout is what
// tools/expect_count.py counts with a second program.

#![tactic(auto)]

use scheme::{Scheme, Shape};
use std::io;
use std::io::{BufWriter, Write};

const LABELS: [u32; 3] = [1, 2, 3];

// 5 to the 6.
const MATRICES: u32 = 15625;

fn scheme(entries: &[u32; 6]) -> Scheme<'_> {
    let shape = Shape {
        p: 5,
        n: 3,
        d: 3,
        e: 2,
    };
    Scheme {
        shape,
        labels: &LABELS,
        entries,
    }
}

// The entries of matrix number m: its six digits to the base 5, the last entry first.
fn matrix(m: u32) -> [u32; 6] {
    [
        m / 3125 % 5,
        m / 625 % 5,
        m / 125 % 5,
        m / 25 % 5,
        m / 5 % 5,
        m % 5,
    ]
}

fn has_product(entries: &[u32; 6]) -> bool {
    let mut r = [0u32; 3];
    let mut w = [0u32; 3];
    product::product(scheme(entries), &mut r, &mut w) == Ok(product::Verdict::Yes)
}

fn any_two_of_three(entries: &[u32; 6]) -> bool {
    threshold::threshold(scheme(entries), 1) == Ok(None)
}

fn print(to: &mut impl Write, products: u32, both: u32) -> io::Result<()> {
    let matrices = MATRICES;
    writeln!(to, "matrices {matrices}")?;
    writeln!(to, "product yes {products}")?;
    writeln!(to, "also threshold 1 yes {both}")?;
    to.flush()
}

fn main(rt: HostRuntime) -> io::Result<()> {
    let mut products = 0u32;
    let mut both = 0u32;
    for m in 0..MATRICES {
        let entries = matrix(m);
        if has_product(&entries) {
            products += 1;
            if any_two_of_three(&entries) {
                both += 1;
            }
        }
    }
    let mut to = BufWriter::new(rt.alloc(), io::writer(&rt))?;
    print(&mut to, products, both)
}
