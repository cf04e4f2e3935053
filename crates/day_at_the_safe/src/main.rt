// A day at the safe of document 01's scheme S: cards in and out, a wrong card, too few, the same card twice, a card that is not in; a full
// crew opens. A call is a line: its name, its answer, and after ` | ` the stored shares. The file stdout is what tools/expect_day.py prints
// for the same calls with a second program.

#![tactic(auto)]

use panel::{Panel, Told};
use scheme::{Scheme, Shape};
use std::io;
use std::io::{BufWriter, Write};

// Document 01's S; the shares that are put in are those of example A, of the secret 13.
const LABELS: [u32; 5] = [1, 2, 3, 4, 5];

const ENTRIES: [u32; 15] = [1, 1, 1, 1, 2, 4, 1, 3, 9, 1, 4, 16, 1, 5, 8];

// The cards that are in, as a set, and all 32 places for shares, of which S uses five.
fn state(to: &mut impl Write, a: Panel) -> io::Result<Panel> {
    show::number(to, a.cards)?;
    show::integers(to, &a.stored)?;
    show::text(to, b"\n")?;
    Ok(a)
}

fn told(to: &mut impl Write, t: Told) -> io::Result<Panel> {
    show::outcome(to, t.said)?;
    state(to, t.panel)
}

fn put(to: &mut impl Write, a: Panel, who: u32, share: u32) -> io::Result<Panel> {
    show::text(to, b"put")?;
    show::number(to, who)?;
    told(to, a.put(who, &[share]))
}

fn take(to: &mut impl Write, a: Panel, who: u32) -> io::Result<Panel> {
    show::text(to, b"take")?;
    show::number(to, who)?;
    told(to, a.take(who))
}

fn code(to: &mut impl Write, a: Panel) -> io::Result<Panel> {
    show::text(to, b"code")?;
    let c = a.code();
    show::code(to, c.said)?;
    show::text(to, b"\n")?;
    Ok(c.panel)
}

fn fresh(to: &mut impl Write) -> io::Result<Panel> {
    let shape = Shape {
        p: 17,
        n: 5,
        d: 5,
        e: 3,
    };
    let scheme = Scheme {
        shape,
        labels: &LABELS,
        entries: &ENTRIES,
    };
    show::text(to, b"fresh")?;
    told(to, panel::fresh(scheme))
}

// Nobody; one card; the same card twice; a card that is not in; a participant outside 1 to 5; a share that is none.
fn morning(to: &mut impl Write, a: Panel) -> io::Result<Panel> {
    let b = code(to, a)?;
    let c = put(to, b, 1, 8)?;
    let d = put(to, c, 1, 9)?;
    let e = take(to, d, 4)?;
    let f = put(to, e, 6, 1)?;
    let g = put(to, f, 2, 17)?;
    code(to, g)
}

// Two cards are too few; a wrong card shows itself when four are in; it goes, and the three open.
fn noon(to: &mut impl Write, a: Panel) -> io::Result<Panel> {
    let b = put(to, a, 3, 10)?;
    let c = code(to, b)?;
    let d = put(to, c, 5, 12)?;
    let e = put(to, d, 2, 7)?;
    let f = code(to, e)?;
    let g = take(to, f, 5)?;
    code(to, g)
}

// The card comes back with its right share, and four open; others leave, and what is left is too little.
fn evening(to: &mut impl Write, a: Panel) -> io::Result<Panel> {
    let b = put(to, a, 5, 11)?;
    let c = code(to, b)?;
    let d = take(to, c, 1)?;
    let e = code(to, d)?;
    let f = take(to, e, 2)?;
    code(to, f)
}

fn main(rt: HostRuntime) -> io::Result<()> {
    let mut to = BufWriter::new(rt.alloc(), io::writer(&rt))?;
    let a = fresh(&mut to)?;
    let b = morning(&mut to, a)?;
    let c = noon(&mut to, b)?;
    evening(&mut to, c)?;
    to.flush()
}
