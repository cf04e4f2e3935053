// Answers to the request lines of the calls on a card panel: panel_new, panel_put, panel_take and panel_code. A line's function takes the
// numbers after the call's name and answers whether they are those of a request; it has then written the answer. A panel's lists are
// places of its own: a list that is longer than its places is no request.

#![tactic(auto)]

use panel::{Panel, Told};
use std::io;
use std::io::Write;

// The places of a panel.
const LABELS: usize = 32;

const ENTRIES: usize = 384;

const STORED: usize = 32;

// A list in a panel's places, as far as there are places, and the mark in every other place: a place that is read and must not be shows
// itself.
fn laid<const N: usize>(from: &[u32]) -> [u32; N] {
    let mut own = [show::MARK; N];
    let size = from.len().min(N);
    own[..size].copy_from_slice(&from[..size]);
    own
}

// The stored shares of a request: after the cards.
fn stored(xs: &[u32], cards: usize) -> &[u32] {
    requests::list_at(xs, requests::past_number(xs, cards))
}

// The panel of a request: a scheme, the cards, and after them the stored shares.
fn state(xs: &[u32], cards: usize) -> Panel {
    let scheme = requests::scheme(xs);
    let s = scheme.shape;
    Panel {
        p: s.p,
        n: s.n,
        d: s.d,
        e: s.e,
        cards: requests::number_at(xs, cards),
        labels: laid(scheme.labels),
        entries: laid(scheme.entries),
        stored: laid(stored(xs, cards)),
    }
}

// Has a panel places for the scheme's lists?
fn holds_scheme(xs: &[u32]) -> bool {
    let scheme = requests::scheme(xs);
    scheme.labels.len() <= LABELS && scheme.entries.len() <= ENTRIES
}

// And for the shares that are stored?
fn holds(xs: &[u32], cards: usize) -> bool {
    holds_scheme(xs) && stored(xs, cards).len() <= STORED
}

// The cards that are in, and the stored shares of the scheme's rows.
fn write_state(to: &mut impl Write, a: Panel) -> io::Result<()> {
    show::text(to, b" OK")?;
    show::number(to, a.cards)?;
    show::integers(to, requests::first(&a.stored, a.d))
}

fn write_told(to: &mut impl Write, t: Told) -> io::Result<()> {
    match t.said {
        Ok(()) => write_state(to, t.panel),
        Err(why) => show::refused(to, why),
    }
}

pub fn new_line(to: &mut impl Write, xs: &[u32]) -> io::Result<bool> {
    if requests::past_scheme(xs) != xs.len() || !holds_scheme(xs) {
        return Ok(false);
    }
    show::text(to, b"panel_new")?;
    write_told(to, panel::fresh(requests::scheme(xs)))?;
    Ok(true)
}

pub fn put_line(to: &mut impl Write, xs: &[u32]) -> io::Result<bool> {
    let cards = requests::past_scheme(xs);
    let who = requests::past_list(xs, requests::past_number(xs, cards));
    let shares = requests::past_number(xs, who);
    if requests::past_list(xs, shares) != xs.len() || !holds(xs, cards) {
        return Ok(false);
    }
    let who = requests::number_at(xs, who);
    let shares = requests::list_at(xs, shares);
    show::text(to, b"panel_put")?;
    write_told(to, state(xs, cards).put(who, shares))?;
    Ok(true)
}

pub fn take_line(to: &mut impl Write, xs: &[u32]) -> io::Result<bool> {
    let cards = requests::past_scheme(xs);
    let who = requests::past_list(xs, requests::past_number(xs, cards));
    if requests::past_number(xs, who) != xs.len() || !holds(xs, cards) {
        return Ok(false);
    }
    let who = requests::number_at(xs, who);
    show::text(to, b"panel_take")?;
    write_told(to, state(xs, cards).take(who))?;
    Ok(true)
}

pub fn code_line(to: &mut impl Write, xs: &[u32]) -> io::Result<bool> {
    let cards = requests::past_scheme(xs);
    let stored = requests::past_number(xs, cards);
    if requests::past_list(xs, stored) != xs.len() || !holds(xs, cards) {
        return Ok(false);
    }
    show::text(to, b"panel_code")?;
    show::code(to, state(xs, cards).code().said)?;
    Ok(true)
}
