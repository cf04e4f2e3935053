// Answers to the request lines of the calls that make a scheme, or take one, as text or as a file: rule, write and read. A line's function
// takes the numbers after the call's name and answers whether they are those of a request; it has then written the answer.

#![tactic(auto)]

use scheme::{Refusal, Shape};
use std::io;
use std::io::Write;

fn write_shape(to: &mut impl Write, s: Shape) -> io::Result<()> {
    show::text(to, b" OK")?;
    show::number(to, s.n)?;
    show::number(to, s.d)?;
    show::number(to, s.e)?;
    show::number(to, s.p)
}

fn write_made(to: &mut impl Write, a: Result<Shape, Refusal>) -> io::Result<()> {
    match a {
        Ok(s) => write_shape(to, s),
        Err(why) => show::refused(to, why),
    }
}

pub fn rule_line(to: &mut impl Write, xs: &[u32]) -> io::Result<bool> {
    let labels = requests::past_list(xs, 2);
    let entries = requests::past_places(xs, labels);
    if requests::past_places(xs, entries) != xs.len() {
        return Ok(false);
    }
    let text = requests::list_at(xs, 2);
    let mut bytes = [0; requests::MOST];
    if !requests::to_bytes(text, &mut bytes) {
        return Ok(false);
    }
    let p = requests::number_at(xs, 0);
    let n = requests::number_at(xs, 1);
    let mut space = [show::MARK; requests::MOST];
    let mut more = [show::MARK; requests::MOST];
    let labels = &mut space[..requests::places(xs, labels)];
    let entries = &mut more[..requests::places(xs, entries)];
    show::text(to, b"rule")?;
    let told = rule::build(p, n, &bytes[..text.len()], labels, entries);
    write_made(to, told)?;
    show::integers(to, labels)?;
    show::integers(to, entries)?;
    Ok(true)
}

pub fn write_line(to: &mut impl Write, xs: &[u32]) -> io::Result<bool> {
    let file = requests::past_scheme(xs);
    if requests::past_places(xs, file) != xs.len() {
        return Ok(false);
    }
    let scheme = requests::scheme(xs);
    let mut space = [show::BYTE_MARK; requests::MOST];
    let file = &mut space[..requests::places(xs, file)];
    show::text(to, b"write")?;
    let told = writing::write(scheme, file);
    show::outcome(to, told)?;
    match told {
        Ok(()) => show::integers(to, file)?,
        Err(_) => show::left_bytes(to, file)?,
    }
    Ok(true)
}

pub fn read_line(to: &mut impl Write, xs: &[u32]) -> io::Result<bool> {
    let labels = requests::past_list(xs, 0);
    let entries = requests::past_places(xs, labels);
    if requests::past_places(xs, entries) != xs.len() {
        return Ok(false);
    }
    let file = requests::list_at(xs, 0);
    let mut bytes = [0; requests::MOST];
    if !requests::to_bytes(file, &mut bytes) {
        return Ok(false);
    }
    let mut space = [show::MARK; requests::MOST];
    let mut more = [show::MARK; requests::MOST];
    let labels = &mut space[..requests::places(xs, labels)];
    let entries = &mut more[..requests::places(xs, entries)];
    show::text(to, b"read")?;
    let told = reading::read(&bytes[..file.len()], labels, entries);
    write_made(to, told)?;
    show::integers(to, labels)?;
    show::integers(to, entries)?;
    Ok(true)
}
