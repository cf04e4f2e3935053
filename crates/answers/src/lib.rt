// Answers to the request lines of the calls on a scheme: check, deal, ask, join, product and threshold. A line's function takes the numbers
// after the call's name and answers whether they are those of a request; it has then written the answer.

#![tactic(auto)]

use scheme::Refusal;
use std::io;
use std::io::Write;

fn write_asked(to: &mut impl Write, a: Result<ask::Verdict, Refusal>) -> io::Result<()> {
    match a {
        Ok(ask::Verdict::Open) => show::text(to, b" OPEN"),
        Ok(ask::Verdict::Closed) => show::text(to, b" CLOSED"),
        Err(why) => show::refused(to, why),
    }
}

fn write_product(to: &mut impl Write, a: Result<product::Verdict, Refusal>) -> io::Result<()> {
    match a {
        Ok(product::Verdict::Yes) => show::text(to, b" YES"),
        Ok(product::Verdict::No) => show::text(to, b" NO"),
        Err(why) => show::refused(to, why),
    }
}

fn write_threshold(to: &mut impl Write, a: Result<Option<u32>, Refusal>) -> io::Result<()> {
    match a {
        Ok(None) => show::text(to, b" YES"),
        Ok(Some(set)) => {
            show::text(to, b" NO")?;
            show::number(to, set)
        }
        Err(why) => show::refused(to, why),
    }
}

pub fn check_line(to: &mut impl Write, xs: &[u32]) -> io::Result<bool> {
    if requests::past_scheme(xs) != xs.len() {
        return Ok(false);
    }
    let scheme = requests::scheme(xs);
    show::text(to, b"check")?;
    show::outcome(to, scheme::check(scheme))?;
    Ok(true)
}

pub fn deal_line(to: &mut impl Write, xs: &[u32]) -> io::Result<bool> {
    let secret = requests::past_scheme(xs);
    let randoms = requests::past_number(xs, secret);
    let shares = requests::past_list(xs, randoms);
    if requests::past_places(xs, shares) != xs.len() {
        return Ok(false);
    }
    let scheme = requests::scheme(xs);
    let secret = requests::number_at(xs, secret);
    let randoms = requests::list_at(xs, randoms);
    let mut space = [show::MARK; requests::MOST];
    let shares = &mut space[..requests::places(xs, shares)];
    show::text(to, b"deal")?;
    let told = deal::deal(scheme, secret, randoms, shares);
    show::outcome(to, told)?;
    show::integers(to, shares)?;
    Ok(true)
}

pub fn ask_line(to: &mut impl Write, xs: &[u32]) -> io::Result<bool> {
    let set = requests::past_scheme(xs);
    let r = requests::past_number(xs, set);
    let z = requests::past_places(xs, r);
    if requests::past_places(xs, z) != xs.len() {
        return Ok(false);
    }
    let scheme = requests::scheme(xs);
    let set = requests::number_at(xs, set);
    let mut space = [show::MARK; requests::MOST];
    let mut more = [show::MARK; requests::MOST];
    let r = &mut space[..requests::places(xs, r)];
    let z = &mut more[..requests::places(xs, z)];
    show::text(to, b"ask")?;
    let told = ask::ask(scheme, set, r, z);
    write_asked(to, told)?;
    show::integers(to, r)?;
    show::integers(to, z)?;
    Ok(true)
}

pub fn join_line(to: &mut impl Write, xs: &[u32]) -> io::Result<bool> {
    let set = requests::past_scheme(xs);
    let shares = requests::past_number(xs, set);
    if requests::past_list(xs, shares) != xs.len() {
        return Ok(false);
    }
    let scheme = requests::scheme(xs);
    let set = requests::number_at(xs, set);
    let shares = requests::list_at(xs, shares);
    show::text(to, b"join")?;
    show::code(to, join::join(scheme, set, shares))?;
    Ok(true)
}

pub fn product_line(to: &mut impl Write, xs: &[u32]) -> io::Result<bool> {
    let r = requests::past_scheme(xs);
    let w = requests::past_places(xs, r);
    if requests::past_places(xs, w) != xs.len() {
        return Ok(false);
    }
    let scheme = requests::scheme(xs);
    let mut space = [show::MARK; requests::MOST];
    let mut more = [show::MARK; requests::MOST];
    let r = &mut space[..requests::places(xs, r)];
    let w = &mut more[..requests::places(xs, w)];
    show::text(to, b"product")?;
    let told = product::product(scheme, r, w);
    write_product(to, told)?;
    show::integers(to, r)?;
    show::integers(to, w)?;
    Ok(true)
}

pub fn threshold_line(to: &mut impl Write, xs: &[u32]) -> io::Result<bool> {
    let t = requests::past_scheme(xs);
    if requests::past_number(xs, t) != xs.len() {
        return Ok(false);
    }
    let scheme = requests::scheme(xs);
    let t = requests::number_at(xs, t);
    show::text(to, b"threshold")?;
    write_threshold(to, threshold::threshold(scheme, t))?;
    Ok(true)
}
