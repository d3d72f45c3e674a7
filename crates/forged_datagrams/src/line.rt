//! The lines, and what comes of each.
use crate::bench::{Answer, Bench};
use crate::fields::{bytes, moment, proto, relay, source};
use std::alloc::Global;

/// Of a datagram for the server: its protocol, its source, its bytes and the moment.
fn receive(
    alloc: Global,
    bench: &mut Bench,
    of: &str,
    from: &str,
    digits: &str,
    now: &str,
) -> Option<Answer> {
    let (proto, source, now) = (proto(of)?, source(from)?, moment(now)?);
    let datagram = bytes(alloc, digits)?;
    Some(bench.receive(proto, source, &datagram, now))
}

/// Of a frame for a circuit's relay: the circuit's id, its protocol and its bytes.
fn up(alloc: Global, bench: &mut Bench, id: &str, of: &str, digits: &str) -> Option<Answer> {
    let proto = proto(of)?;
    bench.up(id.as_bytes(), proto, &bytes(alloc, digits)?)
}

/// Of a datagram for a relay: the relay's number, its source and its bytes.
fn down(alloc: Global, bench: &mut Bench, at: &str, from: &str, digits: &str) -> Option<Answer> {
    let (relay, source) = (relay(at)?, source(from)?);
    bench.down(relay, source, &bytes(alloc, digits)?)
}

/// Of bytes for a region: its number, where they begin, and the bytes.
fn put(alloc: Global, bench: &mut Bench, region: &str, at: &str, digits: &str) -> Option<Answer> {
    let (region, at) = (region.parse::<u16>().ok()?, at.parse::<usize>().ok()?);
    bench.put(region, at, &bytes(alloc, digits)?)
}

/// What comes of a line with these fields. `None` where it is bad.
fn answer_to(alloc: Global, bench: &mut Bench, fields: &[&str]) -> Option<Answer> {
    match fields {
        ["receive", of, from, digits, now] => receive(alloc, bench, of, from, digits, now),
        ["up", id, of, digits] => up(alloc, bench, id, of, digits),
        ["down", at, from, digits] => down(alloc, bench, at, from, digits),
        ["tick", now] => Some(bench.tick(moment(now)?)),
        ["put", region, at, digits] => put(alloc, bench, region, at, digits),
        ["reopen"] => bench.reopen(alloc),
        _ => None,
    }
}

/// What comes of a line. `None` where it is bad.
pub fn answer(alloc: Global, bench: &mut Bench, line: &str) -> Option<Answer> {
    let fields: Vec<&str> = line.split(' ').collect(alloc).ok()?;
    answer_to(alloc, bench, &fields)
}
