//! Hands datagrams to relays and server as a network with forged sources would, one a line of standard input, and
//! writes what comes of each.
#![tactic(auto)]

mod bench;
mod fields;
mod line;
mod unknown_disk;

use bench::{Answer, Bench};
use command_line::{FAILED, REFUSED, UNOPENED, complain, given_words, read_configuration};
use dispatch::region_count;
use std::io::{self, BufRead, BufReader};
use std::process::ExitCode;
use types::Dest;

/// The status at a line that is bad.
const BAD_LINE: u8 = 3;

const USAGE: &str = "usage: forged_datagrams CONFIG [REGIONS]";

/// Writes to whom on a circuit a frame goes.
fn show_dest(rt: &HostRuntime, dest: Dest) -> io::Result<()> {
    match dest {
        Dest::Broadcast => print!(rt; "broadcast "),
        Dest::Unicast(chaddr, yiaddr) => {
            let chaddr = hex::encode(rt.alloc(), chaddr.as_slice())?;
            let [a, b, c, d] = yiaddr.0;
            print!(rt; "unicast {chaddr} {a}.{b}.{c}.{d} ")
        }
        Dest::Peer(address) => {
            let address = hex::encode(rt.alloc(), address.0.as_slice())?;
            print!(rt; "peer {address} ")
        }
    }
}

/// Writes why a datagram was dropped, and what was sent though it was.
fn show_reason(rt: &HostRuntime, number: u8, sent: &[u8]) -> io::Result<()> {
    if sent.is_empty() {
        return println!(rt; "drop {number}");
    }
    let digits = hex::encode(rt.alloc(), sent)?;
    println!(rt; "drop {number} and send {digits}")
}

/// Writes what came of a line: a word, and what was sent.
fn show(rt: &HostRuntime, bench: &Bench, answer: Answer) -> io::Result<()> {
    let sent = bench.sent();
    match answer {
        Answer::Done => return println!(rt; "ok"),
        Answer::Dropped(why) => return show_reason(rt, why.number(), sent),
        Answer::SentUp => print!(rt; "up ")?,
        Answer::Replied => print!(rt; "reply ")?,
        Answer::Framed(index, dest) => {
            print!(rt; "to {} ", bench.id(index))?;
            show_dest(rt, dest)?;
        }
    }
    let digits = hex::encode(rt.alloc(), sent)?;
    println!(rt; "{digits}")
}

/// Answers the lines of standard input, and returns the status.
fn run(rt: &HostRuntime, bench: &mut Bench) -> io::Result<u8> {
    let alloc = rt.alloc();
    for (index, line) in BufReader::new(alloc, rt.reader())?.lines(alloc).enumerate() {
        let line = line?;
        if line.is_empty() || line.starts_with('#') {
            continue;
        }
        match line::answer(alloc, bench, line.as_str()) {
            Some(answer) => show(rt, bench, answer)?,
            None => {
                println!(rt; "line {} bad", index + 1)?;
                return Ok(BAD_LINE);
            }
        }
    }
    Ok(0)
}

/// Opens what the words of the command line name: a configuration, and how many regions the disk has where these
/// are not those of the circuits.
fn opened(rt: &HostRuntime) -> Result<Bench, u8> {
    let words = given_words(rt)?;
    let Some(path) = words.first() else {
        return Err(complain(rt, USAGE, REFUSED));
    };
    if path.starts_with('-') {
        return Err(complain(rt, USAGE, 0));
    }
    let config = read_configuration(rt, path)?;
    let regions = match words.get(1) {
        Some(word) => word.parse::<u16>().unwrap_or(0),
        None => region_count(&config),
    };
    match Bench::open(rt.alloc(), config, regions) {
        Ok(bench) => Ok(bench),
        Err(fault) => Err(complain(rt, fault, UNOPENED)),
    }
}

fn status(rt: &HostRuntime) -> u8 {
    match opened(rt) {
        Ok(mut bench) => {
            let status = run(rt, &mut bench).unwrap_or(FAILED);
            drop(bench);
            status
        }
        Err(status) => status,
    }
}

fn main(rt: HostRuntime) -> ExitCode {
    ExitCode::from(status(&rt))
}
