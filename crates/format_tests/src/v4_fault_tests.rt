//! RFC 2131, section 2, and RFC 2132: which fault is reported. What is read, and that each fault is refused, is in
//! `cases/relay` and `cases/forged`.
use v4_message::{Message, MessageFault};
use v4_options::{OptFault, Options, SuboptFault, Suboptions};
use wire::{Full, PacketBuf};

/// Options and their fault.
struct OptionsRow {
    bytes: &'static [u8],
    fault: OptFault,
}

#[rattlefmt::skip]
const OPTIONS: [OptionsRow; 10] = [
    OptionsRow { bytes: b"", fault: OptFault::NoEnd },
    OptionsRow { bytes: b"\x00\x00", fault: OptFault::NoEnd },
    OptionsRow { bytes: b"\x35\x01\x01", fault: OptFault::NoEnd },
    OptionsRow { bytes: b"\x35", fault: OptFault::Cut },
    OptionsRow { bytes: b"\x35\x01", fault: OptFault::Cut },
    OptionsRow { bytes: b"\x0c\x03\xff\xff", fault: OptFault::Cut },
    OptionsRow { bytes: b"\x35\x01\x01\x35\x01\x01\xff", fault: OptFault::Twice },
    // one option that is both cut off and repeated is cut off
    OptionsRow { bytes: b"\x35\x01\x01\x35\x02\x01", fault: OptFault::Cut },
    // the leftmost option decides
    OptionsRow { bytes: b"\x35\x01\x01\x35\x01\x01\x0c\x09", fault: OptFault::Twice },
    OptionsRow { bytes: b"\x0c\x09\x35\x01\x01\x35\x01\x01", fault: OptFault::Cut },
];

/// Suboptions of option 82 and their fault.
struct SuboptionsRow {
    bytes: &'static [u8],
    fault: SuboptFault,
}

#[rattlefmt::skip]
const SUBOPTIONS: [SuboptionsRow; 6] = [
    SuboptionsRow { bytes: b"\x01", fault: SuboptFault::Cut },
    SuboptionsRow { bytes: b"\x01\x01a\xff", fault: SuboptFault::Cut },
    SuboptionsRow { bytes: b"\x01\x02a", fault: SuboptFault::Cut },
    SuboptionsRow { bytes: b"\x09\x00\x09\x00", fault: SuboptFault::Twice },
    SuboptionsRow { bytes: b"\x01\x01a\x01\x02a", fault: SuboptFault::Cut },
    SuboptionsRow { bytes: b"\x01\x00\x01\x00\x0b", fault: SuboptFault::Twice },
];

/// A message: the first three bytes of its header, which are op, htype and hlen; its cookie, and its options.
struct MessageRow {
    first: &'static [u8],
    cookie: &'static [u8],
    options: &'static [u8],
    fault: MessageFault,
}

const COOKIE: &[u8] = b"\x63\x82\x53\x63";

/// Each fault hides those that are tested after it: the cookie, the hardware, the options, then op and the type.
#[rattlefmt::skip]
const MESSAGES: [MessageRow; 13] = [
    MessageRow { first: b"\x01\x01\x06", cookie: COOKIE, options: b"", fault: MessageFault::Options },
    MessageRow { first: b"\x01\x01\x06", cookie: COOKIE, options: b"\x35\x01\x01", fault: MessageFault::Options },
    MessageRow { first: b"\x01\x01\x06", cookie: COOKIE, options: b"\x35\x01\x01\x34\x01\x01\xff", fault: MessageFault::Options },
    MessageRow { first: b"\x01\x01\x06", cookie: COOKIE, options: b"\x35\x01\x01\x32\x03\x0a\x00\x00\xff", fault: MessageFault::Options },
    MessageRow { first: b"\x01\x01\x06", cookie: COOKIE, options: b"\x34\x00\xff", fault: MessageFault::Options },
    MessageRow { first: b"\x01\x01\x06", cookie: COOKIE, options: b"\xff", fault: MessageFault::Kind },
    MessageRow { first: b"\x01\x01\x06", cookie: COOKIE, options: b"\x35\x02\x01\x01\xff", fault: MessageFault::Kind },
    MessageRow { first: b"\x01\x01\x06", cookie: COOKIE, options: b"\x35\x01\x09\xff", fault: MessageFault::Kind },
    MessageRow { first: b"\x03\x01\x06", cookie: COOKIE, options: b"\x35\x01\x01\x34\x00\xff", fault: MessageFault::Options },
    MessageRow { first: b"\x03\x01\x06", cookie: COOKIE, options: b"\x35\x01\x01\xff", fault: MessageFault::Kind },
    MessageRow { first: b"\x03\x01\x10", cookie: COOKIE, options: b"\x34\x00\xff", fault: MessageFault::Hardware },
    MessageRow { first: b"\x03\x06\x06", cookie: COOKIE, options: b"\x34\x00\xff", fault: MessageFault::Hardware },
    MessageRow { first: b"\x03\x06\x10", cookie: b"\x63\x82\x53\x62", options: b"\x34\x00\xff", fault: MessageFault::Cookie },
];

/// The bytes of such a message.
fn write(row: &MessageRow, out: &mut PacketBuf) -> Result<(), Full> {
    out.extend(row.first)?;
    out.pad_to(236)?;
    out.extend(row.cookie)?;
    out.extend(row.options)
}

fn options_fail() -> bool {
    for row in &OPTIONS {
        match Options::read(row.bytes) {
            Err(fault) if fault == row.fault => {}
            _ => return false,
        }
    }
    true
}

fn suboptions_fail() -> bool {
    for row in &SUBOPTIONS {
        match Suboptions::read(row.bytes) {
            Err(fault) if fault == row.fault => {}
            _ => return false,
        }
    }
    true
}

fn fails(bytes: &[u8], expected: MessageFault) -> bool {
    match Message::read(bytes) {
        Ok(_) => false,
        Err(fault) => fault == expected,
    }
}

fn messages_fail() -> bool {
    for row in &MESSAGES {
        let mut out = PacketBuf::new();
        if write(row, &mut out).is_err() || !fails(out.as_slice(), row.fault) {
            return false;
        }
    }
    // with fewer bytes than a header has nothing else is tested
    fails(b"", MessageFault::Short) && fails(&[0; 239], MessageFault::Short)
}

#[test]
fn the_first_fault_is_reported(rt: HostRuntime) {
    assert!(rt; options_fail());
    assert!(rt; suboptions_fail());
    assert!(rt; messages_fail());
}
