//! RFC 8415, sections 8, 9 and 21: which fault is reported. What is read, and that each fault is refused, is in
//! `cases/dhcpv6` and `cases/forged`.
use v6_message::{Message6, MessageFault, Relay6, RelayFault};
use wire::{Full, PacketBuf};

/// The options of a Relay-forward and their fault.
struct RelayRow {
    options: &'static [u8],
    fault: RelayFault,
}

#[rattlefmt::skip]
const RELAYED: [RelayRow; 8] = [
    // 1 to 3 bytes left over, and a length past the end
    RelayRow { options: b"\x00", fault: RelayFault::Cut },
    RelayRow { options: b"\x00\x09\x00", fault: RelayFault::Cut },
    RelayRow { options: b"\x00\x09\x00\x00\x00\x12\x00", fault: RelayFault::Cut },
    RelayRow { options: b"\x00\x09\x01\x00\x07", fault: RelayFault::Cut },
    RelayRow { options: b"\x00\x09\x00\x00\x00\x09\x00\x00", fault: RelayFault::Twice },
    RelayRow { options: b"\x00\x12\x00\x01a\x00\x09\x00\x00\x00\x12\x00\x00", fault: RelayFault::Twice },
    // the leftmost option decides; one that is both cut off and repeated is cut off
    RelayRow { options: b"\x00\x09\x00\x00\x00\x09\x00\x00\x00", fault: RelayFault::Twice },
    RelayRow { options: b"\x00\x09\x00\x00\x00\x09\x00\x01", fault: RelayFault::Cut },
];

/// The options of a Solicit and their fault.
struct MessageRow {
    options: &'static [u8],
    fault: MessageFault,
}

const IA: &[u8] = b"\x00\x03\x00\x0c\x00\x00\x00\x01\x00\x00\x00\x00\x00\x00\x00\x00";

#[rattlefmt::skip]
const MESSAGES: [MessageRow; 12] = [
    MessageRow { options: b"", fault: MessageFault::IaCount },
    MessageRow { options: b"\x00\x01\x00\x00", fault: MessageFault::IaCount },
    MessageRow { options: b"\x00", fault: MessageFault::Cut },
    MessageRow { options: b"\x00\x08\x00", fault: MessageFault::Cut },
    MessageRow { options: b"\x00\x08\x00\x02\x00", fault: MessageFault::Cut },
    // an IA_NA of 11 bytes, and one with 1 to 3 bytes after its 12
    MessageRow { options: b"\x00\x03\x00\x0b\x00\x00\x00\x01\x00\x00\x00\x00\x00\x00\x00", fault: MessageFault::Cut },
    MessageRow { options: b"\x00\x03\x00\x0d\x00\x00\x00\x01\x00\x00\x00\x00\x00\x00\x00\x00\x00", fault: MessageFault::Cut },
    // two client ids and two server ids come before the count
    MessageRow { options: b"\x00\x01\x00\x00\x00\x01\x00\x00", fault: MessageFault::Twice },
    MessageRow { options: b"\x00\x02\x00\x00\x00\x01\x00\x00\x00\x02\x00\x00", fault: MessageFault::Twice },
    // the leftmost option decides
    MessageRow { options: b"\x00\x01\x00\x00\x00\x01\x00\x00\x00\x03\x00\x00", fault: MessageFault::Twice },
    MessageRow { options: b"\x00\x01\x00\x00\x00\x03\x00\x00\x00\x01\x00\x00", fault: MessageFault::Cut },
    MessageRow { options: b"\x00\x01\x00\x00\x00\x08\x00", fault: MessageFault::Cut },
];

fn relay_fails(bytes: &[u8], expected: RelayFault) -> bool {
    match Relay6::read(bytes) {
        Ok(_) => false,
        Err(fault) => fault == expected,
    }
}

/// A Relay-forward with these options.
fn write_relayed(options: &[u8], out: &mut PacketBuf) -> Result<(), Full> {
    out.push(12)?;
    out.pad_to(34)?;
    out.extend(options)
}

fn relayed_fail() -> bool {
    for row in &RELAYED {
        let mut out = PacketBuf::new();
        if write_relayed(row.options, &mut out).is_err()
            || !relay_fails(out.as_slice(), row.fault)
        {
            return false;
        }
    }
    relay_fails(b"", RelayFault::Short) && relay_fails(&[12; 33], RelayFault::Short)
}

fn fails(bytes: &[u8], expected: MessageFault) -> bool {
    match Message6::read(bytes) {
        Ok(_) => false,
        Err(fault) => fault == expected,
    }
}

/// A Solicit with these options.
fn write(options: &[u8], out: &mut PacketBuf) -> Result<(), Full> {
    out.extend(b"\x01\x00\x00\x07")?;
    out.extend(options)
}

fn messages_fail() -> bool {
    for row in &MESSAGES {
        let mut out = PacketBuf::new();
        if write(row.options, &mut out).is_err() || !fails(out.as_slice(), row.fault) {
            return false;
        }
    }
    fails(b"", MessageFault::Short) && fails(b"\x01\x00\x00", MessageFault::Short)
}

/// A Solicit whose IA_NA, of 152 bytes, has five addresses, or one more IA_NA after that.
fn write_five(with_another: bool, out: &mut PacketBuf) -> Result<(), Full> {
    write(
        b"\x00\x03\x00\x98\x00\x00\x00\x01\x00\x00\x00\x00\x00\x00\x00\x00",
        out,
    )?;
    for _ in 0..5 {
        let len = out.len();
        out.extend(b"\x00\x05\x00\x18")?;
        out.pad_to(len.saturating_add(28))?;
    }
    if with_another { out.extend(IA) } else { Ok(()) }
}

fn counts_fail() -> bool {
    let (mut five, mut both) = (PacketBuf::new(), PacketBuf::new());
    write_five(false, &mut five).is_ok()
        && fails(five.as_slice(), MessageFault::AddrCount)
        && write_five(true, &mut both).is_ok()
        && fails(both.as_slice(), MessageFault::IaCount)
}

#[test]
fn the_first_fault_is_reported(rt: HostRuntime) {
    assert!(rt; relayed_fail());
    assert!(rt; messages_fail());
    assert!(rt; counts_fail());
}
