//! Values that no program looks at: what a server's reply says of a lease, a count, and DUIDs by themselves.
use types::duid::Duid;
use types::{Addr6, Count};
use v6_message::{IaAddress, Message6};
use v6_options::Options;

/// A Reply with transaction id 7, status 4, and an IA_NA with IAID 1, T1 300 and T2 480: 2001:db8::100 with lifetimes of 300
/// and 600 (RFC 8415, sections 8, 21.4, 21.6 and 21.13), and status 2.
const REPLY: &[u8] =
    b"\x07\x00\x00\x07\x00\x0d\x00\x02\x00\x04\x00\x01\x00\x03\x00\x03\x09\x00\x03\x00\x2e\x00\x00\x00\
      \x01\x00\x00\x01\x2c\x00\x00\x01\xe0\x00\x05\x00\x18\x20\x01\x0d\xb8\x00\x00\x00\x00\x00\x00\x00\
      \x00\x00\x00\x01\x00\x00\x00\x01\x2c\x00\x00\x02\x58\x00\x0d\x00\x02\x00\x02";

/// A Reply with a status option of one byte, which is none.
const SHORT_STATUS: &[u8] =
    b"\x07\x00\x00\x07\x00\x0d\x00\x01\x04\x00\x03\x00\x0c\x00\x00\x00\x01\x00\x00\x00\x00\x00\x00\x00\x00";

const ADDRESS: IaAddress = IaAddress {
    address: Addr6([0x20, 1, 0xd, 0xb8, 0, 0, 0, 0, 0, 0, 0, 0, 0, 0, 1, 0]),
    preferred_lifetime: 300,
    valid_lifetime: 600,
};

fn reads_the_reply() -> bool {
    let Ok(message) = Message6::read(REPLY) else {
        return false;
    };
    let ia = message.ia();
    let mut addresses = ia.addresses();
    message.status() == Some(4)
        && (ia.t1(), ia.t2(), ia.status()) == (300, 480, Some(2))
        && addresses.next() == Some(ADDRESS)
        && addresses.next() == None
}

fn reads_no_status() -> bool {
    match Message6::read(SHORT_STATUS) {
        Ok(message) => message.status() == None,
        Err(_) => false,
    }
}

/// Of two options of one code the first is found, and one without bytes is found.
fn finds_the_first() -> bool {
    let Ok(options) = Options::read(b"\x00\x0d\x00\x01\x07\x01\x00\x00\x00\x00\x0d\x00\x01\x08")
    else {
        return false;
    };
    let (first, empty): (&[u8], &[u8]) = (b"\x07", b"");
    options.get(13) == Some(first) && options.get(256) == Some(empty) && options.get(1) == None
}

/// A DUID has 3 to 130 bytes (RFC 8415, section 11.1).
fn is_duid(bytes: &[u8]) -> bool {
    match Duid::read(bytes) {
        Ok(duid) => duid.as_bytes() == bytes,
        Err(_) => false,
    }
}

#[test]
fn values_by_their_bytes(rt: HostRuntime) {
    assert!(rt; reads_the_reply());
    assert!(rt; reads_no_status());
    assert!(rt; finds_the_first());
    assert!(rt; is_duid(&[7; 3]) && is_duid(&[7; 130]) && !is_duid(&[7; 2]) && !is_duid(&[7; 131]));
    assert!(rt; size_of::<Count>() == 0);
}
