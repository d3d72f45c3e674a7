//! The lines of the output.
ghost use Rattle.std.specs.Prelude.{◌≡◌, ◌+◌, ◌≤◌, ◌∷◌, ◌++◌, [], length, take, decimal, codes, OnOk, OnErr};
ghost use Rattle.std.specs.Io.KnownBytes.{Appends};
ghost use Rattle.hex.specs.Hex.{encode_lower};
ghost use Rattle.world.specs.Alone.{Framed, Done};
ghost use Rattle.streams.specs.Writing.{AppendsPrefix};
ghost use Rattle.lab_engine.specs.Output.{dotted, effect_text, outcome_effect, with_newline, bad_text};

use itoa::Buffer;
use streams::{ByteWriter, Failed, write_parts};
use types::{Addr4, Addr6, Dest, MAX_DATAGRAM};
use wire::PacketBuf;
use world::Outcome;

/// The most hexadecimal digits of a frame.
pub const MAX_DIGITS: usize = 2 * MAX_DATAGRAM;

/// Writes the digits of the bytes to the front of the array and returns their count.
fn digits_of(bytes: &[u8], digits: &mut [u8; MAX_DIGITS]) -> usize
    requires { length bytes.now ≤ 1280 }
    ensures value { take result digits.new ≡ encode_lower bytes.now }
    ensures within { result ≤ 2560 }
{
    let count = 2 * bytes.len();
    let _ = hex::encode_to_slice(bytes, &mut digits[..count]);
    count
}

/// Writes a line of a word and a number.
fn write_number<W: ByteWriter>(writer: &mut W, word: &[u8], number: u64) -> Result<(), Failed>
    ensures ok { OnOk result (Appends (W.contents writer.old) (W.contents writer.new) (word.now ++ (decimal number ++ 10 ∷ []))) }
    ensures err { OnErr result (AppendsPrefix (W.contents writer.old) (W.contents writer.new) (word.now ++ (decimal number ++ 10 ∷ []))) }
    ensures quiet { OnOk result (W.failures writer.new ≡ W.failures writer.old) }
    ensures cause { OnErr result (W.failures writer.new ≡ W.failures writer.old + 1) }
{
    let mut buffer = Buffer::new();
    let digits = buffer.format(number).as_bytes();
    write_parts(writer, &[word, digits, b"\n"])
}

/// Writes that the line with this number is bad.
pub(crate) fn write_bad_line<W: ByteWriter>(writer: &mut W, number: u64) -> Result<(), Failed>
    ensures ok { OnOk result (Appends (W.contents writer.old) (W.contents writer.new) (bad_text number)) }
    ensures err { OnErr result (AppendsPrefix (W.contents writer.old) (W.contents writer.new) (bad_text number)) }
    ensures quiet { OnOk result (W.failures writer.new ≡ W.failures writer.old) }
    ensures cause { OnErr result (W.failures writer.new ≡ W.failures writer.old + 1) }
{
    let mut buffer = Buffer::new();
    let digits = buffer.format(number).as_bytes();
    write_parts(writer, &[b"line ", digits, b" bad\n"])
}

/// Writes that a frame leaves towards the circuit with this id. Its digits are put into this row.
fn write_frame<W: ByteWriter>(
    writer: &mut W,
    id: &[u8],
    dest: Dest,
    frame: &PacketBuf,
    row: &mut [u8; MAX_DIGITS],
) -> Result<(), Failed>
    ensures ok { OnOk result (Appends (W.contents writer.old) (W.contents writer.new)
        (with_newline (effect_text id.now (Framed (record { dest = dest; bytes = frame.now }))))) }
    ensures err { OnErr result (AppendsPrefix (W.contents writer.old) (W.contents writer.new)
        (with_newline (effect_text id.now (Framed (record { dest = dest; bytes = frame.now }))))) }
    ensures quiet { OnOk result (W.failures writer.new ≡ W.failures writer.old) }
    ensures cause { OnErr result (W.failures writer.new ≡ W.failures writer.old + 1) }
{
    let count = digits_of(frame.as_slice(), row);
    let digits = &row[..count];
    match dest {
        Dest::Broadcast => write_broadcast(writer, id, digits),
        Dest::Unicast(chaddr, yiaddr) => write_unicast(writer, id, chaddr, yiaddr, digits),
        Dest::Peer(address) => write_peer(writer, id, address, digits),
    }
}

fn write_broadcast<W: ByteWriter>(writer: &mut W, id: &[u8], frame: &[u8]) -> Result<(), Failed>
    ensures ok { OnOk result (Appends (W.contents writer.old) (W.contents writer.new)
        (codes "to " ++ id.now ++ codes " broadcast " ++ frame.now ++ codes "\n")) }
    ensures err { OnErr result (AppendsPrefix (W.contents writer.old) (W.contents writer.new)
        (codes "to " ++ id.now ++ codes " broadcast " ++ frame.now ++ codes "\n")) }
    ensures quiet { OnOk result (W.failures writer.new ≡ W.failures writer.old) }
    ensures cause { OnErr result (W.failures writer.new ≡ W.failures writer.old + 1) }
{
    write_parts(writer, &[b"to ", id, b" broadcast ", frame, b"\n"])
}

/// Writes an address in dotted decimal.
fn write_dotted<W: ByteWriter>(writer: &mut W, address: Addr4) -> Result<(), Failed>
    ensures ok { OnOk result (Appends (W.contents writer.old) (W.contents writer.new) (dotted address.0)) }
    ensures err { OnErr result (AppendsPrefix (W.contents writer.old) (W.contents writer.new) (dotted address.0)) }
    ensures quiet { OnOk result (W.failures writer.new ≡ W.failures writer.old) }
    ensures cause { OnErr result (W.failures writer.new ≡ W.failures writer.old + 1) }
{
    let (mut a, mut b, mut c, mut d) = (Buffer::new(), Buffer::new(), Buffer::new(), Buffer::new());
    let octets = address.0;
    write_parts(
        writer,
        &[
            a.format(octets[0]).as_bytes(),
            b".",
            b.format(octets[1]).as_bytes(),
            b".",
            c.format(octets[2]).as_bytes(),
            b".",
            d.format(octets[3]).as_bytes(),
        ],
    )
}

/// Writes the line of a unicast frame up to the IPv4 address.
fn write_unicast_heading<W: ByteWriter>(
    writer: &mut W,
    id: &[u8],
    chaddr: [u8; 6],
) -> Result<(), Failed>
    ensures ok { OnOk result (Appends (W.contents writer.old) (W.contents writer.new)
        (codes "to " ++ (id.now ++ (codes " unicast " ++ (encode_lower chaddr ++ codes " "))))) }
    ensures err { OnErr result (AppendsPrefix (W.contents writer.old) (W.contents writer.new)
        (codes "to " ++ (id.now ++ (codes " unicast " ++ (encode_lower chaddr ++ codes " "))))) }
    ensures quiet { OnOk result (W.failures writer.new ≡ W.failures writer.old) }
    ensures cause { OnErr result (W.failures writer.new ≡ W.failures writer.old + 1) }
{
    let mut digits = [0; 12];
    let _ = hex::encode_to_slice(chaddr.as_slice(), &mut digits);
    write_parts(writer, &[b"to ", id, b" unicast ", &digits, b" "])
}

fn write_unicast<W: ByteWriter>(
    writer: &mut W,
    id: &[u8],
    chaddr: [u8; 6],
    yiaddr: Addr4,
    frame: &[u8],
) -> Result<(), Failed>
    ensures ok { OnOk result (Appends (W.contents writer.old) (W.contents writer.new)
        (codes "to " ++ (id.now ++ (codes " unicast " ++ (encode_lower chaddr ++ codes " ")))
        ++ (dotted yiaddr.0 ++ (codes " " ++ (frame.now ++ codes "\n"))))) }
    ensures err { OnErr result (AppendsPrefix (W.contents writer.old) (W.contents writer.new)
        (codes "to " ++ (id.now ++ (codes " unicast " ++ (encode_lower chaddr ++ codes " ")))
        ++ (dotted yiaddr.0 ++ (codes " " ++ (frame.now ++ codes "\n"))))) }
    ensures quiet { OnOk result (W.failures writer.new ≡ W.failures writer.old) }
    ensures cause { OnErr result (W.failures writer.new ≡ W.failures writer.old + 1) }
{
    if let Err(failed) = write_unicast_heading(writer, id, chaddr) {
        return Err(failed);
    }
    if let Err(failed) = write_dotted(writer, yiaddr) {
        return Err(failed);
    }
    write_parts(writer, &[b" ", frame, b"\n"])
}

fn write_peer<W: ByteWriter>(
    writer: &mut W,
    id: &[u8],
    address: Addr6,
    frame: &[u8],
) -> Result<(), Failed>
    ensures ok { OnOk result (Appends (W.contents writer.old) (W.contents writer.new)
        (codes "to " ++ id.now ++ codes " peer " ++ encode_lower address.0 ++ codes " " ++ frame.now ++ codes "\n")) }
    ensures err { OnErr result (AppendsPrefix (W.contents writer.old) (W.contents writer.new)
        (codes "to " ++ id.now ++ codes " peer " ++ encode_lower address.0 ++ codes " " ++ frame.now ++ codes "\n")) }
    ensures quiet { OnOk result (W.failures writer.new ≡ W.failures writer.old) }
    ensures cause { OnErr result (W.failures writer.new ≡ W.failures writer.old + 1) }
{
    let mut digits = [0; 32];
    let _ = hex::encode_to_slice(address.0.as_slice(), &mut digits);
    write_parts(
        writer,
        &[b"to ", id, b" peer ", &digits, b" ", frame, b"\n"],
    )
}

/// Writes `ok`.
pub(crate) fn write_done<W: ByteWriter>(writer: &mut W) -> Result<(), Failed>
    ensures ok { OnOk result (Appends (W.contents writer.old) (W.contents writer.new) (with_newline (effect_text [] Done))) }
    ensures err { OnErr result (AppendsPrefix (W.contents writer.old) (W.contents writer.new) (with_newline (effect_text [] Done))) }
    ensures quiet { OnOk result (W.failures writer.new ≡ W.failures writer.old) }
    ensures cause { OnErr result (W.failures writer.new ≡ W.failures writer.old + 1) }
{
    writer.write_all(b"ok\n")
}

/// Writes the outcome of an event of the circuit with this id. The digits of a frame are put into this row.
pub(crate) fn write_outcome<W: ByteWriter>(
    writer: &mut W,
    id: &[u8],
    outcome: Outcome,
    out: &PacketBuf,
    row: &mut [u8; MAX_DIGITS],
) -> Result<(), Failed>
    ensures ok { OnOk result (Appends (W.contents writer.old) (W.contents writer.new)
        (with_newline (effect_text id.now (outcome_effect outcome out.now)))) }
    ensures err { OnErr result (AppendsPrefix (W.contents writer.old) (W.contents writer.new)
        (with_newline (effect_text id.now (outcome_effect outcome out.now)))) }
    ensures quiet { OnOk result (W.failures writer.new ≡ W.failures writer.old) }
    ensures cause { OnErr result (W.failures writer.new ≡ W.failures writer.old + 1) }
{
    match outcome {
        Outcome::Dropped(why) => write_number(writer, b"drop ", u64::from(why.number())),
        Outcome::Gone => writer.write_all(b"gone\n"),
        Outcome::SentUp(len) => write_number(writer, b"up ", len as u64),
        Outcome::SentDown(len) => write_number(writer, b"down ", len as u64),
        Outcome::Framed(_, dest) => write_frame(writer, id, dest, out, row),
        Outcome::Done => write_done(writer),
        Outcome::Batched(_) => writer.write_all(b"gone\n"),
        Outcome::NotABatch => writer.write_all(b"gone\n"),
        Outcome::NotAStray => writer.write_all(b"gone\n"),
        Outcome::NoPlan => writer.write_all(b"gone\n"),
    }
}
