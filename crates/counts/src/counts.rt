//! What became of the datagrams that were received.
ghost use Rattle.std.specs.Prelude.{◌≡◌, if◌then◌else◌, slice_index, Some};
ghost use Rattle.std.specs.Fmt.{WritesOnOk};
ghost use Rattle.std.specs.List.{flat_map};
ghost use Rattle.types.specs.Discard.{number_of};
ghost use Rattle.counts.specs.Counts.{counted, counts_text, dropped_text, none, one_more, reasons, totals_text};
ghost use Rattle.counts.specs.declared.counts.Fate.TheVariants as fate;

use std::fmt;
use types::Discard;

/// Every reason, in the order of the numbers.
pub const REASONS: [Discard; 27] = [
    Discard::TooLong,
    Discard::MalformedUp,
    Discard::NotRequest,
    Discard::HasGiaddr,
    Discard::HasOption82,
    Discard::Hops,
    Discard::WrongType,
    Discard::NestedRelay,
    Discard::UnknownSource,
    Discard::Malformed,
    Discard::NotRelayed,
    Discard::UnknownCircuit,
    Discard::WrongLink,
    Discard::NoOverride,
    Discard::ClientKey,
    Discard::OtherServer,
    Discard::NoAddress,
    Discard::NoRecord,
    Discard::CircuitClosed,
    Discard::NotServed,
    Discard::DiskFault,
    Discard::NothingToSay,
    Discard::BatchTwice,
    Discard::NotServer,
    Discard::MalformedDown,
    Discard::UnknownCircuitDown,
    Discard::WrongLinkDown,
];

/// What became of a datagram that was taken from a socket.
#[derive(Clone, Copy, PartialEq, Eq)]
pub enum Fate {
    /// A relay sent the frame on to the server.
    Relayed,
    /// The server answered it.
    Answered,
    /// A relay sent the answer on to a circuit.
    Delivered,
    /// The system did not take what was to be sent.
    Unsent,
    Dropped(Discard),
}

impl Fate {
    /// What became of a datagram by whether the system took what was to be sent.
    pub fn if_sent(self, sent: bool) -> Fate
        ensures { result ≡ (if sent then self else fate.Unsent) }
    {
        if sent { self } else { Fate::Unsent }
    }
}

/// One more than the greatest number of a reason.
const NUMBERS: usize = 35;

/// What became of the datagrams that were received from the sockets. Each count stays at its greatest
/// value.
#[derive(Clone, Copy)]
pub struct Counts {
    /// Datagrams that were received from a socket.
    pub received: u64,
    /// Frames that a relay sent on to the server.
    pub relayed: u64,
    /// Datagrams that the server answered.
    pub answered: u64,
    /// Answers that a relay sent on to a circuit.
    pub delivered: u64,
    /// Datagrams that the system did not take when they were sent.
    pub unsent: u64,
    dropped: [u64; NUMBERS],
}

/// One more, up to the greatest value.
fn count(counter: &mut u64)
    ensures { counter.new ≡ one_more counter.old }
{
    *counter = counter.saturating_add(1);
}

impl Counts {
    /// Nothing was taken yet.
    pub fn new() -> Counts
        ensures { result ≡ none }
    {
        Counts {
            received: 0,
            relayed: 0,
            answered: 0,
            delivered: 0,
            unsent: 0,
            dropped: [0; NUMBERS],
        }
    }

    /// One more datagram was taken, and this became of it.
    pub fn count(&mut self, became: Fate)
        ensures { self.new ≡ counted became self.old }
    {
        count(&mut self.received);
        match became {
            Fate::Relayed => count(&mut self.relayed),
            Fate::Answered => count(&mut self.answered),
            Fate::Delivered => count(&mut self.delivered),
            Fate::Unsent => count(&mut self.unsent),
            Fate::Dropped(why) => count(&mut self.dropped[usize::from(why.number())]),
        }
    }

    /// How many datagrams were dropped for this reason.
    pub fn dropped(&self, why: Discard) -> u64
        ensures { result ≡ slice_index self.now.dropped (number_of why) }
    {
        self.dropped[usize::from(why.number())]
    }
}

/// Writes one line of totals.
fn write_totals<W: fmt::Write>(counts: &Counts, f: &mut fmt::Formatter<W>) -> fmt::Result
    ensures { WritesOnOk W.write_str_gives f.old result (totals_text counts.now) f.new }
{
    let (received, relayed, answered) = (counts.received, counts.relayed, counts.answered);
    let (delivered, unsent) = (counts.delivered, counts.unsent);
    write!(
        f,
        "{received} datagrams received, {relayed} sent on to the server, {answered} answered, \
         {delivered} sent on to a circuit, {unsent} not sent"
    )
}

/// Writes a line for a reason, where a datagram was dropped for it.
fn write_dropped<W: fmt::Write>(
    counts: &Counts,
    why: Discard,
    f: &mut fmt::Formatter<W>,
) -> fmt::Result
    ensures { WritesOnOk W.write_str_gives f.old result (dropped_text counts.now.dropped why) f.new }
{
    let (dropped, number) = (counts.dropped(why), why.number());
    if dropped == 0 {
        return Ok(());
    }
    write!(f, "\n{dropped} dropped ({number}): {why}")
}

/// Writes a line for each reason for which a datagram was dropped.
fn write_reasons<W: fmt::Write>(counts: &Counts, f: &mut fmt::Formatter<W>) -> fmt::Result
    ensures { WritesOnOk W.write_str_gives f.old result (flat_map (dropped_text counts.now.dropped) reasons) f.new }
{
    'reasons: for why in REASONS.iter() {
        write_dropped(counts, *why, f)?;
    }
    Ok(())
}

/// One line of totals, and one for each reason for which a datagram was dropped.
impl fmt::Display for Counts {
    ghost output = { λ counts. Some (counts_text counts) };

    fn fmt<W: fmt::Write>(&self, f: &mut fmt::Formatter<W>) -> fmt::Result {
        write_totals(self, f)?;
        write_reasons(self, f)
    }
}
