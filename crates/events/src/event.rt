//! What happens to relay, network and server.
use crate::batch::BatchPart;
use crate::comeback::Comeback;
use types::{Circuit, Moment, Proto, RelayNo, Source};

/// One thing that happens, taken whole before the next. It lends its bytes.
#[derive(Clone, Copy)]
pub enum Event<'a> {
    /// A client of the circuit sends a frame, and the relay gets it.
    Frame(Circuit, Proto, &'a [u8]),
    /// The datagram towards the server with this number, 0 the newest of the circuit, is delivered
    /// at this moment. The last number says which call of the disk fails in this step's save, 1 the
    /// first and 6 the last, any other number none; without a save it has no effect.
    Up(Circuit, u16, Moment, u8),
    /// A datagram of each of these circuits, 1 to 16 of them, is delivered to the server at this moment. Their saves share
    /// three syncs. The second number says which of these fails, 2, 4 or 6 as calls of a save count; any other number none.
    Batch(Moment, u8, &'a [BatchPart]),
    /// The datagram towards the relay with this number, 0 the newest of the circuit, is delivered.
    Down(Circuit, u16),
    /// The moment passes for all circuits.
    Tick(Moment),
    /// The server and the disk stop and start again. Each circuit's region comes back as the list says; that of a
    /// circuit past its end with `Image::Byte(0)`, and without a fault.
    Restart(&'a [Comeback]),
    /// The plan of this number, 0 the first, comes into force.
    Reload(u8),
    /// A datagram that no relay of the configuration sent reaches the server at this moment.
    StrayUp(Proto, Source, &'a [u8], Moment),
    /// A datagram that the server did not send reaches a relay.
    StrayDown(RelayNo, Source, &'a [u8]),
}
