//! How regions come back at a restart.
ghost use Rattle.std.specs.Prelude.{◌≡◌, ◌<◌, ℕ, false, length, slice_index_or, IfSome};
ghost use Rattle.events.specs.Seen.{comeback_at};
ghost use Rattle.lab_text.specs.Fields.{comeback_of, named_comeback, number_to, synced_at};

use crate::circuits::circuit_named;
use crate::digits::number;
use crate::hexadecimal::byte;
use crate::parting::{parted, parted_last};
use config::Config;
use events::Comeback;
use lease_disk::Image;
use types::Circuit;

/// The last call of the disk in a move.
pub const MAX_MOVE_FAULT: u64 = 4;

/// Each unsynced byte becomes 0, and no call fails.
pub const ZEROED: Comeback = Comeback {
    image: Image::Byte(0),
    move_fault: 0,
};

/// No circuit is named.
pub(crate) fn clear_names(named: &mut [bool])
    ensures { (c : ℕ) → slice_index_or named.new c false ≡ false }
{
    for name in named.iter_mut() {
        *name = false;
    }
}

/// Each circuit's unsynced bytes become 0.
pub(crate) fn clear_comebacks(comebacks: &mut [Comeback])
    ensures { (c : ℕ) → comeback_at c comebacks.new ≡ synced_at 0 0 }
{
    for comeback in comebacks.iter_mut() {
        *comeback = ZEROED;
    }
}

/// The number of the call of the disk that fails in a move.
pub(crate) fn move_fault(text: &[u8]) -> Option<u8>
    ensures { result ≡ number_to 4 text.now }
{
    match number(text, MAX_MOVE_FAULT) {
        Some(number) => Some(number as u8),
        None => None,
    }
}

/// How the text says that a region comes back: `unreadable`, two hexadecimal digits, or these, a colon and
/// the number of the call that fails.
fn comeback(text: &[u8]) -> Option<Comeback>
    ensures { result ≡ comeback_of text.now }
{
    if text == b"unreadable".as_slice() {
        return Some(Comeback {
            image: Image::Unreadable,
            move_fault: 0,
        });
    }
    let (digits, fault) = match parted(text, b':') {
        Some((digits, fault)) => (digits, move_fault(fault)?),
        None => (text, 0),
    };
    let byte = byte(digits)?;
    Some(Comeback {
        image: Image::Byte(byte),
        move_fault: fault,
    })
}

/// The circuit that a field names, and how its region comes back.
pub(crate) fn named_comeback(config: &Config, field: &[u8]) -> Option<(Circuit, Comeback)>
    ensures value { result ≡ named_comeback config.now field.now }
    ensures within { IfSome result (λ named. named.0 < length config.now.circuits) }
{
    let (id, text) = parted_last(field, b'=')?;
    let circuit = circuit_named(config, id)?;
    let comeback = comeback(text)?;
    Some((circuit, comeback))
}
