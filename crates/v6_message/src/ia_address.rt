//! The addresses in an IA_NA (RFC 8415, section 21.6).
ghost use Rattle.std.specs.Prelude.{◌≡◌, ◌≤◌, ◌+◌, ◌↔◌, [], ◌++◌, length, true, IsOk, OnOk, OnErr};
ghost use Rattle.v6_options.specs.Codes.{IA_ADDRESS};
ghost use Rattle.v6_options.specs.Spelling.{option};
ghost use Rattle.v6_message.specs.Ia.{address_at, address_bytes, addresses_in};
ghost use Rattle.v6_message.specs.Written.{address_value};
ghost use Rattle.v6_message.specs.Reading.{are_long};

use crate::parts::array_at;
use std::marker::Model;
use types::Addr6;
use v6_options::{Iter, Options, code};
use wire::{Full, PacketBuf};

/// The bytes of an address and its two lifetimes. Options follow them.
pub(crate) const IA_ADDRESS_OPTIONS: u16 = 24;

/// An address in an IA_NA, by the standard's names. The lifetimes are seconds.
#[derive(Clone, Copy, PartialEq, Eq)]
pub struct IaAddress {
    pub address: Addr6,
    pub preferred_lifetime: u32,
    pub valid_lifetime: u32,
}

impl IaAddress {
    /// Appends option 5 with this address and no options in it, 28 bytes. Where it does not fit, `out` is
    /// left empty.
    pub fn write(&self, out: &mut PacketBuf) -> Result<(), Full>
        ensures full { IsOk result ↔ (length out.old + 28 ≤ 1280) }
        ensures ok { OnOk result (out.new ≡ out.old ++ option IA_ADDRESS (address_bytes (address_value self.now))) }
        ensures err { OnErr result (out.new ≡ []) }
    {
        if out.extend(&code::IA_ADDRESS.to_be_bytes()).is_err()
            || out.extend(&IA_ADDRESS_OPTIONS.to_be_bytes()).is_err()
            || out.extend(&self.address.0).is_err()
            || out.extend(&self.preferred_lifetime.to_be_bytes()).is_err()
            || out.extend(&self.valid_lifetime.to_be_bytes()).is_err()
        {
            out.clear();
            return Err(Full);
        }
        Ok(())
    }
}

/// The addresses of an IA_NA that are still to come, in order. Other options, and those inside an
/// address, are ignored.
#[derive(Drop)]
pub struct Addresses<'a> {
    left: Iter<'a>,
}

impl<'a> Model for Addresses<'a> {
    ghost use Rattle.std.specs.Prelude.{◌≡◌, List, true};
    ghost use Rattle.v6_message.specs.Ia.{AddressValue, addresses_in};
    ghost use Rattle.v6_message.specs.Reading.{are_long};

    ghost Value = { List AddressValue };

    ghost view = { λ a. addresses_in a.left };

    ghost invariant = { λ a. are_long a.left ≡ true };
}

impl<'a> Addresses<'a> {
    pub(crate) fn new(options: &Options<'a>) -> Addresses<'a>
        requires { are_long options.now ≡ true }
        ensures { result ≡ addresses_in options.now }
    {
        Addresses {
            left: options.iter(),
        }
    }
}

impl<'a> Iterator for Addresses<'a> {
    ghost use Rattle.std.specs.Iterator.{item_count};
    ghost use Rattle.v6_message.specs.Written.{GivesAddress};

    type Item = IaAddress;

    ghost next_gives = { GivesAddress };

    ghost remaining = { item_count (λ addresses. addresses) };

    fn next(&mut self) -> Option<IaAddress> {
        'row: while let Some((code, value)) = self.left.next() {
            if code == code::IA_ADDRESS {
                return Some(address_of(value));
            }
        }
        None
    }
}

/// The address with this option's value.
fn address_of(value: &[u8]) -> IaAddress
    requires { 24 ≤ length value.now }
    ensures { address_value result ≡ address_at value.now }
{
    IaAddress {
        address: Addr6(*array_at(value, 0)),
        preferred_lifetime: u32::from_be_bytes(*array_at(value, 16)),
        valid_lifetime: u32::from_be_bytes(*array_at(value, 20)),
    }
}
