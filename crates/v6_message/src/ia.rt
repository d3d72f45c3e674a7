//! What an IA_NA has to be (RFC 8415, section 21.4).
ghost use Rattle.std.specs.Prelude.{◌≡◌, nat_le, drop};
ghost use Rattle.v6_options.specs.Codes.{IA_ADDRESS};
ghost use Rattle.v6_options.specs.Reading.{listed};
ghost use Rattle.v6_message.specs.Ia.{addresses_in, ia_of, status_in};
ghost use Rattle.v6_message.specs.Layout.{IA_OPTIONS};
ghost use Rattle.v6_message.specs.Lists.{count, AreLong};
ghost use Rattle.v6_message.specs.Reading.{are_long, is_ia};

use crate::count::has_at_most;
use crate::ia_address::{Addresses, IA_ADDRESS_OPTIONS};
use crate::parts::array_at;
use crate::status::status_of;
use std::marker::Model;
use v6_options::{Options, code};

/// The bytes of IAID, T1 and T2. The options follow them.
const IA_OPTIONS: usize = 12;

/// The most addresses that a client may list.
const MAX_ADDRESSES: u8 = 4;

/// An IA_NA in the value that it was read from. Its options are slices of that value.
#[derive(Drop)]
pub struct Ia6<'a> {
    value: &'a [u8],
    options: Options<'a>,
}

impl<'a> Model for Ia6<'a> {
    ghost use Rattle.v6_message.specs.Ia.{IaValue, IsReadIa, ia_at};

    ghost Value = { IaValue };

    ghost view = { λ ia. ia_at ia.value.now ia.options };

    ghost invariant = { λ ia. IsReadIa ia.value.now ia.options };
}

impl<'a> Ia6<'a> {
    /// The IA_NA with this value: IAID, T1, T2, and whole options, each address with its two lifetimes.
    /// `None` for another value.
    pub fn read(value: &'a [u8]) -> Option<Ia6<'a>>
        ensures { result ≡ ia_of value.now }
    {
        if value.len() < IA_OPTIONS {
            return None;
        }
        let (_, tail) = value.split_at(IA_OPTIONS);
        match Options::read(tail) {
            Ok(options) if are_long(&options) => Some(Ia6 { value, options }),
            Ok(_) | Err(_) => None,
        }
    }

    /// The number by which the client knows this IA_NA.
    pub fn iaid(&self) -> u32
        ensures { result ≡ self.now.iaid }
    {
        u32::from_be_bytes(*array_at(self.value, 0))
    }

    /// In seconds.
    pub fn t1(&self) -> u32
        ensures { result ≡ self.now.t1 }
    {
        u32::from_be_bytes(*array_at(self.value, 4))
    }

    /// In seconds.
    pub fn t2(&self) -> u32
        ensures { result ≡ self.now.t2 }
    {
        u32::from_be_bytes(*array_at(self.value, 8))
    }

    /// The options inside, its addresses among them.
    pub fn options(&self) -> &Options<'a>
        ensures { result.now ≡ self.now.options }
    {
        &self.options
    }

    /// Its addresses, in order.
    pub fn addresses(&self) -> Addresses<'a>
        ensures value { result ≡ addresses_in self.now.options }
        ensures long { AreLong self.now.options }
    {
        Addresses::new(&self.options)
    }

    /// The code of option 13, a status; `None` where there is no such option, or it has fewer than 2 bytes.
    pub fn status(&self) -> Option<u16>
        ensures { result ≡ status_in self.now.options }
    {
        status_of(&self.options)
    }
}

/// Whether the value of an IA_NA has its three numbers and whole options, each address with its two
/// lifetimes.
pub(crate) fn is_ia(value: &[u8]) -> bool
    ensures { result ≡ is_ia value.now }
{
    Ia6::read(value).is_some()
}

/// Whether the IA_NA with this value lists no more addresses than a client may.
pub(crate) fn has_few_addresses(value: &[u8]) -> bool
    ensures { result ≡ nat_le (count IA_ADDRESS (listed (drop IA_OPTIONS value.now))) 4 }
{
    if value.len() < IA_OPTIONS {
        return has_at_most(MAX_ADDRESSES, code::IA_ADDRESS, &[]);
    }
    let (_, tail) = value.split_at(IA_OPTIONS);
    has_at_most(MAX_ADDRESSES, code::IA_ADDRESS, tail)
}

fn are_long(options: &Options<'_>) -> bool
    ensures { result ≡ are_long options.now }
{
    'row: for (code, value) in options.iter() {
        if code == code::IA_ADDRESS && value.len() < usize::from(IA_ADDRESS_OPTIONS) {
            return false;
        }
    }
    true
}
