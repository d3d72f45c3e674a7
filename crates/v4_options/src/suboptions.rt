//! The suboptions in a relay agent information option (RFC 3046, section 2.0).
ghost use Rattle.std.specs.Prelude.{◌≡◌, ◌↔◌, ℕ, List, Ok, Err, option_map};
ghost use Rattle.v4_options.specs.Spelling.{look_up};
ghost use Rattle.v4_options.specs.Suboptions.{SpellsSuboptions, FailsSuboptions};
ghost use Rattle.v4_options.specs.Reading.{fault_from, no_code};
ghost use Rattle.v4_options.specs.Subreading.{subfault, suboptions_of};
ghost use Rattle.v4_options.specs.declared.token.Syntax.TheVariants as syntax;

use crate::fault::{OptFault, SuboptFault, suboption_fault};
use crate::iter::Iter;
use crate::token::Syntax;
use std::marker::Model;

/// A list of suboptions in the bytes that it was read from. Its values are slices of those bytes.
#[derive(Drop)]
pub struct Suboptions<'a> {
    bytes: &'a [u8],
}

impl<'a> Model for Suboptions<'a> {
    ghost use Rattle.std.specs.Prelude.{ℕ, List};
    ghost use Rattle.v4_options.specs.Reading.{listed_from};
    ghost use Rattle.v4_options.specs.declared.token.Syntax.TheVariants as syntax;

    ghost Value = { List (ℕ × List ℕ) };

    ghost view = { λ s. listed_from syntax.Suboptions 0 s.bytes.now };
}

impl<'a> Suboptions<'a> {
    /// The suboptions in an option's value. All of its bytes are read.
    pub fn read(bytes: &'a [u8]) -> Result<Suboptions<'a>, SuboptFault>
        ensures exact { result ≡ suboptions_of bytes.now }
        ensures spelled { (list : List (ℕ × List ℕ)) → result ≡ Ok list ↔ SpellsSuboptions bytes.now list }
        ensures fails { (fault : SuboptFault) → result ≡ Err fault ↔ FailsSuboptions fault bytes.now }
    {
        match subfault_in(bytes) {
            None => Ok(Suboptions { bytes }),
            Some(fault) => Err(fault),
        }
    }

    /// The value of the suboption with this code, `None` where there is none.
    pub fn get(&self, code: u8) -> Option<&'a [u8]>
        ensures { option_map (λ value. value.now) result ≡ look_up code self.now }
    {
        Iter::new(self.bytes, Syntax::Suboptions).value_of(code)
    }
}

/// The first fault from the left. The list ends with its bytes, so a missing end is no fault.
fn subfault_in(bytes: &[u8]) -> Option<SuboptFault>
    ensures { result ≡ subfault (fault_from syntax.Suboptions no_code 0 bytes.now) }
{
    match suboption_fault(bytes) {
        None | Some(OptFault::NoEnd) => None,
        Some(OptFault::Cut) => Some(SuboptFault::Cut),
        Some(OptFault::Twice) => Some(SuboptFault::Twice),
    }
}
