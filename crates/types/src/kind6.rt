//! DHCPv6 message types.
ghost use Rattle.std.specs.Prelude.{◌≡◌};
ghost use Rattle.types.specs.Kind6.{code_of_kind6, kind6_of_code};

/// The type of a DHCPv6 message that a client sends about its addresses (RFC 8415, section 7.3).
#[derive(Clone, Copy, PartialEq, Eq)]
pub enum Kind6 {
    Solicit,
    Request,
    Confirm,
    Renew,
    Rebind,
    Release,
    Decline,
}

impl Kind6 {
    /// The type of this code; `None` for every other type, those of servers and relays too.
    pub fn new(code: u8) -> Option<Kind6>
        ensures { result ≡ kind6_of_code code }
    {
        match code {
            1 => Some(Kind6::Solicit),
            3 => Some(Kind6::Request),
            4 => Some(Kind6::Confirm),
            5 => Some(Kind6::Renew),
            6 => Some(Kind6::Rebind),
            8 => Some(Kind6::Release),
            9 => Some(Kind6::Decline),
            _ => None,
        }
    }

    /// The first byte of a message of this type.
    pub fn code(self) -> u8
        ensures code { result ≡ code_of_kind6 self }
    {
        match self {
            Kind6::Solicit => 1,
            Kind6::Request => 3,
            Kind6::Confirm => 4,
            Kind6::Renew => 5,
            Kind6::Rebind => 6,
            Kind6::Release => 8,
            Kind6::Decline => 9,
        }
    }
}
