//! DHCPv4 message types.
ghost use Rattle.std.specs.Prelude.{◌≡◌, ◌≤◌, ◌↔◌, IsSome, IfSome};
ghost use Rattle.types.specs.Kind4.{code_of_kind, kind_of_code};

/// A DHCPv4 message type: the value of option 53 (RFC 2132, section 9.6).
#[derive(Clone, Copy, PartialEq, Eq)]
pub enum Kind4 {
    Discover,
    Offer,
    Request,
    Decline,
    Ack,
    Nak,
    Release,
    Inform,
}

impl Kind4 {
    /// The type of this code; `None` where no type has it.
    pub fn new(code: u8) -> Option<Kind4>
        ensures within { IsSome result ↔ ((1 ≤ code) × (code ≤ 8)) }
        ensures value { IfSome result (λ kind. code_of_kind kind ≡ code) }
        ensures kind { result ≡ kind_of_code code }
    {
        match code {
            1 => Some(Kind4::Discover),
            2 => Some(Kind4::Offer),
            3 => Some(Kind4::Request),
            4 => Some(Kind4::Decline),
            5 => Some(Kind4::Ack),
            6 => Some(Kind4::Nak),
            7 => Some(Kind4::Release),
            8 => Some(Kind4::Inform),
            _ => None,
        }
    }

    /// The value of option 53.
    pub fn code(self) -> u8
        ensures { result ≡ code_of_kind self }
    {
        match self {
            Kind4::Discover => 1,
            Kind4::Offer => 2,
            Kind4::Request => 3,
            Kind4::Decline => 4,
            Kind4::Ack => 5,
            Kind4::Nak => 6,
            Kind4::Release => 7,
            Kind4::Inform => 8,
        }
    }
}
