//! Addresses of both protocols, and where a datagram came from.
ghost use Rattle.std.specs.Prelude.{◌≡◌, ◌<◌, ◌^◌, length};
ghost use Rattle.types.specs.Addr.{number4, addr4, number6, addr6, is_unspecified};

/// An IPv4 address, its first byte first.
#[derive(Clone, Copy, Debug, Default, PartialEq, Eq)]
pub struct Addr4(pub [u8; 4]);

/// An IPv6 address, its first byte first.
#[derive(Clone, Copy, Default, PartialEq, Eq)]
pub struct Addr6(pub [u8; 16]);

/// The address and UDP port that a datagram came from.
#[derive(Clone, Copy, Debug, PartialEq, Eq)]
pub struct Source {
    pub addr: Addr4,
    pub port: u16,
}

impl Source {
    /// 0.0.0.0 and port 0, from which nothing comes.
    pub const UNSPECIFIED: Source = Source {
        addr: Addr4::UNSPECIFIED,
        port: 0,
    };
}

impl Addr4 {
    /// 0.0.0.0, which stands for an address that is not given (RFC 1122, section 3.2.1.3).
    pub const UNSPECIFIED: Addr4 = Addr4([0; 4]);

    /// Whether this is 0.0.0.0.
    pub fn is_unspecified(self) -> bool
        ensures value { result ≡ is_unspecified self.0 }
        ensures size { length self.0 ≡ 4 }
    {
        self.0 == [0; 4]
    }

    /// The address as a number, its first byte the most significant.
    pub fn number(self) -> u32
        ensures value { result ≡ number4 self }
        ensures within { result < 2 ^ 32 }
    {
        u32::from_be_bytes(self.0)
    }

    /// The address of a number.
    pub fn from_number(number: u32) -> Addr4
        ensures address { result ≡ addr4 number }
        ensures number { number4 result ≡ number }
    {
        Addr4(number.to_be_bytes())
    }
}

impl Addr6 {
    /// The address as a number, its first byte the most significant.
    pub fn number(self) -> u128
        ensures value { result ≡ number6 self }
        ensures within { result < 2 ^ 128 }
    {
        u128::from_be_bytes(self.0)
    }

    /// The address of a number.
    pub fn from_number(number: u128) -> Addr6
        ensures address { result ≡ addr6 number }
        ensures number { number6 result ≡ number }
    {
        Addr6(number.to_be_bytes())
    }
}
