//! What reaches the server.
use crate::addr::Source;
use crate::dest::Proto;
use crate::moment::Moment;
use std::marker::Model;

/// A datagram that reaches the server, with where it came from and when. It lends its bytes.
#[derive(Drop)]
pub struct Delivery<'a> {
    pub proto: Proto,
    pub source: Source,
    pub moment: Moment,
    pub bytes: &'a [u8],
}

impl<'a> Model for Delivery<'a> {
    ghost use Rattle.types.specs.Delivery.{DeliveryValue};

    ghost Value = { DeliveryValue };

    ghost view = { λ d. record { proto = d.proto; source = d.source; moment = d.moment; bytes = d.bytes.now } };
}
