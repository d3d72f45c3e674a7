//! The texts of a pool.
ghost use Rattle.std.specs.Prelude.{◌≡◌, Some, IfOk};
ghost use Rattle.lease_list.specs.Pool.{pool4_texts, pool6_texts, pool_text, proto_text};

use crate::lease::Lease;
use crate::pool::{Usage, last4, last6, usage_of};
use crate::row::{text4, text6};
use std::alloc::{AllocError, Global};
use std::fmt;
use std::marker::Model;
use types::{Pool4, Pool6, Proto};

/// What a line says of a pool.
#[derive(Drop)]
pub struct PoolRow<'a> {
    /// The circuit's id.
    pub circuit: &'a str,
    pub proto: Proto,
    /// The lowest and the highest address.
    pub first: String,
    pub last: String,
    pub usage: Usage,
}

impl<'a> Model for PoolRow<'a> {
    ghost use Rattle.std.specs.Prelude.{string_bytes};
    ghost use Rattle.lease_list.specs.Pool.{PoolTexts};

    ghost Value = { PoolTexts };

    ghost view = { λ r.
        record {
          circuit = r.circuit.now;
          proto = r.proto;
          first = string_bytes r.first;
          last = string_bytes r.last;
          usage = r.usage;
        } };
}

fn proto_text(proto: Proto) -> &'static str
    ensures { result.now ≡ proto_text proto }
{
    match proto {
        Proto::V4 => "DHCPv4",
        Proto::V6 => "DHCPv6",
    }
}

impl<'a> PoolRow<'a> {
    /// The texts of a DHCPv4 pool of the circuit with this id, which has these leases.
    pub fn four(
        alloc: Global,
        circuit: &'a str,
        pool: Pool4,
        leases: &[Lease],
    ) -> Result<PoolRow<'a>, AllocError>
        ensures { IfOk result (λ row. row ≡ pool4_texts circuit.entry.now pool leases.now) }
    {
        let first = text4(alloc, pool.first())?;
        let last = text4(alloc, last4(pool))?;
        let usage = usage_of(Proto::V4, pool.count(), leases);
        Ok(PoolRow {
            circuit,
            proto: Proto::V4,
            first,
            last,
            usage,
        })
    }

    /// The texts of a DHCPv6 pool of the circuit with this id, which has these leases.
    pub fn six(
        alloc: Global,
        circuit: &'a str,
        pool: Pool6,
        leases: &[Lease],
    ) -> Result<PoolRow<'a>, AllocError>
        ensures { IfOk result (λ row. row ≡ pool6_texts circuit.entry.now pool leases.now) }
    {
        let first = text6(alloc, pool.first())?;
        let last = text6(alloc, last6(pool))?;
        let usage = usage_of(Proto::V6, pool.count(), leases);
        Ok(PoolRow {
            circuit,
            proto: Proto::V6,
            first,
            last,
            usage,
        })
    }
}

impl<'a> fmt::Display for PoolRow<'a> {
    ghost output = { λ row. Some (pool_text row) };

    fn fmt<W: fmt::Write>(&self, f: &mut fmt::Formatter<W>) -> fmt::Result {
        let (circuit, proto) = (self.circuit, proto_text(self.proto));
        let (first, last) = (self.first.as_str(), self.last.as_str());
        let Usage {
            leased,
            declined,
            free,
        } = self.usage;
        write!(
            f,
            "{circuit} {proto} {first} to {last}: {leased} leased, {declined} declined, {free} free"
        )
    }
}
