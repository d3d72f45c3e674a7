//! Several configurations of one server, read together.
ghost use Rattle.std.specs.Prelude.{◌≡◌, ◌<◌, ◌≤◌, Bool, List, length, map, slice_get, All, IfOk, IfErr, Some};
ghost use Rattle.std.specs.List.{AllZip};
ghost use Rattle.config.specs.Plans.{ArePlans, ArePlansOf, IsFaultBetween, IsPlansFaultOf};
ghost use Rattle.config.specs.Rules.{IsSound};
ghost use Rattle.config.specs.Valid.{IsConfig};

use crate::config::Config;
use crate::differences::{circuit_difference, server_difference};
use crate::members::members_of;
use crate::membership::Members;
use crate::union::union_of;
use settings::ConfigFault;
use std::alloc::Global;
use std::marker::Model;
use types::Circuit;

/// The most configurations that are read together.
pub const MAX_PLANS: usize = 8;

/// Several configurations of one server, the plans: each has the same server and the same relays, and any of
/// the circuits. What they have together keeps every rule of a configuration.
#[derive(Drop)]
pub struct Plans {
    union: Config,
    members: Vec<Members>,
    count: usize,
}

impl Model for Plans {
    ghost use Rattle.std.specs.Prelude.{◌≡◌, ◌≤◌, length, map, All};
    ghost use Rattle.config.specs.Plans.{PlansValue};

    ghost Value = { PlansValue };

    ghost view = { λ p. record { union = p.union; members = map (λ row. row.items) p.members.items; count = p.count } };

    ghost invariant = { λ p.
        (1 ≤ p.count) × (p.count ≤ 8) × (length p.members.items ≡ length p.union.circuits)
        × All (λ row. length row.items ≡ p.count) p.members.items };
}

/// The configurations of all texts, in order, or the fault of the first that is none.
fn configs_of(alloc: Global, texts: &[&str]) -> Result<Vec<Config>, ConfigFault>
    ensures read { IfOk result (λ configs. AllZip IsConfig (map (λ text. text.now) texts.now) configs.items) }
    ensures sound { IfOk result (λ configs. All IsSound configs.items) }
    ensures broken { IfErr result (IsPlansFaultOf (map (λ text. text.now) texts.now)) }
{
    let Ok(mut configs) = Vec::with_capacity(alloc, texts.len()) else {
        return Err(ConfigFault::Memory);
    };
    for text in texts {
        let config = match Config::read(alloc, text) {
            Ok(config) => config,
            Err(fault) => return Err(fault),
        };
        if configs.push(config).is_err() {
            return Err(ConfigFault::Memory);
        }
    }
    Ok(configs)
}

/// The plans that these configurations are, or the first fault between them.
fn plans_of(alloc: Global, configs: &[Config]) -> Result<Plans, ConfigFault>
    requires some { 1 ≤ length configs.now }
    requires few { length configs.now ≤ 8 }
    requires sound { All IsSound configs.now }
    ensures plans { IfOk result (ArePlansOf configs.now) }
    ensures broken { IfErr result (IsFaultBetween configs.now) }
{
    if let Some(difference) = server_difference(configs) {
        return Err(ConfigFault::ServerDiffers(difference));
    }
    if let Some(difference) = circuit_difference(configs) {
        return Err(ConfigFault::CircuitDiffers(difference));
    }
    let union = match union_of(alloc, configs) {
        Ok(union) => union,
        Err(fault) => return Err(fault),
    };
    match members_of(alloc, union.circuits(), configs) {
        Ok(members) => Ok(Plans {
            union,
            members,
            count: configs.len(),
        }),
        Err(_) => Err(ConfigFault::Memory),
    }
}

impl Plans {
    /// Reads 1 to 8 texts: their plans, or the first of these faults that stands. The fault of the first text
    /// that is not a configuration (40 to 49); a server or relays that are not those of the first text (50);
    /// circuits of one id in two texts with different values (51); the lowest of 43 and 45 to 48 that all
    /// circuits together break, of which a circuit's number is its place in the union.
    pub fn read(alloc: Global, texts: &[&str]) -> Result<Plans, ConfigFault>
        requires least { 1 ≤ length texts.now }
        requires most { length texts.now ≤ 8 }
        ensures valid { IfOk result (ArePlans (map (λ text. text.now) texts.now)) }
        ensures broken { IfErr result (IsPlansFaultOf (map (λ text. text.now) texts.now)) }
    {
        match configs_of(alloc, texts) {
            Ok(configs) => plans_of(alloc, &configs),
            Err(fault) => Err(fault),
        }
    }

    /// The server and the relays, and every circuit of any plan, in order of first appearance.
    pub fn union(&self) -> &Config
        ensures { result.now ≡ self.now.union }
    {
        &self.union
    }

    /// How many plans there are, 1 to 8.
    pub fn count(&self) -> usize
        ensures value { result ≡ self.now.count }
        ensures least { 1 ≤ result }
        ensures most { result ≤ 8 }
        ensures circuits { length self.now.members ≡ length self.now.union.circuits }
        ensures rows { All (λ row. length row ≡ result) self.now.members }
    {
        self.count
    }

    /// For each circuit of the union, whether each plan has it.
    pub(crate) fn members(&self) -> &[Members]
        ensures value { map (λ row. row.items) result.now ≡ self.now.members }
        ensures rows { All (λ row. length row.items ≡ self.now.count) result.now }
        ensures circuits { length result.now ≡ length self.now.union.circuits }
    {
        &self.members
    }

    /// Whether this plan, counted from 0, has this circuit of the union.
    pub fn has(&self, plan: usize, circuit: Circuit) -> bool
        requires plan { plan < self.now.count }
        requires circuit { circuit < length self.now.union.circuits }
        ensures { (row : List Bool) → slice_get self.now.members circuit ≡ Some row → slice_get row plan ≡ Some result }
    {
        self.members[circuit.index()][plan]
    }
}
