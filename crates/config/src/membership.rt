//! Which circuits each of several plans has, and which plan is in force.
ghost use Rattle.std.specs.Prelude.{◌≡◌, ◌<◌, ◌≤◌, length, map, nat_lt, All};
ghost use Rattle.config.specs.Membership.{IsMembership, has, with_plan};

use crate::plans::MAX_PLANS;
use arrayvec::ArrayVec;
use std::marker::Model;
use types::Circuit;

/// Whether each plan has a circuit, in the order of the plans.
pub type Members = ArrayVec<bool, MAX_PLANS>;

/// Which circuits each of at most 8 plans has, and which plan is in force.
#[derive(Drop)]
pub struct Membership {
    /// One for each circuit, in order, with as many plans each as there are.
    members: Vec<Members>,
    count: usize,
    plan: usize,
}

impl Model for Membership {
    ghost use Rattle.std.specs.Prelude.{length, map};
    ghost use Rattle.config.specs.Membership.{IsMembership, MembershipValue};

    ghost Value = { MembershipValue };

    ghost view = { λ m. record { count = m.count; members = map (λ row. row.items) m.members.items; plan = m.plan } };

    ghost invariant = { λ m.
        IsMembership (length m.members.items)
        (record { count = m.count; members = map (λ row. row.items) m.members.items; plan = m.plan }) };
}

impl Membership {
    /// Of the first of so many plans, which is in force, with these members.
    pub fn of(members: Vec<Members>, count: usize) -> Membership
        requires some { 1 ≤ count }
        requires few { count ≤ 8 }
        requires each_plan { All (λ row. length row.items ≡ count) members.items }
        ensures { result ≡ record { count = count; members = map (λ row. row.items) members.items; plan = 0 } }
    {
        Membership {
            members,
            count,
            plan: 0,
        }
    }

    /// Whether there is such a plan.
    pub fn exists(&self, plan: usize) -> bool
        ensures { result ≡ nat_lt plan self.now.count }
    {
        plan < self.count
    }

    /// Whether there is such a plan and it has this circuit.
    pub fn has(&self, plan: usize, circuit: Circuit) -> bool
        requires { circuit < length self.now.members }
        ensures { result ≡ has self.now plan circuit }
    {
        let row = &self.members[circuit.index()];
        row.get(plan).copied().unwrap_or(false)
    }

    /// Whether the plan in force has a circuit.
    pub fn serves(&self, circuit: Circuit) -> bool
        requires { circuit < length self.now.members }
        ensures { result ≡ has self.now self.now.plan circuit }
    {
        self.has(self.plan, circuit)
    }

    /// Puts another plan in force; false, and nothing changed, where there is no such plan.
    pub fn reload(&mut self, plan: usize) -> bool
        ensures value { self.new ≡ with_plan plan self.old }
        ensures answer { result ≡ nat_lt plan self.old.count }
    {
        if plan >= self.count {
            return false;
        }
        self.plan = plan;
        true
    }
}
