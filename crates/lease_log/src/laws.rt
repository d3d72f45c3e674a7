//! What holds of the changes: a function that does nothing, for its contract.
ghost use Rattle.std.specs.Prelude.{◌≡◌, ◌-◌, ◌<◌, ◌≤◌, ℕ};
ghost use Rattle.types.specs.declared.slots.Slots.{Slots};
ghost use Rattle.config.specs.CircuitPart.{CircuitPart};
ghost use Rattle.lease_log.specs.Look.{end_of, slot4, slot6, start_of};
ghost use Rattle.lease_log.specs.Told.{after4, after6, client4, client6};

/// Who knows who had a slot at the earlier look, and is told of its end and its start, knows who has it now.
pub fn changes_tell_who_has_a_slot()
    ensures four { (part : CircuitPart) (slot : ℕ) (old new : Slots) (now : ℕ) → slot < 16 → slot < part.count4
        → after4 (client4 (slot4 old slot old.clock)) (end_of part slot old new now) (start_of part slot old new now)
        ≡ client4 (slot4 new slot now) }
    ensures six { (part : CircuitPart) (slot : ℕ) (old new : Slots) (now : ℕ) → 16 ≤ slot → slot - 16 < part.count6
        → after6 (client6 (slot6 old (slot - 16) old.clock)) (end_of part slot old new now)
        (start_of part slot old new now) ≡ client6 (slot6 new (slot - 16) now) }
{}
