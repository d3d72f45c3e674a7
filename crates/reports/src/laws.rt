//! What holds of the reports: functions that do nothing, for their contracts.
ghost use Rattle.std.specs.Prelude.{◌≡◌, ◌+◌, ◌<◌, ◌≤◌, ℕ, Bool, true, false, List, count_by, length, nat_le, take, if◌then◌else◌};
ghost use Rattle.std.specs.List.{list_all, list_any};
ghost use Rattle.types.specs.declared.slot4.Slot4.{Slot4};
ghost use Rattle.types.specs.declared.slot6.Slot6.{Slot6};
ghost use Rattle.types.specs.declared.slots.Slots.{Slots};
ghost use Rattle.reports.specs.declared.schedule.Schedule.{Schedule};
ghost use Rattle.reports.specs.Declined.{declined_between};
ghost use Rattle.reports.specs.Once.{once, told_at};
ghost use Rattle.reports.specs.Schedule.{is_due, looked_at, no_report_yet};
ghost use Rattle.reports.specs.Used.{is_full4, is_full6, is_used4, is_used6};

/// Over any looks, what was not so before the first one is told once where it is so at one of them, and else never; what
/// was so before is never told.
pub fn tells_once()
    ensures new { (looks : List Bool)
        → count_by (λ told. told) (told_at (once false) looks) ≡ (if list_any (λ is_so. is_so) looks then 1 else 0) }
    ensures old { (looks : List Bool) → count_by (λ told. told) (told_at (once true) looks) ≡ 0 }
{}

/// A pool is full exactly where each of its addresses is leased or declined.
pub fn full_pools_have_no_free_address()
    ensures four { (slots : List Slot4) (count : ℕ) → count ≤ length slots → is_full4 slots count ≡ list_all is_used4 (take count slots) }
    ensures six { (slots : List Slot6) (count : ℕ) → count ≤ length slots → is_full6 slots count ≡ list_all is_used6 (take count slots) }
{}

/// Between two looks at which nothing changed no address was declined.
pub fn bars_are_counted_once()
    ensures { (slots : Slots) → declined_between slots slots ≡ 0 }
{}

/// After the first look, and after each report, the next report comes at the first look that is so many seconds later.
pub fn reports_keep_their_distance()
    ensures first { (every now later : ℕ) → 0 < every → is_due (looked_at (no_report_yet every) now) later ≡ nat_le (now + every) later }
    ensures next { (schedule : Schedule) (now later : ℕ) → is_due schedule now ≡ true
        → is_due (looked_at schedule now) later ≡ nat_le (now + schedule.every) later }
{}
