//! Writing slots.
ghost use Rattle.std.specs.Prelude.{◌≡◌, is_some, Some};
ghost use Rattle.bindings_v4.specs.Decision4.{kept_slot, offer_change};
ghost use Rattle.slots.specs.Slots.{offered_to};
ghost use Rattle.bindings_v4.specs.Slots4.{with_offer, with_kept, without_offers};

use crate::decision4::{Change4, OfferChange};
use crate::kept::holder_of;
use slots::{Holder, SlotTable};
use types::Key4;

/// Writes what a decision changes.
pub fn write_change(slots: &mut SlotTable<Key4>, change: &Change4)
    ensures { slots.new ≡ with_kept (kept_slot change.now) (with_offer (offer_change change.now) slots.old) }
{
    match change {
        Change4::Nothing => {}
        Change4::Offers(offer) => write_offer(slots, offer),
        Change4::Keeps(kept) => slots.write(kept.slot, holder_of(kept.content)),
    }
}

/// Writes a change of offers.
fn write_offer(slots: &mut SlotTable<Key4>, change: &OfferChange)
    ensures { slots.new ≡ with_offer (Some change.now) slots.old }
{
    match change {
        OfferChange::Made(slot, key, until) => {
            slots.write(*slot, Some(Holder::Offered(*key, *until)));
        }
        OfferChange::Withdrawn(slot) => slots.write(*slot, None),
    }
}

/// Whether a slot is offered to a client, live or expired.
fn is_offered(slot: &Option<Holder<Key4>>) -> bool
    ensures { result ≡ is_some (offered_to slot.now) }
{
    matches!(slot, Some(Holder::Offered(_, _)))
}

/// Vacates each slot that is offered.
pub fn withdraw_offers(slots: &mut SlotTable<Key4>)
    ensures { slots.new ≡ without_offers slots.old }
{
    'slots: for slot in 0..slots.slots().len() {
        if is_offered(&slots.slots()[slot]) {
            slots.write(slot, None);
        }
    }
}
