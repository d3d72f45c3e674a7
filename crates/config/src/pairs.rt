//! Walks over the entries of a list: what is related to one entry, and which two are related.
ghost use Rattle.std.specs.Prelude.{◌↔◌, ◌≤◌, ◌<◌, ℕ, length, slice_index_or, All, AllPairs, IsTrue, IfSome, IfNone};
ghost use Rattle.config.specs.Pairs.{IsRelated, AreRelated};

/// A relation between a value and an entry of a list.
pub trait Relation<A, B> {
    ghost related: { A → B → Type 0 };

    /// Whether the two are related.
    fn holds(one: &A, other: &B) -> bool
        ensures { IsTrue result ↔ related one.now other.now };
}

/// The index of the first entry, from this index on, that the value is related to.
pub fn first_related<A, B, R: Relation<A, B>>(one: &A, entries: &[B], from: usize) -> Option<usize>
    ensures some { IfSome result (IsRelated (R.related one.now) entries.now from) }
    ensures none { IfNone result
        ((k : ℕ) (d : B) → from ≤ k → k < length entries.now → ¬ R.related one.now (slice_index_or entries.now k d)) }
{
    for index in from..entries.len() {
        if R::holds(one, &entries[index]) {
            return Some(index);
        }
    }
    None
}

/// The indices of two entries that are related, the lower one first: each entry is compared with all that
/// come after it.
pub fn first_pair<T, R: Relation<T, T>>(entries: &[T]) -> Option<(usize, usize)>
    ensures some { IfSome result (λ pair. AreRelated R.related entries.now pair.0 pair.1 × (pair.0 < pair.1)) }
    ensures none { IfNone result (AllPairs (λ one other. ¬ R.related one other) entries.now) }
{
    for first in 0..entries.len() {
        if let Some(second) = first_related::<T, T, R>(&entries[first], entries, first + 1) {
            return Some((first, second));
        }
    }
    None
}

/// The indices of an entry and of one that it is related to: each entry is compared with all, itself
/// included.
pub fn first_of_all<T, R: Relation<T, T>>(entries: &[T]) -> Option<(usize, usize)>
    ensures some { IfSome result (λ pair. AreRelated R.related entries.now pair.0 pair.1) }
    ensures none { IfNone result (All (λ one. All (λ other. ¬ R.related one other) entries.now) entries.now) }
{
    for one in 0..entries.len() {
        if let Some(other) = first_related::<T, T, R>(&entries[one], entries, 0) {
            return Some((one, other));
        }
    }
    None
}
