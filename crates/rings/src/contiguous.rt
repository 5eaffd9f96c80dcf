//! Turning rings so that they begin at their first slots, and removing items from such rings.

ghost use Rattle.std.specs.Prelude.{◌≡◌, ◌≤◌, ◌<◌, ◌+◌, ◌*◌, length, Some, slice_get, slice_set, take, IsTrue, vec_len, vec_capacity};
ghost use Rattle.std.specs.Fn.{CalledAt};
ghost use Rattle.std.specs.List.{All, remove};
ghost use Rattle.std.specs.List.Retain.{IsFiltered};
ghost use Rattle.rings.specs.Rings.{AreRings, are_zero, straight};
ghost use Rattle.rings.specs.Starts.{capacity_of, starts_of};

use crate::rings::RING;
use crate::starts::Starts;

/// Turns a ring so that it begins at its first slot.
fn make_ring_contiguous<T>(slots: &mut [T], starts: &mut [usize], ring: usize)
    requires within { All (λ s. s < 2048) starts.old }
    requires full { length starts.old * 2048 ≤ length slots.old }
    requires ring { ring < length starts.old }
    ensures same { straight 2048 starts.new slots.new ≡ straight 2048 starts.old slots.old }
    ensures starts { starts.new ≡ slice_set starts.old ring 0 }
    ensures length { length slots.new ≡ length slots.old }
{
    let first = ring * RING;
    let start = starts[ring];
    slots[first..first + RING].rotate_left(start);
    starts[ring] = 0;
}

/// Turns all rings so that they begin at their first slots.
pub(crate) fn make_all_contiguous<T>(slots: &mut [T], starts: &mut Starts)
    requires { AreRings 2048 (starts_of starts.old) (length slots.old) }
    ensures same { straight 2048 (starts_of starts.new) slots.new ≡ straight 2048 (starts_of starts.old) slots.old }
    ensures straight { IsTrue (are_zero (starts_of starts.new)) }
    ensures starts { length (starts_of starts.new) ≡ length (starts_of starts.old) }
    ensures length { length slots.new ≡ length slots.old }
    ensures capacity { capacity_of starts.new ≡ capacity_of starts.old }
    ensures rings { AreRings 2048 (starts_of starts.new) (length slots.new) }
{
    if let Some(starts) = &mut starts.starts {
        make_rings_contiguous(slots, starts);
    }
}

/// Turns the rings, which begin at these slots, so that they begin at their first slots.
fn make_rings_contiguous<T>(slots: &mut [T], starts: &mut [usize])
    requires { AreRings 2048 starts.old (length slots.old) }
    ensures same { straight 2048 starts.new slots.new ≡ straight 2048 starts.old slots.old }
    ensures straight { IsTrue (are_zero starts.new) }
    ensures starts { length starts.new ≡ length starts.old }
    ensures length { length slots.new ≡ length slots.old }
    ensures rings { AreRings 2048 starts.new (length slots.new) }
{
    for ring in 0..starts.len() {
        make_ring_contiguous(slots, starts, ring);
    }
}

/// Keeps the first `count` items of a list whose rings all begin at their first slots.
pub(crate) fn truncate_in<T: Drop>(slots: &mut Vec<T>, starts: &mut Starts, count: usize)
    requires rings { AreRings 2048 (starts_of starts.old) (length slots.old.items) }
    requires straight { IsTrue (are_zero (starts_of starts.old)) }
    ensures items { straight 2048 (starts_of starts.new) slots.new.items
        ≡ take count (straight 2048 (starts_of starts.old) slots.old.items) }
    ensures rings { AreRings 2048 (starts_of starts.new) (length slots.new.items) }
    ensures few { vec_len slots.new ≤ vec_len slots.old }
    ensures slots { vec_capacity slots.new ≡ vec_capacity slots.old }
    ensures starts { capacity_of starts.new ≡ capacity_of starts.old }
{
    slots.truncate(count);
    starts.truncate(count / RING);
}

/// Keeps the items for which `keep` returns true, in a list whose rings all begin at their first slots.
pub(crate) fn retain_in<T: Drop, F: FnMut(&T) -> bool>(
    slots: &mut Vec<T>,
    starts: &mut Starts,
    keep: F,
)
    requires callable { F.IsAlwaysCallable keep }
    requires rings { AreRings 2048 (starts_of starts.old) (length slots.old.items) }
    requires straight { IsTrue (are_zero (starts_of starts.old)) }
    ensures kept { IsFiltered (CalledAt F.FnMut) keep (straight 2048 (starts_of starts.old) slots.old.items)
        (straight 2048 (starts_of starts.new) slots.new.items) }
    ensures rings { AreRings 2048 (starts_of starts.new) (length slots.new.items) }
    ensures few { vec_len slots.new ≤ vec_len slots.old }
    ensures slots { vec_capacity slots.new ≡ vec_capacity slots.old }
    ensures starts { capacity_of starts.new ≡ capacity_of starts.old }
{
    slots.retain(keep);
    starts.truncate(slots.len() / RING);
}

/// Removes the item at a position of a list whose rings all begin at their first slots, and returns it.
pub(crate) fn remove_in<T>(slots: &mut Vec<T>, starts: &mut Starts, position: usize) -> T
    requires rings { AreRings 2048 (starts_of starts.old) (length slots.old.items) }
    requires straight { IsTrue (are_zero (starts_of starts.old)) }
    requires within { position < length slots.old.items }
    ensures items { straight 2048 (starts_of starts.new) slots.new.items
        ≡ remove (straight 2048 (starts_of starts.old) slots.old.items) position }
    ensures value { slice_get (straight 2048 (starts_of starts.old) slots.old.items) position ≡ Some result }
    ensures rings { AreRings 2048 (starts_of starts.new) (length slots.new.items) }
    ensures fewer { vec_len slots.new + 1 ≡ vec_len slots.old }
    ensures slots { vec_capacity slots.new ≡ vec_capacity slots.old }
    ensures starts { capacity_of starts.new ≡ capacity_of starts.old }
{
    let item = slots.remove(position);
    starts.truncate(slots.len() / RING);
    item
}
