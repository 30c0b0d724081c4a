//! The vector that the parts came in, kept empty until they come back.
ghost use Rattle.std.specs.Prelude.{◌≡◌, ℕ, ◌≤◌, [], List, map, Some, vec_len, vec_capacity};
ghost use Rattle.dk_turns.specs.declared.layout.TheConstants.{TURNS};

/// An empty vector with room for as many parts as there are turns.
pub struct Spare<T> {
    pub(crate) parts: Vec<T>,
    ghost empty: { vec_len parts ≡ 0 },
    ghost room: { TURNS ≤ vec_capacity parts },
}

// Moves the parts into slots, in order.
pub(crate) fn fill_slots<T>(parts: &mut Vec<T>, slots: &mut Vec<Option<T>>)
    requires empty { slots.old.items ≡ [] }
    requires room { vec_len parts.old ≤ vec_capacity slots.old }
    ensures slots { slots.new.items ≡ map Some parts.old.items }
    ensures parts { parts.new.items ≡ [] }
    ensures room { vec_capacity parts.new ≡ vec_capacity parts.old }
{
    while let Some(part) = parts.pop() {
        slots.push_reserved(Some(part));
    }
    slots.as_mut_slice().reverse();
}

// Moves them back.
pub(crate) fn empty_slots<T>(slots: &mut Vec<Option<T>>, parts: &mut Vec<T>)
    requires full { (xs : List T) × (slots.old.items ≡ map Some xs) }
    requires empty { parts.old.items ≡ [] }
    requires room { vec_len slots.old ≤ vec_capacity parts.old }
    ensures parts { map Some parts.new.items ≡ slots.old.items }
    ensures slots { slots.new.items ≡ [] }
{
    while let Some(slot) = slots.pop() {
        match slot {
            Some(part) => parts.push_reserved(part),
            None => unreachable!(),
        }
    }
    parts.as_mut_slice().reverse();
}
