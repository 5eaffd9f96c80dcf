//! Every order in which actors can take turns.

/// Turns an order into the next one in lexicographic order, with each number as often as before. Returns false for the last order, which it
/// leaves.
pub fn next_order(order: &mut [usize]) -> bool {
    let Some(index) = last_rise(order) else {
        return false;
    };
    swap_with_next_greater(order, index);
    if let Some(rest) = order.get_mut(index.saturating_add(1)..) {
        rest.reverse();
    }
    true
}

/// The last index whose number is below the next one.
fn last_rise(order: &[usize]) -> Option<usize> {
    let mut found = None;
    for (index, pair) in order.windows(2).enumerate() {
        if pair.first() < pair.last() {
            found = Some(index);
        }
    }
    found
}

/// Swaps the number at an index with the last greater one after it.
fn swap_with_next_greater(order: &mut [usize], index: usize) {
    let mut with = index;
    for other in index..order.len() {
        if order.get(other) > order.get(index) {
            with = other;
        }
    }
    if index < order.len() && with < order.len() {
        order.swap(index, with);
    }
}
