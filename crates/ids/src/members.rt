//! The tests of members: replica numbers that may stand together in one table.

ghost use Rattle.std.specs.Prelude.{◌≡◌, nat_le};
ghost use Rattle.std.specs.List.{list_all};
ghost use Rattle.ids.specs.Members.{are_distinct};
ghost use Rattle.ids.specs.Configurations.{are_members, is_from_one_to};

/// Whether these are 1 to 64 distinct numbers above 0. Compares at most 2,016 pairs, and allocates nothing.
pub(crate) fn are_members(numbers: &[u32]) -> bool
    ensures { result ≡ are_members numbers.now }
{
    (1..=64).contains(&numbers.len()) && are_above_zero(numbers) && are_distinct(numbers)
}

/// Whether each number is above 0.
fn are_above_zero(numbers: &[u32]) -> bool
    ensures { result ≡ list_all (λ number. nat_le 1 number) numbers.now }
{
    numbers.iter().all(|&number| number >= 1)
}

/// Whether no number occurs twice.
fn are_distinct(numbers: &[u32]) -> bool
    ensures { result ≡ are_distinct numbers.now }
{
    for (index, number) in numbers.iter().enumerate() {
        if numbers[index + 1..].contains(number) {
            return false;
        }
    }
    true
}

/// Whether a number is at least 1 and at most the limit.
pub(crate) fn is_from_one_to(limit: u32, number: u32) -> bool
    ensures { result ≡ is_from_one_to limit number }
{
    (1..=limit).contains(&number)
}
