//! The kernels as plain loops, one counter at a time.

ghost use Rattle.std.specs.Prelude.{◌≡◌, ◌↔◌, ◌≤◌, IsTrue, length, max, nat_le};
ghost use Rattle.std.specs.Int.{div_ceil};
ghost use Rattle.std.specs.Cmp.Lexicographic.{pointwise};
ghost use Rattle.std.specs.Simd.Lanes.{zip2, mask_l};
ghost use Rattle.lanes.specs.Kernels.{greatest, over, count_true, packed};

pub fn all_le(a: &[u64], b: &[u64]) -> bool
    requires { length a.now ≡ length b.now }
    ensures { result ≡ pointwise nat_le a.now b.now }
{
    for index in 0..a.len() {
        if a[index] > b[index] {
            return false;
        }
    }
    true
}

pub fn all_eq(a: &[u64], b: &[u64]) -> bool
    requires { length a.now ≡ length b.now }
    ensures { IsTrue result ↔ (a.now ≡ b.now) }
{
    for index in 0..a.len() {
        if a[index] != b[index] {
            return false;
        }
    }
    true
}

pub fn max_into(a: &mut [u64], b: &[u64])
    requires { length a.old ≡ length b.now }
    ensures { a.new ≡ zip2 max a.old b.now }
{
    for index in 0..b.len() {
        a[index] = a[index].max(b[index]);
    }
}

pub fn greatest(a: &[u64]) -> u64
    ensures { result ≡ greatest a.now }
{
    let mut most = 0;
    for counter in a {
        most = most.max(*counter);
    }
    most
}

pub fn mask_over(counters: &[u64], bounds: &[u64], out: &mut [u64])
    requires columns { length counters.now ≡ length bounds.now }
    requires words { length out.old ≡ div_ceil (length counters.now) 64 }
    ensures { out.new ≡ packed (over counters.now bounds.now) }
{
    for index in 0..out.len() {
        let start = 64 * index;
        let end = counters.len().min(start + 64);
        out[index] = word_over(&counters[start..end], &bounds[start..end]);
    }
}

fn word_over(counters: &[u64], bounds: &[u64]) -> u64
    requires columns { length counters.now ≡ length bounds.now }
    requires few { length counters.now ≤ 64 }
    ensures { result ≡ mask_l (over counters.now bounds.now) }
{
    let mut word = 0;
    for index in 0..counters.len() {
        word |= u64::from(counters[index] > bounds[index]) << index;
    }
    word
}

pub fn count_over(counters: &[u64], bounds: &[u64]) -> usize
    requires { length counters.now ≡ length bounds.now }
    ensures { result ≡ count_true (over counters.now bounds.now) }
{
    let mut count = 0;
    for index in 0..counters.len() {
        count += usize::from(counters[index] > bounds[index]);
    }
    count
}
