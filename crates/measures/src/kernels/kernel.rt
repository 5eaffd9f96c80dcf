//! The kernels by their names, each computed in lanes or plainly.

ghost use Rattle.std.specs.Prelude.{◌≡◌, length};
ghost use Rattle.std.specs.Int.{div_ceil};

use crate::kernels::plain;

#[derive(Clone, Copy, Debug, PartialEq, Eq)]
pub enum Kernel {
    AllLe,
    AllEq,
    MaxInto,
    Greatest,
    MaskOver,
    CountOver,
}

/// How a kernel is computed.
#[derive(Clone, Copy, Debug, PartialEq, Eq)]
pub enum Way {
    Lanes,
    Plain,
}

ghost use Rattle.measures.specs.Answers.{answer_of, column_after, mask_after};

impl Kernel {
    pub const ALL: [Kernel; 6] = [
        Kernel::AllLe,
        Kernel::AllEq,
        Kernel::MaxInto,
        Kernel::Greatest,
        Kernel::MaskOver,
        Kernel::CountOver,
    ];

    pub fn name(self) -> &'static str {
        match self {
            Kernel::AllLe => "all_le",
            Kernel::AllEq => "all_eq",
            Kernel::MaxInto => "max_into",
            Kernel::Greatest => "greatest",
            Kernel::MaskOver => "mask_over",
            Kernel::CountOver => "count_over",
        }
    }

    /// Runs the kernel on two columns and returns its answer as a number. It writes into the first column or into the mask.
    #[inline(always)]
    pub fn answer(self, way: Way, first: &mut [u64], second: &[u64], mask: &mut [u64]) -> u64
        requires columns { length first.old ≡ length second.now }
        requires words { length mask.old ≡ div_ceil (length first.old) 64 }
        ensures answer { result ≡ answer_of self first.old second.now }
        ensures column { first.new ≡ column_after self first.old second.now }
        ensures mask { mask.new ≡ mask_after self first.old second.now mask.old }
    {
        match way {
            Way::Lanes => self.by_lanes(first, second, mask),
            Way::Plain => self.plainly(first, second, mask),
        }
    }

    #[inline(never)]
    fn by_lanes(self, first: &mut [u64], second: &[u64], mask: &mut [u64]) -> u64
        requires columns { length first.old ≡ length second.now }
        requires words { length mask.old ≡ div_ceil (length first.old) 64 }
        ensures answer { result ≡ answer_of self first.old second.now }
        ensures column { first.new ≡ column_after self first.old second.now }
        ensures mask { mask.new ≡ mask_after self first.old second.now mask.old }
    {
        match self {
            Kernel::AllLe => u64::from(lanes::all_le(first, second)),
            Kernel::AllEq => u64::from(lanes::all_eq(first, second)),
            Kernel::MaxInto => {
                lanes::max_into(first, second);
                0
            }
            Kernel::Greatest => lanes::greatest(first),
            Kernel::MaskOver => {
                lanes::mask_over(first, second, mask);
                0
            }
            Kernel::CountOver => lanes::count_over(first, second) as u64,
        }
    }

    #[inline(never)]
    fn plainly(self, first: &mut [u64], second: &[u64], mask: &mut [u64]) -> u64
        requires columns { length first.old ≡ length second.now }
        requires words { length mask.old ≡ div_ceil (length first.old) 64 }
        ensures answer { result ≡ answer_of self first.old second.now }
        ensures column { first.new ≡ column_after self first.old second.now }
        ensures mask { mask.new ≡ mask_after self first.old second.now mask.old }
    {
        match self {
            Kernel::AllLe => u64::from(plain::all_le(first, second)),
            Kernel::AllEq => u64::from(plain::all_eq(first, second)),
            Kernel::MaxInto => {
                plain::max_into(first, second);
                0
            }
            Kernel::Greatest => plain::greatest(first),
            Kernel::MaskOver => {
                plain::mask_over(first, second, mask);
                0
            }
            Kernel::CountOver => plain::count_over(first, second) as u64,
        }
    }
}
