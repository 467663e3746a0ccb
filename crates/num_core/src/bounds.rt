ghost use Rattle.std.specs.Prelude.{◌≡◌, ◌%◌, ◌≤◌};

/// The greatest heap and the greatest stack that a program may use, in bytes.
#[derive(Clone, Copy, Debug, PartialEq, Eq)]
pub struct Bounds {
    pub heap: u64,
    pub stack: u64,
    ghost heap_aligned: { heap % 8 ≡ 0 },
    ghost heap_limit: { heap ≤ 268435456 },
    ghost stack_aligned: { stack % 16 ≡ 0 },
    ghost stack_limit: { stack ≤ 67108864 },
}

impl Bounds {
    /// The bounds where no option gives others: 8 MiB of heap and 1 MiB of stack.
    pub fn standard() -> Bounds
        ensures heap { result.heap ≡ 8388608 }
        ensures stack { result.stack ≡ 1048576 }
    {
        Bounds {
            heap: 8_388_608,
            stack: 1_048_576,
        }
    }
}
