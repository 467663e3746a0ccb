ghost use Rattle.std.specs.Prelude.{◌≡◌, ◌+◌, ◌<◌, ◌≤◌, ◌^◌};
ghost use Rattle.ilc_build.specs.Typing.{can_stand as can_stand_on, takes as takes_of, leaves as leaves_of};
ghost use Rattle.ilc_build.specs.Typing.{depth_behind as depth_behind_of};

use il_code::Operation;

/// Whether an operation can be done on a stack of a depth.
pub(crate) fn can_stand(max: u16, depth: u32, operation: Operation) -> bool
    ensures { result ≡ can_stand_on max depth operation }
{
    let needed = match operation {
        Operation::Return => depth == 1,
        _ => takes(operation) <= depth,
    };
    depth <= max as u32 && needed
}

/// The depth of the stack behind an operation.
pub(crate) fn depth_behind(depth: u32, operation: Operation) -> u32
    requires { depth < 2 ^ 31 }
    ensures value { result ≡ depth_behind_of depth operation }
    ensures grows { result ≤ depth + 2 }
{
    depth.saturating_sub(takes(operation)) + leaves(operation)
}

/// How many slots an operation takes from the stack.
pub(crate) fn takes(operation: Operation) -> u32
    ensures value { result ≡ takes_of operation }
    ensures bound { result ≤ 2 }
{
    match operation {
        Operation::NoOperation | Operation::Constant(_) | Operation::Branch(_) => 0,
        Operation::Duplicate
        | Operation::Discard
        | Operation::BranchIfTrue(_)
        | Operation::Return => 1,
        Operation::Binary(_) => 2,
    }
}

/// How many slots an operation leaves in their place.
fn leaves(operation: Operation) -> u32
    ensures value { result ≡ leaves_of operation }
    ensures bound { result ≤ 2 }
{
    match operation {
        Operation::NoOperation
        | Operation::Discard
        | Operation::Branch(_)
        | Operation::BranchIfTrue(_)
        | Operation::Return => 0,
        Operation::Constant(_) | Operation::Binary(_) => 1,
        Operation::Duplicate => 2,
    }
}
