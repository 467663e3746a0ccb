//! How many bytes frames take.
ghost use Rattle.std.specs.Prelude.{◌≡◌, ◌<◌, ◌≤◌, ◌^◌, IfOk, IfErr};
ghost use Rattle.ty_layout.specs.Frames.{frame_bytes};
ghost use Rattle.ty_layout.specs.declared.fault.LayoutFault.TheVariants.{FrameLimit};

use crate::fault::LayoutFault;

/// The greatest number of bytes that a frame may have.
const FRAME_LIMIT: u64 = 65_536;

/// How many bytes the frame of a method has: 192, and its arguments, its locals and its stack, rounded up to 16.
///
/// `args` and `locals` are bytes, `max_stack` is a number of places, each of which has `widest` bytes. `FrameLimit`
/// comes exactly where these are more than 65,536.
pub fn frame(args: u64, locals: u64, max_stack: u16, widest: u32) -> Result<u32, LayoutFault>
    requires args { args < 2 ^ 48 }
    requires locals { locals < 2 ^ 48 }
    ensures size { IfOk result (λ bytes. bytes ≡ frame_bytes args locals max_stack widest) }
    ensures fits { IfOk result (λ bytes. bytes ≤ 65536) }
    ensures limit { IfErr result (λ fault. fault ≡ FrameLimit (frame_bytes args locals max_stack widest)) }
    ensures passes { IfErr result (λ _. 65536 < frame_bytes args locals max_stack widest) }
{
    let stack = max_stack as u64 * widest as u64;
    let bytes = (192 + args + locals + stack).next_multiple_of(16);
    if bytes <= FRAME_LIMIT {
        Ok(bytes as u32)
    } else {
        Err(LayoutFault::FrameLimit(bytes))
    }
}
