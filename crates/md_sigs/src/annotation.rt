ghost use Rattle.std.specs.Prelude.{◌≡◌, ℤ, IfSome, IfNone};
ghost use Rattle.md_sigs.specs.Annotation.{IsAnnotation, annotation_of};

use byteorder::{ByteOrder, LittleEndian};

/// The value in the blob of a custom attribute whose one argument is an int32, as DynamicallyAccessedMembers has it
/// (ECMA-335 II.23.3). None exactly where the blob isn't `01 00`, four bytes and `00 00`.
pub fn read_annotation(blob: &[u8]) -> Option<i32>
    ensures found { IfSome result (IsAnnotation blob.now) }
    ensures none { IfNone result ((value : ℤ) → ¬ (IsAnnotation blob.now value)) }
    ensures exact { result ≡ annotation_of blob.now }
{
    if blob.len() != 8 {
        return None;
    }
    if blob[0] != 0x01 || blob[1] != 0x00 || blob[6] != 0x00 || blob[7] != 0x00 {
        return None;
    }
    Some(LittleEndian::read_i32(&blob[2..]))
}
