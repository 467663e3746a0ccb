//! Laws of the definitions. Each function does nothing, and ensures its laws of all values.
ghost use Rattle.std.specs.Prelude.{◌≡◌, ◌↔◌, ℕ, IsTrue, List, [], ◌∷◌, Option};
ghost use Rattle.std.specs.List.{list_any};
ghost use Rattle.ty_terms.specs.declared.names.MethodName.{MethodName};
ghost use Rattle.il_code.specs.declared.body.Body.{Body};
ghost use Rattle.il_stacks.specs.declared.stack.Stack.{Stack};
ghost use Rattle.ty_names.specs.Modules.{World};
ghost use Rattle.il_code.specs.Opcodes.{opcodes};
ghost use Rattle.il_verify.specs.Actions.{Action};
ghost use Rattle.il_verify.specs.CallRows.{Prefix};
ghost use Rattle.il_verify.specs.Raises.{Raised, is_outside, numbers_with, raised_at, raises, same_raised};
ghost use Rattle.il_verify.specs.Raises.{NullReference, IndexOutOfRange};
ghost use Rattle.il_verify.specs.Raises.{ArrayTypeMismatch, InvalidCast, Overflow, DivideByZero};
ghost use Rattle.il_code.specs.Reach.{AreReached};
ghost use Rattle.il_verify.specs.Flow.{AreLeastStacks, is_among, reached_offsets};
ghost use Rattle.il_verify.specs.Scope.{Scope};
ghost use Rattle.il_verify.specs.Verified.{HasTyping, IsVerified, least_stacks};

/// Rounds find the least stacks of a method's code, and there are no others.
pub fn least_stacks_by_rounds()
    ensures { (scope : Scope) (body : Body) (table : List (Option Stack)) →
        AreLeastStacks scope body table ↔ (table ≡ least_stacks scope body) }
{}

/// The offsets that verifying goes by are those that control reaches; any list of these has the same ones.
pub fn offsets_reached()
    ensures reached { (body : Body) → AreReached body.code body.clauses (reached_offsets body) }
    ensures alike { (body : Body) (offsets : List ℕ) → AreReached body.code body.clauses offsets → (offset : ℕ) →
        is_among offsets offset ≡ is_among (reached_offsets body) offset }
{}

/// A method is verified exactly where verifying gives a typing.
pub fn verified_exactly()
    ensures verified { (world : World) (name : MethodName) (body : Body) →
        HasTyping world name body → IsVerified world name body }
    ensures typed { (world : World) (name : MethodName) (body : Body) →
        IsVerified world name body → HasTyping world name body }
{}

/// The opcodes that no program here may come to: floats, unmanaged pointers, blocks of memory, typed references, and
/// calls that go through a pointer or take the frame along.
pub fn opcodes_outside()
    ensures { numbers_with is_outside opcodes ≡ 0x22 ∷ 0x23 ∷ 0x27 ∷ 0x29
        ∷ 0x4E ∷ 0x4F ∷ 0x56 ∷ 0x57 ∷ 0x6B ∷ 0x6C ∷ 0x76
        ∷ 0x98 ∷ 0x99 ∷ 0xA0 ∷ 0xA1 ∷ 0xC2 ∷ 0xC3 ∷ 0xC6 ∷ 0xFE00 ∷ 0xFE06 ∷ 0xFE07 ∷ 0xFE0F ∷ 0xFE11 ∷ 0xFE12 ∷ 0xFE14
        ∷ 0xFE17 ∷ 0xFE18 ∷ 0xFE19 ∷ 0xFE1D ∷ [] }
{}

/// Where an operation's token and prefix are known, it raises nothing that its opcode doesn't.
pub fn raised_by_the_opcode()
    ensures { (scope : Scope) (prefix : Prefix) (action : Action) (raised : Raised) →
        IsTrue (list_any (same_raised raised) (raised_at scope prefix action)) → IsTrue (raises raised action) }
{}

/// The opcodes that raise each exception of the runtime, as far as they tell.
pub fn opcodes_that_raise()
    // `callvirt`, what goes by a pointer, an object or a vector, `unbox`, `unbox.any` and `throw`
    ensures null { numbers_with (raises NullReference) opcodes ≡ 0x46 ∷ 0x47 ∷ 0x48 ∷ 0x49
        ∷ 0x4A ∷ 0x4B ∷ 0x4C ∷ 0x4D ∷ 0x50 ∷ 0x51
        ∷ 0x52 ∷ 0x53 ∷ 0x54 ∷ 0x55 ∷ 0x6F ∷ 0x70 ∷ 0x71 ∷ 0x79 ∷ 0x7A ∷ 0x7B ∷ 0x7C ∷ 0x7D ∷ 0x81 ∷ 0x8E ∷ 0x8F ∷ 0x90
        ∷ 0x91 ∷ 0x92 ∷ 0x93 ∷ 0x94 ∷ 0x95 ∷ 0x96 ∷ 0x97 ∷ 0x9A ∷ 0x9B ∷ 0x9C ∷ 0x9D ∷ 0x9E ∷ 0x9F ∷ 0xA2 ∷ 0xA3 ∷ 0xA4
        ∷ 0xA5 ∷ 0xDF ∷ 0xFE15 ∷ [] }
    // what reads, writes or names an element
    ensures index { numbers_with (raises IndexOutOfRange) opcodes ≡ 0x8F ∷ 0x90 ∷ 0x91
        ∷ 0x92 ∷ 0x93 ∷ 0x94 ∷ 0x95 ∷ 0x96 ∷ 0x97
        ∷ 0x9A ∷ 0x9B ∷ 0x9C ∷ 0x9D ∷ 0x9E ∷ 0x9F ∷ 0xA2 ∷ 0xA3 ∷ 0xA4 ∷ [] }
    // `ldelema` and what writes an element, of whatever type
    ensures mismatch { numbers_with (raises ArrayTypeMismatch) opcodes ≡ 0x8F ∷ 0x9B ∷ 0x9C
        ∷ 0x9D ∷ 0x9E ∷ 0x9F ∷ 0xA2 ∷ 0xA4 ∷ [] }
    // `castclass`, `unbox` and `unbox.any`
    ensures cast { numbers_with (raises InvalidCast) opcodes ≡ 0x74 ∷ 0x79 ∷ 0xA5 ∷ [] }
    // `div` and `rem`, checked conversions, `newarr`, and checked sums, products and differences
    ensures overflow { numbers_with (raises Overflow) opcodes ≡ 0x5B ∷ 0x5D ∷ 0x82
        ∷ 0x83 ∷ 0x84 ∷ 0x85 ∷ 0x86 ∷ 0x87 ∷ 0x88 ∷ 0x89
        ∷ 0x8A ∷ 0x8B ∷ 0x8D ∷ 0xB3 ∷ 0xB4 ∷ 0xB5 ∷ 0xB6 ∷ 0xB7 ∷ 0xB8 ∷ 0xB9 ∷ 0xBA ∷ 0xD4 ∷ 0xD5 ∷ 0xD6 ∷ 0xD7 ∷ 0xD8
        ∷ 0xD9 ∷ 0xDA ∷ 0xDB ∷ [] }
    // divisions and remainders
    ensures zero { numbers_with (raises DivideByZero) opcodes ≡ 0x5B ∷ 0x5C ∷ 0x5D ∷ 0x5E ∷ [] }
{}
