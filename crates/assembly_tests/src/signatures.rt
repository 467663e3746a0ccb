use md_sigs::{MethodSig, Sig, SigFault, read_annotation, read_sig, read_type};
use num_core::List;
use std::alloc::Global;
use std::process::Abort;
use std::test::Fail;
use ty_terms::{Boxed, Primitive, Ty, TypeId};

const I4: Ty = Ty::Prim(Primitive::I4);

fn list(rt: &impl Abort, alloc: Global, first: Ty, second: Ty) -> List<Ty> {
    let mut types = List::new(alloc);
    assert!(rt; types.push(first).is_ok());
    assert!(rt; types.push(second).is_ok());
    types
}

fn vector(rt: &impl Abort, alloc: Global, ty: Ty) -> Ty {
    Ty::Vector(Boxed::new(alloc, ty).expect(rt, "memory"))
}

fn by_ref(rt: &impl Abort, alloc: Global, ty: Ty) -> Ty {
    Ty::ByRef(Boxed::new(alloc, ty).expect(rt, "memory"))
}

/// Each element type that is a type alone.
#[test]
fn primitive_types(rt: HostRuntime) {
    for (element, primitive) in [
        (0x02, Primitive::Boolean),
        (0x03, Primitive::Char),
        (0x04, Primitive::I1),
        (0x05, Primitive::U1),
        (0x06, Primitive::I2),
        (0x07, Primitive::U2),
        (0x08, Primitive::I4),
        (0x09, Primitive::U4),
        (0x0A, Primitive::I8),
        (0x0B, Primitive::U8),
        (0x0E, Primitive::String),
        (0x18, Primitive::I),
        (0x19, Primitive::U),
        (0x1C, Primitive::Object),
    ] {
        assert!(rt; read_type(rt.alloc(), &[element], 3) == Ok(Ty::Prim(primitive)));
    }
}

/// A generic type over an int32 and a variable, and vectors behind modifiers.
#[test]
fn types(rt: HostRuntime) {
    let alloc = rt.alloc();
    let args = list(&rt, alloc, I4, Ty::Var(256));
    let id = TypeId { module: 3, row: 13 };
    let blob = [0x15, 0x12, 0x0D, 0x02, 0x1F, 0x05, 0x08, 0x13, 0x81, 0x00];
    assert!(rt; read_type(alloc, &blob, 3) == Ok(Ty::Named(id, args)));
    let class = Ty::Named(TypeId { module: 3, row: 10 }, List::new(alloc));
    let nested = vector(&rt, alloc, vector(&rt, alloc, class));
    assert!(rt; read_type(alloc, &[0x1D, 0x20, 0x80, 0x81, 0x1D, 0x11, 0x0A], 3) == Ok(nested));
}

/// A field, an instance method over vectors, local variables behind a pointer, arguments of a generic method, and a
/// generic method without parameters.
#[test]
fn signatures(rt: HostRuntime) {
    let alloc = rt.alloc();
    assert!(rt; read_sig(alloc, &[0x06, 0x20, 0x09, 0x08], 1) == Ok(Sig::Field(I4)));
    let mut params = List::new(alloc);
    assert!(rt; params.push(vector(&rt, alloc, I4)).is_ok());
    let method = MethodSig {
        instance: true,
        generic: 0,
        params,
        result: Ty::Prim(Primitive::Void),
    };
    assert!(rt; read_sig(alloc, &[0x20, 0x01, 0x01, 0x1D, 0x08], 1) == Ok(Sig::Method(method)));
    let locals = list(
        &rt,
        alloc,
        by_ref(&rt, alloc, I4),
        Ty::Prim(Primitive::String),
    );
    assert!(rt; read_sig(alloc, &[0x07, 0x02, 0x10, 0x08, 0x0E], 1) == Ok(Sig::Locals(locals)));
    let args = list(&rt, alloc, Ty::MVar(1), I4);
    assert!(rt; read_sig(alloc, &[0x0A, 0x02, 0x1E, 0x01, 0x08], 1) == Ok(Sig::Args(args)));
    let generic = MethodSig {
        instance: false,
        generic: 2,
        params: List::new(alloc),
        result: Ty::MVar(0),
    };
    assert!(rt; read_sig(alloc, &[0x10, 0x02, 0x00, 0x1E, 0x00], 1) == Ok(Sig::Method(generic)));
    assert!(rt; read_sig(alloc, &[0x07, 0x00], 1) == Ok(Sig::Locals(List::new(alloc))));
}

/// What is refused, at the first byte that can't go on, or at the end: no signature begins so; the blob ends early; it
/// goes on behind its end; a number begins with E0, or an index has the tag 3; VOID, BYREF and other bytes where they
/// can't stand; element types outside.
static REFUSED: &str = "\
0D = 6 BadSig 0
 = 6 BadSig 0
050001 = 6 BadSig 0
0000 = 6 BadSig 2
0080 = 6 BadSig 2
1001 = 6 BadSig 2
070208 = 6 BadSig 3
0612C00000 = 6 BadSig 5
061512050208 = 6 BadSig 6
060808 = 6 BadSig 2
06080D = 6 BadSig 2
00E0 = 6 BadSig 1
061203 = 6 BadSig 2
06120F = 6 BadSig 2
06128007 = 6 BadSig 3
0601 = 6 BadSig 1
00010101 = 6 BadSig 3
061008 = 6 BadSig 1
00001D1008 = 6 BadSig 3
0701101008 = 6 BadSig 3
061508 = 6 BadSig 2
06150D = 6 BadSig 2
06FF = 6 BadSig 1
00000D = 7 SigOutside 13
0600 = 7 SigOutside 0
0701451008 = 7 SigOutside 69
00001008 = 7 SigOutside 16
00001F051008 = 7 SigOutside 16
";

/// Why a blob is refused.
fn refusal(alloc: Global, blob: &[u8]) -> Option<SigFault> {
    if blob.len() > 1_000_000 {
        return None;
    }
    match read_sig(alloc, blob, 1) {
        Ok(_) => None,
        Err(fault) => Some(fault),
    }
}

#[test]
fn refusals(rt: HostRuntime) -> Result<(), Fail> {
    for row in REFUSED.lines() {
        let (digits, answer) = row.split_once(" = ").ok_or("no answer")?;
        let blob = hex::decode(rt.alloc(), digits)?;
        let fault = refusal(rt.alloc(), blob.as_slice()).ok_or("no refusal")?;
        assert!(rt;
            format!(in rt.alloc(); "{fault}")?.as_str() == answer,
            "{row}"
        );
    }
    assert!(rt; read_type(rt.alloc(), &[0x10, 0x08], 1) == Err(SigFault::BadSig(0)));
    assert!(rt; read_type(rt.alloc(), &[0x14, 0x08], 1) == Err(SigFault::SigOutside(0x14)));
    Ok(())
}

/// Vectors of vectors, a hundred thousand deep.
#[test]
fn deep_types(rt: HostRuntime) -> Result<(), Fail> {
    let mut blob = vec![in rt.alloc(); 0x1D; 100_000]?;
    assert_eq!(rt; refusal(rt.alloc(), &blob), Some(SigFault::BadSig(0)));
    blob[0] = 0x06;
    assert_eq!(rt; refusal(rt.alloc(), &blob), Some(SigFault::BadSig(100_000)));
    Ok(())
}

/// The value 9, -1, and what is no such blob.
#[test]
fn annotations(rt: HostRuntime) {
    for (blob, value) in [
        ([0x01, 0x00, 0x09, 0x00, 0x00, 0x00, 0x00, 0x00], Some(9)),
        ([0x01, 0x00, 0xFF, 0xFF, 0xFF, 0xFF, 0x00, 0x00], Some(-1)),
        ([0x01, 0x00, 0x00, 0x01, 0x00, 0x00, 0x00, 0x00], Some(256)),
        ([0x02, 0x00, 0x09, 0x00, 0x00, 0x00, 0x00, 0x00], None),
        ([0x01, 0x01, 0x09, 0x00, 0x00, 0x00, 0x00, 0x00], None),
        ([0x01, 0x00, 0x09, 0x00, 0x00, 0x00, 0x01, 0x00], None),
        ([0x01, 0x00, 0x09, 0x00, 0x00, 0x00, 0x00, 0x01], None),
    ] {
        assert_eq!(rt; read_annotation(&blob), value);
    }
    assert_eq!(rt;
        read_annotation(&[0x01, 0x00, 0x09, 0x00, 0x00, 0x00, 0x00]),
        None
    );
}
