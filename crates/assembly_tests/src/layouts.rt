//! Layouts by hand. A field is spelled by its size, which is its alignment too; 0 spells none.
use num_core::List;
use std::alloc::Global;
use std::test::Fail;
use ty_layout::{
    Alignment, Field, Laid, LayoutFault, boxed_size, frame, object_layout, string_size,
    value_layout, vector_size,
};

/// The fields of a base and of a class under it, where the last of them lies, and the size.
static OBJECTS: [([u8; 3], [u8; 3], u32, u32); 5] = [
    ([0, 0, 0], [0, 0, 0], 0, 8),
    ([1, 8, 2], [0, 0, 0], 24, 32),
    ([1, 8, 2], [1, 0, 0], 32, 40),
    ([1, 0, 0], [1, 0, 0], 16, 24),
    ([4, 4, 1], [2, 0, 0], 24, 32),
];

/// The fields of a value type, the bytes that it has at least, where the last field lies, and the size.
static VALUES: [([u8; 3], u32, u32, u32); 6] = [
    ([0, 0, 0], 0, 0, 1),
    ([0, 0, 0], 7, 0, 7),
    ([1, 4, 1], 0, 8, 12),
    ([2, 1, 0], 0, 2, 4),
    ([8, 0, 0], 9, 0, 16),
    ([8, 8, 1], 3, 16, 24),
];

fn alignment(size: u8) -> Alignment {
    match size {
        1 => Alignment::One,
        2 => Alignment::Two,
        4 => Alignment::Four,
        _ => Alignment::Eight,
    }
}

fn fields(alloc: Global, sizes: &[u8; 3]) -> Result<List<Field>, Fail> {
    let mut fields = List::new(alloc);
    for size in sizes {
        if *size != 0 {
            let alignment = alignment(*size);
            let size = *size as u32;
            fields.push(Field { size, alignment })?;
        }
    }
    Ok(fields)
}

fn last_and_size(laid: &Laid) -> (u32, u32) {
    match laid.places.as_slice() {
        [] => (0, laid.size),
        [.., last] => (*last, laid.size),
    }
}

fn object(alloc: Global, base: &[u8; 3], own: &[u8; 3]) -> Result<(u32, u32), Fail> {
    let mut parts = Vec::new(alloc);
    parts.push(fields(alloc, base)?)?;
    parts.push(fields(alloc, own)?)?;
    let laid = object_layout(alloc, parts.as_slice())?;
    Ok(last_and_size(&laid))
}

fn value(alloc: Global, sizes: &[u8; 3], least: u32) -> Result<(u32, u32), Fail> {
    let fields = fields(alloc, sizes)?;
    let laid = value_layout(alloc, fields.as_slice(), least)?;
    Ok(last_and_size(&laid))
}

#[test]
fn fields_of_objects(rt: HostRuntime) -> Result<(), Fail> {
    for (base, own, last, size) in &OBJECTS {
        assert_eq!(rt; object(rt.alloc(), base, own)?, (*last, *size));
    }
    Ok(())
}

#[test]
fn fields_of_value_types(rt: HostRuntime) -> Result<(), Fail> {
    for (sizes, least, last, size) in &VALUES {
        assert_eq!(rt; value(rt.alloc(), sizes, *least)?, (*last, *size));
    }
    Ok(())
}

#[test]
fn sizes(rt: HostRuntime) {
    assert_eq!(rt; (boxed_size(1), boxed_size(8), boxed_size(9)), (16, 16, 24));
    assert_eq!(rt;
        (string_size(0), string_size(2), string_size(3)),
        (16, 16, 24)
    );
    assert_eq!(rt;
        (vector_size(0, 4), vector_size(3, 4), vector_size(2, 12)),
        (16, 32, 40)
    );
}

#[test]
fn frames(rt: HostRuntime) {
    assert_eq!(rt; frame(8, 16, 8, 8), Ok(288));
    assert_eq!(rt; frame(0, 0, 8167, 8), Ok(65_536));
    assert_eq!(rt; frame(0, 0, 8168, 8), Ok(65_536));
    assert_eq!(rt; frame(0, 0, 8169, 8), Err(LayoutFault::FrameLimit(65_552)));
}
