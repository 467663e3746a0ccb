//! Extremes of every operation. The expected values were computed with the integers of Python.
ghost use Rattle.num_core.specs.Integers.{IsOfKind};

use num_core::Kind::{I4, I8, U4, U8};
use num_core::{
    Bounds, Bytes, DivFault, Fix, FixKind, Kind, List, Narrow, ShiftOp, Text, TextFault, add_ovf,
    conv, conv_ovf, div_rem, mul_ovf, shift, sub_ovf, wrap32, wrap64,
};
use std::alloc::Global;
use std::process::Abort;

// Where there is no number. No row has it otherwise.
const NO: i64 = 99;

// The ends of the numbers of 32 and of 64 bits, and some beside them.
const MIN32: i64 = -2_147_483_648;

const MAX32: i64 = 2_147_483_647;

const BELOW: i64 = -2_147_483_649;

const BIT15: i64 = 32_768;

const HALF: i64 = 2_147_483_648;

const CUT: i64 = 4_294_967_167;

const FULL: i64 = 4_294_967_295;

const WORD: i64 = 4_294_967_296;

const MIN64: i64 = i64::MIN;

const MAX64: i64 = i64::MAX;

const TYPES: [Narrow; 8] = [
    Narrow::I1,
    Narrow::U1,
    Narrow::I2,
    Narrow::U2,
    Narrow::I4,
    Narrow::U4,
    Narrow::I8,
    Narrow::U8,
];

// The kind, two numbers, their sum, difference and product, and the quotient with the remainder.
static ARITHMETIC: [(Kind, i64, i64, [i64; 5]); 40] = [
    (I4, MIN32, -1, [NO, -MAX32, NO, NO, -1]),
    (I4, MIN32, 1, [-MAX32, NO, MIN32, MIN32, 0]),
    (I4, MIN32, 0, [MIN32, MIN32, 0, NO, 0]),
    (I4, MAX32, 1, [NO, MAX32 - 1, MAX32, MAX32, 0]),
    (I4, MAX32, MAX32, [NO, 0, NO, 1, 0]),
    (I4, -1, -1, [-2, 0, 1, 1, 0]),
    (I4, 0, MIN32, [MIN32, NO, 0, 0, 0]),
    (I4, -7, 2, [-5, -9, -14, -3, -1]),
    (I4, 7, -2, [5, 9, -14, -3, 1]),
    (I4, 65_536, 65_536, [131_072, 0, NO, 1, 0]),
    (U4, MIN32, -1, [NO, NO, NO, 0, MIN32]),
    (U4, MIN32, 1, [-MAX32, MAX32, MIN32, MIN32, 0]),
    (U4, MIN32, 0, [MIN32, MIN32, 0, NO, 0]),
    (U4, MAX32, 1, [MIN32, MAX32 - 1, MAX32, MAX32, 0]),
    (U4, MAX32, MAX32, [-2, 0, NO, 1, 0]),
    (U4, -1, -1, [NO, 0, NO, 1, 0]),
    (U4, 0, MIN32, [MIN32, NO, 0, 0, 0]),
    (U4, -7, 2, [-5, -9, NO, MAX32 - 3, 1]),
    (U4, 7, -2, [NO, NO, NO, 0, 7]),
    (U4, 65_536, 65_536, [131_072, 0, NO, 1, 0]),
    (I8, MIN64, -1, [NO, -MAX64, NO, NO, -1]),
    (I8, MIN64, 1, [-MAX64, NO, MIN64, MIN64, 0]),
    (I8, MIN64, 0, [MIN64, MIN64, 0, NO, 0]),
    (I8, MAX64, 1, [NO, MAX64 - 1, MAX64, MAX64, 0]),
    (I8, MAX64, MAX64, [NO, 0, NO, 1, 0]),
    (I8, -1, -1, [-2, 0, 1, 1, 0]),
    (I8, 0, MIN64, [MIN64, NO, 0, 0, 0]),
    (I8, -7, 2, [-5, -9, -14, -3, -1]),
    (I8, 7, -2, [5, 9, -14, -3, 1]),
    (I8, WORD, WORD, [2 * WORD, 0, NO, 1, 0]),
    (U8, MIN64, -1, [NO, NO, NO, 0, MIN64]),
    (U8, MIN64, 1, [-MAX64, MAX64, MIN64, MIN64, 0]),
    (U8, MIN64, 0, [MIN64, MIN64, 0, NO, 0]),
    (U8, MAX64, 1, [MIN64, MAX64 - 1, MAX64, MAX64, 0]),
    (U8, MAX64, MAX64, [-2, 0, NO, 1, 0]),
    (U8, -1, -1, [NO, 0, NO, 1, 0]),
    (U8, 0, MIN64, [MIN64, NO, 0, 0, 0]),
    (U8, -7, 2, [-5, -9, NO, MAX64 - 3, 1]),
    (U8, 7, -2, [NO, NO, NO, 0, 7]),
    (U8, WORD, WORD, [2 * WORD, 0, NO, 1, 0]),
];

// The kind, a number, the amount, and the number moved to the left, to the right, and to the right without its
// sign. The same holds of the kind without sign.
static SHIFTS: [(Kind, i64, i64, [i64; 3]); 20] = [
    (I4, MIN32, 0, [MIN32, MIN32, MIN32]),
    (I4, MIN32, 31, [0, -1, 1]),
    (I4, MIN32, 32, [MIN32, MIN32, MIN32]),
    (I4, MIN32, 63, [0, -1, 1]),
    (I4, MIN32, 64, [MIN32, MIN32, MIN32]),
    (I4, MAX32, 0, [MAX32, MAX32, MAX32]),
    (I4, MAX32, 31, [MIN32, 0, 0]),
    (I4, MAX32, 32, [MAX32, MAX32, MAX32]),
    (I4, MAX32, 63, [MIN32, 0, 0]),
    (I4, MAX32, 64, [MAX32, MAX32, MAX32]),
    (I8, MIN64, 0, [MIN64, MIN64, MIN64]),
    (I8, MIN64, 31, [0, -WORD, WORD]),
    (I8, MIN64, 32, [0, MIN32, HALF]),
    (I8, MIN64, 63, [0, -1, 1]),
    (I8, MIN64, 64, [MIN64, MIN64, MIN64]),
    (I8, MAX64, 0, [MAX64, MAX64, MAX64]),
    (I8, MAX64, 31, [MIN32, FULL, FULL]),
    (I8, MAX64, 32, [-WORD, MAX32, MAX32]),
    (I8, MAX64, 63, [MIN64, 0, 0]),
    (I8, MAX64, 64, [MAX64, MAX64, MAX64]),
];

// The kind, a number, and what is left of it at each type. The same holds of the kind without sign.
static LOW_BITS: [(Kind, i64, [i64; 8]); 15] = [
    (I4, -1, [-1, 255, -1, 65_535, -1, -1, -1, FULL]),
    (I4, 127, [127, 127, 127, 127, 127, 127, 127, 127]),
    (I4, 128, [-128, 128, 128, 128, 128, 128, 128, 128]),
    (I4, -129, [127, 127, -129, 65_407, -129, -129, -129, CUT]),
    (I4, 256, [0, 0, 256, 256, 256, 256, 256, 256]),
    (I4, BIT15, [0, 0, -BIT15, BIT15, BIT15, BIT15, BIT15, BIT15]),
    (I4, MIN32, [0, 0, 0, 0, MIN32, MIN32, MIN32, HALF]),
    (I4, MAX32, [-1, 255, -1, 65_535, MAX32, MAX32, MAX32, MAX32]),
    (I8, -1, [-1, 255, -1, 65_535, -1, -1, -1, -1]),
    (I8, HALF, [0, 0, 0, 0, MIN32, MIN32, HALF, HALF]),
    (I8, BELOW, [-1, 255, -1, 65_535, MAX32, MAX32, BELOW, BELOW]),
    (I8, FULL, [-1, 255, -1, 65_535, -1, -1, FULL, FULL]),
    (I8, WORD, [0, 0, 0, 0, 0, 0, WORD, WORD]),
    (I8, MIN64, [0, 0, 0, 0, 0, 0, MIN64, MIN64]),
    (I8, MAX64, [-1, 255, -1, 65_535, -1, -1, MAX64, MAX64]),
];

// The kind, a number, and the same number at each type that has it.
static SAME_NUMBERS: [(Kind, i64, [i64; 8]); 30] = [
    (I4, -1, [-1, NO, -1, NO, -1, NO, -1, NO]),
    (I4, 127, [127, 127, 127, 127, 127, 127, 127, 127]),
    (I4, 128, [NO, 128, 128, 128, 128, 128, 128, 128]),
    (I4, -129, [NO, NO, -129, NO, -129, NO, -129, NO]),
    (I4, 256, [NO, NO, 256, 256, 256, 256, 256, 256]),
    (I4, BIT15, [NO, NO, NO, BIT15, BIT15, BIT15, BIT15, BIT15]),
    (I4, MIN32, [NO, NO, NO, NO, MIN32, NO, MIN32, NO]),
    (I4, MAX32, [NO, NO, NO, NO, MAX32, MAX32, MAX32, MAX32]),
    (U4, -1, [NO, NO, NO, NO, NO, -1, FULL, FULL]),
    (U4, 127, [127, 127, 127, 127, 127, 127, 127, 127]),
    (U4, 128, [NO, 128, 128, 128, 128, 128, 128, 128]),
    (U4, -129, [NO, NO, NO, NO, NO, -129, CUT, CUT]),
    (U4, 256, [NO, NO, 256, 256, 256, 256, 256, 256]),
    (U4, BIT15, [NO, NO, NO, BIT15, BIT15, BIT15, BIT15, BIT15]),
    (U4, MIN32, [NO, NO, NO, NO, NO, MIN32, HALF, HALF]),
    (U4, MAX32, [NO, NO, NO, NO, MAX32, MAX32, MAX32, MAX32]),
    (I8, -1, [-1, NO, -1, NO, -1, NO, -1, NO]),
    (I8, HALF, [NO, NO, NO, NO, NO, MIN32, HALF, HALF]),
    (I8, BELOW, [NO, NO, NO, NO, NO, NO, BELOW, NO]),
    (I8, FULL, [NO, NO, NO, NO, NO, -1, FULL, FULL]),
    (I8, WORD, [NO, NO, NO, NO, NO, NO, WORD, WORD]),
    (I8, MIN64, [NO, NO, NO, NO, NO, NO, MIN64, NO]),
    (I8, MAX64, [NO, NO, NO, NO, NO, NO, MAX64, MAX64]),
    (U8, -1, [NO, NO, NO, NO, NO, NO, NO, -1]),
    (U8, HALF, [NO, NO, NO, NO, NO, MIN32, HALF, HALF]),
    (U8, BELOW, [NO, NO, NO, NO, NO, NO, NO, BELOW]),
    (U8, FULL, [NO, NO, NO, NO, NO, -1, FULL, FULL]),
    (U8, WORD, [NO, NO, NO, NO, NO, NO, WORD, WORD]),
    (U8, MIN64, [NO, NO, NO, NO, NO, NO, NO, MIN64]),
    (U8, MAX64, [NO, NO, NO, NO, NO, NO, MAX64, MAX64]),
];

// The value of the kind that holds the number.
fn held(kind: Kind, number: i64) -> i64
    ensures { IsOfKind kind result }
{
    match kind {
        I4 | U4 => i64::from(wrap32(i128::from(number))),
        I8 | U8 => number,
    }
}

// The kind of the same width without sign.
fn unsigned(kind: Kind) -> Kind {
    match kind {
        I4 | U4 => U4,
        I8 | U8 => U8,
    }
}

// The quotient and the remainder, or the divisor that gives none.
fn divided(kind: Kind, a: i64, b: i64) -> (i64, i64)
    requires a { IsOfKind kind a }
    requires b { IsOfKind kind b }
{
    match div_rem(kind, a, b) {
        Ok(parts) => parts,
        Err(DivFault::Zero) => (NO, 0),
        Err(DivFault::Overflow) => (NO, -1),
    }
}

fn computes(rt: &impl Abort, kind: Kind, a: i64, b: i64, want: &[i64; 5]) {
    let (a, b) = (held(kind, a), held(kind, b));
    assert_eq!(rt; add_ovf(kind, a, b).unwrap_or(NO), want[0]);
    assert_eq!(rt; sub_ovf(kind, a, b).unwrap_or(NO), want[1]);
    assert_eq!(rt; mul_ovf(kind, a, b).unwrap_or(NO), want[2]);
    assert_eq!(rt; divided(kind, a, b), (want[3], want[4]));
}

fn shifts(rt: &impl Abort, kind: Kind, a: i64, amount: i64, want: &[i64; 3]) {
    let a = held(kind, a);
    assert_eq!(rt; shift(ShiftOp::Left, kind, a, amount), want[0]);
    assert_eq!(rt; shift(ShiftOp::Right, kind, a, amount), want[1]);
    assert_eq!(rt; shift(ShiftOp::RightUnsigned, kind, a, amount), want[2]);
}

fn keeps_low_bits(rt: &impl Abort, kind: Kind, a: i64, want: &[i64; 8]) {
    let a = held(kind, a);
    for (to, rest) in TYPES.iter().zip(want.iter()) {
        assert_eq!(rt; conv(*to, kind, a), *rest);
    }
}

fn keeps_number(rt: &impl Abort, kind: Kind, a: i64, want: &[i64; 8]) {
    let a = held(kind, a);
    for (to, same) in TYPES.iter().zip(want.iter()) {
        assert_eq!(rt; conv_ovf(*to, kind, a).unwrap_or(NO), *same);
    }
}

#[test]
fn every_operation(rt: HostRuntime) {
    for (kind, a, b, want) in &ARITHMETIC {
        computes(&rt, *kind, *a, *b, want);
    }
    for (kind, a, amount, want) in &SHIFTS {
        shifts(&rt, *kind, *a, *amount, want);
        shifts(&rt, unsigned(*kind), *a, *amount, want);
    }
}

#[test]
fn every_conversion(rt: HostRuntime) {
    for (kind, a, want) in &LOW_BITS {
        keeps_low_bits(&rt, *kind, *a, want);
        keeps_low_bits(&rt, unsigned(*kind), *a, want);
    }
    for (kind, a, want) in &SAME_NUMBERS {
        keeps_number(&rt, *kind, *a, want);
    }
}

fn refuses(rt: &impl Abort, alloc: Global, bytes: &[u8], want: usize) {
    match Text::new(alloc, bytes) {
        Err(TextFault::NotUtf8(at)) => assert_eq!(rt; at, want),
        _ => panic!(rt; "no text was refused"),
    }
}

#[test]
fn wraps(rt: HostRuntime) {
    let rows: [(i128, i32, i64); 12] = [
        (0, 0, 0),
        (-1, -1, -1),
        (2_147_483_647, i32::MAX, 2_147_483_647),
        (2_147_483_648, i32::MIN, 2_147_483_648),
        (-2_147_483_649, i32::MAX, -2_147_483_649),
        (4_294_967_296, 0, 4_294_967_296),
        (9_223_372_036_854_775_807, -1, i64::MAX),
        (9_223_372_036_854_775_808, 0, i64::MIN),
        (-9_223_372_036_854_775_809, -1, i64::MAX),
        (18_446_744_073_709_551_616, 0, 0),
        (i128::MAX, -1, -1),
        (i128::MIN, 0, 0),
    ];
    for (n, word, double) in rows {
        assert_eq!(rt; wrap32(n), word);
        assert_eq!(rt; wrap64(n), double);
    }
}

#[test]
fn lists(rt: HostRuntime) {
    let mut list: Bytes = List::new(rt.alloc());
    assert!(rt; list.is_empty());
    assert!(rt; list.push(7).is_ok());
    assert!(rt; list.extend_from_slice(b"ab").is_ok());
    assert_eq!(rt; list.as_slice(), &[7, 97, 98][..]);
    assert_eq!(rt; list.len(), 3);
    assert_eq!(rt; list.get(2).copied(), Some(98));
    assert_eq!(rt; list.get(3).copied(), None);
    let copy = List::from_slice(rt.alloc(), list.as_slice()).expect(&rt, "memory");
    assert_eq!(rt; copy.as_slice(), list.as_slice());
}

#[test]
fn texts(rt: HostRuntime) {
    let text = Text::new(rt.alloc(), b"a\xC3\xA9").expect(&rt, "a text");
    assert_eq!(rt; text.bytes(), &b"a\xC3\xA9"[..]);
    refuses(&rt, rt.alloc(), b"\xFF", 0);
    refuses(&rt, rt.alloc(), b"a\xC3\xA9\xE2\x82", 3);
    refuses(&rt, rt.alloc(), b"ab\xC0\x80", 2);
}

#[test]
fn plain_values(rt: HostRuntime) {
    let bounds = Bounds::standard();
    assert_eq!(rt; (bounds.heap, bounds.stack), (8_388_608, 1_048_576));
    let fix = Fix {
        at: 1,
        kind: FixKind::Code,
        item: 2,
    };
    assert!(rt; fix == fix);
}
