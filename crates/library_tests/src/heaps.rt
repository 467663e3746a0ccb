use md_heaps::{blob_at, guid_at, read_compressed, string_at, user_string_at};

/// The spellings of ECMA-335 II.23.2, each with its number and its size, and what begins none.
static SPELLINGS: [([u8; 4], u32, usize); 8] = [
    ([0x03, 0x00, 0x00, 0x00], 0x03, 1),
    ([0x7F, 0x00, 0x00, 0x00], 0x7F, 1),
    ([0x80, 0x80, 0x00, 0x00], 0x80, 2),
    ([0xAE, 0x57, 0x00, 0x00], 0x2E57, 2),
    ([0xBF, 0xFF, 0x00, 0x00], 0x3FFF, 2),
    ([0xC0, 0x00, 0x40, 0x00], 0x4000, 4),
    ([0xDF, 0xFF, 0xFF, 0xFF], 0x1FFF_FFFF, 4),
    ([0xE0, 0x00, 0x00, 0x00], 0, 0),
];

#[test]
fn compressed_numbers(rt: HostRuntime) {
    for (bytes, number, size) in &SPELLINGS {
        assert_eq!(rt;
            read_compressed(bytes, 0).unwrap_or((0, 0)),
            (*number, *size)
        );
    }
    assert_eq!(rt; read_compressed(&[0x00, 0xBF, 0xFF], 1), Some((16383, 2)));
    assert_eq!(rt; read_compressed(&[0x00, 0xBF], 1), None);
    assert_eq!(rt; read_compressed(&[0xDF, 0xFF, 0xFF], 0), None);
    assert_eq!(rt; read_compressed(&[0x03], 1), None);
    assert_eq!(rt; read_compressed(&[0x03], 2), None);
}

/// An offset into a heap, and where what stands there begins and ends; none where it ends before it begins.
type Row = (u32, usize, usize);

/// Names: the empty one, "A", "é", a byte that is no UTF-8, and one without a zero byte behind it.
static NAMES: &[u8] = b"\x00A\x00\xC3\xA9\x00\xFF\x00B";

static STRINGS: [Row; 8] = [
    (0, 0, 0),
    (1, 1, 2),
    (3, 3, 5),
    (4, 1, 0),
    (6, 1, 0),
    (8, 1, 0),
    (9, 1, 0),
    (10, 1, 0),
];

/// Blobs of no byte, of one, of three, of one, of two, and of one too many.
static BYTES: &[u8] = b"\x00\x01\x2A\x03A\x00\x01\x02\x41\x00\x04\x01\x02\x03";

static BLOBS: [Row; 5] = [(0, 1, 1), (1, 2, 3), (3, 4, 7), (10, 1, 0), (14, 1, 0)];

/// Of no unit, of none with its last byte, of "A", and of an even length.
static USER_STRINGS: [Row; 5] = [(0, 1, 1), (1, 2, 2), (3, 4, 6), (7, 1, 0), (10, 1, 0)];

/// Numbered from 1, and 0 is none.
static IDENTIFIERS: &[u8] = b"0123456789ABCDEF0123456789abcdefX";

static GUIDS: [Row; 4] = [(0, 0, 0), (1, 0, 16), (2, 16, 32), (3, 1, 0)];

#[test]
fn heaps(rt: HostRuntime) {
    for (at, begin, end) in &STRINGS {
        assert_eq!(rt; string_at(NAMES, *at), NAMES.get(*begin..*end));
    }
    for (at, begin, end) in &BLOBS {
        assert_eq!(rt; blob_at(BYTES, *at), BYTES.get(*begin..*end));
    }
    for (at, begin, end) in &USER_STRINGS {
        assert_eq!(rt; user_string_at(BYTES, *at), BYTES.get(*begin..*end));
    }
    for (number, begin, end) in &GUIDS {
        assert_eq!(rt;
            guid_at(IDENTIFIERS, *number),
            IDENTIFIERS.get(*begin..*end)
        );
    }
}
