//! Method bodies by hand, in rows of hexadecimal digits: headers, sections, code and clauses (ECMA-335 II.25.4).
use il_code::{BodyFault, ClauseKind, body_length, reached, read_body};
use std::alloc::Global;
use std::test::Fail;

/// A fat header, 25 `nop` and a `ret`, two zeros, and a small table: the clauses of a try with two catches and a
/// finally.
static TRY: &str = "\
0B3002001A00000001000011\
00000000000000000000000000000000000000000000000000\
2A0000\
01280000\
00000000\
0A0A000502000001\
000000000A0F000503000001\
0200000014140005\
00000000";

/// Bodies, and the length of each with the numbers of its instructions, its clauses and the offsets that control
/// reaches, or its refusal: tiny ones, some with a byte left over; operands of each size; one with a fat table of a
/// clause whose handler ends past all offsets.
static BODIES: &str = "\
0E1F2A2A = 4 2 0 2
 = - 9 BadHeader 0
02 = 1 11 BadTarget 0
0E1F2A = - 9 BadHeader 3
062A00 = 2 9 BadHeader 3
052A = - 9 BadHeader 2
0E2A0026 = 4 3 0 1
0E000026 = 4 11 BadTarget 2
8A0E012101000000000000002801000006FE01FE0C0100FE1C0100000226262626262A = 35 12 0 12
2E450100000001000000002A = 12 3 0 3
2E450100000001000000002A00 = 12 9 BadHeader 13
0E2C0017 = 4 11 BadTarget 2
0E0024 = - 9 BadHeader 3
0A0024 = 3 10 BadOpcode 1
0A001F = 3 10 BadOpcode 1
0A00FE = 3 10 BadOpcode 1
16002B011F05 = 6 11 BadTarget 1
0B30020004000000000000000000002A411C000002000000000000000100000001000000FFFFFFFF00000000 = 44 12 BadClause 0
";

/// A place of the body above and the byte that is put there, and what is told then, the length aside.
static CHANGES: &str = "\
0 0B = 26 3 26
0 08 = 9 BadHeader 80
1 20 = 9 BadHeader 80
0 03 = 9 BadHeader 80
4 1B = 27 3 26
4 1D = 9 BadHeader 80
7 FF = 9 BadHeader 80
38 01 = 9 BadHeader 80
40 02 = 9 BadHeader 80
40 81 = 9 BadHeader 80
41 1C = 9 BadHeader 80
43 01 = 9 BadHeader 80
12 24 = 10 BadOpcode 0
37 2B = 10 BadOpcode 25
36 2B = 11 BadTarget 24
12 2B = 25 3 25
44 03 = 12 BadClause 0
58 05 = 12 BadClause 0
61 0E = 12 BadClause 0
72 15 = 12 BadClause 2
75 07 = 12 BadClause 2
75 00 = 12 BadClause 2
";

/// What is told of a body.
fn told(alloc: Global, bytes: &[u8]) -> Result<String, Fail> {
    match numbers(alloc, bytes) {
        Ok((code, clauses, offsets)) => { Ok(format!(in alloc; "{code} {clauses} {offsets}")?) }
        Err(fault) => Ok(format!(in alloc; "{fault}")?),
    }
}

/// The numbers of the instructions, of the clauses and of the offsets that control reaches.
fn numbers(alloc: Global, bytes: &[u8]) -> Result<(usize, usize, usize), BodyFault> {
    if bytes.len() > 1000 {
        return Err(BodyFault::Memory);
    }
    let body = read_body(alloc, bytes)?;
    let offsets = reached(alloc, &body)?;
    Ok((body.code.len(), body.clauses.len(), offsets.len()))
}

#[test]
fn bodies(rt: HostRuntime) -> Result<(), Fail> {
    for row in BODIES.lines() {
        let (digits, answer) = row.split_once(" = ").ok_or("no answer")?;
        let (length, rest) = answer.split_once(' ').ok_or("no length")?;
        let bytes = hex::decode(rt.alloc(), digits)?;
        assert!(rt;
            told(rt.alloc(), bytes.as_slice())?.as_str() == rest,
            "{row}"
        );
        assert!(rt;
            body_length(bytes.as_slice()) == length.parse::<usize>().ok(),
            "{row}"
        );
    }
    Ok(())
}

#[test]
fn changed_bodies(rt: HostRuntime) -> Result<(), Fail> {
    for row in CHANGES.lines() {
        let (change, answer) = row.split_once(" = ").ok_or("no answer")?;
        let (place, digits) = change.split_once(' ').ok_or("no place")?;
        let place = place.parse::<usize>()?;
        let byte = hex::decode(rt.alloc(), digits)?;
        let mut bytes = hex::decode(rt.alloc(), TRY)?;
        if place < bytes.len() && !byte.is_empty() {
            bytes[place] = byte[0];
        }
        assert!(rt;
            told(rt.alloc(), bytes.as_slice())?.as_str() == answer,
            "{row}"
        );
    }
    Ok(())
}

/// What a body has beside its code.
#[test]
fn parts_of_a_body(rt: HostRuntime) -> Result<(), Fail> {
    let bytes = hex::decode(rt.alloc(), TRY)?;
    if bytes.len() > 1000 {
        return Ok(());
    }
    let Ok(body) = read_body(rt.alloc(), bytes.as_slice()) else {
        return Err(Fail::from("no body"));
    };
    assert_eq!(rt; (body.max_stack, body.locals), (2, 0x1100_0001));
    let clause = body.clauses.as_slice().get(1).ok_or("no clause")?;
    assert_eq!(rt;
        (clause.kind, clause.class),
        (ClauseKind::Catch, 0x0100_0003)
    );
    assert_eq!(rt; (clause.try_at, clause.try_end), (0, 10));
    assert_eq!(rt; (clause.handler_at, clause.handler_end), (15, 20));
    Ok(())
}
