ghost use Rattle.std.specs.Prelude.{◌≡◌, ◌+◌, ◌≤◌, ◌<◌, ◌^◌, length, None, Ok, IfOk, IfErr, IfSome};
ghost use Rattle.il_code.specs.Bodies.{body_of, body_by_code, Refuses};
ghost use Rattle.il_code.specs.Headers.{code_of};
ghost use Rattle.il_code.specs.Clauses.{rows_of};
ghost use Rattle.il_code.specs.Listing.{AreRising, first_bad_target, listed};

use crate::body::Body;
use crate::clause::{Row, check_clauses, read_rows};
use crate::fault::BodyFault;
use crate::header::{Header, whole_header};
use crate::listing::{CodeFault, instructions};
use num_core::{List, Memory};
use std::alloc::Global;

/// The body that exactly these bytes are (ECMA-335 II.25.4).
///
/// The faults are looked for in the order of the variants. `BadOpcode` tells the first offset of the code where no
/// instruction stands whole, `BadTarget` the first instruction with a target at which none stands, and `BadClause` the
/// first bad clause. A clause is bad where its flags aren't 0, 1, 2 or 4; where one of its ranges isn't one or more
/// whole instructions; where its two ranges overlap; and where one of them overlaps a range of another clause, unless
/// one of the two lies within the other and is smaller, or both are try ranges and equal.
pub fn read_body(alloc: Global, bytes: &[u8]) -> Result<Body, BodyFault>
    requires { length bytes.now < 2 ^ 32 }
    ensures body { IfOk result (λ body. body_of bytes.now ≡ Ok body) }
    ensures refused { IfErr result (Refuses (body_of bytes.now)) }
    ensures rising { IfOk result (λ body. AreRising body.code) }
    ensures targets { IfOk result (λ body. first_bad_target body.code ≡ None) }
{
    let Some(header) = whole_header(bytes) else {
        return Err(BodyFault::BadHeader(bytes.len() as u32));
    };
    let code = code_behind(bytes, header);
    match rows_behind(alloc, bytes, header) {
        Ok(Some(rows)) => read_code(alloc, code, header, rows.as_slice()),
        Ok(None) => Err(BodyFault::BadHeader(bytes.len() as u32)),
        Err(_) => Err(BodyFault::Memory),
    }
}

/// The code behind a header.
fn code_behind(bytes: &[u8], header: Header) -> &[u8]
    requires { header.code_at + header.code_size ≤ length bytes.now }
    ensures { result.now ≡ code_of bytes.now header }
{
    let at = header.code_at as usize;
    &bytes[at..at + header.code_size as usize]
}

/// The clauses in the sections behind the code, if each section is a table.
fn rows_behind(alloc: Global, bytes: &[u8], header: Header) -> Result<Option<List<Row>>, Memory>
    requires { header.code_at + header.code_size ≤ length bytes.now }
    ensures value { IfOk result (λ rows. rows ≡ rows_of bytes.now header) }
    ensures few { IfOk result (λ rows. IfSome rows (λ rows. length rows ≤ length bytes.now)) }
{
    if header.has_sections {
        read_rows(
            alloc,
            bytes,
            header.code_at as usize + header.code_size as usize,
        )
    } else {
        Ok(Some(List::new(alloc)))
    }
}

/// The body of code and clauses.
fn read_code(alloc: Global, code: &[u8], header: Header, rows: &[Row]) -> Result<Body, BodyFault>
    requires code { length code.now < 2 ^ 32 }
    requires few { length rows.now < 2 ^ 32 }
    ensures body { IfOk result (λ body. body_by_code header rows.now (listed code.now) ≡ Ok body) }
    ensures refused { IfErr result (Refuses (body_by_code header rows.now (listed code.now))) }
    ensures rising { IfOk result (λ body. AreRising body.code) }
    ensures targets { IfOk result (λ body. first_bad_target body.code ≡ None) }
{
    let instrs = match instructions(alloc, code) {
        Ok(instrs) => instrs,
        Err(CodeFault::BadOpcode(offset)) => return Err(BodyFault::BadOpcode(offset)),
        Err(CodeFault::BadTarget(offset)) => return Err(BodyFault::BadTarget(offset)),
        Err(CodeFault::Memory) => return Err(BodyFault::Memory),
    };
    match check_clauses(alloc, instrs.as_slice(), header.code_size, rows) {
        Ok(clauses) => Ok(Body {
            max_stack: header.max_stack,
            locals: header.locals,
            code: instrs,
            clauses,
        }),
        Err(fault) => Err(fault),
    }
}
