//! The elements of the types in some bytes. They are read one behind another, with no recursion, so types may be nested
//! as deep as bytes are long.
ghost use Rattle.std.specs.Prelude.{IfOk, MatchResult, length};
ghost use Rattle.md_sigs.specs.Grammar.{AreSpelled, IsSpelled};
ghost use Rattle.md_sigs.specs.Reading.{Gives, IsStopped, places_of};
ghost use Rattle.md_sigs.specs.Signatures.{elements_in};

use crate::element::{Element, Stop};
use crate::front::read_element;
use crate::waiting::{Run, next_place, open};
use num_core::Memory;
use std::alloc::Global;
use std::collections::VecDeque;

/// The elements that all of the bytes spell at the places that wait, or where they stop.
pub(crate) fn read_elements(
    alloc: Global,
    bytes: &[u8],
    module: u32,
    waiting: &mut VecDeque<Run>,
) -> Result<Result<Vec<Element>, Stop>, Memory>
    ensures spelled { IfOk result (λ read. MatchResult read
        (λ elements. IsSpelled «module» (places_of waiting.old.items) bytes.now elements.items)
        (IsStopped (AreSpelled «module» (places_of waiting.old.items)) bytes.now)) }
    ensures exact { IfOk result (λ read. Gives (λ elements. elements.items) read
        (elements_in (length bytes.now) «module» (places_of waiting.old.items) bytes.now)) }
{
    let mut elements = Vec::new(alloc);
    let mut rest = bytes;
    while let Some(place) = next_place(waiting)? {
        match read_element(rest, module, place) {
            Ok((element, behind)) => {
                elements.push(element)?;
                open(waiting, element, place)?;
                rest = behind;
            }
            Err(stop) => return Ok(Err(stop)),
        }
    }
    if rest.is_empty() {
        Ok(Ok(elements))
    } else {
        Ok(Err(Stop::Bad(rest.len())))
    }
}
