//! The places that wait for an element, as runs of equal ones.
ghost use Rattle.std.specs.Prelude.{◌≡◌, ◌∷◌, ◌++◌, IfOk, OnOk};
ghost use Rattle.md_sigs.specs.Grammar.{opened, places_behind};
ghost use Rattle.md_sigs.specs.Reading.{IsNext, places_of};

use crate::element::{Element, Head, Place};
use num_core::Memory;
use std::alloc::Global;
use std::collections::VecDeque;

/// So many equal places.
#[derive(Clone, Copy, Debug)]
pub struct Run {
    pub place: Place,
    pub count: u32,
}

/// Puts a run in front of those that wait.
fn put(waiting: &mut VecDeque<Run>, place: Place, count: u32) -> Result<(), Memory>
    ensures { OnOk result (waiting.new.items ≡ record { place = place; count = count } ∷ waiting.old.items) }
{
    waiting.push_front(Run { place, count })?;
    Ok(())
}

/// The places behind the beginning of a signature.
pub(crate) fn wait_behind(alloc: Global, head: Head) -> Result<VecDeque<Run>, Memory>
    ensures { IfOk result (λ waiting. places_of waiting.items ≡ places_behind head) }
{
    let mut waiting = VecDeque::new(alloc);
    match head {
        Head::Field => put(&mut waiting, Place::Plain, 1)?,
        Head::Method(_, _, n) => {
            put(&mut waiting, Place::Variable, n)?;
            put(&mut waiting, Place::Returned, 1)?;
        }
        Head::Locals(n) => put(&mut waiting, Place::Variable, n)?,
        Head::Args(n) => put(&mut waiting, Place::Plain, n)?,
    }
    Ok(waiting)
}

/// Puts the places that an element opens in front of those that wait.
pub(crate) fn open(
    waiting: &mut VecDeque<Run>,
    element: Element,
    place: Place,
) -> Result<(), Memory>
    ensures { OnOk result (places_of waiting.new.items ≡ opened element place ++ places_of waiting.old.items) }
{
    match element {
        Element::Instance(_, n) => put(waiting, Place::Plain, n),
        Element::Vector | Element::ByRef => put(waiting, Place::Plain, 1),
        Element::Modifier => put(waiting, place, 1),
        Element::Primitive(_) | Element::Named(_) | Element::Var(_) | Element::MVar(_) => Ok(()),
    }
}

/// Takes the next place off those that wait.
pub(crate) fn next_place(waiting: &mut VecDeque<Run>) -> Result<Option<Place>, Memory>
    ensures { IfOk result (λ next. IsNext (places_of waiting.old.items) next (places_of waiting.new.items)) }
{
    while let Some(run) = waiting.pop_front() {
        if run.count > 1 {
            put(waiting, run.place, run.count - 1)?;
            return Ok(Some(run.place));
        }
        if run.count == 1 {
            return Ok(Some(run.place));
        }
    }
    Ok(None)
}
