ghost use Rattle.std.specs.Prelude.{◌≡◌, ◌<◌, ◌++◌, ℕ, All, Contains, IfNone, IfOk, IfSome, OnOk, IsTrue, length, map};
ghost use Rattle.std.specs.Prelude.{filter, slice_index_or};
ghost use Rattle.ty_terms.specs.Canon.{is_reference_type};
ghost use Rattle.il_stacks.specs.Bounds.{are_sound};
ghost use Rattle.il_stacks.specs.Effects.{behind as behind_of};
ghost use Rattle.il_stacks.specs.Flow.{AreLeastStacks, AreRising, entry as entry_of, passed, steps_rise};
ghost use Rattle.il_stacks.specs.Flow.{tries as tries_of};

use crate::effect::{Handler, Step};
use crate::join::joined;
use crate::order::tells;
use crate::results::{behind, one};
use crate::stack::Stack;
use least_flow::{Flow, least_solution};
use num_core::{List, Memory};
use std::alloc::Global;
use ty_terms::TypeId;

/// What is known of the stack at each of so many offsets of code, and nothing where control doesn't come: the least
/// that tells what each instruction passes on (ECMA-335 III.1.8.1.1). `values` has the named types that are value
/// types.
///
/// The steps stand in rising order of their offsets, and their slots and those of handlers list types in rising
/// order.
pub fn least_stacks(
    alloc: Global,
    values: &List<TypeId>,
    steps: &[Step],
    handlers: &[Handler],
    size: u32,
) -> Result<Vec<Option<Stack>>, Memory>
    requires rising { IsTrue (steps_rise 0 steps.now) }
    requires sound { IsTrue (are_sound steps.now handlers.now) }
    ensures { IfOk result (λ table.
        AreLeastStacks (is_reference_type values.now) steps.now handlers.now size table.items) }
{
    let typing = Typing {
        values,
        steps,
        handlers,
        size,
    };
    least_solution(alloc, &typing)
}

/// How stacks flow through code.
#[derive(Drop)]
struct Typing<'a> {
    values: &'a List<TypeId>,
    steps: &'a [Step],
    handlers: &'a [Handler],
    size: u32,
    ghost rising: { AreRising steps.now },
    ghost sound: { IsTrue (are_sound steps.now handlers.now) },
}

impl<'a> Flow for Typing<'a> {
    ghost use Rattle.std.specs.Prelude.{ℕ, ◌+◌, ◌*◌, length};
    ghost use Rattle.ty_terms.specs.Canon.{is_reference_type};
    ghost use Rattle.il_stacks.specs.BoundLaws.{bounded, widens};
    ghost use Rattle.il_stacks.specs.Bounds.{IsWithin, stack_rank, types_met};
    ghost use Rattle.il_stacks.specs.Flow.{Passes, Starts};
    ghost use Rattle.il_stacks.specs.Told.{IsRisingBelow};
    ghost use Rattle.il_stacks.specs.ToldLaws.{rising_monotone, rising_reflexive, rising_transitive};

    type Fact = Stack;

    ghost places = { λ typing. typing.size };

    ghost is_below = { IsRisingBelow };

    ghost starts = { λ typing. Starts };

    ghost passes = { λ typing. Passes (is_reference_type typing.values.now) typing.steps.now typing.handlers.now };

    ghost is_within = { λ typing. IsWithin (types_met typing.steps.now typing.handlers.now) };

    ghost rank = { λ typing. stack_rank (types_met typing.steps.now typing.handlers.now) typing.size };

    ghost most = { λ typing. 1 + typing.size * (2 + length (types_met typing.steps.now typing.handlers.now)) };

    fn places(&self) -> usize {
        self.size as usize
    }

    fn starts(&self, alloc: Global) -> Result<Vec<(usize, Stack)>, Memory> {
        let empty = Stack::Slots(List::new(alloc));
        Ok(vec![in alloc; (0, empty)]?)
    }

    fn pass(
        &self,
        alloc: Global,
        place: usize,
        known: &Stack,
    ) -> Result<Vec<(usize, Stack)>, Memory> {
        match position(self.steps, place as u32) {
            Some(index) => passed_on(alloc, self.values, self.handlers, &self.steps[index], known),
            None => Ok(Vec::new(alloc)),
        }
    }

    fn join(&self, alloc: Global, known: &mut Stack, more: Stack) -> Result<bool, Memory> {
        if tells(&more, known) {
            return Ok(false);
        }
        *known = joined(alloc, known, &more)?;
        Ok(true)
    }

    ghost reflexive = { rising_reflexive };

    ghost transitive = { rising_transitive };

    ghost monotone = { λ typing place a b to fact h passes.
        rising_monotone (is_reference_type typing.values.now) typing.steps.now typing.handlers.now typing.sound
        place a b to fact h passes };

    ghost widens = { λ typing. widens (types_met typing.steps.now typing.handlers.now) };

    ghost bounded = { λ typing. bounded (types_met typing.steps.now typing.handlers.now) typing.size };
}

/// The number of the step at an offset.
fn position(steps: &[Step], offset: u32) -> Option<usize>
    requires { AreRising steps.now }
    ensures within { IfSome result (λ n. n < length steps.now) }
    ensures found { IfSome result (λ n. (d : Step) → (slice_index_or steps.now n d).at ≡ offset) }
    ensures none { IfNone result (All (λ step. ¬ (step.at ≡ offset)) steps.now) }
{
    match steps.binary_search_by_key(&offset, |step| step.at) {
        Ok(index) => Some(index),
        Err(_) => None,
    }
}

/// What is passed on from a step before which a stack is known.
fn passed_on(
    alloc: Global,
    values: &List<TypeId>,
    handlers: &[Handler],
    step: &Step,
    known: &Stack,
) -> Result<Vec<(usize, Stack)>, Memory>
    ensures { IfOk result (λ facts.
        facts.items ≡ passed (is_reference_type values.now) handlers.now step.now known.now) }
{
    let mut facts = Vec::new(alloc);
    add_ways(alloc, &mut facts, values, step, known)?;
    add_handlers(alloc, &mut facts, handlers, step.at)?;
    Ok(facts)
}

/// Adds the stack behind a step, for each offset to which control goes from it.
fn add_ways(
    alloc: Global,
    facts: &mut Vec<(usize, Stack)>,
    values: &List<TypeId>,
    step: &Step,
    known: &Stack,
) -> Result<(), Memory>
    ensures { OnOk result (facts.new.items ≡ facts.old.items
        ++ map (λ to. (to, behind_of (is_reference_type values.now) step.now.effect known.now)) step.now.ways) }
{
    for way in step.ways.as_slice() {
        let stack = behind(alloc, values, &step.effect, known)?;
        facts.push((*way as usize, stack))?;
    }
    Ok(())
}

/// Adds the stacks with which the handlers begin whose try range holds an offset.
fn add_handlers(
    alloc: Global,
    facts: &mut Vec<(usize, Stack)>,
    handlers: &[Handler],
    offset: u32,
) -> Result<(), Memory>
    ensures { OnOk result (facts.new.items ≡ facts.old.items ++ map entry_of (filter (tries_of offset) handlers.now)) }
{
    for handler in handlers {
        if tries(handler, offset) {
            facts.push((handler.at as usize, entry(alloc, handler)?))?;
        }
    }
    Ok(())
}

/// Whether the try range of a handler holds an offset.
fn tries(handler: &Handler, offset: u32) -> bool
    ensures { result ≡ tries_of offset handler.now }
{
    handler.try_at <= offset && offset < handler.try_end
}

/// The stack with which a handler begins.
fn entry(alloc: Global, handler: &Handler) -> Result<Stack, Memory>
    ensures { IfOk result (λ stack. stack ≡ (entry_of handler.now).1) }
{
    match &handler.caught {
        Some(caught) => Ok(Stack::Slots(one(alloc, caught.copy(alloc)?)?)),
        None => Ok(Stack::Slots(List::new(alloc))),
    }
}
