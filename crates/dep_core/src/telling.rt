//! Marks that are told from needs and from roots.
ghost use Rattle.std.specs.Prelude.{Some, None, OnOk};
ghost use Rattle.dep_core.specs.UnderWay.{AreTold, mark_of};

use crate::mark::Mark;
use crate::rules::Need;
use num_core::{List, Memory};

/// Tells a mark for each root.
pub(crate) fn tell_roots<N: Drop>(told: &mut Vec<Mark<N>>, roots: List<N>) -> Result<(), Memory>
    ensures { OnOk result
        (AreTold (λ (n : N). mark_of n 0 None None) roots told.old.items told.new.items) }
{
    let mut left = roots.into_vec();
    while let Some(node) = left.pop() {
        told.push(Mark {
            node,
            rule: 0,
            from: None,
            also: None,
        })?;
    }
    Ok(())
}

/// Tells a mark for each need that a row has from the nodes at these places.
pub(crate) fn tell_needs<N: Drop>(
    told: &mut Vec<Mark<N>>,
    needs: List<Need<N>>,
    from: u32,
    also: Option<u32>,
) -> Result<(), Memory>
    ensures { OnOk result
        (AreTold (λ need. mark_of need.node need.rule (Some from) also) needs told.old.items told.new.items) }
{
    let mut left = needs.into_vec();
    while let Some(need) = left.pop() {
        let Need { node, rule } = need;
        told.push(Mark {
            node,
            rule,
            from: Some(from),
            also,
        })?;
    }
    Ok(())
}
