ghost use Rattle.std.specs.Prelude.{◌≡◌, ◌++◌, ℕ, List, IfOk, bytes_eq, false};
ghost use Rattle.std.specs.BTreeMap.{IsOrdered};
ghost use Rattle.std.specs.Cmp.Lexicographic.{slice_cmp};
ghost use Rattle.std.specs.Ordering.{nat_cmp};
ghost use Rattle.gs_linktext.specs.Groups.{items_at, value_at};
ghost use Rattle.gs_linktext.specs.Links.{values_of};

use gs_chars::{List, Memory};
use gs_linktext_grammar::{CheckedText, Param};
use std::alloc::Global;
use std::collections::BTreeMap;

/// Takes the values of a name out of the groups.
fn take_values(
    alloc: Global,
    groups: &mut BTreeMap<CheckedText, List<CheckedText>>,
    name: &CheckedText,
) -> Vec<CheckedText>
    ensures value { result.items ≡ items_at name.now groups.old }
    ensures others { (q : List ℕ) → bytes_eq name.now q ≡ false
        → items_at q groups.new ≡ items_at q groups.old }
{
    match groups.remove(name) {
        Some(values) => values.into_vec(),
        None => Vec::new(alloc),
    }
}

/// Adds the value of a parameter to those of its name.
fn put_value(
    alloc: Global,
    groups: &mut BTreeMap<CheckedText, List<CheckedText>>,
    param: &Param,
) -> Result<(), Memory>
    ensures items { IfOk result (λ _. (q : List ℕ)
        → items_at q groups.new ≡ items_at q groups.old ++ value_at q param.now.name param.now.value) }
    ensures ordered { IfOk result (λ _. IsOrdered (slice_cmp nat_cmp) groups.new) }
{
    let mut values = take_values(alloc, groups, &param.name);
    values.push(param.value.copied(alloc)?)?;
    groups.insert(param.name.copied(alloc)?, List::from_vec(values))?;
    Ok(())
}

/// Returns the values of each name, in the order of the parameters.
pub(crate) fn groups_of(
    alloc: Global,
    params: &[Param],
) -> Result<BTreeMap<CheckedText, List<CheckedText>>, Memory>
    ensures items { IfOk result (λ groups. (q : List ℕ) → items_at q groups ≡ values_of q params.now) }
    ensures ordered { IfOk result (λ groups. IsOrdered (slice_cmp nat_cmp) groups) }
{
    let mut groups = BTreeMap::new(alloc);
    for param in params {
        put_value(alloc, &mut groups, param)?;
    }
    Ok(groups)
}
