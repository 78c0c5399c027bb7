//! Pairs of texts that were seen.

ghost use Rattle.std.specs.Prelude.{◌≡◌, ℕ, List, ◌&&◌, ◌||◌, Ok, bytes_eq, IfOk, IfErr, OnOk};
ghost use Rattle.misp_script.specs.declared.fault.DescFault.TheVariants.{NoMemory};
ghost use Rattle.misp_script.specs.Faults.{Gives};
ghost use Rattle.misp_script.specs.Known.{has_pair};

use crate::fault::DescFault;
use misp_ids::Text;
use std::alloc::{AllocError, Global};
use std::collections::BTreeSet;

/// An instance and what is distinct there.
pub(crate) type Pairs = BTreeSet<(Text, Text)>;

fn pair(alloc: Global, first: &str, second: &str) -> Result<(Text, Text), AllocError>
    ensures { IfOk result (λ pair. pair ≡ (first.now, second.now)) }
{
    let first = String::from_str(alloc, first)?;
    let second = String::from_str(alloc, second)?;
    Ok((Text::of(first), Text::of(second)))
}

/// Whether the pair is among them.
pub(crate) fn has_pair(
    alloc: Global,
    pairs: &Pairs,
    first: &str,
    second: &str,
) -> Result<bool, DescFault>
    ensures { Gives result (Ok (has_pair pairs.now first.now second.now)) }
{
    let sought = pair(alloc, first, second)?;
    Ok(pairs.contains(&sought))
}

/// Puts the pair among them.
pub(crate) fn put_pair(
    alloc: Global,
    pairs: &mut Pairs,
    first: &str,
    second: &str,
) -> Result<(), DescFault>
    ensures memory { IfErr result (λ fault. fault ≡ NoMemory) }
    ensures more { OnOk result ((a b : List ℕ) → has_pair pairs.new a b
        ≡ (has_pair pairs.old a b || (bytes_eq second.now b && bytes_eq first.now a))) }
{
    pairs.insert(pair(alloc, first, second)?)?;
    Ok(())
}
