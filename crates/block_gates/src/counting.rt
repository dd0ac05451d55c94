ghost use Rattle.std.specs.Prelude.{◌≡◌, IfOk};
ghost use Rattle.gates.specs.Gates.{IsBuilt};
ghost use Rattle.gate_words.specs.Values.{int_at};
ghost use Rattle.std_blocks.specs.Blocks.{one_more, one_less};

use gate_words::{IntWord, bounded_sum, difference};
use gates::Gates;
use std::alloc::{AllocError, Global};

/// One more, but not above 32767.
pub(crate) fn one_more_of(
    alloc: Global,
    gates: &mut Gates,
    count: &IntWord,
) -> Result<IntWord, AllocError>
    ensures { IfOk result (λ new. IsBuilt gates.old gates.new (λ v. int_at v new ≡ one_more (int_at v count.now))) }
{
    let on = gates.constant(true);
    let raised = count.raised();
    let word = bounded_sum(alloc, gates, &raised, &[on], &[on; 16])?;
    let bits = word.as_slice();
    let new = IntWord::of_raised(alloc, gates, bits)?;
    Ok(new)
}

/// One less, but not below -32768.
pub(crate) fn one_less_of(
    alloc: Global,
    gates: &mut Gates,
    count: &IntWord,
) -> Result<IntWord, AllocError>
    ensures { IfOk result (λ new. IsBuilt gates.old gates.new (λ v. int_at v new ≡ one_less (int_at v count.now))) }
{
    let on = gates.constant(true);
    let raised = count.raised();
    let word = difference(alloc, gates, &raised, &[on])?;
    let bits = word.as_slice();
    let new = IntWord::of_raised(alloc, gates, bits)?;
    Ok(new)
}
