ghost use Rattle.std.specs.Prelude.{OnOk};
ghost use Rattle.text_lines.specs.Growing.{GrowsBy};
ghost use Rattle.text_lines.specs.Steps.Gaps.{gap_before};

use std::alloc::AllocError;

/// Makes a line ready for an item of a list: a blank behind the item before, if there is one.
pub(crate) fn push_gap(line: &mut String, item: usize) -> Result<(), AllocError>
    ensures { OnOk result (GrowsBy line.old line.new (gap_before item)) }
{
    if item == 0 {
        Ok(())
    } else {
        line.push_str(" ")
    }
}
