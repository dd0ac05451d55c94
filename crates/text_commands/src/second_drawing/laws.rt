ghost use Rattle.text_commands.specs.SecondChanges.{SecondChangesNothing};

use needed_networks::slices_follow;

/// The rungs of a second drawing change nothing at a name of the first.
pub fn second_changes_nothing()
    ensures { SecondChangesNothing }
{
    slices_follow();
}
