//! What holds of lines.

ghost use Rattle.text_lines.specs.OneMessage.{OneMessage};

use plant::names_are_apart;

/// A line is that of one message alone, in a plant that a text spells.
pub fn one_message()
    ensures { OneMessage }
{
    names_are_apart();
}
