//! The line of a message.

ghost use Rattle.std.specs.Prelude.{OnOk};
ghost use Rattle.text_lines.specs.Growing.{GrowsBy};
ghost use Rattle.text_lines.specs.MessageLines.{name_text, message_line, HasForm};

use crate::gives::push_gives;
use crate::heard::push_all_heard;
use crate::names::push_task;
use evaluation::{Message, Name};
use plant::Plant;
use std::alloc::AllocError;
use std::fmt::Write;

/// Writes a name, as `R1.FAST 1.2`, behind a line.
pub fn push_name(line: &mut String, plant: &Plant, name: Name) -> Result<(), AllocError>
    ensures { OnOk result (GrowsBy line.old line.new (name_text plant.now name)) }
{
    let incarnation = name.incarnation;
    let number = name.number;
    push_task(line, plant, name.task)?;
    write!(line, " {incarnation}.{number}")
}

/// Writes the line of a message, such as `MESSAGE R1.FAST 1.1 HEARD R1=1 R2=1 GIVES A.N=1 A.FULL=0`, without a line feed,
/// behind what is there.
pub fn push_message(line: &mut String, plant: &Plant, message: &Message) -> Result<(), AllocError>
    requires { HasForm plant.now message.now }
    ensures { OnOk result (GrowsBy line.old line.new (message_line plant.now message.now)) }
{
    let name = message.name();
    let Some(code) = plant.code(name.task) else {
        return Ok(());
    };
    line.push_str("MESSAGE ")?;
    push_name(line, plant, name)?;
    line.push_str(" HEARD")?;
    push_all_heard(line, plant, message.heard())?;
    line.push_str(" GIVES ")?;
    push_gives(line, code, message.image().values())
}
