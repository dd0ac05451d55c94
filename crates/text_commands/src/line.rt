ghost use Rattle.std.specs.Prelude.{◌≡◌, ◌+◌, ◌<◌, ◌++◌, OnOk, IfOk, length, string_bytes};
ghost use Rattle.text_commands.specs.Lines.{item_text, line_of};
ghost use Rattle.text_commands.specs.Steps.Joining.{ready, IsLineTo};

use declared_names::Declarations;
use power_flow::State;
use std::alloc::{AllocError, Global};
use std_blocks::Value;
use text_lines::push_value;

/// Makes a line ready for the next item.
fn push_blank(line: &mut String) -> Result<(), AllocError>
    ensures { OnOk result (string_bytes line.new ≡ ready (string_bytes line.old)) }
{
    if line.is_empty() {
        Ok(())
    } else {
        line.push_str(" ")
    }
}

/// Writes a variable behind those before it.
fn push_item(line: &mut String, name: &str, value: Value) -> Result<(), AllocError>
    ensures { OnOk result (string_bytes line.new ≡ ready (string_bytes line.old) ++ item_text name.now value) }
{
    push_blank(line)?;
    line.push_str(name)?;
    line.push_str("=")?;
    push_value(line, value)
}

/// Writes the variable at a place, if it is none of an instance.
fn push_variable(
    line: &mut String,
    declarations: &Declarations,
    state: &State,
    place: usize,
) -> Result<(), AllocError>
    requires place { place < length declarations.now }
    requires before { IsLineTo place declarations.now state.now.slots (string_bytes line.old) }
    ensures { OnOk result (IsLineTo (place + 1) declarations.now state.now.slots (string_bytes line.new)) }
{
    let Some((name, _)) = declarations.entry(place) else {
        return Ok(());
    };
    let Some(value) = state.get(place) else {
        return Ok(());
    };
    push_item(line, name, value)
}

/// The line of a state: its variables in order of declaration, with one blank between.
pub fn state_line(
    alloc: Global,
    declarations: &Declarations,
    state: &State,
) -> Result<String, AllocError>
    ensures { IfOk result (λ line. string_bytes line ≡ line_of declarations.now state.now.slots) }
{
    let mut line = String::new(alloc);
    for place in 0..declarations.len() {
        push_variable(&mut line, declarations, state, place)?;
    }
    line.push_str("\n")?;
    Ok(line)
}
