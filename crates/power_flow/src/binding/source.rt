ghost use Rattle.std.specs.Prelude.{◌≡◌};
ghost use Rattle.power_flow.specs.Steps.NameSources.{declared_source, name_source};

use declared_names::{Declarations, Declared};
use name_faults::parts;
use scan_steps::Source;
use words::Text;

/// The source of what is declared at a place, or of an output pin of the block there.
fn declared_source(declared: Declared, place: usize, pin: &str) -> Source
    ensures { result ≡ declared_source declared place pin.now }
{
    match declared {
        Declared::Instance(_) if pin.is_empty() => Source::Nothing,
        Declared::Instance(block) => match block.pin(pin) {
            Some(found) if !found.left => Source::Output(place, found.field),
            _ => Source::Nothing,
        },
        _ if pin.is_empty() => Source::Variable(place),
        _ => Source::Nothing,
    }
}

/// The source of what a name stands for, as `A` or `T1.Q`.
#[tactic(auto, unfolding(crate::specs::Steps::NameSources::name_source))]
pub fn name_source(declarations: &Declarations, name: &Text) -> Source
    ensures { result ≡ name_source declarations.now name.now }
{
    let (first, pin) = parts(name);
    let Some(place) = declarations.position_of(first) else {
        return Source::Nothing;
    };
    match declarations.declared_at(place) {
        Some(declared) => declared_source(declared, place, pin),
        None => Source::Nothing,
    }
}
