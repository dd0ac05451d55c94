ghost use Rattle.std.specs.Prelude.{◌≡◌};
ghost use Rattle.text_commands.specs.Alone.{alone};

use crate::second_fault::SecondFault;
use ladder_text::DrawFault;
use name_faults::BindFault;
use network::GraphFault;
use plant::PlantFault;
use thiserror::Error;

/// Why the text of a drawing is refused, in the words `LINE:COLUMN: Kind`, or that of a plant, as `LINE: Kind`.
#[derive(Clone, Copy, Debug, PartialEq, Eq, Error)]
pub enum TextFault {
    /// It isn't well drawn.
    #[error(transparent)]
    Draw(DrawFault),
    /// Its networks can't be evaluated.
    #[error(transparent)]
    Graph(GraphFault),
    /// Its names can't be bound.
    #[error(transparent)]
    Bind(BindFault),
    /// It is no plant.
    #[error(transparent)]
    Plant(PlantFault),
    /// The plant's plan has more than 100,000 entries.
    #[error("plan: TooLong")]
    TooLong,
    /// A second drawing, whose rungs are to stand behind those of the first, is refused.
    #[error(transparent)]
    Second(SecondFault),
}

impl TextFault {
    /// The fault of a second drawing as that of its text alone; lines and columns are the same.
    pub fn alone(fault: SecondFault) -> TextFault
        ensures { result ≡ alone fault }
    {
        match fault {
            SecondFault::Draw(fault) => TextFault::Draw(fault),
            SecondFault::Graph(fault) => TextFault::Graph(fault),
            SecondFault::Bind(fault) => TextFault::Bind(fault),
        }
    }
}
