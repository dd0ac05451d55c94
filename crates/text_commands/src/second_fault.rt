use ladder_text::DrawFault;
use name_faults::BindFault;
use network::GraphFault;
use thiserror::Error;

/// Why the text of a second drawing is refused, whose rungs are to stand behind those of a first one: with lines and columns
/// of its own.
#[derive(Clone, Copy, Debug, PartialEq, Eq, Error)]
pub enum SecondFault {
    /// It isn't well drawn, or its left rail doesn't stand below that of the first (`NoLeftRail`).
    #[error(transparent)]
    Draw(DrawFault),
    /// Its networks can't be evaluated, or a box has the name of one of the first (`InstanceTwice`).
    #[error(transparent)]
    Graph(GraphFault),
    /// Its names can't be bound, or one stores at a variable of the first (`WritesInput`).
    #[error(transparent)]
    Bind(BindFault),
}
