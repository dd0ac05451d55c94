ghost use Rattle.std.specs.Prelude.{◌≡◌};
ghost use Rattle.guidance.specs.Kinds.{heading_of, layer_text};

/// What is refused.
#[derive(Clone, Copy)]
pub enum Layer {
    /// The text of a drawing.
    Drawing,
    /// Its networks.
    Networks,
    /// Its names.
    Names,
    /// The text of a plant.
    Plant,
    /// The plan of a plant.
    Plan,
    /// The text of a schedule.
    Schedule,
    /// Nothing: a drawing is warned of.
    WarnedDrawing,
    /// Nothing: a plant is warned of.
    WarnedPlant,
}

impl Layer {
    /// Where a kind of fault is met.
    pub fn text(self) -> &'static str
        ensures { result.now ≡ layer_text self }
    {
        match self {
            Layer::Drawing => "in a drawing",
            Layer::Networks => "in the networks of a drawing",
            Layer::Names => "at the names of a drawing",
            Layer::Plant => "in a plant",
            Layer::Plan => "in the plan of a plant",
            Layer::Schedule => "in a schedule",
            Layer::WarnedDrawing => "as a warning of a drawing",
            Layer::WarnedPlant => "as a warning of a plant",
        }
    }

    /// What becomes of a text of this kind.
    pub fn heading(self) -> &'static str
        ensures { result.now ≡ heading_of self }
    {
        match self {
            Layer::WarnedDrawing | Layer::WarnedPlant => "Warned of",
            _ => "Refused",
        }
    }
}

/// What is told of one kind of fault or warning.
#[derive(Clone, Copy)]
pub struct Advice {
    pub layer: Layer,
    /// The kind, as messages name it.
    pub kind: &'static str,
    /// What is wrong, and how it is mended.
    pub sentence: &'static str,
    /// A text with this fault, or in words what has it.
    pub example: &'static str,
    /// The text mended, or in words how it is mended.
    pub mended: &'static str,
}
