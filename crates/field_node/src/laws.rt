ghost use Rattle.field_node.specs.Laws.{NeighboursAskNothing};

/// Beside a field, no line of the neighbours is answered that asks for an evaluation or a restart.
pub fn neighbours_ask_nothing()
    ensures { NeighboursAskNothing }
{}
