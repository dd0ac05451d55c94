//! The worked drawings: contracts that hold of the definitions alone.

ghost use Rattle.ladder_rows.specs.Rows.{rows_of};
ghost use Rattle.ladder_text.specs.Faults.{IsIllDrawn};
ghost use Rattle.plant_tests.specs.Figures.{IsDrawnAs, IsBranchesListed, IsOnDelayListed, branches, branches_marks, start_stop, start_stop_marks, rising_contact, rising_contact_marks, on_delay, on_delay_marks, parallel_wire, parallel_wire_marks, unattached_box, unattached_box_marks, wire_beside_box, box_without_type, box_without_bottom, cut_drawing, two_words, word_of_two, loose_upright, loose_contact};

/// The worked drawings are well drawn, and have the marks that are shown.
#[tactic(auto, using(crate::proofs::WorkedFigures::branches_drawn, crate::proofs::WorkedFigures::start_stop_drawn, crate::proofs::WorkedFigures::rising_contact_drawn, crate::proofs::WorkedFigures::on_delay_drawn, crate::proofs::WorkedFigures::parallel_wire_drawn, crate::proofs::WorkedFigures::unattached_box_drawn))]
pub fn are_drawn()
    ensures branches { IsDrawnAs branches branches_marks }
    ensures start_stop { IsDrawnAs start_stop start_stop_marks }
    ensures rising_contact { IsDrawnAs rising_contact rising_contact_marks }
    ensures on_delay { IsDrawnAs on_delay on_delay_marks }
    ensures parallel_wire { IsDrawnAs parallel_wire parallel_wire_marks }
    ensures unattached_box { IsDrawnAs unattached_box unattached_box_marks }
{}

/// The contacts, coils and boxes of two of them.
#[tactic(auto, using(crate::proofs::WorkedFigures::branches_listed, crate::proofs::WorkedFigures::on_delay_listed))]
pub fn are_listed()
    ensures branches { IsBranchesListed }
    ensures on_delay { IsOnDelayListed }
{}

/// Drawings with a fault aren't well drawn.
#[tactic(auto, using(crate::proofs::WorkedFigures::wire_beside_box_refused, crate::proofs::WorkedFigures::box_without_type_refused, crate::proofs::WorkedFigures::box_without_bottom_refused, crate::proofs::WorkedFigures::cut_drawing_refused, crate::proofs::WorkedFigures::two_words_refused, crate::proofs::WorkedFigures::word_of_two_refused, crate::proofs::WorkedFigures::loose_upright_refused, crate::proofs::WorkedFigures::loose_contact_refused))]
pub fn are_refused()
    ensures wire_beside_box { IsIllDrawn (rows_of wire_beside_box) }
    ensures box_without_type { IsIllDrawn (rows_of box_without_type) }
    ensures box_without_bottom { IsIllDrawn (rows_of box_without_bottom) }
    ensures cut_drawing { IsIllDrawn (rows_of cut_drawing) }
    ensures two_words { IsIllDrawn (rows_of two_words) }
    ensures word_of_two { IsIllDrawn (rows_of word_of_two) }
    ensures loose_upright { IsIllDrawn (rows_of loose_upright) }
    ensures loose_contact { IsIllDrawn (rows_of loose_contact) }
{}
