//! Names that are declared: what each is declared as, and the place at which it stands.
#![tactic(auto)]

mod declarations;
mod kinds;
mod laws;

pub use declarations::{Declaration, Declarations, DeclareFault, Declared, Kind};
pub use kinds::{first_value, is_of_kind, kind_of, kind_of_space};
pub use laws::{declared_names_have_places, names_of_one_place_are_one};
