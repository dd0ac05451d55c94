ghost use Rattle.std.specs.Prelude.{◌↔◌, ℕ, List, is_some, IsTrue};
ghost use Rattle.declared_names.specs.Names.{place_of, IsDeclared, HasOneNameAPlace};
ghost use Rattle.declared_names.specs.declared.declarations.Declaration.{Declaration};

/// Names that are declared at one place are equal, in either case.
pub fn names_of_one_place_are_one()
    ensures { (ds : List Declaration) → HasOneNameAPlace ds }
{}

/// A name has a place exactly if it is declared.
pub fn declared_names_have_places()
    ensures { (ds : List Declaration) (name : List ℕ) → IsTrue (is_some (place_of ds name)) ↔ IsDeclared ds name }
{}
