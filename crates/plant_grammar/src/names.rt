ghost use Rattle.std.specs.Prelude.{◌≡◌};
ghost use Rattle.plant_grammar.specs.Names.{is_named};

/// Whether both are one name, whatever the case of their letters.
pub fn is_named(name: &str, other: &str) -> bool
    ensures { result ≡ is_named name.now other.now }
{
    name.eq_ignore_ascii_case(other)
}
