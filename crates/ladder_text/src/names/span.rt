ghost use Rattle.std.specs.Prelude.{◌≡◌, ◌<◌, ◌^◌};
ghost use Rattle.ladder_text.specs.Names.{overlap, symbol_span};

use ladder_rows::Span;

/// The three columns of a symbol, from its first on.
pub fn symbol_span(first: usize) -> Span
    requires { first < 2 ^ 62 }
    ensures { result ≡ symbol_span first }
{
    Span {
        first,
        end: first + 3,
    }
}

/// Whether two parts of rows have a column in common.
pub fn overlap(a: &Span, b: &Span) -> bool
    ensures { result ≡ overlap a.now b.now }
{
    a.first < b.end && b.first < a.end
}
