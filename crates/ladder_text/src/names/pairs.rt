//! Words that stand above symbols, one above each.

ghost use Rattle.std.specs.Prelude.{◌≡◌, ◌&&◌, nat_le, IsTrue};
ghost use Rattle.ladder_text.specs.Names.{overlap};
ghost use Rattle.ladder_text.specs.Steps.Pairs.{ArePaired};

use crate::names::span::overlap;
use ladder_rows::Span;

/// Whether a word and a symbol overlap, and neither begins before a column.
fn is_pair(from: usize, word: &Span, symbol: &Span) -> bool
    ensures { result ≡ (nat_le from word.now.first && nat_le from symbol.now.first && overlap word.now symbol.now) }
{
    from <= word.first && from <= symbol.first && overlap(word, symbol)
}

/// Whether words and symbols go in pairs that overlap, each behind the pair before it.
pub fn are_paired(words: &[Span], symbols: &[Span]) -> bool
    ensures { IsTrue result → ArePaired words.now symbols.now }
{
    if words.len() != symbols.len() {
        return false;
    }
    let mut from = 0;
    for (index, word) in words.iter().enumerate() {
        let symbol = symbols[index];
        if !is_pair(from, word, &symbol) {
            return false;
        }
        from = word.end.max(symbol.end);
    }
    true
}
