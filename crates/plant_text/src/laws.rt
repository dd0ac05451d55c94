ghost use Rattle.std.specs.Prelude.{◌≡◌, ℕ, List};
ghost use Rattle.plant_text.specs.declared.token.Token.{Token};
ghost use Rattle.plant_text.specs.Spelling.{Spells};
ghost use Rattle.plant_text.specs.Steps.Lexing.{AreWordsInPlace};

/// Words that a text spells, each where a plant's text may have it, are the only such words.
pub fn one_words()
    ensures { (text : List ℕ) (ts us : List Token) → AreWordsInPlace ts → AreWordsInPlace us → Spells text ts → Spells text us → ts ≡ us }
{}
