ghost use Rattle.std.specs.Prelude.{◌≡◌, ◌≤◌, ◌++◌, ℕ, length, map, take, List, true};
ghost use Rattle.std.specs.List.{flat_map, list_all};
ghost use Rattle.plant_text.specs.Steps.Lexing.{AreWordsInPlace};
ghost use Rattle.plant_text.specs.declared.token.Token.{Token};
ghost use Rattle.plant_grammar.specs.declared.grammar.tree.Program.{Program};
ghost use Rattle.plant_grammar.specs.Grammar.{Tree, program_words, words_of};
ghost use Rattle.plant_grammar.specs.NameFaults.{judged_of};
ghost use Rattle.plant_grammar.specs.WellFormed.{is_plain};
ghost use Rattle.plant_grammar.specs.Parts.{program_parts, IsSameTree};

/// The words of a plant of at most 65 program types stand where a plant's text may have them.
pub fn words_are_in_place()
    ensures { (tree : Tree) → length tree.programs ≤ 65 → AreWordsInPlace (words_of tree) }
{}

/// So do further words behind them, no body among these.
pub fn words_behind_are_in_place()
    ensures { (tree : Tree) (more : List Token) → length tree.programs ≤ 65 → list_all is_plain more ≡ true → AreWordsInPlace (words_of tree ++ more) }
{}

/// Two trees that begin the same words say the same, and the same stands behind them.
pub fn words_have_one_tree()
    ensures { (t u : Tree) (rest more : List Token) → words_of t ++ rest ≡ words_of u ++ more → (rest ≡ more) × IsSameTree t u }
{}

/// Programs that begin the words of a tree are its first ones.
pub fn programs_are_the_first()
    ensures { (ps : List Program) (t : Tree) (rest more : List Token) → flat_map program_words ps ++ rest ≡ words_of t ++ more → (n : ℕ) × (map program_parts ps ≡ map program_parts (take n t.programs)) }
{}

/// Without their faults, the judged words of a tree are its words.
pub fn words_are_judged()
    ensures { (tree : Tree) → map (λ j. j.word) (judged_of tree) ≡ words_of tree }
{}
