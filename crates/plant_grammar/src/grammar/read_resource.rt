//! The rules of the grammar for resources and their lines.

ghost use Rattle.std.specs.Prelude.{◌≡◌, ◌≢◌, ℕ, List, [], ◌∷◌, ◌++◌, ◌<◌, IfOk, OnOk, length, IfErr};
ghost use Rattle.plant_grammar.specs.WordFaults.{IsGrammarFault};
ghost use Rattle.std.specs.List.{flat_map};
ghost use Rattle.plant_text.specs.declared.token.Token.{Token};
ghost use Rattle.plant_text.specs.declared.token.Token.TheVariants as token;
ghost use Rattle.plant_grammar.specs.declared.grammar.tree.Item.{Item};
ghost use Rattle.plant_grammar.specs.declared.grammar.tree.Resource.{Resource};
ghost use Rattle.plant_grammar.specs.declared.grammar_fault.GrammarFaultKind.TheVariants.{Memory};
ghost use Rattle.plant_text.specs.declared.token.Keyword.TheVariants as key;
ghost use Rattle.plant_grammar.specs.Grammar.{key_word, item_words, items_words, resource_words, resources_words};
ghost use Rattle.plant_grammar.specs.Lawful.{use_of, uses_of, IsResourceLawful, AreItemsLawful, AreResourcesLawful};
ghost use Rattle.plant_grammar.specs.SourceLines.{IsItemOn, EachBefore, IsResourceOn, AreSourcesOn};
ghost use Rattle.plant_grammar.specs.Steps.Lines.{HasLinesOf, KeepsLines};
ghost use Rattle.plant_grammar.specs.Steps.NamesRead.{IsNew};
ghost use Rattle.plant_grammar.specs.Steps.Declaring.{TellsOfResource, BeginRefused, IsAtNext, RefusesItem, RefusesFurtherItems, RefusesFurtherResource, RefusesFurtherResources};
ghost use Rattle.plant_grammar.specs.Steps.ReadParts.{types_alone, tally_with, MayFollow};
ghost use Rattle.plant_grammar.specs.Steps.Expected.{Key, AName, AnItem, MoreItems, MoreResources, resource_rest, GetsStuck};
ghost use Rattle.plant_grammar.specs.NameFaults.{judged_item, judged_resource};
ghost use Rattle.plant_grammar.specs.WellFormed.{IsResourceWellFormed};
ghost use Rattle.plant_grammar.specs.Steps.SoundWords.{BeginsSound, IsNothing, IsItemFormed, judged_items, AreItemsFormed, judged_resources_behind, AreResourcesFormed};
ghost use Rattle.plant_grammar.specs.Steps.Reading.{programs_of};
ghost use Rattle.plant_grammar.specs.Steps.Refusing.{HasRoomFor, AreTypesApart};

use crate::grammar::known_names::{check_new, is_resource};
use crate::grammar::name::Name;
use crate::grammar::program_text::ProgramText;
use crate::grammar::reader::Reader;
use crate::grammar::tally::Tally;
use crate::grammar::tree::{Item, Resource};
use crate::grammar_fault::GrammarFault;
use plant_text::Keyword;
use std::alloc::Global;

/// How many resources a plant may have.
const MOST_RESOURCES: usize = 16;

impl<'a> Reader<'a> {
    /// A line of a resource, behind these.
    #[tactic(auto, using(crate::proofs::RefusedNames::no_name, crate::proofs::RefusedNames::memory_no_name))]
    fn item(
        &mut self,
        alloc: Global,
        types: &[ProgramText],
        before: &[Item],
        tally: &mut Tally,
    ) -> Result<Item, GrammarFault>
        ensures ok { IfOk result (λ x. self.old.words ≡ item_words x ++ self.new.words) }
        ensures left { OnOk result (KeepsLines self.old self.new) }
        ensures lawful { IfOk result (λ x. MayFollow (types_alone types.now) before.now x) }
        ensures lined { IfOk result (λ x. (all : List ℕ) → HasLinesOf all self.old → IsItemOn all x self.new.words) }
        ensures tally { IfOk result (λ x. tally.new ≡ tally_with tally.old (use_of x)) }
        ensures other { IfErr result (λ e. e.kind ≢ Memory → (x : Item) (rest : List Token) → self.old.words ≡ item_words x ++ rest → AreTypesApart types.now → MayFollow (types_alone types.now) before.now x → HasRoomFor tally.old (use_of x) → ⊥) }
        ensures names { IfErr result (BeginRefused (RefusesItem tally.old (programs_of types.now) before.now) self.old) }
        ensures stuck { IfErr result (GetsStuck (BeginsSound (judged_item (programs_of types.now) tally.old.instances tally.old.binds before.now) IsItemFormed) (AnItem ∷ []) self.old) }
        ensures value { IfErr result IsGrammarFault }
    {
        if self.sees_keyword(Keyword::Task) {
            Ok(Item::Task(self.task(alloc, before)?))
        } else {
            Ok(Item::Use(self.instance(alloc, types, before, tally)?))
        }
    }

    /// The lines of a resource, up to its end.
    #[tactic(auto, using(crate::proofs::RefusedNames::no_name, crate::proofs::RefusedNames::memory_no_name, crate::proofs::UnexpectedWords::memory_no_syntax, crate::proofs::WordLists::item_has_words, crate::proofs::ResourceLines::no_items))]
    fn items(
        &mut self,
        alloc: Global,
        types: &[ProgramText],
        tally: &mut Tally,
    ) -> Result<Vec<Item>, GrammarFault>
        ensures ok { IfOk result (λ xs. self.old.words ≡ items_words xs.items ++ self.new.words) }
        ensures left { OnOk result (KeepsLines self.old self.new) }
        ensures lawful { IfOk result (λ xs. AreItemsLawful (types_alone types.now) xs.items) }
        ensures lined { IfOk result (λ xs. (all : List ℕ) → HasLinesOf all self.old → EachBefore item_words (IsItemOn all) xs.items (key_word key.EndResource ∷ self.new.words)) }
        ensures tally { IfOk result (λ xs. tally.new ≡ tally_with tally.old (flat_map use_of xs.items)) }
        ensures other { IfErr result (λ e. e.kind ≢ Memory → (xs : List Item) (rest : List Token) → self.old.words ≡ items_words xs ++ rest → AreTypesApart types.now → AreItemsLawful (types_alone types.now) xs → HasRoomFor tally.old (flat_map use_of xs) → ⊥) }
        ensures names { IfErr result (BeginRefused (RefusesFurtherItems tally.old (programs_of types.now)) self.old) }
        ensures stuck { IfErr result (GetsStuck (λ words. AreTypesApart types.now → BeginsSound (judged_items (programs_of types.now) tally.old.instances tally.old.binds) AreItemsFormed words) (MoreItems ∷ []) self.old) }
        ensures value { IfErr result IsGrammarFault }
    {
        let mut items = Vec::new(alloc);
        'items: while !self.sees_keyword(Keyword::EndResource) {
            // The getters hand out that the plant has at most 64 instances and 4,096 binds so far.
            let _instances = tally.instances();
            let _binds = tally.binds();
            let item = self.item(alloc, types, &items, tally)?;
            items.push(item)?;
        }
        self.keyword(Keyword::EndResource)?;
        Ok(items)
    }

    /// A new name of a resource, behind these.
    #[tactic(auto, using(crate::proofs::RefusedNames::no_name))]
    fn resource_name(&mut self, alloc: Global, before: &[Resource]) -> Result<Name, GrammarFault>
        ensures ok { IfOk result (λ name. self.old.words ≡ token.Name name ∷ self.new.words) }
        ensures left { OnOk result (KeepsLines self.old self.new) }
        ensures new { IfOk result (λ name. IsNew (λ r. r.name) before.now name) }
        ensures few { OnOk result (length before.now < 16) }
        ensures other { IfErr result (λ e. e.kind ≢ Memory → (name : List ℕ) (rest : List Token) → self.old.words ≡ token.Name name ∷ rest → IsNew (λ r. r.name) before.now name → length before.now < 16 → ⊥) }
        ensures tells { IfErr result (TellsOfResource before.now self.old.words) }
        ensures line { IfErr result (IsAtNext self.old) }
        ensures stuck { IfErr result (GetsStuck IsNothing (AName ∷ []) self.old) }
        ensures value { IfErr result IsGrammarFault }
    {
        let line = self.line();
        let name = self.name(alloc)?;
        check_new(
            line,
            is_resource(before, &name),
            before.len() >= MOST_RESOURCES,
        )?;
        Ok(name)
    }

    /// A resource, behind these.
    #[tactic(auto, unfolding(crate::specs::Grammar::resource_words), using(crate::proofs::RefusedNames::no_name, crate::proofs::RefusedNames::memory_no_name, crate::proofs::ResourceLines::resource_is_lawful))]
    fn resource(
        &mut self,
        alloc: Global,
        types: &[ProgramText],
        before: &[Resource],
        tally: &mut Tally,
    ) -> Result<Resource, GrammarFault>
        ensures ok { IfOk result (λ r. self.old.words ≡ resource_words r ++ self.new.words) }
        ensures left { OnOk result (KeepsLines self.old self.new) }
        ensures new { IfOk result (λ r. IsNew (λ r. r.name) before.now r.name) }
        ensures few { OnOk result (length before.now < 16) }
        ensures lawful { IfOk result (λ r. IsResourceLawful (types_alone types.now) r) }
        ensures lined { IfOk result (λ r. (all : List ℕ) → HasLinesOf all self.old → IsResourceOn all r self.new.words) }
        ensures tally { IfOk result (λ r. tally.new ≡ tally_with tally.old (uses_of r)) }
        ensures other { IfErr result (λ e. e.kind ≢ Memory → (r : Resource) (rest : List Token) → self.old.words ≡ resource_words r ++ rest → AreTypesApart types.now → IsNew (λ r. r.name) before.now r.name → length before.now < 16 → IsResourceLawful (types_alone types.now) r → HasRoomFor tally.old (uses_of r) → ⊥) }
        ensures names { IfErr result (BeginRefused (RefusesFurtherResource tally.old (programs_of types.now) before.now) self.old) }
        ensures stuck { IfErr result (GetsStuck (λ words. AreTypesApart types.now → BeginsSound (judged_resource (programs_of types.now) tally.old.instances tally.old.binds before.now) IsResourceWellFormed words) (Key key.Resource ∷ resource_rest) self.old) }
        ensures value { IfErr result IsGrammarFault }
    {
        self.keyword(Keyword::Resource)?;
        let name = self.resource_name(alloc, before)?;
        self.keyword(Keyword::On)?;
        let node = self.name(alloc)?;
        let items = self.items(alloc, types, tally)?;
        Ok(Resource { name, node, items })
    }

    /// The resources, one at least, up to the end of the configuration.
    #[tactic(auto, using(crate::proofs::RefusedNames::no_name, crate::proofs::RefusedNames::memory_no_name, crate::proofs::UnexpectedWords::memory_no_syntax, crate::proofs::WordLists::resource_has_words, crate::proofs::ResourceLines::no_resources))]
    pub fn resources(
        &mut self,
        alloc: Global,
        types: &[ProgramText],
        tally: &mut Tally,
    ) -> Result<Vec<Resource>, GrammarFault>
        ensures ok { IfOk result (λ rs. self.old.words ≡ resources_words rs.items ++ self.new.words) }
        ensures left { OnOk result (KeepsLines self.old self.new) }
        ensures some { IfOk result (λ rs. 0 < length rs.items) }
        ensures lawful { IfOk result (λ rs. AreResourcesLawful (types_alone types.now) rs.items) }
        ensures lined { IfOk result (λ rs. (all : List ℕ) → HasLinesOf all self.old → AreSourcesOn all rs.items self.new.words) }
        ensures tally { IfOk result (λ rs. tally.new ≡ tally_with tally.old (flat_map uses_of rs.items)) }
        ensures other { IfErr result (λ e. e.kind ≢ Memory → (rs : List Resource) (rest : List Token) → self.old.words ≡ resources_words rs ++ rest → 0 < length rs → AreTypesApart types.now → AreResourcesLawful (types_alone types.now) rs → HasRoomFor tally.old (flat_map uses_of rs) → ⊥) }
        ensures names { IfErr result (BeginRefused (RefusesFurtherResources tally.old (programs_of types.now)) self.old) }
        ensures stuck { IfErr result (GetsStuck (λ words. AreTypesApart types.now → BeginsSound (judged_resources_behind (programs_of types.now) tally.old.instances tally.old.binds) AreResourcesFormed words) (Key key.Resource ∷ resource_rest ++ MoreResources ∷ []) self.old) }
        ensures value { IfErr result IsGrammarFault }
    {
        let mut resources = Vec::new(alloc);
        'resources: while resources.is_empty() || !self.sees_keyword(Keyword::EndConfiguration) {
            // The getters hand out that the plant has at most 64 instances and 4,096 binds so far.
            let _instances = tally.instances();
            let _binds = tally.binds();
            let resource = self.resource(alloc, types, &resources, tally)?;
            resources.push(resource)?;
        }
        self.keyword(Keyword::EndConfiguration)?;
        Ok(resources)
    }
}
