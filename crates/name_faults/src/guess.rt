ghost use Rattle.std.specs.Prelude.{◌≡◌, ◌++◌, ◌∷◌, [], map, take, filter, OnOk, IfOk};
ghost use Rattle.std.specs.List.{flat_map};
ghost use Rattle.std.specs.List.Sorted.{IsPermutation, IsSortedBy, IsStableBy};
ghost use Rattle.name_faults.specs.Guess.{is_plain, name_use, word_uses, pin_uses, element_uses, uses_of, is_before, first_uses, AreGuessed};
ghost use Rattle.name_faults.specs.Steps.Guessing.{declared_with};

use crate::kinds::kind_of_pin;
use crate::name_use::NameUse;
use declared_names::{Declarations, Declared, Kind, declared_names_have_places};
use drawings::DrawnPin;
use network::{Element, Graph, Network};
use std::alloc::{AllocError, Global};
use std_blocks::BlockType;
use words::Text;

/// Whether a word is a name by itself: no number, no duration, and without a dot.
fn is_plain_name(letters: &[u8]) -> bool
    ensures { result ≡ is_plain letters.now }
{
    match letters {
        [] => false,
        [first, ..] => !first.is_ascii_digit()
            && !letters.contains(&b'.')
            && !letters.contains(&b'#'),
    }
}

fn push_use(
    uses: &mut Vec<NameUse>,
    row: usize,
    column: usize,
    name: &Text,
    declared: Declared,
) -> Result<(), AllocError>
    ensures { OnOk result (uses.new.items ≡ uses.old.items ++ name_use row column name.now declared ∷ []) }
{
    let name = name.try_copy(*uses.allocator())?;
    uses.push(NameUse {
        row,
        column,
        name,
        declared,
    })?;
    Ok(())
}

fn push_word(
    uses: &mut Vec<NameUse>,
    row: usize,
    column: usize,
    word: &Text,
    declared: Declared,
) -> Result<(), AllocError>
    ensures { OnOk result (uses.new.items ≡ uses.old.items ++ word_uses row column word.now declared) }
{
    if is_plain_name(word.as_bytes()) {
        push_use(uses, row, column, word, declared)?;
    }
    Ok(())
}

fn push_pin(uses: &mut Vec<NameUse>, block: BlockType, pin: &DrawnPin) -> Result<(), AllocError>
    ensures { OnOk result (uses.new.items ≡ uses.old.items ++ pin_uses block pin.now) }
{
    if let Some(operand) = &pin.operand {
        let declared = Declared::Local(kind_of_pin(block, pin));
        push_word(uses, pin.row, operand.column, &operand.text, declared)?;
    }
    Ok(())
}

fn push_pins(uses: &mut Vec<NameUse>, block: BlockType, pins: &[DrawnPin]) -> Result<(), AllocError>
    ensures { OnOk result (uses.new.items ≡ uses.old.items ++ flat_map (pin_uses block) pins.now) }
{
    for pin in pins {
        push_pin(uses, block, pin)?;
    }
    Ok(())
}

fn push_element(uses: &mut Vec<NameUse>, element: &Element) -> Result<(), AllocError>
    ensures { OnOk result (uses.new.items ≡ uses.old.items ++ element_uses element.now) }
{
    match element {
        Element::Wire(_) | Element::Join(_) | Element::Upright(_) => {}
        Element::Contact(contact) => push_word(
            uses,
            contact.row,
            contact.column,
            &contact.name,
            Declared::Local(Kind::Bool),
        )?,
        Element::Coil(coil) => push_word(
            uses,
            coil.row,
            coil.column,
            &coil.name,
            Declared::Local(Kind::Bool),
        )?,
        Element::Box(boxed) => {
            let drawn = boxed.drawn();
            let block = drawn.block;
            push_use(
                uses,
                drawn.top,
                drawn.left,
                &drawn.instance,
                Declared::Instance(block),
            )?;
            push_pins(uses, block, drawn.pins.as_slice())?;
        }
    }
    Ok(())
}

fn push_elements(uses: &mut Vec<NameUse>, elements: &[Element]) -> Result<(), AllocError>
    ensures { OnOk result (uses.new.items ≡ uses.old.items ++ flat_map element_uses elements.now) }
{
    for element in elements {
        push_element(uses, element)?;
    }
    Ok(())
}

/// Puts the uses in order by row and then column.
fn sort_uses(uses: &mut Vec<NameUse>) -> Result<(), AllocError>
    ensures permutation { IsPermutation uses.old.items uses.new.items }
    ensures sorted { OnOk result (IsSortedBy is_before uses.new.items) }
    ensures stable { OnOk result (IsStableBy is_before uses.old.items uses.new.items) }
{
    uses.sort_by_key(|name_use: &NameUse| (name_use.row, name_use.column))?;
    Ok(())
}

/// The uses of names in a network, by row and then column.
fn network_uses(alloc: Global, elements: &[Element]) -> Result<Vec<NameUse>, AllocError>
    ensures permutation { IfOk result (λ uses. IsPermutation (flat_map element_uses elements.now) uses.items) }
    ensures stable { IfOk result (λ uses. IsStableBy is_before (flat_map element_uses elements.now) uses.items) }
{
    let mut uses = Vec::new(alloc);
    push_elements(&mut uses, elements)?;
    sort_uses(&mut uses)?;
    Ok(uses)
}

/// All uses of names, network after network. Those of one network are in order, so that little is left to sort.
fn all_uses(alloc: Global, networks: &[Network]) -> Result<Vec<NameUse>, AllocError>
    ensures permutation { IfOk result (λ uses. IsPermutation (uses_of networks.now) uses.items) }
    ensures stable { IfOk result (λ uses. IsStableBy is_before (uses_of networks.now) uses.items) }
{
    let mut uses = Vec::new(alloc);
    for network in networks {
        let mut more = network_uses(alloc, network.elements())?;
        uses.append(&mut more)?;
    }
    Ok(uses)
}

/// Declares the name of a use, unless it is declared already.
fn declare(declarations: &mut Declarations, first: &NameUse) -> Result<(), AllocError>
    ensures { OnOk result (declarations.new ≡ declared_with declarations.old first.now) }
{
    declared_names_have_places();
    if declarations.position_of(first.name.as_bytes()).is_some() {
        return Ok(());
    }
    declarations.push(first.name.as_str(), first.declared)?;
    Ok(())
}

/// The declarations of the first use of each name.
fn declare_all(alloc: Global, uses: &[NameUse]) -> Result<Declarations, AllocError>
    ensures { IfOk result (λ ds. ds ≡ first_uses uses.now) }
{
    let mut declarations = Declarations::new(alloc);
    for name_use in uses {
        declare(&mut declarations, name_use)?;
    }
    Ok(declarations)
}

/// What a drawing's names are guessed to be.
pub trait Guess: Sized {
    ghost use Rattle.network.specs.GraphValue.{GraphValue};

    ghost guessed: { GraphValue → Self → Type 0 };

    /// The names of a drawing, declared by their use in the order of their first appearance by row and then column.
    /// A box's name is an instance of its type, a name at a pin is a local of the pin's kind (BOOL if the type has no such pin on that side),
    /// and any other name is a local BOOL. The first use decides. A dotted name, a number or a duration declares nothing.
    fn guess(alloc: Global, graph: &Graph) -> Result<Self, AllocError>
        ensures { IfOk result (guessed graph.now) };
}

impl Guess for Declarations {
    ghost guessed = { AreGuessed };

    fn guess(alloc: Global, graph: &Graph) -> Result<Declarations, AllocError> {
        let mut uses = all_uses(alloc, graph.networks())?;
        sort_uses(&mut uses)?;
        let declarations = declare_all(alloc, &uses)?;
        Ok(declarations)
    }
}
