ghost use Rattle.std.specs.Prelude.{◌≡◌, ℕ, List, Bool, length};
ghost use Rattle.network.specs.Links.{Diagram};
ghost use Rattle.declared_names.specs.declared.declarations.Declaration.{Declaration};
ghost use Rattle.scan_steps.specs.declared.slot.Slot.{Slot};
ghost use Rattle.scan_steps.specs.Slots.{AreSlotsOf};
ghost use Rattle.scan_steps.specs.Steps.Passing.{Pass, ArePassed};
ghost use Rattle.power_flow.specs.declared.steps.circuit.Circuit.{Circuit};
ghost use Rattle.power_flow.specs.LadderValue.{LadderValue, Fits};
ghost use Rattle.power_flow.specs.Meaning.{Moment, NetworkMeaning, moment};
ghost use Rattle.power_flow.specs.Scan.{AllAreWide, ScanMeaning};
ghost use Rattle.power_flow.specs.StateValue.{StateValue, IsSame};
ghost use Rattle.power_flow.specs.Steps.BoxStores.{boxes_stored, kinds_stored};
ghost use Rattle.power_flow.specs.Steps.Circuit.{IsCircuit};
ghost use Rattle.power_flow.specs.Steps.CoilStores.{bound_memories, bound_stores};
ghost use Rattle.power_flow.specs.Waiting.{HasJustRoom};

/// A scan of the same networks from the same state leaves the same state.
pub fn one_scan()
    ensures { (ds : List Declaration) (dt : ℕ) (networks : List Diagram)
        (slots : List Slot) (ms : List Bool) (a b : List Slot) (one two : List Bool)
        → AllAreWide networks → ScanMeaning ds dt networks slots ms a one → ScanMeaning ds dt networks slots ms b two
        → (a ≡ b) × (one ≡ two) }
{}

/// Two states that fit one ladder and hold the same values, blocks and memories are equal.
pub fn fitting_states_are_equal()
    ensures { (l : LadderValue) (s t : StateValue) → Fits l s → Fits l t → IsSame s t → s ≡ t }
{}

/// Two ladders with just the room that they need, as `Ladder::bind` makes them, are equal where their declarations and networks are.
pub fn one_ladder()
    ensures { (l m : LadderValue) → HasJustRoom l → HasJustRoom m
        → l.declarations ≡ m.declarations → l.networks ≡ m.networks → l ≡ m }
{}

/// Where the steps of a circuit are passed, and then its boxes and its coils store, its network has its meaning.
pub fn steps_are_meant()
    ensures { (ds : List Declaration) (d : Diagram) (circuit : Circuit) (dt : ℕ) (slots after : List Slot)
        (old new : List Bool) (a b : Pass)
        → IsCircuit ds d circuit → AreSlotsOf ds slots
        → ArePassed circuit.boxes.items slots dt circuit.steps.items a b
        → a.memories ≡ old → length old ≡ length circuit.elements.items → length a.rows ≡ circuit.rows
        → length a.links ≡ length circuit.coils.items → length a.results ≡ length circuit.boxes.items
        → after ≡ kinds_stored (boxes_stored circuit.boxes.items b.results slots)
        (bound_stores circuit.coils.items 0 b.links b.memories)
        → new ≡ bound_memories circuit.coils.items 0 b.links b.memories
        → NetworkMeaning ds d dt (moment slots old) (moment after new) }
{}

/// The network of a circuit leaves variables of the kinds, and blocks of the types, that are declared.
pub fn kinds_are_kept()
    ensures { (ds : List Declaration) (d : Diagram) (circuit : Circuit) (dt : ℕ) (old new : Moment)
        → IsCircuit ds d circuit → NetworkMeaning ds d dt old new → AreSlotsOf ds old.slots → AreSlotsOf ds new.slots }
{}
