use crate::bind_fault::{BindFault, BindKind};
use crate::element_faults::first_finding;
use crate::finding::fault_at;
use declared_names::Declarations;
use network::Graph;

impl BindFault {
    ghost use Rattle.std.specs.Prelude.{◌≡◌, ◌≢◌, All, IfSome, None};
    ghost use Rattle.name_faults.specs.Binding.{IsBoundNetwork};
    ghost use Rattle.name_faults.specs.Findings.{IsFirstBindFault};
    ghost use Rattle.name_faults.specs.Steps.Named.{AreNamed};

    /// The first fault of the names of a graph, by its kind and then by its place; None where nothing is wrong.
    pub fn first(declarations: &Declarations, graph: &Graph) -> Option<BindFault>
        ensures bound { result ≡ None → All (IsBoundNetwork declarations.now) graph.now.networks }
        ensures named { result ≡ None → All (AreNamed declarations.now) graph.now.networks }
        ensures only { IfSome result (λ fault. All (IsBoundNetwork declarations.now) graph.now.networks → ⊥) }
        ensures first { IfSome result (IsFirstBindFault declarations.now graph.now) }
        ensures kind { IfSome result (λ fault. fault.kind ≢ BindKind.Memory) }
    {
        match first_finding(declarations, graph.networks()) {
            Some(finding) => Some(fault_at(graph.first_line(), finding)),
            None => None,
        }
    }
}
