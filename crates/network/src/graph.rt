use crate::fault::{GraphFault, GraphFaultKind, fault_at, no_memory};
use crate::listing::elements::elements_of;
use crate::networks::Network;
use crate::order::ranks::ranks_of;
use crate::order::split::split;
use crate::places::rails::rails_of;
use crate::seeking::first_place::first_of;
use crate::seeking::found::{tall_places, twice_places, unmet_places};
use drawings::{Drawing, Place};
use std::alloc::Global;
use std::marker::Model;

/// The networks of a drawing in the order of their evaluation, with the places of its left rail.
#[derive(Drop)]
pub struct Graph {
    first_line: u64,
    rails: Vec<Place>,
    networks: Vec<Network>,
}

impl Model for Graph {
    ghost use Rattle.std.specs.Prelude.{List};
    ghost use Rattle.network.specs.GraphValue.{GraphValue, graph_value, IsSoundGraph};

    ghost Value = { GraphValue };

    ghost view = { λ g. graph_value g.first_line g.rails.items g.networks.items };

    ghost invariant = { λ g. IsSoundGraph (graph_value g.first_line g.rails.items g.networks.items) };
}

impl Graph {
    ghost use Rattle.std.specs.Prelude.{◌≡◌, ◌≢◌, ◌↔◌, ◌+◌, IsTrue, Any, IfOk, IfErr};
    ghost use Rattle.network.specs.GraphValue.{IsSoundGraph};
    ghost use Rattle.drawings.specs.declared.place.Place.{Place};
    ghost use Rattle.network.specs.Networks.{AreNetworks, HasFaultlessNetworks, IsFirstGraphFault, HasPlaceUnlessMemory};

    /// The networks of a drawing.
    ///
    /// Refuses a drawing with a network that doesn't meet the left rail or has more than 200 rows, or with two boxes of one name.
    pub fn build(alloc: Global, drawing: &Drawing) -> Result<Graph, GraphFault>
        ensures ok { IfOk result (λ graph. AreNetworks drawing.now graph × HasFaultlessNetworks drawing.now) }
        ensures fault { IfErr result (IsFirstGraphFault drawing.now) }
        ensures memory { IfErr result HasPlaceUnlessMemory }
    {
        let _rows = drawing.rows();
        let first_line = drawing.first_line();
        let rails = rails_of(alloc, drawing).map_err(no_memory)?;
        let elements = elements_of(alloc, drawing).map_err(no_memory)?;
        let ranks = ranks_of(alloc, drawing, &rails, &elements).map_err(no_memory)?;
        let unmet = unmet_places(alloc, &elements, &ranks.ranks).map_err(no_memory)?;
        if let Some(place) = first_of(&unmet) {
            return Err(fault_at(GraphFaultKind::Unattached, first_line, place));
        }
        let networks = split(alloc, &elements, &ranks.ranks, ranks.count).map_err(no_memory)?;
        let tall = tall_places(alloc, &networks).map_err(no_memory)?;
        if let Some(place) = first_of(&tall) {
            return Err(fault_at(GraphFaultKind::TooTall, first_line, place));
        }
        let twice = twice_places(alloc, drawing.boxes()).map_err(no_memory)?;
        if let Some(place) = first_of(&twice) {
            return Err(fault_at(GraphFaultKind::InstanceTwice, first_line, place));
        }
        Ok(Graph {
            first_line,
            rails,
            networks,
        })
    }

    /// Whether the place immediately on the left of this one is a left Rail.
    pub fn rail_left(&self, row: usize, column: usize) -> bool
        ensures { IsTrue result ↔ Any (λ p. (p.row ≡ row) × (column ≡ p.column + 1)) self.now.rails }
    {
        self.rails.iter().any(|p| p.row == row && p.column < column && column - p.column == 1)
    }

    /// The number of the drawing's first line.
    pub fn first_line(&self) -> u64
        ensures { result ≡ self.now.first_line }
    {
        self.first_line
    }

    /// The networks in the order of their evaluation.
    pub fn networks(&self) -> &[Network]
        ensures networks { result.now ≡ self.now.networks }
        ensures sound { IsSoundGraph self.now }
    {
        &self.networks
    }

    /// The places of the left rail, by row.
    pub fn rails(&self) -> &[Place]
        ensures { result.now ≡ self.now.rails }
    {
        &self.rails
    }

    /// The first line's number, the places of the left rail, and the networks.
    pub fn into_parts(self) -> (u64, Vec<Place>, Vec<Network>)
        ensures first_line { result.0 ≡ self.first_line }
        ensures rails { result.1.items ≡ self.rails }
        ensures networks { result.2.items ≡ self.networks }
        ensures sound { IsSoundGraph self }
    {
        let Graph {
            first_line,
            rails,
            networks,
        } = self;
        (first_line, rails, networks)
    }
}
