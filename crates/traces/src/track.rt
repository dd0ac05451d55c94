ghost use Rattle.std.specs.Prelude.{◌≡◌, string_bytes};
ghost use Rattle.std.specs.Option.{option_map};
ghost use Rattle.traces.specs.Tracks.{ScopeValue, TrackValue};

use std::marker::Model;
use std_blocks::Value;

/// The resource of a plant in which a variable stands, and the program there.
#[derive(Debug, Drop)]
pub struct Scope {
    resource: String,
    program: String,
}

impl Model for Scope {
    ghost use Rattle.traces.specs.Tracks.{ScopeValue};
    ghost use Rattle.traces.specs.Steps.Viewing.{scope_value};

    ghost Value = { ScopeValue };

    ghost view = { λ s. scope_value s.resource s.program };
}

impl Scope {
    /// A program of a resource, by their names.
    pub fn new(resource: String, program: String) -> Scope
        ensures { result ≡ record { resource = string_bytes resource; program = string_bytes program } }
    {
        Scope { resource, program }
    }

    /// The name of the resource.
    pub fn resource(&self) -> &str
        ensures { result.now ≡ self.now.resource }
    {
        self.resource.as_str()
    }

    /// The name of the program.
    pub fn program(&self) -> &str
        ensures { result.now ≡ self.now.program }
    {
        self.program.as_str()
    }
}

/// A variable, where it stands if it stands in a plant, and its value at each of some moments.
#[derive(Debug, Drop)]
pub struct Track {
    scope: Option<Scope>,
    name: String,
    values: Vec<Value>,
}

impl Model for Track {
    ghost use Rattle.traces.specs.Tracks.{TrackValue};
    ghost use Rattle.traces.specs.Steps.Viewing.{track_value};

    ghost Value = { TrackValue };

    ghost view = { λ t. track_value t.scope t.name t.values.items };
}

impl Track {
    /// A variable of this name, with a value for each moment.
    pub fn new(scope: Option<Scope>, name: String, values: Vec<Value>) -> Track
        ensures { result ≡ record { scope = scope; name = string_bytes name; values = values.items } }
    {
        Track {
            scope,
            name,
            values,
        }
    }

    /// Where it stands.
    pub fn scope(&self) -> Option<&Scope>
        ensures { option_map (λ s. s.now) result ≡ self.now.scope }
    {
        self.scope.as_ref()
    }

    /// Its name.
    pub fn name(&self) -> &str
        ensures { result.now ≡ self.now.name }
    {
        self.name.as_str()
    }

    /// Its values.
    pub fn values(&self) -> &[Value]
        ensures { result.now ≡ self.now.values }
    {
        self.values.as_slice()
    }
}
