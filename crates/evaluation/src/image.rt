use declared_names::{Kind, first_value, kind_of};
use std::alloc::{AllocError, Global};
use std::marker::Model;
use std_blocks::{Value, are_same_values};

/// The image of a task: the values of its VAR_OUTPUTs, programs and outputs in order of declaration.
#[derive(Drop)]
pub struct Image {
    values: Vec<Value>,
}

impl Model for Image {
    ghost use Rattle.std.specs.Prelude.{List};
    ghost use Rattle.std_blocks.specs.declared.value.Value.{Value as OutputValue};

    ghost Value = { List OutputValue };

    ghost view = { λ i. i.values.items };
}

ghost use Rattle.std.specs.Prelude.{◌≡◌, ◌↔◌, IsTrue, IfOk, map};
ghost use Rattle.declared_names.specs.Kinds.{kind_of};
ghost use Rattle.evaluation.specs.Takes.{initial_image};

impl Image {
    /// The image of these values.
    pub fn of(values: Vec<Value>) -> Image
        ensures { result ≡ values.items }
    {
        Image { values }
    }

    /// The image of outputs of these kinds before the first evaluation: FALSE, 0 and T#0ms.
    pub fn initial(alloc: Global, kinds: &[Kind]) -> Result<Image, AllocError>
        ensures { IfOk result (λ i. i ≡ initial_image kinds.now) }
    {
        Ok(Image {
            values: kinds.iter().map(|kind| first_value(*kind)).collect(alloc)?,
        })
    }

    /// The values in order.
    pub fn values(&self) -> &[Value]
        ensures { result.now ≡ self.now }
    {
        self.values.as_slice()
    }

    /// An equal image.
    pub fn try_copy(&self) -> Result<Image, AllocError>
        ensures { IfOk result (λ copy. copy ≡ self.now) }
    {
        Ok(Image {
            values: self.values.clone()?,
        })
    }

    /// Whether both have the same values in the same order.
    pub fn same(&self, other: &Self) -> bool
        ensures { IsTrue result ↔ (self.now ≡ other.now) }
    {
        are_same_values(self.values.as_slice(), other.values.as_slice())
    }

    /// Whether the values are of these kinds, one for each.
    pub fn has_kinds(&self, kinds: &[Kind]) -> bool
        ensures { IsTrue result ↔ (map kind_of self.now ≡ kinds.now) }
    {
        have_kinds(self.values.as_slice(), kinds)
    }

    /// Whether each output of these kinds is as before the first evaluation.
    pub fn is_initial(&self, kinds: &[Kind]) -> bool
        ensures { IsTrue result ↔ (self.now ≡ initial_image kinds.now) }
    {
        are_initial(self.values.as_slice(), kinds)
    }
}

fn have_kinds(values: &[Value], kinds: &[Kind]) -> bool
    ensures { IsTrue result ↔ (map kind_of values.now ≡ kinds.now) }
{
    if values.len() != kinds.len() {
        return false;
    }
    for i in 0..values.len() {
        if kind_of(values[i]) != kinds[i] {
            return false;
        }
    }
    true
}

fn are_initial(values: &[Value], kinds: &[Kind]) -> bool
    ensures { IsTrue result ↔ (values.now ≡ initial_image kinds.now) }
{
    if values.len() != kinds.len() {
        return false;
    }
    for i in 0..values.len() {
        if !values[i].same(&first_value(kinds[i])) {
            return false;
        }
    }
    true
}
