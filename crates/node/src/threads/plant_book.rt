use crate::threads::of_plant::OfPlant;
use book::{Book, Misfit};
use evaluation::Frame;
use node_reports::Cause;
use std::alloc::{AllocError, Global};
use std::marker::{Model, PhantomData};

/// The book of a run: each entry is by the plant's code of its task.
#[derive(Drop)]
pub(crate) struct PlantBook<P: OfPlant> {
    book: Book,
    of: PhantomData<P>,
}

impl<P: OfPlant> Model for PlantBook<P> {
    ghost use Rattle.book.specs.Book.{BookValue};
    ghost use Rattle.node_reports.specs.Codes.{AreOfPlant};

    ghost Value = { BookValue };

    ghost view = { λ b. b.book };

    ghost invariant = { λ b. AreOfPlant P.plant b.book.entries };
}

ghost use Rattle.std.specs.Prelude.{◌≡◌, [], ◌∷◌, ◌++◌, IfOk, IfErr, OnOk, OnErr};
ghost use Rattle.node_reports.specs.Codes.{IsOfPlant, AreOfPlant};
ghost use Rattle.node.specs.Steps.Entering.{IsNotEntered};

impl<P: OfPlant> PlantBook<P> {
    /// A book without entries. The resources begin in these incarnations.
    pub fn new(alloc: Global, first: &[u32]) -> Result<PlantBook<P>, AllocError>
        ensures { IfOk result (λ b. b ≡ record { first = first.now; entries = [] }) }
    {
        Ok(PlantBook {
            book: Book::new(alloc, first)?,
            of: PhantomData,
        })
    }

    /// Enters an evaluation. Misfit: it doesn't fit the entries. Memory: it does, and there was no room for it.
    pub fn enter(&mut self, frame: Frame) -> Result<(), Cause>
        requires { IsOfPlant P.plant frame }
        ensures entered { OnOk result (self.new ≡ record self.old { entries = self.old.entries ++ frame ∷ [] }) }
        ensures same { OnErr result (self.new ≡ self.old) }
        ensures cause { IfErr result (IsNotEntered self.old frame) }
    {
        match self.book.enter(frame) {
            Ok(()) => Ok(()),
            Err((_, Misfit::Memory)) => Err(Cause::Memory),
            Err(_) => Err(Cause::Misfit),
        }
    }

    /// The book, of which each entry is by the plant's code.
    pub fn into_book(self) -> Book
        ensures same { result ≡ self }
        ensures of_plant { AreOfPlant P.plant result.entries }
    {
        let PlantBook { book, of: _ } = self;
        book
    }
}
