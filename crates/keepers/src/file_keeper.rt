ghost use Rattle.std.specs.Prelude.{◌≡◌, IfOk, IfErr, string_bytes};
ghost use Rattle.evaluation.specs.Retained.{Suits};
ghost use Rattle.keepers.specs.BadLines.{IsBadLineFault, IsBadLineOf};
ghost use Rattle.keepers.specs.Keepers.{Raises, KeepsOthers};
ghost use Rattle.keepers.specs.KnownFiles.{IsAnswered, IsStored, MayStore};
ghost use Rattle.keepers.specs.KeptNumbers.{IsNext, IsRaisedIn, MayAnswer, number_file, number_text, temporary_file};
ghost use Rattle.keepers.specs.KeptRetained.{IsToldOf, retained_file, retained_text, tells_of};
ghost use Rattle.keepers.specs.Steps.Raising.{IsFound, IsReadOf};

use crate::bad_line::BadLine;
use crate::folder::Folder;
use crate::folder_fault::FolderFault;
use crate::keeper::Keeper;
use crate::keeper_fault::KeeperFault;
use crate::number_text::{MOST_BYTES, number_in, number_text};
use crate::retained_text::{ReadFault, most_bytes, read_values, retained_text};
use evaluation::Retained;
use std::alloc::{AllocError, Global};
use task_codes::TaskCode;

/// Keeps the incarnation of one resource in the file `NAME.inc` of a folder: a decimal number and a line feed. No file
/// is 0. It keeps the retained variables of task K, counted from 0, in `NAME.K.ret`: a line `PROGRAM.VARIABLE=VALUE` for
/// each in order, names as they were declared, TRUE as 1. No file is the initial values.
#[derive(Drop)]
pub struct FileKeeper<F: Folder> {
    alloc: Global,
    folder: F,
    resource: String,
    last: u32,
}

impl<F: Folder> FileKeeper<F> {
    /// A keeper of the resource of this name. It has answered nothing yet, and looks at no file before it is raised.
    pub fn new(alloc: Global, folder: F, resource: &str) -> Result<FileKeeper<F>, AllocError>
        ensures { IfOk result (λ keeper. (keeper.last ≡ 0) × (keeper.folder ≡ folder) × (string_bytes keeper.resource ≡ resource.now)) }
    {
        Ok(FileKeeper {
            alloc,
            folder,
            resource: String::from_str(alloc, resource)?,
            last: 0,
        })
    }

    /// The first bytes of a file; None where there is none. Unreadable: the folder can't read it. Memory: it answers so.
    fn read(&self, name: &str, most: usize) -> Result<Option<Vec<u8>>, KeeperFault>
        ensures { IsReadOf (F.read_gives self.now.folder) (F.file self.now.folder name.now) name.now most result }
    {
        match self.folder.read(name, most) {
            Ok(found) => Ok(found),
            Err(FolderFault::Failed) => Err(KeeperFault::Unreadable),
            Err(FolderFault::Memory) => Err(KeeperFault::Memory),
        }
    }

    /// Keeps a text in a file. Unwritable: the folder can't replace it.
    fn store(&mut self, name: &str, text: &str) -> Result<(), KeeperFault>
        ensures stored { IsStored (F.replace_gives self.old.folder) (F.file self.old.folder) (F.file self.new.folder)
            name.now (temporary_file (string_bytes self.old.resource)) text.now result }
        ensures last { self.new.last ≡ self.old.last }
        ensures resource { self.new.resource ≡ self.old.resource }
    {
        let temporary = format!(in self.alloc; "{}.tmp", self.resource)?;
        match self
            .folder
            .replace(name, temporary.as_str(), text.as_bytes())
        {
            Ok(()) => Ok(()),
            Err(FolderFault::Failed) => Err(KeeperFault::Unwritable),
            Err(FolderFault::Memory) => Err(KeeperFault::Memory),
        }
    }

    /// The number that is kept; 0 where there is no file. Unreadable: no incarnation is kept.
    #[tactic(auto, using(crate::proofs::KeptFiles::found_failed, crate::proofs::Answered::answered_read, crate::proofs::Answered::answered_failed))]
    fn kept_number(&self) -> Result<u32, KeeperFault>
        ensures found { IsFound (F.file self.now.folder (number_file (string_bytes self.now.resource))) result }
        ensures answered { IfErr result (IsAnswered (F.read_gives self.now.folder) (number_file (string_bytes self.now.resource)) (F.file self.now.folder (number_file (string_bytes self.now.resource)))) }
    {
        let name = format!(in self.alloc; "{}.inc", self.resource)?;
        let Some(bytes) = self.read(name.as_str(), MOST_BYTES)? else {
            return Ok(0);
        };
        number_in(self.alloc, bytes.as_slice())?.ok_or(KeeperFault::Unreadable)
    }

    /// The number that a raise would keep now. Unreadable: the file can't be read, or is no incarnation from the last
    /// answer on. Spent: it is 4,294,967,295.
    pub fn next_number(&self) -> Result<u32, KeeperFault>
        ensures next { IsNext (F.file self.now.folder (number_file (string_bytes self.now.resource))) self.now.last result }
        ensures answered { IfErr result (IsAnswered (F.read_gives self.now.folder) (number_file (string_bytes self.now.resource)) (F.file self.now.folder (number_file (string_bytes self.now.resource)))) }
    {
        let kept = self.kept_number()?;
        if kept < self.last {
            return Err(KeeperFault::Unreadable);
        }
        let Some(next) = kept.checked_add(1) else {
            return Err(KeeperFault::Spent);
        };
        Ok(next)
    }

    /// Keeps a number. Unwritable: the folder couldn't.
    fn keep_number(&mut self, number: u32) -> Result<(), KeeperFault>
        ensures stored { IsStored (F.replace_gives self.old.folder) (F.file self.old.folder) (F.file self.new.folder)
            (number_file (string_bytes self.old.resource)) (temporary_file (string_bytes self.old.resource)) (number_text number) result }
        ensures last { self.new.last ≡ self.old.last }
        ensures resource { self.new.resource ≡ self.old.resource }
    {
        let name = format!(in self.alloc; "{}.inc", self.resource)?;
        let text = number_text(self.alloc, number)?;
        self.store(name.as_str(), text.as_str())
    }

    /// The name of a task's file.
    fn retained_name(&self, task: usize) -> Result<String, AllocError>
        ensures { IfOk result (λ name. string_bytes name ≡ retained_file (string_bytes self.now.resource) task) }
    {
        format!(in self.alloc; "{}.{task}.ret", self.resource)
    }

    /// The retained variables that a task's file has; the initial ones where there is no file. Unreadable: the file can't
    /// be read, or isn't what is kept of this code.
    #[tactic(auto, using(crate::proofs::KeptTexts::keeps_values, crate::proofs::KeptTexts::keeps_no_values, crate::proofs::KeptTexts::keeps_none_read, crate::proofs::KeptTexts::told_failed, crate::proofs::Answered::answered_read, crate::proofs::Answered::answered_failed))]
    fn told_values(&self, task: usize, code: &TaskCode) -> Result<Retained, KeeperFault>
        ensures told { IsToldOf (F.file self.now.folder (retained_file (string_bytes self.now.resource) task)) code.now result }
        ensures answered { IfErr result (IsAnswered (F.read_gives self.now.folder) (retained_file (string_bytes self.now.resource) task) (F.file self.now.folder (retained_file (string_bytes self.now.resource) task))) }
        ensures suits { IfOk result (Suits code.now) }
    {
        let name = self.retained_name(task)?;
        let most = most_bytes(self.alloc, code)?;
        let Some(bytes) = self.read(name.as_str(), most)? else {
            return Ok(Retained::initial(self.alloc, code)?);
        };
        match read_values(self.alloc, code, bytes.as_slice()) {
            Ok(values) => Ok(Retained::from_values(values)),
            Err(ReadFault::Departs(_)) => Err(KeeperFault::Unreadable),
            Err(ReadFault::Memory) => Err(KeeperFault::Memory),
        }
    }

    /// The first line of a task's file that isn't what is kept of this code; None where all are, and where there is no
    /// file. Unreadable: the file can't be read.
    #[tactic(auto, using(crate::proofs::Departing::bad_missing, crate::proofs::Departing::bad_none, crate::proofs::Departing::bad_some, crate::proofs::Departing::bad_fault, crate::proofs::Answered::answered_read, crate::proofs::Answered::answered_failed))]
    pub fn bad_line(&self, task: usize, code: &TaskCode) -> Result<Option<BadLine>, KeeperFault>
        ensures line { IfOk result (IsBadLineOf (F.file self.now.folder (retained_file (string_bytes self.now.resource) task)) code.now) }
        ensures fault { IfErr result (IsBadLineFault (F.file self.now.folder (retained_file (string_bytes self.now.resource) task))) }
        ensures answered { IfErr result (IsAnswered (F.read_gives self.now.folder) (retained_file (string_bytes self.now.resource) task) (F.file self.now.folder (retained_file (string_bytes self.now.resource) task))) }
    {
        let name = self.retained_name(task)?;
        let most = most_bytes(self.alloc, code)?;
        let Some(bytes) = self.read(name.as_str(), most)? else {
            return Ok(None);
        };
        match read_values(self.alloc, code, bytes.as_slice()) {
            Ok(_) => Ok(None),
            Err(ReadFault::Departs(place)) => Ok(Some(BadLine::at(self.alloc, code, place)?)),
            Err(ReadFault::Memory) => Err(KeeperFault::Memory),
        }
    }
}

impl<F: Folder + Send> Keeper for FileKeeper<F> {
    ghost last = { λ k. k.last };

    ghost raise_gives = { λ k answer. MayAnswer (F.read_gives k.folder) (F.replace_gives k.folder) (F.file k.folder (number_file (string_bytes k.resource))) (string_bytes k.resource) k.last answer };

    ghost kept_gives = { λ k task code answer. IsToldOf (F.file k.folder (retained_file (string_bytes k.resource) task)) code answer };

    ghost keep_gives = { λ k task code values answer. MayStore (F.replace_gives k.folder) (retained_file (string_bytes k.resource) task)
        (temporary_file (string_bytes k.resource)) (retained_text code values) answer };

    /// The next incarnation, which is kept then. Unreadable: the file can't be read, or is no incarnation from the last
    /// answer on. Spent: it is 4,294,967,295. Unwritable: the file can't be replaced.
    fn raise(&mut self) -> Result<u32, KeeperFault>
        ensures raised { Raises self.old.last self.new.last result }
        ensures kept { IsRaisedIn (F.replace_gives self.old.folder) (F.file self.old.folder) (F.file self.new.folder)
            (string_bytes self.old.resource) self.old.last result }
        ensures answered { IfErr result (IsAnswered (F.read_gives self.old.folder) (number_file (string_bytes self.old.resource)) (F.file self.old.folder (number_file (string_bytes self.old.resource)))) }
        ensures resource { self.new.resource ≡ self.old.resource }
    {
        let next = self.next_number()?;
        self.keep_number(next)?;
        self.last = next;
        Ok(next)
    }

    /// Keeps these in the task's file. Unwritable: the file can't be replaced.
    fn keep(&mut self, task: usize, code: &TaskCode, retained: &Retained) -> Result<(), KeeperFault>
        requires { Suits code.now retained.now }
        ensures last { self.new.last ≡ self.old.last }
        ensures kept { IsStored (F.replace_gives self.old.folder) (F.file self.old.folder) (F.file self.new.folder)
            (retained_file (string_bytes self.old.resource) task) (temporary_file (string_bytes self.old.resource))
            (retained_text code.now retained.now) result }
        ensures others { KeepsOthers (tells_of (F.file self.old.folder) (string_bytes self.old.resource))
            (tells_of (F.file self.new.folder) (string_bytes self.new.resource)) task }
        ensures resource { self.new.resource ≡ self.old.resource }
    {
        let name = self.retained_name(task)?;
        let text = retained_text(self.alloc, code, retained.values())?;
        self.store(name.as_str(), text.as_str())
    }

    /// What the task's file has; the initial ones where there is no file. Unreadable: the file can't be read, or isn't
    /// what is kept of this code, and then it stays as it is.
    fn kept(&mut self, task: usize, code: &TaskCode) -> Result<Retained, KeeperFault>
        ensures suits { IfOk result (Suits code.now) }
        ensures last { self.new.last ≡ self.old.last }
        ensures told { IsToldOf (F.file self.old.folder (retained_file (string_bytes self.old.resource) task)) code.now result }
        ensures answered { IfErr result (IsAnswered (F.read_gives self.old.folder) (retained_file (string_bytes self.old.resource) task) (F.file self.old.folder (retained_file (string_bytes self.old.resource) task))) }
        ensures same { self.new ≡ self.old }
    {
        self.told_values(task, code)
    }
}
