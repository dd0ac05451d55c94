//! Which files of a command are one.

ghost use Rattle.std.specs.Prelude.{◌≡◌};
ghost use Rattle.std.specs.List.{find};
ghost use Rattle.plc_main.specs.Clashes.{are_one, bears_state_name, clash, ends_in, first_clash, is_nameless, is_of_state, is_same, keeps};

/// What the system knows a file by: the device and the number of what stands at a path; where nothing does, those of its
/// folder, and its name there.
#[derive(Clone, Copy)]
pub struct Identity<'a> {
    pub device: u64,
    pub number: u64,
    /// Empty, where the file is there.
    pub name: &'a str,
}

/// Whether a text ends in another one.
fn ends_in(text: &str, end: &str) -> bool
    ensures { result ≡ ends_in text.now end.now }
{
    text.ends_with(end)
}

/// Whether a file of this name, in a folder of state, may be one of the files of state.
fn bears_state_name(name: &str) -> bool
    ensures { result ≡ bears_state_name name.now }
{
    ends_in(name, ".inc")
        || ends_in(name, ".ret")
        || ends_in(name, ".lock")
        || ends_in(name, ".tmp")
}

impl Identity<'_> {
    fn is_same(&self, other: &Identity<'_>) -> bool
        ensures { result ≡ is_same self.now other.now }
    {
        self.device == other.device && self.number == other.number && self.name == other.name
    }

    /// Whether a file of state may stand at this place in the folder.
    fn keeps(&self, place: &Identity<'_>) -> bool
        ensures { result ≡ keeps self.now place.now }
    {
        let folder = Identity {
            device: place.device,
            number: place.number,
            name: "",
        };
        self.is_same(&folder) && bears_state_name(place.name)
    }
}

/// A file that a command reads, or writes for an option; or the folder of its state.
#[derive(Clone, Copy)]
pub struct FileUse<'a> {
    pub path: &'a str,
    /// The option for which it is written. None: it is read.
    pub option: Option<&'static str>,
    /// None: the system doesn't know it.
    pub identity: Option<Identity<'a>>,
    /// Where it is written: its folder, and its name there. None: the system doesn't know them, or it isn't written.
    pub place: Option<Identity<'a>>,
}

impl FileUse<'_> {
    /// Whether it is written, or is the folder of state, and is named by `-`, which names none.
    fn is_nameless(&self) -> bool
        ensures { result ≡ is_nameless self.now }
    {
        self.option.is_some() && self.path == "-"
    }
}

/// Whether two paths are known to be of one file.
fn are_one(first: &FileUse<'_>, second: &FileUse<'_>) -> bool
    ensures { result ≡ are_one first.now second.now }
{
    match (&first.identity, &second.identity) {
        (Some(first), Some(second)) => first.is_same(second),
        _ => false,
    }
}

/// Whether a file is written as one of the files of state in a folder.
fn is_of_state(folder: &FileUse<'_>, file: &FileUse<'_>) -> bool
    ensures { result ≡ is_of_state folder.now file.now }
{
    match (&folder.identity, &file.place) {
        (Some(folder), Some(place)) => folder.keeps(place),
        _ => false,
    }
}

/// Whether two files are one, and it is written, or the first is the folder of state, and the second one of its files.
fn clash(first: &FileUse<'_>, second: &FileUse<'_>) -> bool
    ensures { result ≡ clash first.now second.now }
{
    (are_one(first, second) && (first.option.is_some() || second.option.is_some()))
        || is_of_state(first, second)
}

/// The first file that is nameless.
pub fn first_nameless<'a>(files: &[FileUse<'a>]) -> Option<FileUse<'a>>
    ensures { result ≡ find is_nameless files.now }
{
    match files {
        [] => None,
        [file, others @ ..] => {
            if file.is_nameless() {
                Some(*file)
            } else {
                first_nameless(others)
            }
        }
    }
}

/// The first of the other files with which one clashes.
fn clashing<'a>(file: &FileUse<'a>, others: &[FileUse<'a>]) -> Option<FileUse<'a>>
    ensures { result ≡ find (clash file.now) others.now }
{
    match others {
        [] => None,
        [other, others @ ..] => {
            if clash(file, other) {
                Some(*other)
            } else {
                clashing(file, others)
            }
        }
    }
}

/// The first file that clashes with a later one, and that one.
pub fn first_clash<'a>(files: &[FileUse<'a>]) -> Option<(FileUse<'a>, FileUse<'a>)>
    ensures { result ≡ first_clash files.now }
{
    match files {
        [] => None,
        [file, others @ ..] => match clashing(file, others) {
            Some(other) => Some((*file, other)),
            None => first_clash(others),
        },
    }
}
