use crate::symbol::Symbol;

/// When a contact conducts (IEC 61131-3, 4.2.3).
#[derive(Clone, Copy, Debug, PartialEq, Eq)]
pub enum ContactKind {
    /// `| |`: while its variable is ON.
    Plain,
    /// `|/|`: while its variable is OFF.
    Negated,
    /// `|P|`: where its variable turns ON.
    Rise,
    /// `|N|`: where its variable turns OFF.
    Fall,
}

/// A contact.
pub type Contact = Symbol<ContactKind>;
