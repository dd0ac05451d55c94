use crate::symbol::Symbol;

/// What a coil stores (IEC 61131-3, 4.2.4).
#[derive(Clone, Copy, Debug, PartialEq, Eq)]
pub enum CoilKind {
    /// `( )`: its left link.
    Plain,
    /// `(/)`: the inverse of its left link.
    Negated,
    /// `(S)`: ON, where its left link is ON.
    Set,
    /// `(R)`: OFF, where its left link is ON.
    Reset,
    /// `(P)`: whether its left link turns ON.
    Rise,
    /// `(N)`: whether its left link turns OFF.
    Fall,
}

/// A coil.
pub type Coil = Symbol<CoilKind>;
