ghost use Rattle.std.specs.Prelude.{◌≡◌, ◌==◌, count_by};
ghost use Rattle.std.specs.List.{list_any, range_with_len};
ghost use Rattle.clauses.specs.declared.literal.Literal.{Literal as LiteralRecord};
ghost use Rattle.certified_claims.specs.Certificates.{IsSizeOf, is_named};

use crate::verdict::CertificateSize;
use clauses::Literal;

/// Whether a clause names a state bit.
fn is_in(clause: &[Literal], bit: usize) -> bool
    ensures { result ≡ list_any (λ (l : LiteralRecord). l.variable == bit) clause.now }
{
    clause.iter().any(|literal| literal.variable == bit)
}

/// Whether any of these clauses names a state bit.
fn is_named(clauses: &[Vec<Literal>], bit: usize) -> bool
    ensures { result ≡ is_named clauses.now bit }
{
    clauses.iter().any(|clause| is_in(clause, bit))
}

/// How many of so many state bits are named.
fn count_named(clauses: &[Vec<Literal>], bits: usize) -> usize
    ensures { result ≡ count_by (is_named clauses.now) (range_with_len 0 bits) }
{
    (0..bits).filter(|bit| is_named(clauses, *bit)).count()
}

/// How large clauses over so many state bits are.
pub(crate) fn size_of(clauses: &[Vec<Literal>], bits: usize) -> CertificateSize
    ensures { IsSizeOf clauses.now bits result }
{
    CertificateSize {
        clauses: clauses.len(),
        named: count_named(clauses, bits),
        bits,
    }
}
