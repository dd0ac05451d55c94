//! Digests of texts, by which a changed one is known.

ghost use Rattle.std.specs.Prelude.{◌≡◌};
ghost use Rattle.scan_steps.specs.Digests.{all_mixed};
ghost use Rattle.journal_rows.specs.ContinuesLine.{digest_of};

use scan_steps::mix;

/// The digest of a text that goes on with these bytes.
pub fn digest_more(digest: u64, bytes: &[u8]) -> u64
    ensures { result ≡ all_mixed digest bytes.now }
{
    let mut mixed = digest;
    for byte in bytes {
        mixed = mix(mixed, u64::from(*byte));
    }
    mixed
}

/// A number that is the same for equal texts, and mostly another one for others.
pub fn digest_of(text: &[u8]) -> u64
    ensures { result ≡ digest_of text.now }
{
    digest_more(0, text)
}
