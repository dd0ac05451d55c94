ghost use Rattle.std.specs.Prelude.{◌≡◌, IfOk, IfErr, OnOk, max};
ghost use Rattle.text_commands.specs.Rows.{name_in, texts};
ghost use Rattle.text_commands.specs.Series.{IsRefusedSeries};
ghost use Rattle.text_commands.specs.Expectations.{IsExpected, IsRefusedBehind, SpellTest, expected_in, is_expectation, test_scans};
ghost use Rattle.text_commands.specs.Steps.Testing.{AddsWord, IsNewPlace, RefusesWord, RefusesTest};

use crate::bits::split_at_equals;
use crate::given::Given;
use crate::series::Series;
use crate::settings::{next_series, next_setting, scan_count};
use crate::text_command_fault::TextCommandFault;
use declared_names::Declarations;
use std::alloc::Global;

/// What the words of a test say: what variables are before the scans, and what they are to be after them.
#[derive(Debug, Drop)]
pub struct TestWords<'a> {
    pub(crate) rows: Vec<Series<'a>>,
    pub(crate) expected: Vec<Series<'a>>,
}

/// Whether a word is one NAME==VALUES, right or wrong.
fn is_expectation(word: &str) -> bool
    ensures { result ≡ is_expectation word.now }
{
    let (_, behind) = split_at_equals(word);
    behind.starts_with('=')
}

/// Reads a word NAME==VALUES of a variable of which nothing is expected yet.
fn next_expectation<'a>(
    alloc: Global,
    declarations: &Declarations,
    number: usize,
    word: &'a str,
    expected: &[Series<'_>],
) -> Result<Series<'a>, TextCommandFault>
    ensures ok { IfOk result
        (λ series. IsExpected declarations.now word.now series × IsNewPlace expected.now series.place) }
    ensures err { IfErr result
        (RefusesWord (IsRefusedSeries declarations.now expected.now (name_in word.now) (expected_in word.now)) number) }
{
    let (name, behind) = split_at_equals(word);
    let (_, values) = split_at_equals(behind);
    next_series(alloc, declarations, number, name, values, expected)
}

/// Reads one word more.
fn add_word<'a>(
    alloc: Global,
    declarations: &Declarations,
    number: usize,
    word: &'a str,
    rows: &mut Vec<Series<'a>>,
    expected: &mut Vec<Series<'a>>,
) -> Result<(), TextCommandFault>
    ensures ok { OnOk result
        (AddsWord declarations.now word.now rows.old.items expected.old.items rows.new.items expected.new.items) }
    ensures err { IfErr result
        (RefusesWord (IsRefusedBehind declarations.now rows.old.items expected.old.items word.now) number) }
{
    if is_expectation(word) {
        let series = next_expectation(alloc, declarations, number, word, expected)?;
        expected.push(series)?;
    } else {
        let series = next_setting(alloc, declarations, number, word, rows)?;
        rows.push(series)?;
    }
    Ok(())
}

/// Reads the words NAME=VALUES and NAME==VALUES, each of another variable than those of its kind before.
pub fn read_test_words<'a>(
    alloc: Global,
    declarations: &Declarations,
    words: &[&'a str],
) -> Result<TestWords<'a>, TextCommandFault>
    ensures ok { IfOk result
        (λ test. SpellTest declarations.now (texts words.now) test.rows.items test.expected.items) }
    ensures err { IfErr result (RefusesTest declarations.now (texts words.now)) }
{
    let mut rows = Vec::new(alloc);
    let mut expected = Vec::new(alloc);
    for (number, word) in words.iter().enumerate() {
        add_word(alloc, declarations, number, word, &mut rows, &mut expected)?;
    }
    Ok(TestWords { rows, expected })
}

/// As many scans as the longest of all words has values, but at least one, and those up to the last restart.
pub(crate) fn test_scan_count(given: &Given<'_>, expected: &[Series<'_>]) -> usize
    ensures { result ≡ test_scans given.now expected.now }
{
    scan_count(given.rows)
        .max(scan_count(expected))
        .max(given.last_restart())
}
