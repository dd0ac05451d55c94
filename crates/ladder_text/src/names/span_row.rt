ghost use Rattle.std.specs.Prelude.{◌≡◌};

use ladder_rows::Span;
use std::marker::Model;

/// Spans of a row, seen by contracts as a list.
#[derive(Drop)]
pub struct SpanRow {
    spans: Vec<Span>,
}

impl Model for SpanRow {
    ghost use Rattle.std.specs.Prelude.{List};
    ghost use Rattle.ladder_rows.specs.declared.span.Span.{Span};

    ghost Value = { List Span };

    ghost view = { λ r. r.spans.items };
}

impl SpanRow {
    pub fn new(spans: Vec<Span>) -> SpanRow
        ensures { result ≡ spans.items }
    {
        SpanRow { spans }
    }

    pub fn as_slice(&self) -> &[Span]
        ensures { result.now ≡ self.now }
    {
        &self.spans
    }
}
