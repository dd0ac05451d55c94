//! What a graph tells that no scan asks for.

use crate::checks::{equal, must};
use ladder_text::{Drawing, ReadText};
use network::Graph;
use std::alloc::Global;
use std::process::Abort;

/// So many lines of a + and 239 dashes.
fn lines_of_dashes(rt: &impl Abort, alloc: Global, count: usize) -> String {
    let mut line = String::new(alloc);
    must(rt, line.push_str("+"));
    for _column in 1..240 {
        must(rt, line.push_str("-"));
    }
    must(rt, line.push_str("\n"));
    let mut text = String::new(alloc);
    for _line in 0..count {
        must(rt, text.push_str(line.as_str()));
    }
    text
}

#[test]
fn each_line_of_the_largest_drawing_is_a_network(rt: HostRuntime) {
    let text = lines_of_dashes(&rt, rt.alloc(), 2_000);
    let drawing = must(&rt, Drawing::read(rt.alloc(), text.as_str(), 1));
    let graph = must(&rt, Graph::build(rt.alloc(), &drawing));
    equal(&rt, "networks", &graph.networks().len(), &2_000);
}

#[test]
fn tells_its_first_line_and_rails(rt: HostRuntime) {
    let text = "  +--+\n  |  |\n\n  +--+\n";
    let drawing = must(&rt, Drawing::read(rt.alloc(), text, 7));
    let graph = must(&rt, Graph::build(rt.alloc(), &drawing));
    for &(row, column, is_right_of_it) in &[
        (1, 4, true),
        (2, 4, true),
        (3, 4, false),
        (4, 4, true),
        (5, 4, false),
        (0, 4, false),
        (1, 3, false),
        (1, 5, false),
        (1, 7, false),
        (1, 0, false),
    ] {
        let found = (row, column, graph.rail_left(row, column));
        equal(&rt, "rail", &found, &(row, column, is_right_of_it));
    }
    let told = (
        graph.first_line(),
        graph.rails().len(),
        graph.networks().len(),
    );
    equal(&rt, "graph", &told, &(7, 3, 2));
    let (first_line, rails, networks) = graph.into_parts();
    let parts = (first_line, rails.len(), networks.len());
    equal(&rt, "parts", &parts, &(7, 3, 2));
}
