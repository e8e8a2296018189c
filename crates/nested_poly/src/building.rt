//! Nodes of terms.

ghost use Rattle.std.specs.Prelude.{◌≤◌, ◌<◌, length, All, OnOk};
ghost use Rattle.nested_poly.specs.Tails.{Nests, HasPart};

use crate::node::Node;
use crate::split::Split;
use crate::tail::Tail;
use binom_poly::Memory;
use std::alloc::Global;

/// Whether two terms end with the same part.
fn end_alike(a: &Tail, b: &Tail) -> bool {
    a.parts.last() == b.parts.last()
}

/// How many of the terms, from the first on, end as the first does.
fn run_of(tails: &[Tail]) -> usize
    requires { 0 < length tails.now }
    ensures least { 0 < result }
    ensures most { result ≤ length tails.now }
{
    for place in 1..tails.len() {
        if !end_alike(&tails[0], &tails[place]) {
            return place;
        }
    }
    tails.len()
}

/// Appends the nodes of terms, the first of which end alike.
#[cycle(nest)]
fn nest_run(alloc: Global, nodes: &mut Vec<Node>, run: &[Tail]) -> Result<(), Memory>
    requires { All HasPart run.now }
    ensures { OnOk result (Nests nodes.old.items nodes.new.items run.now) }
{
    let Some((first, rest)) = run.split_first() else {
        return Ok(());
    };
    let split = Split::of(alloc, first, rest)?;
    let place = nodes.len();
    nodes.push(Node {
        part: split.part,
        coefficient: split.coefficient,
        below: 0,
    })?;
    nest(alloc, nodes, &split.below)?;
    nodes[place].below = nodes.len() - place - 1;
    nest(alloc, nodes, &split.others)
}

/// Appends the nodes of terms. Those that end alike share a node where they stand together.
#[cycle(nest)]
pub fn nest(alloc: Global, nodes: &mut Vec<Node>, tails: &[Tail]) -> Result<(), Memory>
    requires { All HasPart tails.now }
    ensures { OnOk result (Nests nodes.old.items nodes.new.items tails.now) }
{
    let mut start = 0;
    'runs: while start < tails.len() {
        let end = start + run_of(&tails[start..]);
        nest_run(alloc, nodes, &tails[start..end])?;
        start = end;
    }
    Ok(())
}
