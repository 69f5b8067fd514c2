//! The numbers of components, found by one walk along edges with a path of its own.
//!
//! On the path stand the nodes that are begun, in components, one behind another: all in a
//! component reach each other, and each component reaches the next. An edge that leads back along
//! the path joins the components from there on. A component none of whose edges waits is closed.

ghost use Rattle.std.specs.Prelude.{◌≡◌, ◌≢◌, ◌<◌, ◌-◌, ◌++◌, ℕ, [], length, slice_get, map, Some, OnOk, IfOk};
ghost use Rattle.st_graph.specs.Graph.{IsNumbering, IsWithin};
ghost use Rattle.st_graph.specs.inner.Walk.{start_of, CutsTo, Leads, Closes, IsRising, number_at};
ghost use Rattle.st_graph.specs.inner.Walks.{IsWalk, cost, KeepsBegun};
ghost use Rattle.st_graph.specs.declared.walk.NodeState.TheVariants.{New, Open, Closed};

use st_num::{NoMemory, Row};
use std::alloc::Global;

/// Where a node stands in the walk.
#[derive(Clone, Copy)]
pub(crate) enum NodeState {
    New,
    /// At this position of the path.
    Open(usize),
    /// In the component of this number.
    Closed(usize),
}

/// A walk along edges.
#[derive(Drop)]
pub(crate) struct Walk {
    states: Vec<NodeState>,
    path: Vec<usize>,
    /// The positions of the path at which components begin.
    bounds: Vec<usize>,
    /// The edges that are not followed yet: from which position of the path, and to what.
    waiting: Vec<(usize, usize)>,
    /// A node of each component that is closed.
    closed: Vec<usize>,
}

/// Where the last component on the path begins.
fn last_start(bounds: &[usize]) -> usize
    ensures { result ≡ start_of bounds.now }
{
    bounds.last().copied().unwrap_or(0)
}

/// Adds edges from a position of the path to those that wait.
fn wait(at: usize, row: &[usize], waiting: &mut Vec<(usize, usize)>) -> Result<(), NoMemory>
    ensures { OnOk result (waiting.new.items ≡ waiting.old.items ++ map (λ to. (at, to)) row.now) }
{
    for to in row {
        waiting.push((at, *to))?;
    }
    Ok(())
}

/// Begins a node, at the end of the path.
fn begin(graph: &[Row<usize>], walk: &mut Walk, node: usize) -> Result<(), NoMemory>
    requires walk { IsWalk graph.now walk.old }
    requires graph { IsWithin graph.now }
    requires new { slice_get walk.old.states.items node ≡ Some New }
    requires leads { Leads graph.now walk.old.path.items node }
    ensures walk { OnOk result (IsWalk graph.now walk.new) }
    ensures cost { OnOk result (cost graph.now walk.new < cost graph.now walk.old) }
    ensures begun { OnOk result (KeepsBegun walk.old walk.new) }
    ensures here { OnOk result (slice_get walk.new.states.items node ≢ Some New) }
{
    let at = walk.path.len();
    walk.path.push(node)?;
    walk.bounds.push(at)?;
    walk.states[node] = NodeState::Open(at);
    wait(at, graph[node].as_slice(), &mut walk.waiting)?;
    Ok(())
}

/// Takes off the bounds that lie behind a position of the path.
fn cut(bounds: &mut Vec<usize>, at: usize)
    requires { IsRising bounds.old.items }
    ensures { CutsTo at bounds.old.items bounds.new.items }
{
    'cutting: while last_start(bounds) > at {
        bounds.pop();
    }
}

/// Gives the nodes of the path from a position on the number of a component.
fn number(path: &[usize], start: usize, component: usize, states: &mut [NodeState])
    ensures { Closes path.now start component states.old states.new }
{
    for at in start..path.len() {
        let node = path[at];
        if node < states.len() {
            states[node] = NodeState::Closed(component);
        }
    }
}

/// Closes the last component on the path, where it begins at this position.
fn close(graph: &[Row<usize>], walk: &mut Walk, start: usize) -> Result<(), NoMemory>
    requires walk { IsWalk graph.now walk.old }
    requires start { start ≡ start_of walk.old.bounds.items }
    requires within { start < length walk.old.path.items }
    requires followed { (k i y : ℕ) → slice_get walk.old.waiting.items k ≡ Some (i, y) → i < start }
    ensures walk { OnOk result (IsWalk graph.now walk.new) }
    ensures cost { OnOk result (cost graph.now walk.new < cost graph.now walk.old) }
    ensures begun { OnOk result (KeepsBegun walk.old walk.new) }
{
    let component = walk.closed.len();
    walk.closed.push(walk.path[start])?;
    number(&walk.path, start, component, &mut walk.states);
    walk.path.truncate(start);
    walk.bounds.pop();
    Ok(())
}

/// The last of the edges that wait.
fn last_waiting(waiting: &[(usize, usize)]) -> Option<(usize, usize)>
    ensures { result ≡ slice_get waiting.now (length waiting.now - 1) }
{
    waiting.last().copied()
}

/// Where a node stands.
fn state_of(states: &[NodeState], node: usize) -> NodeState
    requires { node < length states.now }
    ensures { slice_get states.now node ≡ Some result }
{
    states[node]
}

/// Follows the last edge that waits, or closes the last component where none of it does.
fn step(graph: &[Row<usize>], walk: &mut Walk) -> Result<(), NoMemory>
    requires walk { IsWalk graph.now walk.old }
    requires graph { IsWithin graph.now }
    requires some { 0 < length walk.old.path.items }
    ensures walk { OnOk result (IsWalk graph.now walk.new) }
    ensures cost { OnOk result (cost graph.now walk.new < cost graph.now walk.old) }
    ensures begun { OnOk result (KeepsBegun walk.old walk.new) }
{
    let start = last_start(&walk.bounds);
    let Some((from, to)) = last_waiting(&walk.waiting) else {
        return close(graph, walk, start);
    };
    if from < start {
        return close(graph, walk, start);
    }
    match state_of(&walk.states, to) {
        // The edge waits on: it is taken off when it is met again.
        NodeState::New => begin(graph, walk, to),
        NodeState::Open(at) => {
            cut(&mut walk.bounds, at);
            walk.waiting.truncate(walk.waiting.len() - 1);
            Ok(())
        }
        NodeState::Closed(_) => {
            walk.waiting.truncate(walk.waiting.len() - 1);
            Ok(())
        }
    }
}

/// Walks on until nothing is on the path.
fn finish(graph: &[Row<usize>], walk: &mut Walk) -> Result<(), NoMemory>
    requires walk { IsWalk graph.now walk.old }
    requires graph { IsWithin graph.now }
    ensures walk { OnOk result (IsWalk graph.now walk.new) }
    ensures all { OnOk result (walk.new.path.items ≡ []) }
    ensures begun { OnOk result (KeepsBegun walk.old walk.new) }
{
    'walk: while walk.path.len() > 0 {
        step(graph, walk)?;
    }
    Ok(())
}

/// Walks from a node, unless it was met before.
fn walk_from(graph: &[Row<usize>], walk: &mut Walk, node: usize) -> Result<(), NoMemory>
    requires walk { IsWalk graph.now walk.old }
    requires graph { IsWithin graph.now }
    requires none { walk.old.path.items ≡ [] }
    requires within { node < length graph.now }
    ensures walk { OnOk result (IsWalk graph.now walk.new) }
    ensures all { OnOk result (walk.new.path.items ≡ []) }
    ensures begun { OnOk result (KeepsBegun walk.old walk.new) }
    ensures here { OnOk result (slice_get walk.new.states.items node ≢ Some New) }
{
    if matches!(state_of(&walk.states, node), NodeState::New) {
        begin(graph, walk, node)?;
        finish(graph, walk)?;
    }
    Ok(())
}

/// Walks from all nodes, so that each is in a component then.
fn walk_all(alloc: Global, graph: &[Row<usize>]) -> Result<Walk, NoMemory>
    requires graph { IsWithin graph.now }
    ensures walk { IfOk result (IsWalk graph.now) }
    ensures all { IfOk result (λ walk. walk.path.items ≡ []) }
    ensures begun { IfOk result (λ walk. (v : ℕ) → slice_get walk.states.items v ≢ Some New) }
{
    let mut walk = Walk {
        states: vec![in alloc; NodeState::New; graph.len()]?,
        path: Vec::new(alloc),
        bounds: Vec::new(alloc),
        waiting: Vec::new(alloc),
        closed: Vec::new(alloc),
    };
    for node in 0..graph.len() {
        walk_from(graph, &mut walk, node)?;
    }
    Ok(walk)
}

/// The number of the component of a node in this state.
fn number_at(state: NodeState) -> usize
    ensures { result ≡ number_at state }
{
    match state {
        NodeState::New | NodeState::Open(_) => 0,
        NodeState::Closed(component) => component,
    }
}

/// The numbers of the components of nodes in these states.
fn numbers_at(alloc: Global, states: &[NodeState]) -> Result<Vec<usize>, NoMemory>
    ensures { IfOk result (λ numbers. numbers.items ≡ map number_at states.now) }
{
    let mut numbers = Vec::new(alloc);
    for state in states {
        numbers.push(number_at(*state))?;
    }
    Ok(numbers)
}

/// The strongly connected components of a graph.
#[derive(Drop)]
pub struct Components {
    /// The number of the component of each node.
    pub numbers: Vec<usize>,
    /// How many components there are.
    pub count: usize,
}

/// Numbers the components of a graph. Each edge is followed once.
pub fn numbering(alloc: Global, graph: &[Row<usize>]) -> Result<Components, NoMemory>
    requires graph { IsWithin graph.now }
    ensures { IfOk result (λ found. IsNumbering graph.now found.numbers.items found.count) }
{
    let walk = walk_all(alloc, graph)?;
    let numbers = numbers_at(alloc, &walk.states)?;
    let count = walk.closed.len();
    Ok(Components { numbers, count })
}
