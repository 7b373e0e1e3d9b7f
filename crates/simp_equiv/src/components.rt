// Strongly connected components by one depth-first search (Tarjan 1972), without recursion.
//
// The frames are the way from a root to where the search is. A node that is met is put on the stack. It is taken off
// together with all nodes above it once no edge from these leads below it: they are a component. Each frame has charge of
// the places of the stack from its own up to the next frame's, and knows the lowest place that was met from there.
ghost use Rattle.std.specs.Prelude.{◌≡◌, ℕ, ◌<◌, ◌≤◌, ◌+◌, ◌++◌, ◌∷◌, [], IfOk, OnOk, reverse, length, map, replicate, slice_set, take};
ghost use Rattle.std.specs.List.{slice_index_or};
ghost use Rattle.simp_equiv.specs.Graphs.{InRange, AreComponents, targets};
ghost use Rattle.simp_equiv.specs.Searches.{mark_in, ClosedTo, first_frame};
ghost use Rattle.simp_equiv.specs.States.{IsSearching, IsStep, IsExplored, frames_of, number_of};

use crate::targets::Targets;
use std::alloc::{AllocError, Global};

/// How far the search is with a node.
#[derive(Clone, Copy)]
pub(crate) enum Mark {
    /// It was not met.
    New,
    /// It is on the stack, at this place.
    Open(usize),
    /// It is in the component of this number.
    Closed(usize),
}

impl Mark {
    /// The number of the component, if it is closed.
    fn number(self) -> usize
        ensures { result ≡ number_of self }
    {
        match self {
            Mark::New => 0,
            Mark::Open(_) => 0,
            Mark::Closed(number) => number,
        }
    }
}

/// A node on the way from the root to where the search is.
#[derive(Clone, Copy)]
pub(crate) struct StackFrame {
    node: usize,
    /// Where it stands on the stack.
    place: usize,
    /// The edge to take next.
    next: usize,
    /// The lowest place of the stack that was met from here.
    low: usize,
}

/// The search in the midst.
#[derive(Drop)]
pub(crate) struct Search {
    /// How far it is with each node.
    marks: Vec<Mark>,
    /// The nodes that are met and in no component yet.
    stack: Vec<usize>,
    /// The deepest frame is the last.
    frames: Vec<StackFrame>,
    /// How many components are closed.
    closed: usize,
}

/// Puts a new node on the stack.
fn open(search: &mut Search, node: usize) -> Result<(), AllocError>
    requires { node < length search.old.marks.items }
    ensures marks { OnOk result (search.new.marks.items ≡ slice_set search.old.marks.items node (Mark.Open (length search.old.stack.items))) }
    ensures stack { OnOk result (search.new.stack.items ≡ search.old.stack.items ++ node ∷ []) }
    ensures frames { OnOk result (search.new.frames.items ≡ search.old.frames.items ++ first_frame node (length search.old.stack.items) ∷ []) }
    ensures closed { OnOk result (search.new.closed ≡ search.old.closed) }
{
    let place = search.stack.len();
    search.marks[node] = Mark::Open(place);
    search.stack.push(node)?;
    search.frames.push(StackFrame {
        node,
        place,
        next: 0,
        low: place,
    })?;
    Ok(())
}

/// Takes the frame's next edge.
fn take_edge(
    search: &mut Search,
    graph: &[Targets],
    frame: StackFrame,
    target: usize,
) -> Result<(), AllocError>
    requires range { InRange graph.now }
    requires searching { IsSearching graph.now search.old (frame ∷ frames_of search.old) }
    requires more { frame.next < length (targets graph.now frame.node) }
    requires fits { frame.next < usize.MAX }
    requires here { target ≡ slice_index_or (targets graph.now frame.node) frame.next target }
    ensures { OnOk result (IsStep graph.now search.old search.new (frame ∷ frames_of search.old)) }
{
    let next = frame.next + 1;
    match search.marks[target] {
        Mark::New => {
            search.frames.push(StackFrame {
                node: frame.node,
                place: frame.place,
                next,
                low: frame.low,
            })?;
            open(search, target)?;
            Ok(())
        }
        Mark::Open(place) => {
            let low = if place < frame.low { place } else { frame.low };
            search.frames.push(StackFrame {
                node: frame.node,
                place: frame.place,
                next,
                low,
            })?;
            Ok(())
        }
        Mark::Closed(_) => {
            search.frames.push(StackFrame {
                node: frame.node,
                place: frame.place,
                next,
                low: frame.low,
            })?;
            Ok(())
        }
    }
}

/// Closes the component of the nodes from this place on.
fn close(search: &mut Search, place: usize)
    requires below { place < length search.old.stack.items }
    requires fits { search.old.closed < usize.MAX }
    requires nodes { (p : ℕ) → p < length search.old.stack.items → slice_index_or search.old.stack.items p 0 < length search.old.marks.items }
    ensures frames { search.new.frames ≡ search.old.frames }
    ensures stack { search.new.stack.items ≡ take place search.old.stack.items }
    ensures marks { ClosedTo search.old.stack.items search.old.marks.items search.new.marks.items search.old.closed place }
    ensures closed { search.new.closed ≡ search.old.closed + 1 }
{
    while search.stack.len() > place {
        if let Some(node) = search.stack.pop() {
            search.marks[node] = Mark::Closed(search.closed);
        }
    }
    search.closed += 1;
}

/// Ends a frame whose edges are all taken.
fn finish(search: &mut Search, graph: &[Targets], frame: StackFrame) -> Result<(), AllocError>
    requires range { InRange graph.now }
    requires searching { IsSearching graph.now search.old (frame ∷ frames_of search.old) }
    requires over { length (targets graph.now frame.node) ≤ frame.next }
    ensures { OnOk result (IsStep graph.now search.old search.new (frame ∷ frames_of search.old)) }
{
    if frame.low < frame.place {
        if let Some(below) = search.frames.pop() {
            let low = if frame.low < below.low {
                frame.low
            } else {
                below.low
            };
            search.frames.push(StackFrame {
                node: below.node,
                place: below.place,
                next: below.next,
                low,
            })?;
        }
    } else {
        close(search, frame.place);
    }
    Ok(())
}

/// One step from the deepest frame.
fn visit(search: &mut Search, graph: &[Targets], frame: StackFrame) -> Result<(), AllocError>
    requires range { InRange graph.now }
    requires searching { IsSearching graph.now search.old (frame ∷ frames_of search.old) }
    ensures { OnOk result (IsStep graph.now search.old search.new (frame ∷ frames_of search.old)) }
{
    let nodes = graph[frame.node].nodes();
    if frame.next < nodes.len() {
        take_edge(search, graph, frame, nodes[frame.next])
    } else {
        finish(search, graph, frame)
    }
}

/// All that is reached from the frames.
fn explore(search: &mut Search, graph: &[Targets]) -> Result<(), AllocError>
    requires range { InRange graph.now }
    requires searching { IsSearching graph.now search.old (frames_of search.old) }
    ensures { OnOk result (IsExplored graph.now search.old search.new) }
{
    while let Some(frame) = search.frames.pop() {
        visit(search, graph, frame)?;
    }
    Ok(())
}

/// Starts at a node, unless it was met.
fn start(search: &mut Search, graph: &[Targets], root: usize) -> Result<(), AllocError>
    requires range { InRange graph.now }
    requires node { root < length graph.now }
    requires searching { IsSearching graph.now search.old [] }
    requires empty { search.old.frames.items ≡ [] }
    ensures explored { OnOk result (IsExplored graph.now search.old search.new) }
    ensures met { OnOk result (mark_in search.new.marks.items root ≡ Mark.New → ⊥) }
{
    match search.marks[root] {
        Mark::New => {
            open(search, root)?;
            explore(search, graph)?;
            Ok(())
        }
        Mark::Open(_) => Ok(()),
        Mark::Closed(_) => Ok(()),
    }
}

/// The numbers of the components, by node.
fn numbers_of(alloc: Global, marks: &[Mark]) -> Result<Vec<usize>, AllocError>
    ensures { IfOk result (λ v. v.items ≡ map number_of marks.now) }
{
    marks.iter().map(|mark| mark.number()).collect(alloc)
}

/// A number for each node, the same exactly for nodes that reach each other. The time is linear in nodes and edges.
pub(crate) fn components(alloc: Global, graph: &[Targets]) -> Result<Vec<usize>, AllocError>
    requires { InRange graph.now }
    ensures { IfOk result (λ v. AreComponents graph.now v.items) }
{
    let mut search = Search {
        marks: vec![in alloc; Mark::New; graph.len()]?,
        stack: Vec::new(alloc),
        frames: Vec::new(alloc),
        closed: 0,
    };
    for root in 0..graph.len() {
        start(&mut search, graph, root)?;
    }
    let numbers = numbers_of(alloc, search.marks.as_slice())?;
    Ok(numbers)
}
