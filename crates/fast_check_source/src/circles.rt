//! The circles of a graph: two places lie in one where each leads to the other. By Kosaraju's two walks, without recursion.
use std::alloc::{AllocError, Global};

// The places that edges lead to from a place.
fn edges(graph: &[Vec<usize>], place: usize) -> &[usize] {
    match graph.get(place) {
        Some(edges) => edges.as_slice(),
        None => &[],
    }
}

// Marks a place, and returns whether it was not marked.
fn mark(marked: &mut Vec<bool>, place: usize) -> bool {
    match marked.get_mut(place) {
        Some(flag) => {
            let is_new = !*flag;
            *flag = true;
            is_new
        }
        None => false,
    }
}

fn unmarked(alloc: Global, count: usize) -> Result<Vec<bool>, AllocError> {
    let mut marked = Vec::new(alloc);
    for _turn in 0..count {
        marked.push(false)?;
    }
    Ok(marked)
}

// Walks from a place over what is not marked, and pushes each place once all that it leads to was pushed.
fn push_finished(
    alloc: Global,
    graph: &[Vec<usize>],
    start: usize,
    marked: &mut Vec<bool>,
    out: &mut Vec<usize>,
) -> Result<(), AllocError> {
    if !mark(marked, start) {
        return Ok(());
    }
    // Places with the number of their edges that were walked.
    let mut path: Vec<(usize, usize)> = Vec::new(alloc);
    path.push((start, 0))?;
    for _turn in 0..u64::MAX {
        let Some((place, walked)) = path.pop() else {
            break;
        };
        match edges(graph, place).get(walked) {
            Some(next) => {
                path.push((place, walked.saturating_add(1)))?;
                if mark(marked, *next) {
                    path.push((*next, 0))?;
                }
            }
            None => out.push(place)?,
        }
    }
    Ok(())
}

// The places in the order in which a walk in depth is done with them.
fn finished(alloc: Global, graph: &[Vec<usize>]) -> Result<Vec<usize>, AllocError> {
    let mut marked = unmarked(alloc, graph.len())?;
    let mut order = Vec::new(alloc);
    for start in 0..graph.len() {
        push_finished(alloc, graph, start, &mut marked, &mut order)?;
    }
    Ok(order)
}

// The graph with each edge turned round.
fn turned(alloc: Global, graph: &[Vec<usize>]) -> Result<Vec<Vec<usize>>, AllocError> {
    let mut made: Vec<Vec<usize>> = Vec::new(alloc);
    for _turn in 0..graph.len() {
        made.push(Vec::new(alloc))?;
    }
    for (place, targets) in graph.iter().enumerate() {
        for target in targets.iter() {
            if let Some(sources) = made.get_mut(*target) {
                sources.push(place)?;
            }
        }
    }
    Ok(made)
}

// Gives all places that a place leads to, and that are not marked, the number of its circle.
fn number(
    alloc: Global,
    graph: &[Vec<usize>],
    start: usize,
    circle: usize,
    marked: &mut Vec<bool>,
    circles: &mut Vec<usize>,
) -> Result<bool, AllocError> {
    if !mark(marked, start) {
        return Ok(false);
    }
    let mut waiting = Vec::new(alloc);
    waiting.push(start)?;
    for _turn in 0..u64::MAX {
        let Some(place) = waiting.pop() else {
            break;
        };
        if let Some(own) = circles.get_mut(place) {
            *own = circle;
        }
        for next in edges(graph, place) {
            if mark(marked, *next) {
                waiting.push(*next)?;
            }
        }
    }
    Ok(true)
}

/// The number of the circle of each place of a graph, which is given by the places that edges lead to from each place. An edge leads to the same circle or
/// to one with a higher number.
pub fn circles_of(alloc: Global, graph: &[Vec<usize>]) -> Result<Vec<usize>, AllocError> {
    let order = finished(alloc, graph)?;
    let sources = turned(alloc, graph)?;
    let mut marked = unmarked(alloc, graph.len())?;
    let mut circles = Vec::new(alloc);
    for _turn in 0..graph.len() {
        circles.push(0)?;
    }
    let mut circle: usize = 0;
    for start in order.iter().rev() {
        if number(
            alloc,
            sources.as_slice(),
            *start,
            circle,
            &mut marked,
            &mut circles,
        )? {
            circle = circle.saturating_add(1);
        }
    }
    Ok(circles)
}
