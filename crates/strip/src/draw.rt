use arrays::chunked::CHUNKED;
use arrays::constant::CONSTANT;
use arrays::dict::DICT;
use arrays::run_end::RUN_END;
use arrays::slice::SLICE;
use planner::session::BasePlanner;
use pool::node::{FLAT, MAX_HEIGHT, Node};
use rows::kinds::{BaseKinds, MARK, RowKinds};

// The name of an encoding.
fn name(encoding: u8) -> &'static str {
    match encoding {
        FLAT => "Flat",
        CONSTANT => "Constant",
        RUN_END => "RunEnd",
        DICT => "Dict",
        CHUNKED => "Chunked",
        SLICE => "Slice",
        _ => "unknown",
    }
}

// Prints the rows that a run of words means, after a colon.
pub fn print_rows(
    rt: &HostRuntime,
    kinds: &BaseKinds,
    kind: u8,
    len: u16,
    words: &[u32],
) -> anyhow::Result<()> {
    print!(rt; ":")?;
    for k in 0..len {
        print!(rt; " {}", kinds.read(kind, words, len, k).value)?;
    }
    Ok(())
}

// Draws an array on one line: encoding, length, kind, parameter, how many hold it, and a Flat one's rows.
fn draw_node(rt: &HostRuntime, planner: &BasePlanner<'_>, node: &Node) -> anyhow::Result<()> {
    let kind = if node.kind == MARK {
        "marks"
    } else {
        "numbers"
    };
    print!(rt; "{}, {} {kind}", name(node.encoding), node.len)?;
    if node.parameter != 0 || node.encoding == CONSTANT {
        print!(rt; ", parameter {}", node.parameter)?;
    }
    if node.count > 1 {
        print!(rt; ", held {} times", node.count)?;
    }
    if node.encoding == FLAT {
        let words = planner.pool.words.get(node.words()).unwrap_or(&[]);
        print_rows(rt, &planner.session.kinds, node.kind, node.len, words)?;
    }
    println!(rt)?;
    Ok(())
}

// Draws the array at a node, and under it those that its slots name, each as much further to the right as it is deeper. It
// ends since no array is higher than 32.
fn draw_tree(rt: &HostRuntime, planner: &BasePlanner<'_>, n: u8, depth: u8) -> anyhow::Result<()> {
    let Some(node) = planner.pool.nodes.get(usize::from(n)) else {
        return Ok(());
    };
    draw_node(rt, planner, node)?;
    if depth >= MAX_HEIGHT {
        return Ok(());
    }
    for (slot, child) in node.slots.iter().enumerate() {
        if let Some(child) = child {
            for _ in 0..=depth {
                print!(rt; "  ")?;
            }
            print!(rt; "{slot} ")?;
            draw_tree(rt, planner, *child, depth + 1)?;
        }
    }
    Ok(())
}

// Draws the tree under each root that holds an array.
pub fn draw_roots(rt: &HostRuntime, planner: &BasePlanner<'_>) -> anyhow::Result<()> {
    for (root, node) in planner.roots.iter().enumerate() {
        if let Some(node) = node {
            print!(rt; "root {root} ")?;
            draw_tree(rt, planner, *node, 0)?;
        }
    }
    Ok(())
}
