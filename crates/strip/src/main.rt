#![tactic(auto)]

mod calls;
mod draw;

use calls::{Laid, Thickness};
use draw::{draw_roots, print_rows};
use planner::call::{Answer, Call, Reading, Refusal};
use planner::listener::Listener;
use planner::planner::Planner;
use planner::read::Usage;
use planner::replay::replay;
use planner::session::{BasePlanner, Session};
use planner::tally::Tally;
use pool::pool::Tables;

// Keeps why the last call was refused, if it was.
#[derive(Drop)]
struct Last {
    refusal: Option<Refusal>,
}

impl Listener for Last {
    ghost hears = { λ _ _. Unit {0} };

    fn hear(&mut self, answer: Answer) {
        self.refusal = answer.err();
    }
}

// Says how much is in use.
fn tell_usage(rt: &HostRuntime, usage: Usage) -> anyhow::Result<()> {
    let Usage {
        roots,
        nodes,
        words,
    } = usage;
    println!(rt; "  in use: {roots} of 32 roots, {nodes} of 256 nodes, {words} of 8192 words")?;
    Ok(())
}

// Makes calls one by one, and says how each went.
fn make_calls(
    rt: &HostRuntime,
    planner: &mut BasePlanner<'_>,
    calls: &[Laid<'_>],
) -> anyhow::Result<()> {
    for laid in calls {
        let mut last = Last { refusal: None };
        planner.serve(laid.call, &mut last);
        match last.refusal {
            None => println!(rt; "{}: done", laid.what)?,
            Some(refusal) => println!(rt; "{}: refused, {refusal:?}", laid.what)?,
        }
    }
    tell_usage(rt, planner.inspect())
}

// Reads the array under a root, and prints its rows.
fn read(rt: &HostRuntime, planner: &BasePlanner<'_>, root: u8) -> anyhow::Result<()> {
    let Reading {
        kind,
        len,
        place,
        words,
    } = match planner.read(root) {
        Ok(reading) => reading,
        Err(refusal) => {
            println!(rt; "read root {root}: refused, {refusal:?}")?;
            return Ok(());
        }
    };
    print!(rt;
        "read root {root}: in {} words from word {place} on",
        words.len()
    )?;
    print_rows(rt, &planner.session.kinds, kind, len, words)?;
    println!(rt)?;
    Ok(())
}

// Lays one strip from both sides, thickness and flaw marks, and tells what it did.
fn lay(rt: &HostRuntime, thickness: &Thickness) -> anyhow::Result<()> {
    let mut tables = Tables::EMPTY;
    let mut planner = Planner::new(&mut tables.nodes, &mut tables.words, Session::base());
    make_calls(rt, &mut planner, &thickness.making())?;
    draw_roots(rt, &planner)?;
    make_calls(rt, &mut planner, &calls::releasing_parts())?;
    draw_roots(rt, &planner)?;
    read(rt, &planner, calls::FLAWS)?;
    read(rt, &planner, calls::THICKNESS)?;
    make_calls(rt, &mut planner, &calls::releasing_all())
}

// Plays the same calls, as a list, on a new planner, and tells how they were answered.
fn play_again(rt: &HostRuntime, thickness: &Thickness) -> anyhow::Result<()> {
    let mut tables = Tables::EMPTY;
    let (making, parts, all) = (
        thickness.making(),
        calls::releasing_parts(),
        calls::releasing_all(),
    );
    let laid = making.iter().chain(&parts).chain(&all);
    let calls: Vec<Call> = laid.map(|laid| laid.call).collect(rt.alloc())?;
    let mut tally = Tally::default();
    let usage = replay(
        &mut tables.nodes,
        &mut tables.words,
        Session::base(),
        &calls,
        &mut tally,
    );
    let Tally { accepted, refused } = tally;
    println!(rt; "the same calls on a new planner: {accepted} accepted, {refused} refused")?;
    tell_usage(rt, usage)
}

fn main(rt: HostRuntime) -> anyhow::Result<()> {
    let thickness = Thickness::new(rt.alloc())?;
    lay(&rt, &thickness)?;
    play_again(&rt, &thickness)
}
