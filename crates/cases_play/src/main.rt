//! Plays the worked cases through the route server, each from the start, and prints what each peer is told.
#![tactic(auto)]

use cases::CASES;
use plays::play;
use policies::Texts;

mod cases;
mod plays;
mod policies;
mod printer;

fn main(rt: HostRuntime) -> anyhow::Result<()> {
    run(&rt)
}

fn run(rt: &HostRuntime) -> anyhow::Result<()> {
    let texts = Texts::new();
    for case in CASES {
        play(rt, &texts, case)?;
    }
    Ok(())
}
