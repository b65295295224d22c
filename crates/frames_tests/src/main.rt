//! Turns scripts, each behind a `%`, into frames and these into words, or says which line is refused, and why.
#![tactic(auto)]

use frame_script::frames;
use frame_show::show;
use std::io;

fn main(rt: HostRuntime) -> anyhow::Result<()> {
    run(&rt)
}

fn run(rt: &HostRuntime) -> anyhow::Result<()> {
    let scripts = io::read_to_string(rt.alloc(), rt.stdin())?;
    for script in scripts.as_str().split('%').skip(1) {
        rt.println("%")?;
        show_script(rt, script)?;
    }
    Ok(())
}

fn show_script(rt: &HostRuntime, script: &str) -> anyhow::Result<()> {
    let heap = rt.alloc();
    match frames(heap, script) {
        Ok(bytes) => {
            let mut words = String::new(heap);
            show(&mut words, bytes.as_slice())?;
            rt.print(words)?;
        }
        Err(refused) => println!(rt; "{refused}")?,
    }
    Ok(())
}
