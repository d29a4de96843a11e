#![tactic(auto)]
// A bench for the floor map: a scenario on standard input, a command a line, and the answers on standard output. oracle/README.md has the commands and the
// answers; `help` lists them. Lines that cannot be read are named by their number, and the run goes on.
mod answers;
mod bench;
mod calls;
mod commands;
mod compact;
mod input;
mod map;
mod mesh;
mod numbers;
mod parse;
mod shows;
mod store;
mod words;
mod writer;

use bench::Bench;
use input::Input;
use std::io;
use writer::Out;

// Line by line until the input is over. A proved loop has to end, so the lines are counted, to a number that no run comes to.
fn main(rt: HostRuntime) -> io::Result<()> {
    let alloc = rt.alloc();
    let mut input = Input::new(alloc, rt.stdin())?;
    let mut bench = Bench::new(alloc)?;
    let mut out = Out::new(alloc, rt.stdout())?;
    for _ in 0..u64::MAX {
        let Some(line) = input.next_line(&mut out)? else {
            break;
        };
        let done = bench.read(line, &mut out);
        if done.is_err() {
            // the answers that were already given stand
            out.flush()?;
        }
        done?;
    }
    out.flush()
}
