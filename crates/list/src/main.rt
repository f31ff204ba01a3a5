// The program "list": reads a bundle from standard input and prints what panel 0 does with it.
#![tactic(auto)]

mod input;

use std::io;

fn main(rt: HostRuntime) -> io::Result<()> {
    input::list_input(&mut rt.stdin(), &mut rt.stdout())
}
