// A clock set to a wrong year, and set back, by value. Panel 0 hears "hold lifted" of panel 5, which
// names the hold of panel 3; the hold lapses, and the log goes without it. Then the clock shows a wrong
// year, and the panel is deaf. Set back, it still refuses the hold; what comes later is taken. (The
// hold and its lifting are of version 1, what comes later of version 2.) It
// prints a line for each call; the file stdout beside src/ is what it must print.
#![tactic(auto)]

use std::io;
use telling::{at, clock, receive, set_back};

fn main(rt: HostRuntime) -> io::Result<()> {
    let rt = &rt;
    let hold = b"DRY\x00\x01\x03\x00\x00\x05\x14\x00\x00\x00\x00\x00\x00\x00\x00\x00";
    let lifted =
        b"DRY\x00\x01\x05\x00\x00\x05\x15\x00\x00\x00\x00\x00\x00\x00\x08\x00\x00\x05\x14\x00";
    let later =
        b"DRY\x00\x02\x06\x00\x00\x00\x00\x00\x00\x07\xd0\x00\x00\x00\x00\x00\x00\x00\x00\x00";
    println!(rt; "\"hold lifted\" waits for the hold, 1300, until that has lapsed")?;
    let waiting = receive(rt, at(rt, 0, 100)?, lifted)?;
    let without = clock(rt, waiting, 1301)?;
    println!(rt; "a wrong year: the panel is deaf")?;
    let deaf = receive(rt, clock(rt, without, 4000000000)?, later)?;
    println!(rt; "a clock call can't set it back")?;
    let still = clock(rt, deaf, 100)?;
    println!(rt; "a set-back call can")?;
    let back = set_back(rt, still, 100)?;
    println!(rt; "the log went without the hold, and does so for good")?;
    let refused = receive(rt, back, hold)?;
    println!(rt; "what comes later is taken")?;
    let mut taken = receive(rt, refused, later)?;
    println!(rt; "a reading above the time leaves it")?;
    set_back(rt, taken, 200)?;
    println!(rt; "a broken record is refused")?;
    taken.own = 64;
    set_back(rt, taken, 50)?;
    Ok(())
}
