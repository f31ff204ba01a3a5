// Runs the calls by value but set back, each accepted and each refused: bench cases 1, 2, 6 and 11 of
// document 01, case 2's frame in both versions, beacons, one of them too far ahead, a frame of W-204's busy
// yard, a trace of each frame before its receive, and a panel number above 63. It prints a line for each call; the file stdout
// beside src/ is what it must print. (tests/ runs all bench cases, in place.)
#![tactic(auto)]

use frame::BUFFER;
use panel::{Given, Panel};
use parts::OUTPUT;
use std::io;
use telling::{Told, at, clock, fresh, receive};

// What a send or a beacon has answered; then a fresh panel 0 receives the frame.
fn pass_on(rt: &impl Print, call: &str, given: Given, buffer: &[u8]) -> io::Result<Panel> {
    let told = Told {
        call,
        given: &given,
    };
    print!(rt; "{told}, frame ")?;
    let length = given.answer.map_or(0, |accepted| accepted.length);
    let frame = buffer.get(..length).unwrap_or(&[]);
    for byte in frame {
        print!(rt; "{byte:02x}")?;
    }
    println!(rt)?;
    receive(rt, fresh(rt, 0)?, frame)?;
    Ok(given.panel)
}

fn send(rt: &impl Print, p: Panel, payload: &[u8], lifetime: u16) -> io::Result<Panel> {
    let mut output = [0u8; OUTPUT];
    let mut buffer = [0u8; BUFFER];
    let given = send_by_value::panel_send(p, payload, lifetime, &mut output, &mut buffer);
    pass_on(rt, "send at", given, &buffer)
}

fn beacon(rt: &impl Print, p: Panel, payload: &[u8]) -> io::Result<Panel> {
    let mut output = [0u8; OUTPUT];
    let mut buffer = [0u8; BUFFER];
    let given = send_by_value::panel_beacon(p, payload, &mut output, &mut buffer);
    pass_on(rt, "beacon at", given, &buffer)
}

// Case 2's frame in version 1, which waits, and then in version 2, which is the same message.
fn both_versions(rt: &impl Print) -> io::Result<()> {
    let one =
        b"DRY\x00\x01\x03\x00\x00\x1c\x85\x00\x00\x00\x00\x00\x00\x00\x08\x00\x00\x1c\x84\x00";
    let two =
        b"DRY\x00\x02\x03\x00\x00\x00\x00\x00\x00\x1c\x85\x00\x00\x00\x00\x00\x00\x00\x08\x00\x00\x00\x00\x00\x00\x1c\x84\x00";
    receive(rt, receive(rt, fresh(rt, 0)?, one)?, two)?;
    Ok(())
}

// Panel 2 hears A and B of the busy yard, and sends C.
fn busy_yard(rt: &impl Print) -> io::Result<()> {
    let a = b"DRY\x00\x01\x00\x00\x00\x00\x64\x00\x00\x00\x00\x00\x00\x00\x00\x00";
    let b = b"DRY\x00\x01\x01\x00\x00\x00\xc8\x00\x00\x00\x00\x00\x00\x00\x01\x00\x00\x00\x64\x00";
    let heard = receive(rt, receive(rt, fresh(rt, 2)?, a)?, b)?;
    send(rt, heard, b"", 300)?;
    Ok(())
}

fn main(rt: HostRuntime) -> io::Result<()> {
    let rt = &rt;
    println!(rt; "cases 1 and 2")?;
    send(rt, send(rt, at(rt, 3, 100)?, b"OK", 0)?, b"", 0)?;
    println!(rt; "case 2's frame in version 1, and then in version 2")?;
    both_versions(rt)?;
    println!(rt; "a beacon")?;
    beacon(rt, at(rt, 3, 100)?, b"OK")?;
    println!(rt; "beacons up to the last deadline, too far ahead for a fresh panel")?;
    beacon(rt, beacon(rt, at(rt, 3, 18446744073709550415)?, b"")?, b"")?;
    println!(rt;
        "the busy yard: panel 2 has A and B in its log, and names B alone, which names A"
    )?;
    busy_yard(rt)?;
    println!(rt; "case 6")?;
    let once = send(rt, at(rt, 0, 18446744073709551614)?, b"", 1)?;
    send(rt, once, b"", 1)?;
    println!(rt; "case 11")?;
    clock(rt, clock(rt, at(rt, 0, 50)?, 50)?, 49)?;
    println!(rt; "a panel number above 63")?;
    fresh(rt, 64)?;
    Ok(())
}
