// Calls by value that tell what came of them, for the programs that show cases: each prints a line with
// the panel, the number of the answer, and the counts of log records and of waiting messages. An
// internal crate.
#![tactic(auto)]

use panel::{Given, Panel};
use parts::{Answer, OUTPUT};
use std::{fmt, io};

// A call, and what it has given back.
#[derive(Clone, Copy)]
pub struct Told<'a> {
    pub call: &'a str,
    pub given: &'a Given,
}

impl fmt::Display for Told<'_> {
    fn fmt<W: fmt::Write>(&self, f: &mut fmt::Formatter<W>) -> fmt::Result {
        let panel = &self.given.panel;
        let answer = Answer::from(self.given.answer);
        write!(
            f,
            "{} panel {}: {}, handed {}, waiting {}",
            self.call, panel.own, answer.number, answer.count, panel.count,
        )
    }
}

pub fn fresh(rt: &impl Print, own: u8) -> io::Result<Panel> {
    let given = panel::panel_fresh(own);
    let told = Told {
        call: "fresh",
        given: &given,
    };
    println!(rt; "{told}")?;
    Ok(given.panel)
}

// A trace of a frame, and then its receive.
pub fn receive(rt: &impl Print, p: Panel, frame: &[u8]) -> io::Result<Panel> {
    let trace = panel::panel_trace(p, frame);
    let ready = if trace.ready { ", ready" } else { "" };
    println!(rt; "trace: {}{ready}, visited {}", trace.number, trace.visited)?;
    let mut output = [0u8; OUTPUT];
    let given = by_value::panel_receive(p, frame, &mut output);
    let told = Told {
        call: "receive at",
        given: &given,
    };
    println!(rt; "{told}")?;
    Ok(given.panel)
}

pub fn clock(rt: &impl Print, p: Panel, time: u64) -> io::Result<Panel> {
    let mut output = [0u8; OUTPUT];
    let given = by_value::panel_clock(p, time, &mut output);
    let told = Told {
        call: "clock at",
        given: &given,
    };
    println!(rt; "{told}, time {}", given.panel.time)?;
    Ok(given.panel)
}

// The time after it, and the floor, which it leaves.
pub fn set_back(rt: &impl Print, p: Panel, reading: u64) -> io::Result<Panel> {
    let given = by_value::panel_set_back(p, reading);
    let told = Told {
        call: "set back at",
        given: &given,
    };
    println!(rt;
        "{told}, time {}, floor {}",
        given.panel.time, given.panel.floor
    )?;
    Ok(given.panel)
}

// A fresh panel whose clock shows a time.
pub fn at(rt: &impl Print, own: u8, time: u64) -> io::Result<Panel> {
    clock(rt, fresh(rt, own)?, time)
}
