// Runtimes at the largest and the smallest capacities; then a small one in which one thing is broken, another each time. The test of
// soundness and a host call must refuse each.
#![tactic(auto)]

use breaks::Damage::Word;
use breaks::{Break, set_word};
use places::{SMALLEST, least};
use report::Report;
use scene::{bring, start};
use std::io;
use tables::Caps;
use tables::columns::{
    ACTORS, AGE, CLOCK, DATA_FREE, DATAS, INTERVAL, LINKS, MAIL_FREE, MAILS, MONITORS, RUNNING,
    TIMER_AGE, TIMERS, WANT_SENDER,
};
use tables::limits::{
    ANY_SENDER, CLOCK_END, MOST_ACTORS, MOST_DATAS, MOST_LINKS, MOST_MAILS, MOST_MONITORS,
    MOST_TIMERS, OLDEST, SHORTEST_INTERVAL, WORDS_MOST,
};

mod breaks;
mod checks;
mod places;
mod report;
mod scene;

// The largest capacities.
const LARGEST: Caps = Caps {
    actors: MOST_ACTORS,
    mails: MOST_MAILS,
    datas: MOST_DATAS,
    links: MOST_LINKS,
    monitors: MOST_MONITORS,
    timers: MOST_TIMERS,
};

// Each capacity one above its range.
const TOO_LARGE: [Break; 6] = [
    ("257 actors", Word(ACTORS, 0, MOST_ACTORS as u64 + 1)),
    ("257 mailbox entries", Word(MAILS, 0, MOST_MAILS as u64 + 1)),
    ("257 data entries", Word(DATAS, 0, MOST_DATAS as u64 + 1)),
    ("129 links", Word(LINKS, 0, MOST_LINKS as u64 + 1)),
    ("129 monitors", Word(MONITORS, 0, MOST_MONITORS as u64 + 1)),
    ("65 timers", Word(TIMERS, 0, MOST_TIMERS as u64 + 1)),
];

// Each capacity one below its range, and the head's words where nothing else is broken.
const TOO_SMALL: [Break; 5] = [
    ("no actors", Word(ACTORS, 0, 0)),
    ("no mailbox entries", Word(MAILS, 0, 0)),
    ("no data entries", Word(DATAS, 0, 0)),
    ("clock past its end, alone", Word(CLOCK, 0, CLOCK_END + 1)),
    ("running: no such slot, alone", Word(RUNNING, 0, 2)),
];

// What is just in range: intervals of its timer, the age of slot 3 and of the free timer, whom slot 0 waits for.
const IN_RANGE: [Break; 5] = [
    (
        "small, with the shortest interval,",
        Word(INTERVAL, 0, SHORTEST_INTERVAL),
    ),
    ("small, with a timer that ticks once,", Word(INTERVAL, 0, 0)),
    (
        "small, with an actor of the last age,",
        Word(AGE, 3, OLDEST),
    ),
    ("small, with a worn timer,", Word(TIMER_AGE, 1, OLDEST)),
    (
        "small, with a wait for whatever sender,",
        Word(WANT_SENDER, 0, ANY_SENDER - 1),
    ),
];

fn start_largest(t: &mut [u64], p: &mut [u8]) {
    start(t, p, LARGEST);
}

fn start_smallest(t: &mut [u64], p: &mut [u8]) {
    start(t, p, SMALLEST);
}

// The largest runtime.
fn largest(report: &Report<'_, impl Print>) -> io::Result<()> {
    let mut t = [0u64; WORDS_MOST];
    let mut p = [0u8; 65536];
    start_largest(&mut t, &mut p);
    report.state("largest", &t, &p)
}

// The smallest runtime, in buffers of just the needed lengths.
fn smallest(report: &Report<'_, impl Print>) -> io::Result<()> {
    let mut t = [0u64; 1280];
    let mut p = [0u8; 256];
    if let Some(t) = t.get_mut(..least()) {
        start_smallest(t, &mut p);
        report.state("smallest", t, &p)?;
    }
    Ok(())
}

// The same written by hand: its capacities and its free bits. With one word or one byte fewer it is refused.
fn by_hand(report: &mut Report<'_, impl Print>) -> io::Result<()> {
    let mut t = [0u64; 1280];
    let mut p = [0u8; 256];
    let mut short = [0u8; 255];
    for column in [ACTORS, MAILS, DATAS, MAIL_FREE, DATA_FREE] {
        set_word(&mut t, (column, 0, 1));
    }
    if let Some(t) = t.get_mut(..least()) {
        report.state("smallest, written by hand,", t, &p)?;
    }
    if let Some(t) = t.get_mut(..least().saturating_sub(1)) {
        report.tell("table one word short", t, &mut p)?;
    }
    if let Some(t) = t.get_mut(..least()) {
        report.tell("payload area one byte short", t, &mut short)?;
    }
    Ok(())
}

// A small runtime with one of everything.
fn small(report: &Report<'_, impl Print>) -> io::Result<()> {
    let mut t = [0u64; 1536];
    let mut p = [0u8; 2048];
    bring(&mut t, &mut p);
    report.state("small", &t, &p)
}

// The same with another word: sound too.
fn in_range(report: &Report<'_, impl Print>) -> io::Result<()> {
    for (name, change) in IN_RANGE {
        let mut t = [0u64; 1536];
        let mut p = [0u8; 2048];
        bring(&mut t, &mut p);
        change.make(&mut t, &mut p);
        report.state(name, &t, &p)?;
    }
    Ok(())
}

// A break for each rule.
fn broken(report: &mut Report<'_, impl Print>) -> io::Result<()> {
    for breaks in checks::all() {
        report.broken::<1536, 2048, _>(bring, breaks)?;
    }
    Ok(())
}

fn main(rt: HostRuntime) -> io::Result<()> {
    let mut report = Report::new(&rt);
    largest(&report)?;
    report.broken::<WORDS_MOST, 65536, _>(start_largest, &TOO_LARGE)?;
    smallest(&report)?;
    report.broken::<1280, 512, _>(start_smallest, &TOO_SMALL)?;
    by_hand(&mut report)?;
    small(&report)?;
    in_range(&report)?;
    broken(&mut report)?;
    report.total()
}
