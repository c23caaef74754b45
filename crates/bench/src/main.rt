// The bench run of document 01: two tracks, linked; the first crashes, and the second is told.
#![tactic(auto)]

use records::exit::fg_read_exit;
use records::reason::Word;
use runtime::host::{fg_exit, fg_link, fg_next, fg_receive, fg_spawn};
use runtime::show::show;
use runtime::start::fg_start;
use std::io;
use tables::limits::{
    ANY_CLASS, ANY_SENDER, ANY_TAG, MOST_ACTORS, MOST_DATAS, MOST_LINKS, MOST_MAILS, MOST_MONITORS,
    MOST_TIMERS, WORDS_MOST,
};

const CRASH: u64 = 65_533;

// Starts the largest runtime.
fn start_largest(t: &mut [u64], p: &mut [u8]) {
    fg_start(
        t,
        p,
        MOST_ACTORS as u64,
        MOST_MAILS as u64,
        MOST_DATAS as u64,
        MOST_LINKS as u64,
        MOST_MONITORS as u64,
        MOST_TIMERS as u64,
    );
}

// Two new tracks; the first one has its turn, and links the second.
fn run(rt: &impl Print, t: &mut [u64], p: &mut [u8]) -> io::Result<()> {
    start_largest(t, p);
    println!(rt; "{}", fg_spawn(t, p, 1).id)?;
    println!(rt; "{}", fg_spawn(t, p, 1).id)?;
    println!(rt; "{}", fg_next(t, p).id)?;
    fg_link(t, p, 257);
    Ok(())
}

// The first one crashes; the second has its turn, and reads the exit notice: why, and who.
fn end(rt: &impl Print, t: &mut [u64], p: &mut [u8]) -> io::Result<()> {
    let exit = fg_exit(t, p, CRASH);
    println!(rt; "sent {} lost {}", exit.sent, exit.lost)?;
    println!(rt; "{}", fg_next(t, p).id)?;
    fg_receive(t, p, ANY_SENDER, ANY_CLASS, ANY_TAG, 0);
    let notice = fg_read_exit(show(t, p));
    println!(rt; "{} {}", Word::from(notice.reason).name(), notice.actor)
}

fn main(rt: HostRuntime) -> io::Result<()> {
    let mut area = [0; 65536];
    let mut table = [0u64; WORDS_MOST];
    run(&rt, &mut table, &mut area)?;
    end(&rt, &mut table, &mut area)
}
