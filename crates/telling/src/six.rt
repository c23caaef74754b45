// The six pools.
use crate::words::Counted;
use std::fmt;

// So much of each of them: of what there is room for, or of what is free.
#[derive(Clone, Copy)]
pub struct Six {
    pub tracks: u64,
    pub mails: u64,
    pub datas: u64,
    pub links: u64,
    pub monitors: u64,
    pub timers: u64,
}

impl From<[u64; 6]> for Six {
    fn from(numbers: [u64; 6]) -> Self {
        let [tracks, mails, datas, links, monitors, timers] = numbers;
        Six {
            tracks,
            mails,
            datas,
            links,
            monitors,
            timers,
        }
    }
}

impl fmt::Display for Six {
    fn fmt<W: fmt::Write>(&self, f: &mut fmt::Formatter<W>) -> fmt::Result {
        let tracks = Counted(self.tracks, "track", "tracks");
        let mails = Counted(self.mails, "mailbox entry", "mailbox entries");
        let datas = Counted(self.datas, "data entry", "data entries");
        let links = Counted(self.links, "link", "links");
        let monitors = Counted(self.monitors, "monitor", "monitors");
        let timers = Counted(self.timers, "timer", "timers");
        write!(
            f,
            "{tracks}, {mails}, {datas}, {links}, {monitors}, {timers}"
        )
    }
}
