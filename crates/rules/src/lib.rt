// The answers of the host calls. The rules of the calls, and what a sound runtime is, are definitions: see specs/.
#![tactic(auto)]

pub mod refusals;
pub mod states;

// The number, and the new id.
#[repr(C)]
#[derive(Clone, Copy)]
pub struct Made {
    pub no: u64,
    pub id: u64,
}

// The number; the actor that now runs and why it was runnable; or, with 6, the time to sleep.
#[repr(C)]
#[derive(Clone, Copy)]
pub struct Turn {
    pub no: u64,
    pub id: u64,
    pub reason: u64,
    pub sleep: i64,
}

// The number, and the message that is now in hand.
#[repr(C)]
#[derive(Clone, Copy)]
pub struct Received {
    pub no: u64,
    pub sender: u64,
    pub class: u64,
    pub tag: u64,
    pub length: u64,
}

// The number, and where the payload in hand lies in the payload area.
#[repr(C)]
#[derive(Clone, Copy)]
pub struct Shown {
    pub no: u64,
    pub offset: u64,
    pub length: u64,
}

// The number, and how many exit notices were sent and lost.
#[repr(C)]
#[derive(Clone, Copy)]
pub struct Ended {
    pub no: u64,
    pub sent: u64,
    pub lost: u64,
}

// The number, and how many timers fired.
#[repr(C)]
#[derive(Clone, Copy)]
pub struct Advanced {
    pub no: u64,
    pub fired: u64,
}

// The number, and the free entries of the six pools side by side.
#[repr(C)]
#[derive(Clone, Copy)]
pub struct Report {
    pub no: u64,
    pub free: [u64; 6],
}

// The number, and how many bytes were copied to the lent slice.
#[repr(C)]
#[derive(Clone, Copy)]
pub struct Copied {
    pub no: u64,
    pub length: u64,
}
