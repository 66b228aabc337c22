// Where a routine lies, and where its exploration stands.
ghost use Rattle.std.specs.Prelude.{◌<◌, ◌≤◌};

// The offsets of a routine's first byte and past its last.
#[derive(Clone, Copy)]
pub(crate) struct Span {
    pub entry: usize,
    pub end: usize,
    pub ghost ordered: { entry ≤ end },
    pub ghost inside: { end ≤ 4096 },
}

// An offset to visit, and its depth.
#[derive(Clone, Copy)]
pub(crate) struct Stop {
    pub at: usize,
    pub depth: u32,
    pub ghost inside: { at < 4096 },
}

// The state of an exploration: how many offsets the stack holds, the stop that the last step put on top of it, if it did, and whether every edge so far
// agrees with the depths. The newest stop is kept beside the arrays, since what was just stored is slow to read back.
#[derive(Clone, Copy)]
pub(crate) struct Exploration {
    pub height: usize,
    pub newest: Option<Stop>,
    pub agree: bool,
}
