//! The calls of a disk in memory that fail.

ghost use Rattle.std.specs.Prelude.{◌≡◌, None};

/// The outcome of a call.
#[derive(Clone, Copy, Debug, PartialEq, Eq)]
pub(crate) enum Fate {
    Works,
    /// It fails, and a stop now may leave it partly done.
    Fails,
    /// It comes after the stop: it fails, and nothing changes.
    Stopped,
}

/// The number of calls so far, the call at which the disk stops, and the call that fails.
#[derive(Clone, Copy, Debug, Drop)]
pub(crate) struct Script {
    pub(crate) calls: u64,
    pub(crate) stop: Option<u64>,
    pub(crate) fail: Option<u64>,
}

impl Script {
    pub(crate) fn new() -> Script
        ensures { (result.calls ≡ 0) × (result.stop ≡ None) × (result.fail ≡ None) }
    {
        Script {
            calls: 0,
            stop: None,
            fail: None,
        }
    }

    /// Counts a call, and returns its outcome.
    pub(crate) fn next(&mut self) -> Fate {
        let call = self.calls;
        self.calls = self.calls.saturating_add(1);
        match self.stop {
            Some(stop) if stop < call => Fate::Stopped,
            Some(stop) if stop == call => Fate::Fails,
            _ => self.failing(call),
        }
    }

    fn failing(&self, call: u64) -> Fate {
        match self.fail {
            Some(fail) if fail == call => Fate::Fails,
            _ => Fate::Works,
        }
    }
}
