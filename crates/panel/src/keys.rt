use machine::{HoldKey, RunKey};

// The key in hand: the machine runs, or it is held. Like a hold key it cannot be let go, so each command matches on it and
// gives a key back.
pub enum Key {
    Run(RunKey),
    Held(HoldKey),
}
