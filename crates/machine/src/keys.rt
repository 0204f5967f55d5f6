// Keys are parameters of their own beside the machine, since holding moves one away and releasing moves one back.

// The right to tick a machine and to run it. `power` makes one, and `release` turns a hold key back into one;
// nothing else does.
#[derive(Drop)]
pub struct RunKey {
    pub(crate) only: (),
}

// The right to look into the store of a held machine and to write to it. Only `hold` makes one. It cannot be let
// go: `release` takes it back.
pub struct HoldKey {
    pub(crate) only: (),
}
