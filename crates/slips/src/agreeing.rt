ghost use Rattle.std.specs.Prelude.{◌≡◌, T};

use crate::columns::Slip;

impl Slip {
    // Whether the two columns are equal. Those of a slip that `make_slip` made are.
    pub fn agrees(&self) -> bool
        ensures yes { self.now.states ≡ self.now.steps → T result }
        ensures no { T result → self.now.states ≡ self.now.steps }
    {
        self.states == self.steps
    }
}
