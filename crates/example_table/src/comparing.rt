ghost use Rattle.std.specs.Prelude.{◌≡◌, true};
ghost use Rattle.example_table.specs.Comparing.{counted, verdict_text};

use std::{fmt, io};

// A row of the table: what was expected, and what came.
#[derive(Clone, Copy)]
struct Comparison<'a> {
    name: &'a str,
    expected: &'a str,
    came: &'a str,
}

impl Comparison<'_> {
    // Whether what came is what was expected.
    fn is_same(&self) -> bool
        ensures only_if { result ≡ true → self.now.expected.now ≡ self.now.came.now }
        ensures whenever { self.now.expected.now ≡ self.now.came.now → result ≡ true }
    {
        self.expected == self.came
    }
}

// How many rows were compared, and how many of them differ.
#[derive(Clone, Copy, Default)]
pub(crate) struct Tally {
    pub(crate) rows: u32,
    pub(crate) different: u32,
}

impl Tally {
    // Prints a row with its verdict, and counts it.
    pub(crate) fn compare<T: fmt::Display>(
        &mut self,
        rt: &HostRuntime,
        name: &str,
        expected: &str,
        came: &T,
    ) -> io::Result<()> {
        let came = format!(in rt.alloc(); "{came}")?;
        let row = Comparison {
            name,
            expected,
            came: &came,
        };
        let same = row.is_same();
        self.count(same);
        println!(rt;
            "row {}: expected {}, came {}, {}",
            row.name,
            row.expected,
            row.came,
            verdict(same)
        )
    }

    // One row more, which is the same or differs.
    fn count(&mut self, same: bool)
        ensures { self.new ≡ counted same self.old }
    {
        self.rows = self.rows.saturating_add(1);
        if !same {
            self.different = self.different.saturating_add(1);
        }
    }
}

fn verdict(same: bool) -> &'static str
    ensures { result.now ≡ verdict_text same }
{
    if same { "same" } else { "DIFFERENT" }
}
