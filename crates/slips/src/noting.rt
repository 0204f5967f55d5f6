ghost use Rattle.std.specs.Prelude.{◌≡◌, ◌+◌};
ghost use Rattle.cpu.specs.Place.{place_of};
ghost use Rattle.cpu.specs.Processor.{view_of};
ghost use Rattle.states.specs.Tallies.{Within};
ghost use Rattle.slips.specs.Sheets.{blank, kept_of, noted, RaisedByOne};

use crate::beginnings::Beginning;
use crate::feeding::feed_twin;
use crate::sheets::Sheet;
use bus::Bus;
use cpu::Processor;
use states::{Tally, Ticked};

impl Sheet {
    // The sheet at power-up, with a processor that was just powered up.
    pub(crate) fn new(processor: Processor) -> Sheet
        ensures { result ≡ blank processor }
    {
        Sheet {
            counts: Tally::default(),
            steps: Tally::default(),
            beginning: Beginning::Nothing,
            ended: processor,
        }
    }

    // Notes an accepted tick, with the jam byte that it brought and the processor after it. One that ended an
    // instruction feeds the instruction engine.
    pub(crate) fn note<B: Bus>(
        &mut self,
        ticked: &Ticked,
        jam: u8,
        processor: Processor,
        twin: &mut Processor,
        bus: &mut B,
    )
        requires { (Within 65536 self.old.counts) × (Within 65536 self.old.steps) }
        ensures kept { kept_of self.new (place_of twin.new (B.wiring bus.new)) ≡ noted jam ticked.now (view_of processor) (kept_of self.old (place_of twin.old (B.wiring bus.old))) }
        ensures ticks { self.new.counts.accepted ≡ self.old.counts.accepted + 1 }
        ensures counts { RaisedByOne self.old.counts self.new.counts }
        ensures steps { RaisedByOne self.old.steps self.new.steps }
    {
        self.counts.count_tick(ticked);
        let beginning = self.beginning.after(ticked, jam);
        match ticked.ended {
            Some(_) => {
                self.steps.count_step(feed_twin(beginning, twin, bus));
                self.beginning = Beginning::Nothing;
                self.ended = processor;
            }
            None => self.beginning = beginning,
        }
    }
}
