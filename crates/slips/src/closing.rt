ghost use Rattle.std.specs.Prelude.{◌≡◌};
ghost use Rattle.cpu.specs.Processor.{view_of};
ghost use Rattle.slips.specs.Columns.{column_of, slip_from};
ghost use Rattle.states.specs.Tallies.{Within};

use crate::columns::{Column, Slip};
use crate::sheets::Sheet;
use cpu::Processor;
use report::Readout;
use runs::RunFault;
use states::Tally;

impl Column {
    // The column of what was counted, of the states in hand and of what the processor holds.
    fn new(counts: Tally, in_hand: u8, processor: &Processor) -> Column
        ensures { result ≡ column_of counts.instructions counts.table_states counts.waits counts.idle in_hand counts.accepted (view_of processor.now) }
    {
        Column {
            tally: counts,
            in_hand,
            readout: Readout::of(processor),
        }
    }
}

impl Sheet {
    // The slip of what was kept, with the states in hand, the instruction engine's processor and the fault.
    pub(crate) fn slip(&self, in_hand: u8, twin: &Processor, fault: Option<RunFault>) -> Slip
        requires { (Within 65536 self.now.counts) × (Within 65536 self.now.steps) }
        ensures { result ≡ slip_from self.now.counts self.now.steps in_hand (view_of self.now.ended) (view_of twin.now) fault }
    {
        let (counts, steps) = (self.counts, self.steps);
        let stepped = Tally {
            instructions: steps.instructions,
            table_states: steps.table_states,
            accepted: steps.table_states + counts.waits + counts.idle + u32::from(in_hand),
            ..counts
        };
        Slip {
            states: Column::new(counts, in_hand, &self.ended),
            steps: Column::new(stepped, in_hand, twin),
            fault,
        }
    }
}
