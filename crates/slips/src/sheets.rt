use crate::beginnings::Beginning;
use cpu::Processor;
use states::Tally;

// What is kept of both engines while a schedule runs. That its counts are exact is no fact of its type: it holds for as
// many ticks as a schedule has, and not for any number.
#[derive(Clone, Copy)]
pub(crate) struct Sheet {
    pub(crate) counts: Tally,
    pub(crate) steps: Tally,
    pub(crate) beginning: Beginning,
    // The state engine's processor as the last instruction ended.
    pub(crate) ended: Processor,
}
