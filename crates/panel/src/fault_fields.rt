// A refused instruction, as fields.
ghost use Rattle.std.specs.Prelude.{◌≡◌, Some};
ghost use Rattle.panel.specs.Lines.{fault_text, layer_text};

use cpu::{Fault, Layer};
use report::Hex4;
use std::fmt;

// A refused instruction: its refusal's number, who refused it, the program counter at its start, and the cycle.
#[derive(Clone, Copy)]
pub(crate) struct FaultFields(pub Fault);

impl fmt::Display for FaultFields {
    ghost output = { λ fields. Some (fault_text fields.0) };

    fn fmt<W: fmt::Write>(&self, f: &mut fmt::Formatter<W>) -> fmt::Result {
        let number = self.0.cause.number();
        let layer = layer_text(self.0.layer);
        let pc = Hex4(self.0.pc);
        let cycle = self.0.cycle;
        write!(f, "refused={number} layer={layer} pc={pc} cycle={cycle}")
    }
}

// The name of a layer. It belongs to another crate, so no `Display` for it can stand here.
fn layer_text(layer: Layer) -> &'static str
    ensures { result.now ≡ layer_text layer }
{
    match layer {
        Layer::Decoder => "decoder",
        Layer::PortCard => "card",
    }
}
