ghost use Rattle.std.specs.Prelude.{◌≡◌, ◌-◌, true, false, cond, Ok, Err, slice_index_or, nat_le, nat_lt, ◌&&◌};
ghost use Rattle.bus.specs.declared.cards.Trouble.TheVariants.{NoCard};
ghost use Rattle.bus.specs.Latch.{Latches, latch_rules, latches_of, fitted_of, zeroed, all_fitted};
ghost use Rattle.bus.specs.Latch.{is_input, is_port, answer_if, with_input, offer_at, output_at, marked};
ghost use Rattle.std.proofs.Common.{rules};

use crate::cards::{PortCard, Trouble};
use std::ops::Range;

// The input ports come first, then the output ports.
const INPUTS: usize = 8;

const OUTPUTS: usize = 24;

const PORTS: usize = 32;

// A card of latches: a byte to answer and an offer latch for each input port, a byte for each
// output port, and a mark for each port that says whether it is fitted.
// An input answers its byte and puts the accumulator into its offer latch. An output sets its byte.
// A port that is not fitted has no card.
// Bytes and marks stand apart, since the bytes are the card's state and the marks its rules.
#[derive(Clone, Copy, PartialEq, Eq, Debug)]
pub struct LatchCard {
    inputs: [u8; INPUTS],
    offers: [u8; INPUTS],
    outputs: [u8; OUTPUTS],
    fitted: [bool; PORTS],
}

impl LatchCard {
    // A card with every byte zero and every port fitted.
    pub fn new() -> LatchCard
        ensures latches { latches_of result ≡ zeroed }
        ensures fitted { fitted_of result ≡ all_fitted }
    {
        LatchCard {
            inputs: [0; INPUTS],
            offers: [0; INPUTS],
            outputs: [0; OUTPUTS],
            fitted: [true; PORTS],
        }
    }

    // Sets the byte that an input port answers, fitted or not. Refused as having no card where
    // `port` is no input port.
    pub fn set_input(&mut self, port: u8, byte: u8) -> Result<(), Trouble>
        ensures answer { result ≡ answer_if (is_input port) }
        ensures latches { latches_of self.new ≡ with_input (latches_of self.old) port byte }
        ensures fitted { fitted_of self.new ≡ fitted_of self.old }
    {
        let n = place_among(0..INPUTS, port)?;
        self.inputs[n] = byte;
        Ok(())
    }

    // The offer latch of an input port: the accumulator of the last input there. Refused as having
    // no card where `port` is no input port.
    pub fn offer(&self, port: u8) -> Result<u8, Trouble>
        ensures { result ≡ offer_at (latches_of self.now) port }
    {
        Ok(self.offers[place_among(0..INPUTS, port)?])
    }

    // The byte last put out at an output port. Refused as having no card where `port` is no output
    // port.
    pub fn output_byte(&self, port: u8) -> Result<u8, Trouble>
        ensures { result ≡ output_at (latches_of self.now) port }
    {
        Ok(self.outputs[place_among(INPUTS..PORTS, port)?])
    }

    // Two calls and not one with a flag: a call says by its name what becomes of the port.
    // Fits a port. Refused as having no card where there is no such port.
    pub fn fit(&mut self, port: u8) -> Result<(), Trouble>
        ensures answer { result ≡ answer_if (is_port port) }
        ensures fitted { fitted_of self.new ≡ marked (fitted_of self.old) port true }
        ensures latches { latches_of self.new ≡ latches_of self.old }
    {
        self.mark(port, true)
    }

    // Unfits a port; its bytes stay. Refused as having no card where there is no such port.
    pub fn unfit(&mut self, port: u8) -> Result<(), Trouble>
        ensures answer { result ≡ answer_if (is_port port) }
        ensures fitted { fitted_of self.new ≡ marked (fitted_of self.old) port false }
        ensures latches { latches_of self.new ≡ latches_of self.old }
    {
        self.mark(port, false)
    }

    // Sets the mark that says whether a port is fitted.
    fn mark(&mut self, port: u8, fitted: bool) -> Result<(), Trouble>
        ensures answer { result ≡ answer_if (is_port port) }
        ensures fitted { fitted_of self.new ≡ marked (fitted_of self.old) port fitted }
        ensures latches { latches_of self.new ≡ latches_of self.old }
    {
        let n = place_among(0..PORTS, port)?;
        self.fitted[n] = fitted;
        Ok(())
    }

    // The place of a fitted port among `ports`. Refused as having no card where it is none of them,
    // or is not fitted.
    fn fitted_among(&self, ports: Range<usize>, port: u8) -> Result<usize, Trouble>
        ensures { result ≡ cond (nat_le ports.start port && nat_lt port ports.end && slice_index_or (fitted_of self.now) port false) (Ok (port - ports.start)) (Err NoCard) }
    {
        match self.fitted.get(usize::from(port)) {
            Some(true) => place_among(ports, port),
            _ => Err(Trouble::NoCard),
        }
    }
}

impl PortCard for LatchCard {
    ghost State = { Latches };

    ghost state = { latches_of };

    ghost rules = { λ c. latch_rules (fitted_of c) };

    ghost Frame = { Unit {0} };

    ghost frame = { λ _. tt };

    ghost input_ports = { Prim.search rules };

    ghost output_ports_from = { Prim.search rules };

    ghost output_ports_to = { Prim.search rules };

    fn input(&mut self, port: u8, a: u8) -> Result<u8, Trouble> {
        let n = self.fitted_among(0..INPUTS, port)?;
        self.offers[n] = a;
        Ok(self.inputs[n])
    }

    fn output(&mut self, port: u8, byte: u8) -> Result<(), Trouble> {
        let n = self.fitted_among(INPUTS..PORTS, port)?;
        self.outputs[n] = byte;
        Ok(())
    }
}

// The place of a port among `ports`. Refused as having no card where it is none of them.
fn place_among(ports: Range<usize>, port: u8) -> Result<usize, Trouble>
    ensures { result ≡ cond (nat_le ports.start port && nat_lt port ports.end) (Ok (port - ports.start)) (Err NoCard) }
{
    let n = usize::from(port);
    if ports.contains(&n) {
        Ok(n - ports.start)
    } else {
        Err(Trouble::NoCard)
    }
}
