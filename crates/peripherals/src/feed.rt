ghost use Rattle.std.specs.Prelude.{◌≡◌, ◌==◌, ◌&&◌, nat_le, nat_lt};
ghost use Rattle.bus.specs.Latch.{answer_if};
ghost use Rattle.peripherals.specs.Feed.{Feed, FeedFrame, feed_rules, feed_of, wiring_of, feed_frame};
ghost use Rattle.peripherals.specs.Feed.{unfed, wired, feed_frame_at};
ghost use Rattle.std.proofs.Common.{arith};
ghost use Rattle.std.proofs.lemmas.Bool.Decides.{nat_tests};

use bus::{PortCard, Trouble};
use std::ops::Range;

// The input ports come first, then the output ports.
const INPUTS: u8 = 8;

const PORTS: u8 = 32;

// A card with one input port over a lent list, and one output port that fills a lent buffer from
// byte 0. Its other ports have no card.
// An input gives the next byte of the list, and an output puts its byte at the next place of the
// buffer. The input port is spent at the end of the list, and the output port once the buffer is
// full. An input port that is not 0 to 7 has no card, and neither has an output port that is not 8
// to 31.
// List and buffer are lent, and each has its count beside it: there is no heap, and the counts are told.
#[derive(Drop)]
pub struct FeedCard<'l, 'b> {
    list: &'l [u8],
    taken: usize,
    buffer: &'b mut [u8],
    sent: usize,
    input_port: u8,
    output_port: u8,
}

impl<'l, 'b> FeedCard<'l, 'b> {
    // A card at the start of `list`, with nothing put out into `buffer` yet.
    pub fn new(
        list: &'l [u8],
        buffer: &'b mut [u8],
        input_port: u8,
        output_port: u8,
    ) -> FeedCard<'l, 'b>
        ensures state { feed_of result ≡ unfed buffer.old }
        ensures frame { feed_frame result ≡ feed_frame_at buffer.entry.ghost_name buffer.old (wired list.now input_port output_port) }
    {
        FeedCard {
            list,
            taken: 0,
            buffer,
            sent: 0,
            input_port,
            output_port,
        }
    }

    // How many bytes of the list were taken in.
    pub fn taken(&self) -> usize
        ensures { result ≡ (feed_of self.now).taken }
    {
        self.taken
    }

    // How many bytes were put out: so many of the buffer, from byte 0 on, were written.
    pub fn put_out(&self) -> usize
        ensures { result ≡ (feed_of self.now).sent }
    {
        self.sent
    }
}

impl PortCard for FeedCard<'_, '_> {
    ghost State = { Feed };

    ghost state = { feed_of };

    ghost rules = { λ c. feed_rules (wiring_of c) };

    ghost input_ports = { Prim.grind (arith, nat_tests) };

    ghost output_ports_from = { Prim.grind (arith, nat_tests) };

    ghost output_ports_to = { Prim.grind (arith, nat_tests) };

    ghost Frame = { FeedFrame };

    ghost frame = { feed_frame };

    fn input(&mut self, port: u8, _a: u8) -> Result<u8, Trouble> {
        want_port(0..INPUTS, self.input_port, port)?;
        let byte = *self.list.get(self.taken).ok_or(Trouble::Spent)?;
        self.taken += 1;
        Ok(byte)
    }

    fn output(&mut self, port: u8, byte: u8) -> Result<(), Trouble> {
        want_port(INPUTS..PORTS, self.output_port, port)?;
        if self.sent >= self.buffer.len() {
            return Err(Trouble::Spent);
        }
        // By index: of a write through `get_mut` a proof knows the buffer's length, and not its bytes.
        self.buffer[self.sent] = byte;
        self.sent += 1;
        Ok(())
    }
}

// Refuses a port that is none of `ports`, or not the one that is wired, as having no card.
fn want_port(ports: Range<u8>, wired: u8, port: u8) -> Result<(), Trouble>
    ensures { result ≡ answer_if (nat_le ports.start port && nat_lt port ports.end && port == wired) }
{
    if ports.contains(&port) && port == wired {
        Ok(())
    } else {
        Err(Trouble::NoCard)
    }
}
