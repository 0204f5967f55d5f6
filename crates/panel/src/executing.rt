ghost use Rattle.std.specs.Prelude.{◌≡◌};
ghost use Rattle.cpu.specs.Processor.{view_of};
ghost use Rattle.states.specs.Sequencing.{states_in_hand};
ghost use Rattle.panel.specs.Desk.{desk_of, machine_at, powered_at, processor_at, FramesKept};
ghost use Rattle.panel.specs.Carrying.{carried_out, ticks, runs, steps, holds, examines, deposits, releases, inputs, holding};

use crate::answers::Answer;
use crate::commands::{Command, Mistake};
use crate::holdings::Holding;
use crate::keys::Key;
use crate::panels::Panel;
use crate::refusals::Refusal;
use bus::{Board, LatchCard, Store};
use cpu::Processor;
use machine::{HoldRefusal, Machine};
use report::Readout;
use runs::run;
use states::Levels;
use stepper::{Feed, step};

impl<S: Store> Panel<S> {
    // A panel over a machine with its board, and beside it a processor at power-up over another store and a like card.
    pub fn new(machine: Machine, board: Board<S, LatchCard>, step_store: S) -> Panel<S>
        ensures worked { machine_at result.machine (S.cells result.board.store) result.board.card ≡ machine_at machine (S.cells board.store) board.card }
        ensures beside { processor_at result.processor (S.cells result.step_board.store) result.step_board.card ≡ powered_at (S.cells step_store) board.card }
        ensures store_frame { S.frame result.board.store ≡ S.frame board.store }
        ensures step_store_frame { S.frame result.step_board.store ≡ S.frame step_store }
    {
        let step_board = Board {
            store: step_store,
            card: board.card,
        };
        Panel {
            machine,
            board,
            processor: Processor::new(),
            step_board,
        }
    }

    // Carries a command out, with this schedule for a run, and answers the key that is then in hand. A command
    // that the key in hand does not allow leaves everything as it was.
    pub fn execute(&mut self, key: Key, command: Command, schedule: &[u8]) -> (Key, Answer)
        ensures outcome { carried_out command schedule.now (desk_of S.cells key self.old) ≡ record { answer = result.1; after = desk_of S.cells result.0 self.new } }
        ensures frames { FramesKept S.frame self.old self.new }
    {
        match command {
            Command::Tick(levels) => self.tick(key, levels),
            Command::Run => self.run(key, schedule),
            Command::Step(feed) => self.step(key, feed),
            Command::Hold => self.hold(key),
            Command::Examine(address) => self.examine(key, address),
            Command::Deposit(address, byte) => self.deposit(key, address, byte),
            Command::Release => self.release(key),
            Command::Input(port, byte) => self.input(key, port, byte),
            Command::Registers => (key, self.registers()),
            Command::StepRegisters => (key, self.step_registers()),
        }
    }

    // One tick of the machine.
    fn tick(&mut self, key: Key, levels: Levels) -> (Key, Answer)
        ensures outcome { ticks levels (desk_of S.cells key self.old) ≡ record { answer = result.1; after = desk_of S.cells result.0 self.new } }
        ensures frames { FramesKept S.frame self.old self.new }
    {
        match key {
            Key::Run(key) => {
                let answer = self.machine.tick(&key, levels, &mut self.board);
                (
                    Key::Run(key),
                    answer.map_or_else(Answer::Refused, Answer::Ticked),
                )
            }
            Key::Held(key) => (Key::Held(key), Answer::Mistaken(Mistake::IsHeld)),
        }
    }

    // A run of the machine.
    fn run(&mut self, key: Key, schedule: &[u8]) -> (Key, Answer)
        ensures outcome { runs schedule.now (desk_of S.cells key self.old) ≡ record { answer = result.1; after = desk_of S.cells result.0 self.new } }
        ensures frames { FramesKept S.frame self.old self.new }
    {
        match key {
            Key::Run(key) => {
                let answer = run(&mut self.machine, &key, schedule, &mut self.board);
                (
                    Key::Run(key),
                    answer.map_or_else(Answer::BadSchedule, Answer::Ran),
                )
            }
            Key::Held(key) => (Key::Held(key), Answer::Mistaken(Mistake::IsHeld)),
        }
    }

    // One step of the processor beside the machine.
    fn step(&mut self, key: Key, feed: Feed) -> (Key, Answer)
        ensures outcome { steps feed (desk_of S.cells key self.old) ≡ record { answer = result.1; after = desk_of S.cells result.0 self.new } }
        ensures frames { FramesKept S.frame self.old self.new }
    {
        let answer = step(&mut self.processor, feed, &mut self.step_board);
        (key, answer.map_or_else(Answer::Refused, Answer::Stepped))
    }

    // Holds the machine.
    fn hold(&mut self, key: Key) -> (Key, Answer)
        ensures outcome { holds (desk_of S.cells key self.old) ≡ record { answer = result.1; after = desk_of S.cells result.0 self.new } }
        ensures frames { FramesKept S.frame self.old self.new }
    {
        match key {
            Key::Run(key) => match self.machine.hold(key, &self.board) {
                Ok(key) => (Key::Held(key), Answer::Held(true)),
                Err(HoldRefusal::InsideInstruction(key)) => (
                    Key::Run(key),
                    Answer::RefusedBy(Refusal::InsideInstruction),
                ),
            },
            Key::Held(key) => (Key::Held(key), Answer::Mistaken(Mistake::IsHeld)),
        }
    }

    // Looks into the store of the held machine.
    fn examine(&mut self, key: Key, address: u16) -> (Key, Answer)
        ensures outcome { examines address (desk_of S.cells key self.old) ≡ record { answer = result.1; after = desk_of S.cells result.0 self.new } }
        ensures frames { FramesKept S.frame self.old self.new }
    {
        match key {
            Key::Held(key) => {
                let byte = self.machine.examine(&key, &mut self.board, address);
                (Key::Held(key), Answer::Examined(address, byte))
            }
            Key::Run(key) => (Key::Run(key), Answer::Mistaken(Mistake::IsNotHeld)),
        }
    }

    // Writes to the store of the held machine.
    fn deposit(&mut self, key: Key, address: u16, byte: u8) -> (Key, Answer)
        ensures outcome { deposits address byte (desk_of S.cells key self.old) ≡ record { answer = result.1; after = desk_of S.cells result.0 self.new } }
        ensures frames { FramesKept S.frame self.old self.new }
    {
        match key {
            Key::Held(key) => {
                let written = self.machine.deposit(&key, &mut self.board, address, byte);
                (Key::Held(key), Answer::Deposited(address, byte, written))
            }
            Key::Run(key) => (Key::Run(key), Answer::Mistaken(Mistake::IsNotHeld)),
        }
    }

    // Releases the machine.
    fn release(&mut self, key: Key) -> (Key, Answer)
        ensures outcome { releases (desk_of S.cells key self.old) ≡ record { answer = result.1; after = desk_of S.cells result.0 self.new } }
        ensures frames { FramesKept S.frame self.old self.new }
    {
        match key {
            Key::Held(key) => {
                let key = self.machine.release(key, &self.board);
                (Key::Run(key), Answer::Held(false))
            }
            Key::Run(key) => (Key::Run(key), Answer::Mistaken(Mistake::IsNotHeld)),
        }
    }

    // Sets the byte that an input port answers, of both cards.
    fn input(&mut self, key: Key, port: u8, byte: u8) -> (Key, Answer)
        ensures outcome { inputs port byte (desk_of S.cells key self.old) ≡ record { answer = result.1; after = desk_of S.cells result.0 self.new } }
        ensures frames { FramesKept S.frame self.old self.new }
    {
        let answer = self.board.card.set_input(port, byte);
        let _ = self.step_board.card.set_input(port, byte);
        let answer = answer.map_or_else(
            |trouble| Answer::RefusedBy(Refusal::Port(trouble)),
            |()| Answer::Latched(port, byte),
        );
        (key, answer)
    }

    // What the machine's processor holds.
    fn registers(&self) -> Answer
        ensures { result ≡ Answer.Holds (holding (view_of self.now.machine.processor) (states_in_hand self.now.machine.hand)) }
    {
        let hand = self.machine.states_in_hand();
        Answer::Holds(held_by(&self.machine.processor(), hand))
    }

    // What the processor beside the machine holds. It is always at an instruction's start.
    fn step_registers(&self) -> Answer
        ensures { result ≡ Answer.Holds (holding (view_of self.now.processor) 0) }
    {
        Answer::Holds(held_by(&self.processor, 0))
    }
}

// What a processor holds, with the states that its instruction has spent.
fn held_by(processor: &Processor, hand: u8) -> Holding
    ensures { result ≡ holding (view_of processor.now) hand }
{
    Holding {
        readout: Readout::of(processor),
        stopped: processor.stopped,
        hand,
    }
}
