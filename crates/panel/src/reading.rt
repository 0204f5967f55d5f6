// The command of a line.
ghost use Rattle.std.specs.Prelude.{◌≡◌};
ghost use Rattle.panel.specs.Reading.{by_verb, command_of, deposit_of, examine_of, input_of, registers_of, step_of, tick_of, verb_of};

use crate::commands::{Command, Mistake};
use crate::words::{Words, first_word};
use states::Levels;
use stepper::Feed;

// The command of a line. What follows `run` is its schedule, which is read apart.
pub fn read_command(line: &[u8]) -> Result<Command, Mistake>
    ensures { result ≡ command_of line.now }
{
    let (name, others) = first_word(line);
    read_named(name, Words { text: others })
}

// The command of this name, with the words that follow it.
fn read_named(name: &[u8], words: Words<'_>) -> Result<Command, Mistake>
    ensures { result ≡ by_verb (verb_of name.now) words.entry.text.now }
{
    match name {
        b"tick" => read_tick(words),
        b"run" => Ok(Command::Run),
        b"step" => read_step(words),
        b"hold" => words.complete(Command::Hold),
        b"examine" => read_examine(words),
        b"deposit" => read_deposit(words),
        b"release" => words.complete(Command::Release),
        b"input" => read_input(words),
        b"registers" => read_registers(words),
        _ => Err(Mistake::NoSuchCommand),
    }
}

fn read_tick(mut words: Words<'_>) -> Result<Command, Mistake>
    ensures { result ≡ tick_of words.entry.text.now }
{
    let ready = words.level()?;
    let int = words.level()?;
    let jam = words.byte()?;
    words.complete(Command::Tick(Levels { ready, int, jam }))
}

fn read_step(mut words: Words<'_>) -> Result<Command, Mistake>
    ensures { result ≡ step_of words.entry.text.now }
{
    if words.is_over() {
        return Ok(Command::Step(Feed::Own));
    }
    let jam = words.byte()?;
    words.complete(Command::Step(Feed::Jam(jam)))
}

fn read_examine(mut words: Words<'_>) -> Result<Command, Mistake>
    ensures { result ≡ examine_of words.entry.text.now }
{
    let address = words.address()?;
    words.complete(Command::Examine(address))
}

fn read_deposit(mut words: Words<'_>) -> Result<Command, Mistake>
    ensures { result ≡ deposit_of words.entry.text.now }
{
    let address = words.address()?;
    let byte = words.byte()?;
    words.complete(Command::Deposit(address, byte))
}

fn read_input(mut words: Words<'_>) -> Result<Command, Mistake>
    ensures { result ≡ input_of words.entry.text.now }
{
    let port = words.byte()?;
    let byte = words.byte()?;
    words.complete(Command::Input(port, byte))
}

fn read_registers(mut words: Words<'_>) -> Result<Command, Mistake>
    ensures { result ≡ registers_of words.entry.text.now }
{
    if words.is_over() {
        return Ok(Command::Registers);
    }
    match words.next_word() {
        b"step" => words.complete(Command::StepRegisters),
        _ => Err(Mistake::TooManyWords),
    }
}
