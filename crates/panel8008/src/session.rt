use bus::FlatStore;
use panel::{Answer, Command, Key, Mistake, Panel, is_blank, read_command, read_schedule};
use std::io;
use std::io::{BufRead, BufReader, Stdin};

// Carries out the commands of the input, up to its end, and answers the key that is then in hand. A failed read or
// write ends it early. The key has to come back then too, so no `?` takes the error out. All lines are read into one
// buffer: the library's `split` takes new memory for each, and three times the time for lines that do little.
pub fn converse(
    rt: &HostRuntime,
    input: BufReader<Stdin>,
    panel: &mut Panel<FlatStore>,
    key: Key,
) -> (Key, io::Result<()>) {
    let mut line = Vec::new(rt.alloc());
    let mut schedule = Vec::new(rt.alloc());
    let mut key = key;
    let mut input = input;
    for _ in 0..u64::MAX {
        line.clear();
        match input.read_until(b'\n', &mut line) {
            Ok(0) => break,
            Ok(_) => {}
            Err(error) => return (key, Err(error)),
        }
        if is_blank(&line) {
            continue;
        }
        let (next, answer) = answer_line(panel, key, &line, &mut schedule);
        key = next;
        if let Err(error) = println!(rt; "{answer}") {
            return (key, Err(error));
        }
    }
    (key, Ok(()))
}

// Carries out the command of a line.
fn answer_line(
    panel: &mut Panel<FlatStore>,
    key: Key,
    line: &[u8],
    schedule: &mut Vec<u8>,
) -> (Key, Answer) {
    match read_line(line, schedule) {
        Ok(command) => panel.execute(key, command, schedule),
        Err(mistake) => (key, Answer::Mistaken(mistake)),
    }
}

// The command of a line. The schedule of a run is put into `schedule`.
fn read_line(line: &[u8], schedule: &mut Vec<u8>) -> Result<Command, Mistake> {
    let command = read_command(line)?;
    if let Command::Run = command {
        read_schedule(line, schedule)?;
    }
    Ok(command)
}

// Gives the key back for good. A held machine is released first.
pub fn put_down(panel: &Panel<FlatStore>, key: Key) {
    match key {
        Key::Run(_) => {}
        Key::Held(key) => {
            let _ = panel.machine.release(key, &panel.board);
        }
    }
}
