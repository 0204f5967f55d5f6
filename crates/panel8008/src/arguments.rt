use crate::refusals::Refusal;
use bus::LatchCard;
use panel::{Setting, read_setting};
use std::env;

// What the program's arguments say: the tape's path, the count of fixed cells, and the port card.
#[derive(Drop)]
pub struct Arguments {
    pub tape: String,
    pub fixed: usize,
    pub card: LatchCard,
}

// Reads the program's arguments: the tape's path, then settings.
pub fn read(rt: &HostRuntime) -> Result<Arguments, Refusal> {
    let mut words = env::args(rt)?;
    let _ = words.next();
    let mut arguments = Arguments {
        tape: words.next().ok_or(Refusal::NoTapeNamed)?,
        fixed: 0,
        card: LatchCard::new(),
    };
    for word in words {
        let Some(setting) = read_setting(word.as_bytes()) else {
            return Err(Refusal::NoSuchSetting(word));
        };
        arguments.take(setting);
    }
    Ok(arguments)
}

impl Arguments {
    // Takes a setting over. The ports of a setting are such as the card has.
    fn take(&mut self, setting: Setting) {
        match setting {
            Setting::Fixed(count) => self.fixed = usize::from(count),
            Setting::Input(port, byte) => {
                let _ = self.card.set_input(port, byte);
            }
            Setting::Fit(port) => {
                let _ = self.card.fit(port);
            }
            Setting::Unfit(port) => {
                let _ = self.card.unfit(port);
            }
        }
    }
}
