// A slip as text: a row for each count and register, the state engine's column first.
use crate::columns::Slip;
use crate::refusals::SlipRefusal;
use isa::Register;
use report::{FlagDigits, Hex2, Hex4};
use std::fmt;

impl fmt::Display for Slip {
    fn fmt<W: fmt::Write>(&self, f: &mut fmt::Formatter<W>) -> fmt::Result {
        writeln!(f, "                states   steps")?;
        self.write_counts(f)?;
        self.write_processors(f)?;
        if let Some(stop) = self.fault {
            writeln!(
                f,
                "stopped at tick {} by refusal {}",
                stop.tick,
                stop.fault.cause.number()
            )?;
        }
        f.write_str(if self.agrees() { "agree" } else { "DIFFER" })
    }
}

impl Slip {
    fn write_counts<W: fmt::Write>(&self, f: &mut fmt::Formatter<W>) -> fmt::Result {
        let (a, b) = (self.states.tally, self.steps.tally);
        let (a_hand, b_hand) = (self.states.in_hand, self.steps.in_hand);
        for (name, a, b) in [
            ("instructions", a.instructions, b.instructions),
            ("table states", a.table_states, b.table_states),
            ("waits", a.waits, b.waits),
            ("idle states", a.idle, b.idle),
            ("in hand", u32::from(a_hand), u32::from(b_hand)),
            ("ticks", a.accepted, b.accepted),
        ] {
            writeln!(f, "{name:<14}{a:>8}{b:>8}")?;
        }
        Ok(())
    }

    fn write_processors<W: fmt::Write>(&self, f: &mut fmt::Formatter<W>) -> fmt::Result {
        let (a, b) = (self.states.readout, self.steps.readout);
        for (name, register) in [
            ("A", Register::A),
            ("B", Register::B),
            ("C", Register::C),
            ("D", Register::D),
            ("E", Register::E),
            ("H", Register::H),
            ("L", Register::L),
        ] {
            let a = Hex2(a.registers.get(register));
            let b = Hex2(b.registers.get(register));
            writeln!(f, "{name}                   {a}      {b}")?;
        }
        let (a_flags, b_flags) = (FlagDigits(a.flags), FlagDigits(b.flags));
        writeln!(f, "F                 {a_flags}    {b_flags}")?;
        writeln!(f, "PC                {}    {}", Hex4(a.pc), Hex4(b.pc))?;
        writeln!(f, "K             {:>8}{:>8}", a.k, b.k)
    }
}

impl fmt::Display for SlipRefusal {
    fn fmt<W: fmt::Write>(&self, f: &mut fmt::Formatter<W>) -> fmt::Result {
        match *self {
            SlipRefusal::BadTape(refusal) => write!(f, "{refusal}"),
            SlipRefusal::BadSchedule(refusal) => write!(f, "schedule {}", refusal.number()),
            SlipRefusal::NoMemory => f.write_str("no memory"),
        }
    }
}
