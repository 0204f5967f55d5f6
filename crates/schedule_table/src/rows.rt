// The rows of the table.

use crate::schedules::Schedule;

// A run of a row: its schedule, whether input port 1 is fitted, and the line of its answer.
#[derive(Clone, Copy)]
pub struct Run {
    pub schedule: Schedule,
    pub port_1: bool,
    pub expected: &'static str,
}

// Runs one after another of a machine that is powered up over a program. The cells past the program are
// fixed and hold 255.
#[derive(Clone, Copy)]
pub struct Row {
    pub name: &'static str,
    pub program: &'static [u8],
    pub runs: &'static [Run],
}

pub static ROWS: [Row; 33] = [
    Row {
        name: "5: LAB, a wait at its T3",
        program: &[0xc1],
        runs: &[Run {
            schedule: Schedule::Ticks(b"IRRRRRR-RRR", 0x05),
            port_1: true,
            expected: "a=11 n=2 t=10 w=1 i=0 h=0>0 A=0 PC=1",
        }],
    },
    Row {
        name: "3+5: LAI, a wait at each T3",
        program: &[0x06, 0x2a],
        runs: &[Run {
            schedule: Schedule::Ticks(b"IRRRRRR-RRR-RRR", 0x05),
            port_1: true,
            expected: "a=15 n=2 t=13 w=2 i=0 h=0>0 A=42 PC=2",
        }],
    },
    Row {
        name: "3+5: LAM, a wait at each T3",
        program: &[0xc7],
        runs: &[Run {
            schedule: Schedule::Ticks(b"IRRRRRR-RRR-RRR", 0x05),
            port_1: true,
            expected: "a=15 n=2 t=13 w=2 i=0 h=0>0 A=199 PC=1",
        }],
    },
    Row {
        name: "4+3: LMA, a wait at each T3",
        program: &[0xf8],
        runs: &[Run {
            schedule: Schedule::Ticks(b"IRRRRRR-RRRR-R", 0x05),
            port_1: true,
            expected: "a=14 n=2 t=12 w=2 i=0 h=0>0 A=0 PC=1",
        }],
    },
    Row {
        name: "3+3+3: LMI, a wait at each T3",
        program: &[0x3e, 0x55],
        runs: &[Run {
            schedule: Schedule::Ticks(b"IRRRRRR-RRR-RRR-R", 0x05),
            port_1: true,
            expected: "a=17 n=2 t=14 w=3 i=0 h=0>0 A=0 PC=2",
        }],
    },
    Row {
        name: "3+3+5: JMP, a wait at each T3",
        program: &[0x44, 0x10, 0x00],
        runs: &[Run {
            schedule: Schedule::Ticks(b"IRRRRRR-RRR-RRR-RRR", 0x05),
            port_1: true,
            expected: "a=19 n=2 t=16 w=3 i=0 h=0>0 A=0 PC=16",
        }],
    },
    Row {
        name: "5: RET, a wait at its T3",
        program: &[0x07],
        runs: &[Run {
            schedule: Schedule::Ticks(b"IRRRRRR-RRR", 0x05),
            port_1: true,
            expected: "a=11 n=2 t=10 w=1 i=0 h=0>0 A=0 PC=0",
        }],
    },
    Row {
        name: "3+5: INP 1, a wait at each T3",
        program: &[0x43],
        runs: &[Run {
            schedule: Schedule::Ticks(b"IRRRRRR-RRR-RRR", 0x05),
            port_1: true,
            expected: "a=15 n=2 t=13 w=2 i=0 h=0>0 A=77 PC=1",
        }],
    },
    Row {
        name: "3+3: OUT 8, a wait at each T3",
        program: &[0x51],
        runs: &[Run {
            schedule: Schedule::Ticks(b"IRRRRRR-RRR-R", 0x05),
            port_1: true,
            expected: "a=13 n=2 t=11 w=2 i=0 h=0>0 A=0 PC=1",
        }],
    },
    Row {
        name: "4: HLT, a wait at its T3, then idle",
        program: &[0x00],
        runs: &[Run {
            schedule: Schedule::Ticks(b"IRRRRRR-RRR-", 0x05),
            port_1: true,
            expected: "a=12 n=2 t=9 w=1 i=2 h=0>0 A=0 PC=1",
        }],
    },
    Row {
        name: "READY low where no T3 is due",
        program: &[0x06, 0x2a],
        runs: &[Run {
            schedule: Schedule::Ticks(b"IRRRR--R--R--", 0x05),
            port_1: true,
            expected: "a=13 n=2 t=13 w=0 i=0 h=0>0 A=42 PC=2",
        }],
    },
    Row {
        name: "three waits in a row",
        program: &[0x06, 0x2a],
        runs: &[Run {
            schedule: Schedule::Ticks(b"IRRRRRR---RRRRRR", 0x05),
            port_1: true,
            expected: "a=16 n=2 t=13 w=3 i=0 h=0>0 A=42 PC=2",
        }],
    },
    Row {
        name: "INT at a start",
        program: &[0x06, 0x2a],
        runs: &[Run {
            schedule: Schedule::Ticks(b"IRRRRIRRRR", 0x05),
            port_1: true,
            expected: "a=10 n=2 t=10 w=0 i=0 h=0>0 A=0 PC=0",
        }],
    },
    Row {
        name: "INT at T2 of cycle 1",
        program: &[0x06, 0x2a, 0xc1],
        runs: &[Run {
            schedule: Schedule::Ticks(b"IRRRRRIRRRRRRR", 0x05),
            port_1: true,
            expected: "a=14 n=2 t=13 w=0 i=0 h=0>1 A=42 PC=2",
        }],
    },
    Row {
        name: "INT at T3 of cycle 1",
        program: &[0x06, 0x2a, 0xc1],
        runs: &[Run {
            schedule: Schedule::Ticks(b"IRRRRRRIRRRRRR", 0x05),
            port_1: true,
            expected: "a=14 n=2 t=13 w=0 i=0 h=0>1 A=42 PC=2",
        }],
    },
    Row {
        name: "INT at T1 of cycle 2",
        program: &[0x06, 0x2a, 0xc1],
        runs: &[Run {
            schedule: Schedule::Ticks(b"IRRRRRRRIRRRRR", 0x05),
            port_1: true,
            expected: "a=14 n=2 t=13 w=0 i=0 h=0>1 A=42 PC=2",
        }],
    },
    Row {
        name: "INT at T2 of cycle 2",
        program: &[0x06, 0x2a, 0xc1],
        runs: &[Run {
            schedule: Schedule::Ticks(b"IRRRRRRRRIRRRR", 0x05),
            port_1: true,
            expected: "a=14 n=2 t=13 w=0 i=0 h=0>1 A=42 PC=2",
        }],
    },
    Row {
        name: "INT at T3 of cycle 2",
        program: &[0x06, 0x2a, 0xc1],
        runs: &[Run {
            schedule: Schedule::Ticks(b"IRRRRRRRRRIRRR", 0x05),
            port_1: true,
            expected: "a=14 n=2 t=13 w=0 i=0 h=0>1 A=42 PC=2",
        }],
    },
    Row {
        name: "INT at T4 of cycle 2",
        program: &[0x06, 0x2a, 0xc1],
        runs: &[Run {
            schedule: Schedule::Ticks(b"IRRRRRRRRRRIRR", 0x05),
            port_1: true,
            expected: "a=14 n=2 t=13 w=0 i=0 h=0>1 A=42 PC=2",
        }],
    },
    Row {
        name: "INT at T5 of cycle 2",
        program: &[0x06, 0x2a, 0xc1],
        runs: &[Run {
            schedule: Schedule::Ticks(b"IRRRRRRRRRRRIR", 0x05),
            port_1: true,
            expected: "a=14 n=2 t=13 w=0 i=0 h=0>1 A=42 PC=2",
        }],
    },
    Row {
        name: "INT at a wait",
        program: &[0x06, 0x2a, 0xc1],
        runs: &[Run {
            schedule: Schedule::Ticks(b"IRRRRRRiRRRRRRR", 0x05),
            port_1: true,
            expected: "a=15 n=2 t=13 w=1 i=0 h=0>1 A=42 PC=2",
        }],
    },
    Row {
        name: "port 1 unfitted, and then fitted",
        program: &[0x43],
        runs: &[
            Run {
                schedule: Schedule::Ticks(b"IRRRRRRRRRRRR", 0x05),
                port_1: false,
                expected: "a=10 n=1 t=5 w=0 i=0 h=0>5 refused 1 by card at tick 10 pc 0 cycle 2 A=0 PC=1",
            },
            Run {
                schedule: Schedule::Ticks(b"R", 0x05),
                port_1: false,
                expected: "a=0 n=0 t=0 w=0 i=0 h=5>5 refused 1 by card at tick 0 pc 0 cycle 2 A=0 PC=1",
            },
            Run {
                schedule: Schedule::Ticks(b"-RRR", 0x05),
                port_1: true,
                expected: "a=4 n=1 t=8 w=1 i=0 h=5>0 A=77 PC=1",
            },
        ],
    },
    Row {
        name: "an undefined jam byte, and then another",
        program: &[],
        runs: &[
            Run {
                schedule: Schedule::Ticks(b"IRRR", 0x22),
                port_1: true,
                expected: "a=2 n=0 t=0 w=0 i=0 h=0>2 refused 3 by decoder at tick 2 pc 0 cycle 1 A=0 PC=0",
            },
            Run {
                schedule: Schedule::Ticks(b"RRR", 0x05),
                port_1: true,
                expected: "a=3 n=1 t=5 w=0 i=0 h=2>0 A=0 PC=0",
            },
        ],
    },
    Row {
        name: "an instruction cut in two",
        program: &[0x06, 0x2a],
        runs: &[
            Run {
                schedule: Schedule::Ticks(b"IRRRRRRRRR", 0x05),
                port_1: true,
                expected: "a=10 n=1 t=5 w=0 i=0 h=0>5 A=0 PC=2",
            },
            Run {
                schedule: Schedule::Ticks(b"RRR", 0x05),
                port_1: true,
                expected: "a=3 n=1 t=8 w=0 i=0 h=5>0 A=42 PC=2",
            },
        ],
    },
    Row {
        name: "empty",
        program: &[],
        runs: &[Run {
            schedule: Schedule::Bytes(&[]),
            port_1: true,
            expected: "a=0 n=0 t=0 w=0 i=0 h=0>0 A=0 PC=0",
        }],
    },
    Row {
        name: "empty, inside an instruction",
        program: &[],
        runs: &[
            Run {
                schedule: Schedule::Ticks(b"IR", 0x05),
                port_1: true,
                expected: "a=2 n=0 t=0 w=0 i=0 h=0>2 A=0 PC=0",
            },
            Run {
                schedule: Schedule::Bytes(&[]),
                port_1: true,
                expected: "a=0 n=0 t=0 w=0 i=0 h=2>2 A=0 PC=0",
            },
        ],
    },
    Row {
        name: "one byte",
        program: &[],
        runs: &[Run {
            schedule: Schedule::Bytes(&[1]),
            port_1: true,
            expected: "schedule 5 A=0 PC=0",
        }],
    },
    Row {
        name: "three bytes, the first with other bits",
        program: &[],
        runs: &[Run {
            schedule: Schedule::Bytes(&[4, 0, 1]),
            port_1: true,
            expected: "schedule 5 A=0 PC=0",
        }],
    },
    Row {
        name: "other bits at tick 3 and later",
        program: &[],
        runs: &[
            Run {
                schedule: Schedule::Ticks(b"IRRxRxx", 0x05),
                port_1: true,
                expected: "schedule 6 at 3 A=0 PC=0",
            },
            Run {
                schedule: Schedule::Ticks(b"R", 0x05),
                port_1: true,
                expected: "a=1 n=0 t=0 w=0 i=1 h=0>0 A=0 PC=0",
            },
        ],
    },
    Row {
        name: "other bits at the last tick alone",
        program: &[],
        runs: &[
            Run {
                schedule: Schedule::Bytes(&[3, 5, 1, 5, 128, 5]),
                port_1: true,
                expected: "schedule 6 at 2 A=0 PC=0",
            },
            Run {
                schedule: Schedule::Ticks(b"R", 0x05),
                port_1: true,
                expected: "a=1 n=0 t=0 w=0 i=1 h=0>0 A=0 PC=0",
            },
        ],
    },
    Row {
        name: "65,536 ticks",
        program: &[],
        runs: &[Run {
            schedule: Schedule::Repeated(0, 131_072),
            port_1: true,
            expected: "a=65536 n=0 t=0 w=0 i=65536 h=0>0 A=0 PC=0",
        }],
    },
    Row {
        name: "half a tick less",
        program: &[],
        runs: &[Run {
            schedule: Schedule::Repeated(0, 131_071),
            port_1: true,
            expected: "schedule 5 A=0 PC=0",
        }],
    },
    Row {
        name: "65,537 ticks, all with other bits",
        program: &[],
        runs: &[Run {
            schedule: Schedule::Repeated(255, 131_074),
            port_1: true,
            expected: "schedule 5 A=0 PC=0",
        }],
    },
];
