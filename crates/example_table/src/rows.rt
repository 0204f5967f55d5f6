// The trace of a string search, as Intel printed it: each row is what stands before its instruction.

use crate::sights::Sight;

#[derive(Clone, Copy)]
pub(crate) struct Row {
    pub(crate) name: &'static str,
    pub(crate) sight: Sight,
}

// It looks for a full stop, 46, in the text; the subroutine in cell 20 moves H and L on to the next byte.
pub(crate) static PROGRAM: [u8; 24] = [
    0x36, 0xC8, // LLI 200
    0x2E, 0x00, // LHI 0
    0xC7, // LAM
    0x3C, 0x2E, // CPI 46
    0x68, 0x13, 0x00, // JTZ 19
    0x46, 0x14, 0x00, // CAL 20
    0xC6, // LAL
    0x3C, 0xDC, // CPI 220
    0x48, 0x04, 0x00, // JFZ 4
    0x00, // HLT
    0x30, // INL
    0x0B, // RFZ
    0x28, // INH
    0x07, // RET
];

pub(crate) const TEXT_AT: usize = 200;

pub(crate) static TEXT: [u8; 11] = [43, 46, 48, 32, 120, 43, 46, 48, 32, 120, 43];

pub(crate) static ROWS: [Row; 15] = [
    Row {
        name: "LLI 200",
        sight: Sight {
            flags: [0, 0, 0, 0],
            a: 0,
            l: 0,
            k: 0,
            pc: 0,
        },
    },
    Row {
        name: "LHI 0",
        sight: Sight {
            flags: [0, 0, 0, 0],
            a: 0,
            l: 200,
            k: 0,
            pc: 2,
        },
    },
    Row {
        name: "LAM",
        sight: Sight {
            flags: [0, 0, 0, 0],
            a: 0,
            l: 200,
            k: 0,
            pc: 4,
        },
    },
    Row {
        name: "CPI 46",
        sight: Sight {
            flags: [0, 0, 0, 0],
            a: 43,
            l: 200,
            k: 0,
            pc: 5,
        },
    },
    Row {
        name: "JTZ 19",
        sight: Sight {
            flags: [1, 0, 1, 0],
            a: 43,
            l: 200,
            k: 0,
            pc: 7,
        },
    },
    Row {
        name: "CAL 20",
        sight: Sight {
            flags: [1, 0, 1, 0],
            a: 43,
            l: 200,
            k: 0,
            pc: 10,
        },
    },
    Row {
        name: "INL",
        sight: Sight {
            flags: [1, 0, 1, 0],
            a: 43,
            l: 200,
            k: 1,
            pc: 20,
        },
    },
    Row {
        name: "RFZ",
        sight: Sight {
            flags: [1, 0, 1, 1],
            a: 43,
            l: 201,
            k: 1,
            pc: 21,
        },
    },
    Row {
        name: "LAL",
        sight: Sight {
            flags: [1, 0, 1, 1],
            a: 43,
            l: 201,
            k: 0,
            pc: 13,
        },
    },
    Row {
        name: "CPI 220",
        sight: Sight {
            flags: [1, 0, 1, 1],
            a: 201,
            l: 201,
            k: 0,
            pc: 14,
        },
    },
    Row {
        name: "JFZ 4",
        sight: Sight {
            flags: [1, 0, 1, 1],
            a: 201,
            l: 201,
            k: 0,
            pc: 16,
        },
    },
    Row {
        name: "LAM",
        sight: Sight {
            flags: [1, 0, 1, 1],
            a: 201,
            l: 201,
            k: 0,
            pc: 4,
        },
    },
    Row {
        name: "CPI 46",
        sight: Sight {
            flags: [1, 0, 1, 1],
            a: 46,
            l: 201,
            k: 0,
            pc: 5,
        },
    },
    Row {
        name: "JTZ 19",
        sight: Sight {
            flags: [0, 1, 0, 1],
            a: 46,
            l: 201,
            k: 0,
            pc: 7,
        },
    },
    Row {
        name: "HLT",
        sight: Sight {
            flags: [0, 1, 0, 1],
            a: 46,
            l: 201,
            k: 0,
            pc: 19,
        },
    },
];

pub(crate) static AFTER_HLT: Row = Row {
    name: "after HLT",
    sight: Sight {
        flags: [0, 1, 0, 1],
        a: 46,
        l: 201,
        k: 0,
        pc: 20,
    },
};
