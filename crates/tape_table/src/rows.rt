// The tapes of the table, but for the long ones, and what comes of each.

// A tape, and the line of its run.
#[derive(Clone, Copy)]
pub struct Row<'a> {
    // What the tape shows.
    pub name: &'a str,
    pub tape: &'a [u8],
    pub expected: &'a str,
}

// What a memory of zeros comes to: the restart, and the halt in cell 0.
pub const HALTED_IN_CELL_0: &str =
    "A=00 B=00 C=00 D=00 E=00 H=00 L=00 F=0000 PC=0001 K=1 N=2 T=9 W=0 I=0 halted";

// What the addition of 5 and 3 comes to.
const EIGHT_IN_A: &str =
    "A=08 B=00 C=00 D=00 E=00 H=00 L=00 F=0000 PC=0006 K=1 N=5 T=31 W=0 I=0 halted";

pub static ROWS: [Row<'static>; 22] = [
    Row {
        name: "add 5 and 3",
        tape: b"BNNNNNPPNF BNNNNNPNPF BNNNNNPNNF BNNNNNNPPF BNPNPNNNPF BNNNNNNNNF $",
        expected: EIGHT_IN_A,
    },
    Row {
        name: "subtract 5 from 3",
        tape: b"BNNNNNPPNF BNNNNNNPPF BNNNPNPNNF BNNNNNPNPF BNNNNNNNNF $",
        expected: "A=FE B=00 C=00 D=00 E=00 H=00 L=00 F=1010 PC=0005 K=1 N=4 T=25 W=0 I=0 halted",
    },
    Row {
        name: "call and return",
        tape: b"BNPNNNPPNF BNNNNNPPNF BNNNNNNNNF BNNNNNNNNF BNNNNNNNNF BNNNNNNNNF BNNNNNPPPF $",
        expected: "A=00 B=00 C=00 D=00 E=00 H=00 L=00 F=0000 PC=0004 K=1 N=4 T=25 W=0 I=0 halted",
    },
    Row {
        name: "empty input",
        tape: b"",
        expected: HALTED_IN_CELL_0,
    },
    Row {
        name: "text without a word",
        tape: b"NOTHING IS PUNCHED HERE, NPF",
        expected: HALTED_IN_CELL_0,
    },
    Row {
        name: "no $ at the end",
        tape: b"BNNNNNPPNF BNNNNNPNPF BNNNNNPNNF BNNNNNNPPF BNPNPNNNPF BNNNNNNNNF",
        expected: EIGHT_IN_A,
    },
    Row {
        name: "a bad word after the $",
        tape: b"BNNNNNPPNF BNNNNNPNPF BNNNNNPNNF BNNNNNNPPF BNPNPNNNPF BNNNNNNNNF $ BNX",
        expected: EIGHT_IN_A,
    },
    Row {
        name: "lower case outside a word",
        tape: b"a tape to add: BNNNNNPPNF BNNNNNPNPF BNNNNNPNNF BNNNNNNPPF BNPNPNNNPF BNNNNNNNNF $",
        expected: EIGHT_IN_A,
    },
    Row {
        name: "bytes above 127 outside a word",
        tape: b"\x80\xFFBNNNNNPPNF BNNNNNPNPF BNNNNNPNNF BNNNNNNPPF BNPNPNNNPF BNNNNNNNNF\xC2$",
        expected: EIGHT_IN_A,
    },
    Row {
        name: "X in a word",
        tape: b"BNX",
        expected: "tape 7 at 2",
    },
    Row {
        name: "$ in a word",
        tape: b"BNP$",
        expected: "tape 7 at 3",
    },
    Row {
        name: "B in a word",
        tape: b"BNBNNNNNNNF",
        expected: "tape 7 at 2",
    },
    Row {
        name: "lower case in a word",
        tape: b"BNNpNNNNNF",
        expected: "tape 7 at 3",
    },
    Row {
        name: "blank in a word",
        tape: b"BNNNN NNNNF",
        expected: "tape 7 at 5",
    },
    Row {
        name: "byte above 127 in a word",
        tape: b"BPPPPPPP\xD0F",
        expected: "tape 7 at 8",
    },
    Row {
        name: "F after seven letters",
        tape: b"BNNNNNNNF",
        expected: "tape 7 at 8",
    },
    Row {
        name: "a ninth letter",
        tape: b"BNNNNNNNNNF",
        expected: "tape 7 at 9",
    },
    Row {
        name: "input that ends after B",
        tape: b"B",
        expected: "tape 7 at 1",
    },
    Row {
        name: "input that ends after eight letters",
        tape: b"BNNNNNNNN",
        expected: "tape 7 at 9",
    },
    Row {
        name: "a bad word after a good one",
        tape: b"BNNNNNNNNF BNNNNNNNNf",
        expected: "tape 7 at 20",
    },
    Row {
        name: "no instruction",
        tape: b"BNNPNNNPNF $",
        expected: "A=00 B=00 C=00 D=00 E=00 H=00 L=00 F=0000 PC=0001 K=1 N=1 T=5 W=0 I=0 refused 3",
    },
    Row {
        name: "a program that never halts",
        tape: b"BNPNNNPNNF BNNNNNNNNF BNNNNNNNNF $",
        expected: "A=00 B=00 C=00 D=00 E=00 H=00 L=00 F=0000 PC=0000 K=1 N=5455 T=59999 W=0 I=0 spent",
    },
];
