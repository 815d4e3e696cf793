//! Descriptions: one device's, changed in one piece, and what that is told to be.
use bsdl::{BsdlFault, read};
use std::alloc::{AllocError, Global};
use std::test::Fail;

/// A device of one output with its control and one input.
const K: &str = "entity K is
  generic (PHYSICAL_PIN_MAP : string := \"DIP\");
  port (TDI, TMS, TCK : in bit; TDO : out bit;
        Q : out bit; D : in bit);
  use STD_1149_1_2001.all;
  attribute TAP_SCAN_IN of TDI : signal is true;
  attribute TAP_SCAN_MODE of TMS : signal is true;
  attribute TAP_SCAN_OUT of TDO : signal is true;
  attribute TAP_SCAN_CLOCK of TCK : signal is (10.0e6, BOTH);
  attribute INSTRUCTION_LENGTH of K : entity is 2;
  attribute INSTRUCTION_OPCODE of K : entity is
    \"BYPASS (11), EXTEST (00),\" & \"SAMPLE (01), IDCODE (10)\";
  attribute INSTRUCTION_CAPTURE of K : entity is \"01\";
  attribute IDCODE_REGISTER of K : entity is
    \"0000\" & \"0001001000110100\" & \"01010110011\" & \"1\";
  attribute BOUNDARY_LENGTH of K : entity is 3;
  attribute BOUNDARY_REGISTER of K : entity is
    \"0 (BC_1, Q, output3, X, 1, 0, Z),\" &
    \"1 (BC_1, *, control, 0),\" &
    \"2 (BC_1, D, input, X)\";
end K;";

/// The refusal as its line, and what it holds.
fn shown_fault(alloc: Global, fault: &BsdlFault) -> Result<String, AllocError> {
    match fault {
        BsdlFault::BadToken(place) | BsdlFault::BadForm(place) => format!(in alloc;
            "{fault} {place}"
        ),
        BsdlFault::Missing(attribute) => format!(in alloc; "{fault} {attribute:?}"),
        BsdlFault::Twice(name) => format!(in alloc; "{fault} {name}"),
        BsdlFault::BadCell(cell) => format!(in alloc; "{fault} {cell}"),
        _ => format!(in alloc; "{fault}"),
    }
}

/// Whether a text is read, or its refusal.
fn outcome(alloc: Global, text: &str) -> Result<String, AllocError> {
    match read(alloc, text.as_bytes()) {
        Ok(_) => String::from_str(alloc, "read"),
        Err(fault) => shown_fault(alloc, &fault),
    }
}

/// The outcome of K with one piece of its text replaced.
fn changed(alloc: Global, from: &str, to: &str) -> Result<String, AllocError> {
    outcome(alloc, K.replace(alloc, from, to)?.as_str())
}

/// What K with one piece replaced is told to be.
const CHANGES: &[(&str, &str, &str)] = &[
    ("end K;", "end K; -- behind", "read"),
    ("PHYSICAL", "#", "B1 BadToken 23"),
    ("\"DIP\"", "\"DIP", "B1 BadToken 52"),
    ("entity K", "entity", "B2 BadForm 12"),
    ("end K;", "end K; end", "B2 BadForm 902"),
    ("end K;", "end K", "B2 BadForm 900"),
    ("\"SAMPLE", "\"? SAMPLE", "B2 BadForm 483"),
    ("\"0000\"", "\"2\"", "B2 BadForm 645"),
    ("D : in bit", "D : in bit_vector (1 to 0)", "B2 BadForm 152"),
    ("MODE of TMS", "MODE of TMX", "B2 BadForm 246"),
    (
        "attribute TAP_SCAN_IN of TDI : signal is true;",
        "",
        "B3 Missing TapScanIn",
    ),
    (
        "TAP_SCAN_CLOCK",
        "TAP_SCAN_CLOCKS",
        "B3 Missing TapScanClock",
    ),
    (
        "of TDO : signal is true",
        "of TDO : signal is false",
        "B3 Missing TapScanOut",
    ),
    ("BYPASS (11)", "BYPASS (11), Bypass (01)", "B4 Twice Bypass"),
    ("Q : out", "Q, q : out", "B4 Twice q"),
    (
        "end K;",
        "attribute boundary_length of K : entity is 3; end;",
        "B4 Twice boundary_length",
    ),
    ("IDCODE (10)", "IDCODE (11)", "B4 Twice IDCODE"),
    ("SAMPLE (01)", "SAMPLE (1X)", "B4 Twice IDCODE"),
    ("entity is 2", "entity is 3", "B5 BadLength"),
    ("& \"1\"", "& \"11\"", "B5 BadLength"),
    ("is \"01\"", "is \"X1\"", "B6 BadCapture"),
    ("is \"01\"", "is \"10\"", "B6 BadCapture"),
    ("& \"1\"", "& \"0\"", "B7 BadId"),
    ("entity is 3", "entity is 4", "B8 BadCell 3"),
    ("entity is 3", "entity is 2", "B8 BadCell 2"),
    ("D, input", "TMS, input", "B8 BadCell 2"),
    ("D, input", "R, input", "B8 BadCell 2"),
    ("D, input", "D(0), input", "B8 BadCell 2"),
    ("*, control", "D, control", "B8 BadCell 1"),
    ("X, 1, 0, Z", "X, 2, 0, Z", "B8 BadCell 0"),
    (", X, 1, 0, Z", ", X", "B8 BadCell 0"),
    ("D, input, X)", "Q, output2, X)", "B8 BadCell 2"),
    // limits, each at its edge and one past it
    (
        "Q : out bit;",
        "Q : out bit; A : in bit_vector (0 to 8185);",
        "read",
    ),
    (
        "Q : out bit;",
        "Q : out bit; A : in bit_vector (0 to 8186);",
        "B9 TooLarge",
    ),
    (
        "Q : out bit;",
        "Q : out bit; A : in bit_vector (65535 downto 65535);",
        "read",
    ),
    (
        "Q : out bit;",
        "Q : out bit; A : in bit_vector (65536 downto 65536);",
        "B9 TooLarge",
    ),
    ("entity is 2", "entity is 1", "B5 BadLength"),
    ("entity is 3", "entity is 0", "B5 BadLength"),
    (
        "0 (BC_1, Q",
        "65535 (BC_1, *, internal, 0), 0 (BC_1, Q",
        "B8 BadCell 65535",
    ),
    (
        "0 (BC_1, Q",
        "65536 (BC_1, *, internal, 0), 0 (BC_1, Q",
        "B9 TooLarge",
    ),
    ("X, 1, 0, Z", "X, 65537, 0, Z", "B8 BadCell 0"),
    ("X, 1, 0, Z", "X, 1, 2, Z", "B2 BadForm 795"),
    ("D, input", "D(65536), input", "B8 BadCell 2"),
    ("(11)", "()", "B2 BadForm 483"),
];

/// The refusals of what is changed: the least number that applies, with its place, name or cell.
#[test]
fn changes(rt: HostRuntime) -> Result<(), Fail> {
    for (from, to, wanted) in CHANGES {
        let told = changed(rt.alloc(), from, to)?;
        assert_eq!(&rt; told.as_str(), *wanted);
    }
    Ok(())
}

/// What is told to be of much of one thing.
struct Much {
    /// A piece of K.
    from: &'static str,
    /// What stands in its place: each second part so many times, with the numbers from 3 on in place of #.
    to: &'static [&'static str],
    times: usize,
    told: &'static str,
}

/// Adds a part so many times.
fn add_numbered(
    alloc: Global,
    text: &mut String,
    part: &str,
    times: usize,
) -> Result<(), AllocError> {
    for number in 3..times.saturating_add(3) {
        let digits = format!(in alloc; "{number}")?;
        text.push_str(part.replace(alloc, "#", digits.as_str())?.as_str())?;
    }
    Ok(())
}

/// What stands in the place of the piece.
fn repeated(alloc: Global, to: &[&str], times: usize) -> Result<String, AllocError> {
    let mut text = String::new(alloc);
    for (k, part) in to.iter().enumerate() {
        if k % 2 == 0 {
            text.push_str(part)?;
        } else {
            add_numbered(alloc, &mut text, part, times)?;
        }
    }
    Ok(text)
}

/// The opcodes of K, with their length before them and the capture behind.
const CODES: &str = "entity is 2;
  attribute INSTRUCTION_OPCODE of K : entity is
    \"BYPASS (11), EXTEST (00),\" & \"SAMPLE (01), IDCODE (10)\";
  attribute INSTRUCTION_CAPTURE of K : entity is \"01\";";

/// The number of cells of K, up to its rows.
const CELLS: &str = "entity is 3;\n  attribute BOUNDARY_REGISTER of K : entity is";

const MUCH: &[Much] = &[
    // limits, each at its edge and one past it
    Much {
        from: CODES,
        to: &[
            "entity is 64; attribute INSTRUCTION_OPCODE of K : entity is \"BYPASS (",
            "1",
            "11), EXTEST (",
            "0",
            "00), SAMPLE (",
            "0",
            "01), IDCODE (",
            "0",
            "10)\"; attribute INSTRUCTION_CAPTURE of K : entity is \"",
            "0",
            "01\";",
        ],
        times: 62,
        told: "read",
    },
    Much {
        from: CODES,
        to: &[
            "entity is 65; attribute INSTRUCTION_OPCODE of K : entity is \"BYPASS (",
            "1",
            "11), EXTEST (",
            "0",
            "00), SAMPLE (",
            "0",
            "01), IDCODE (",
            "0",
            "10)\"; attribute INSTRUCTION_CAPTURE of K : entity is \"",
            "0",
            "01\";",
        ],
        times: 63,
        told: "B9 TooLarge",
    },
    Much {
        from: "BYPASS (11),",
        to: &["BYPASS (11)", ", I# (01)", ","],
        times: 252,
        told: "read",
    },
    Much {
        from: "BYPASS (11),",
        to: &["BYPASS (11)", ", I# (01)", ","],
        times: 253,
        told: "B9 TooLarge",
    },
    Much {
        from: CELLS,
        to: &[
            "entity is 4096;\n  attribute BOUNDARY_REGISTER of K : entity is \"",
            "# (BC_1, *, internal, X),",
            "\" &",
        ],
        times: 4_093,
        told: "read",
    },
    Much {
        from: CELLS,
        to: &[
            "entity is 4097;\n  attribute BOUNDARY_REGISTER of K : entity is \"",
            "# (BC_1, *, internal, X),",
            "\" &",
        ],
        times: 4_094,
        told: "B9 TooLarge",
    },
    Much {
        from: "SAMPLE (01), IDCODE (10)\";",
        to: &[
            "IDCODE (10)",
            ", LOAD# (01)",
            "\"; attribute REGISTER_ACCESS of K : entity is \"",
            "DATA#[1] (LOAD#),",
            "\";",
        ],
        times: 64,
        told: "read",
    },
    Much {
        from: "SAMPLE (01), IDCODE (10)\";",
        to: &[
            "IDCODE (10)",
            ", LOAD# (01)",
            "\"; attribute REGISTER_ACCESS of K : entity is \"",
            "DATA#[1] (LOAD#),",
            "\";",
        ],
        times: 65,
        told: "B9 TooLarge",
    },
    Much {
        from: "SAMPLE (01), IDCODE (10)\";",
        to: &[
            "IDCODE (10)",
            ", LOAD# (01)",
            "\"; attribute REGISTER_ACCESS of K : entity is \"",
            "DATA#[4096] (LOAD#),",
            "\";",
        ],
        times: 1,
        told: "read",
    },
    Much {
        from: "SAMPLE (01), IDCODE (10)\";",
        to: &[
            "IDCODE (10)",
            ", LOAD# (01)",
            "\"; attribute REGISTER_ACCESS of K : entity is \"",
            "DATA#[4097] (LOAD#),",
            "\";",
        ],
        times: 1,
        told: "B9 TooLarge",
    },
    Much {
        from: "SAMPLE (01), IDCODE (10)\";",
        to: &[
            "IDCODE (10)",
            ", LOAD# (01)",
            "\"; attribute REGISTER_ACCESS of K : entity is \"",
            "DATA#[0] (LOAD#),",
            "\";",
        ],
        times: 1,
        told: "B5 BadLength",
    },
    // long numbers
    Much {
        from: "entity is 2",
        to: &["entity is ", "0", "2"],
        times: 1_000,
        told: "read",
    },
    Much {
        from: "entity is 2",
        to: &["entity is ", "9", ""],
        times: 1_000,
        told: "B5 BadLength",
    },
    Much {
        from: "entity is 3",
        to: &["entity is ", "0", "3"],
        times: 1_000,
        told: "read",
    },
    Much {
        from: "entity is 3",
        to: &["entity is ", "9", ""],
        times: 1_000,
        told: "B8 BadCell 3",
    },
    Much {
        from: "2 (BC",
        to: &["", "0", "2 (BC"],
        times: 1_000,
        told: "read",
    },
    Much {
        from: "2 (BC",
        to: &["", "9", " (BC"],
        times: 1_000,
        told: "B8 BadCell 2",
    },
    Much {
        from: "1, 0, Z",
        to: &["", "0", "1, ", "0", ", Z"],
        times: 1_000,
        told: "B2 BadForm 795",
    },
    Much {
        from: "1, 0, Z",
        to: &["", "9", ", 0, Z"],
        times: 1_000,
        told: "B8 BadCell 0",
    },
    Much {
        from: "D, input",
        to: &["D(", "9", "), input"],
        times: 1_000,
        told: "B8 BadCell 2",
    },
    Much {
        from: "Q : out bit",
        to: &["Q, A : out bit_vector (", "0", "8 to ", "9", ")"],
        times: 1_000,
        told: "B8 BadCell 0",
    },
    Much {
        from: "D : in bit",
        to: &["D : in bit; A : out bit_vector (", "0", "8 to ", "9", ")"],
        times: 1_000,
        told: "B9 TooLarge",
    },
    Much {
        from: "D : in bit",
        to: &["D : in bit; A : out bit_vector (", "9", " to ", "9", "0)"],
        times: 1_000,
        told: "B9 TooLarge",
    },
    Much {
        from: "D : in bit",
        to: &["D : in bit; A : out bit_vector (", "9", "0 to ", "9", ")"],
        times: 1_000,
        told: "B2 BadForm 1165",
    },
    // a text that is joined from many pieces is one; one that is bad is refused at its first quote
    Much {
        from: "is \"01\"",
        to: &["is ", "\"\" & ", "\"01\""],
        times: 100_000,
        told: "read",
    },
    Much {
        from: "is \"01\"",
        to: &["is \"0\" & ", "\"\" & ", "\"2\""],
        times: 100_000,
        told: "B2 BadForm 590",
    },
    Much {
        from: "is \"01\"",
        to: &["is \"01\" & ", "\"\" & ", ";"],
        times: 100_000,
        told: "B2 BadForm 500597",
    },
    // brackets that never close are refused where the text ends
    Much {
        from: "generic (",
        to: &["generic (", "((((((((((", ""],
        times: 100_000,
        told: "B2 BadForm 1000901",
    },
];

#[test]
fn much_of_one_thing(rt: HostRuntime) -> Result<(), Fail> {
    for row in MUCH {
        let to = repeated(rt.alloc(), row.to, row.times)?;
        let told = changed(rt.alloc(), row.from, to.as_str())?;
        assert_eq!(&rt; told.as_str(), row.told);
    }
    Ok(())
}
