use crate::{Command, command_of};
use std::alloc::{AllocError, Global};
use std::test::Fail;

/// The words of a line, between which a space stands.
fn words_of(alloc: Global, line: &str) -> Result<Vec<String>, AllocError> {
    let mut words = Vec::new(alloc);
    for word in line.split(' ') {
        words.push(String::from_str(alloc, word)?)?;
    }
    Ok(words)
}

#[test]
fn reads_commands(rt: HostRuntime) -> Result<(), Fail> {
    let turns = 1_000_000;
    let cases = [
        (
            "check Nat",
            Command::Check {
                module: "Nat",
                turns,
                json: false,
            },
        ),
        (
            "check --json Nat --turns +7",
            Command::Check {
                module: "Nat",
                turns: 7,
                json: true,
            },
        ),
        (
            "replay --of=Nat -- --json",
            Command::Replay {
                file: "--json",
                of: Some("Nat"),
            },
        ),
        (
            "replay -",
            Command::Replay {
                file: "-",
                of: None,
            },
        ),
        (
            "normal Nat two --turns=100",
            Command::Normal {
                module: "Nat",
                name: "two",
                turns: 100,
            },
        ),
        (
            "prompt Nat",
            Command::Prompt {
                module: "Nat",
                turns,
            },
        ),
        ("make 2000", Command::Make { count: 2000 }),
    ];
    for (line, command) in cases {
        let words = words_of(rt.alloc(), line)?;
        assert_eq!(rt; command_of(rt.alloc(), &words)?, Some(command), "{line}");
    }
    Ok(())
}

#[test]
fn refuses_other_words(rt: HostRuntime) -> Result<(), Fail> {
    let lines = [
        "",
        "help",
        "--help",
        "-- check Nat",
        "check",
        "check Nat Nat",
        "check let",
        "check Nat --json --json",
        "check Nat --json=true",
        "check Nat --turns",
        "check Nat --turns 0",
        "check Nat --turns 1000000001",
        "check Nat --turns --json",
        "check Nat --of Nat",
        "check -h",
        "check --version",
        "replay ",
        "replay d --turns 5",
        "normal Nat",
        "prompt Nat --json",
        "make 2001",
        "make -1",
        "make 1 2",
    ];
    for line in lines {
        let words = words_of(rt.alloc(), line)?;
        assert!(rt; command_of(rt.alloc(), &words)?.is_none(), "{line}");
    }
    Ok(())
}
