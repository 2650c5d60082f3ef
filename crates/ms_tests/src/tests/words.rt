//! Lines of words, and what the rules of the command line make of each.

use ms_command_line::{Request, WordsFault, parse_words, usage};
use std::alloc::Global;
use std::process::Abort;

/// Words that are taken, and what they ask for.
struct Taken {
    words: &'static [&'static str],
    request: Request<'static>,
}

const TAKEN: [Taken; 22] = [
    Taken {
        words: &["mswasm", "exec", "a"],
        request: Request::Exec {
            file: "a",
            budget: 1_000_000,
            memory: 1_048_576,
        },
    },
    Taken {
        words: &["mswasm", "exec", "--budget", "5", "a"],
        request: Request::Exec {
            file: "a",
            budget: 5,
            memory: 1_048_576,
        },
    },
    Taken {
        words: &["mswasm", "exec", "a", "--budget=5"],
        request: Request::Exec {
            file: "a",
            budget: 5,
            memory: 1_048_576,
        },
    },
    Taken {
        words: &["mswasm", "exec", "--memory", "64", "a", "--budget", "+5"],
        request: Request::Exec {
            file: "a",
            budget: 5,
            memory: 64,
        },
    },
    Taken {
        words: &["mswasm", "exec", "--budget=007", "--memory=+0064", "a"],
        request: Request::Exec {
            file: "a",
            budget: 7,
            memory: 64,
        },
    },
    Taken {
        words: &["mswasm", "exec", "a", "--budget", "0", "--memory", "16"],
        request: Request::Exec {
            file: "a",
            budget: 0,
            memory: 16,
        },
    },
    Taken {
        words: &[
            "mswasm",
            "exec",
            "a",
            "--memory",
            "1073741824",
            "--budget",
            "1000000000000",
        ],
        request: Request::Exec {
            file: "a",
            budget: 1_000_000_000_000,
            memory: 1_073_741_824,
        },
    },
    Taken {
        words: &["mswasm", "exec", "--budget", "5", "--", "--memory"],
        request: Request::Exec {
            file: "--memory",
            budget: 5,
            memory: 1_048_576,
        },
    },
    Taken {
        words: &["mswasm", "run", "a"],
        request: Request::Run { job: "a" },
    },
    Taken {
        words: &["mswasm", "check", "help"],
        request: Request::Check { file: "help" },
    },
    Taken {
        words: &["mswasm", "check", "check"],
        request: Request::Check { file: "check" },
    },
    Taken {
        words: &["mswasm", "check", "-"],
        request: Request::Check { file: "-" },
    },
    Taken {
        words: &["mswasm", "check", "--", "-h"],
        request: Request::Check { file: "-h" },
    },
    Taken {
        words: &["mswasm", "asm", "a.wat", "a.wasm"],
        request: Request::Asm {
            file: "a.wat",
            out: "a.wasm",
        },
    },
    Taken {
        words: &["mswasm", "asm", "a.wat", "--", "-o"],
        request: Request::Asm {
            file: "a.wat",
            out: "-o",
        },
    },
    Taken {
        words: &["mswasm", "dis", "a.wasm", "a.wat"],
        request: Request::Dis {
            file: "a.wasm",
            out: "a.wat",
        },
    },
    Taken {
        words: &["mswasm", "compile", "a.c", "a.wasm"],
        request: Request::Compile {
            file: "a.c",
            out: "a.wasm",
        },
    },
    Taken {
        words: &["mswasm", "judge", "a"],
        request: Request::Judge {
            file: "a",
            memory: 1_048_576,
        },
    },
    Taken {
        words: &["mswasm", "judge", "--memory", "64", "a"],
        request: Request::Judge {
            file: "a",
            memory: 64,
        },
    },
    Taken {
        words: &["mswasm", "stress", "1", "100000"],
        request: Request::Stress {
            seed: 1,
            count: 100_000,
        },
    },
    Taken {
        words: &["mswasm", "stress", "2147483646", "1"],
        request: Request::Stress {
            seed: 2_147_483_646,
            count: 1,
        },
    },
    Taken {
        words: &["mswasm", "stress", "+007", "--", "+3"],
        request: Request::Stress { seed: 7, count: 3 },
    },
];

const REFUSED: [&[&str]; 55] = [
    &[],
    &["mswasm"],
    &["mswasm", "help"],
    &["mswasm", "-h"],
    &["mswasm", "--help"],
    &["mswasm", "help", "exec"],
    &["mswasm", "exec", "--help"],
    &["mswasm", "exec", "a", "-h"],
    &["mswasm", "-V"],
    &["mswasm", "--version"],
    &["mswasm", "exec", "a", "-V"],
    &["mswasm", "ex", "a"],
    &["mswasm", "exec", "a", "--budge", "5"],
    &["mswasm", "Exec", "a"],
    &["mswasm", ""],
    &["mswasm", "--budget", "5", "exec", "a"],
    &["mswasm", "--", "exec", "a"],
    &["mswasm", "exec", "a", "--budget", "5", "--budget", "5"],
    &["mswasm", "exec", "a", "--budget", "5", "--budget=6"],
    &["mswasm", "exec"],
    &["mswasm", "run"],
    &["mswasm", "asm", "a"],
    &["mswasm", "dis"],
    &["mswasm", "exec", "a", "--budget"],
    &["mswasm", "exec", "a", "--budget", "--memory", "64"],
    &["mswasm", "exec", "a", "--budget="],
    &["mswasm", "exec", "--budget", "5"],
    &["mswasm", "exec", "a", "b"],
    &["mswasm", "run", "a", "b"],
    &["mswasm", "check", "a", "b"],
    &["mswasm", "dis", "a", "b", "c"],
    &["mswasm", "exec", "a", "--budget", "1000000000001"],
    &["mswasm", "exec", "a", "--memory", "15"],
    &["mswasm", "exec", "a", "--memory", "1073741825"],
    &["mswasm", "exec", "a", "--budget", "18446744073709551616"],
    &["mswasm", "exec", "a", "--budget", "-5"],
    &["mswasm", "exec", "a", "--budget", "5k"],
    &["mswasm", "exec", "a", "--budget", "5", "6"],
    &["mswasm", "run", "a", "--budget", "5"],
    &["mswasm", "check", "a", "--budget", "5"],
    &["mswasm", "exec", "a", "--fuel", "5"],
    &["mswasm", "exec", "a", "-b", "5"],
    &["mswasm", "judge"],
    &["mswasm", "judge", "a", "--budget", "5"],
    &["mswasm", "check", "-a"],
    &["mswasm", "check", "--a"],
    &["mswasm", "stress"],
    &["mswasm", "stress", "1"],
    &["mswasm", "stress", "1", "2", "3"],
    &["mswasm", "stress", "0", "3"],
    &["mswasm", "stress", "2147483647", "3"],
    &["mswasm", "stress", "1", "0"],
    &["mswasm", "stress", "1", "100001"],
    &["mswasm", "stress", "a", "3"],
    &["mswasm", "stress", "1", "3", "--budget", "5"],
];

fn expect_taken<R: Abort>(rt: &R, alloc: Global, rows: &[Taken]) {
    for (at, line) in rows.iter().enumerate() {
        assert!(rt;
            parse_words(alloc, line.words) == Ok(line.request),
            "line {at}"
        );
    }
}

fn expect_refused<R: Abort>(rt: &R, alloc: Global, rows: &[&[&str]]) {
    for (at, words) in rows.iter().enumerate() {
        assert!(rt;
            parse_words(alloc, words) == Err(WordsFault::Refused),
            "line {at}"
        );
    }
}

#[test]
fn words_ask_or_are_refused(rt: HostRuntime) {
    expect_taken(&rt, rt.alloc(), &TAKEN);
    expect_refused(&rt, rt.alloc(), &REFUSED);
    assert_eq!(rt; usage().lines().count(), 8);
}
