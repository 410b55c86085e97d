//! The arguments of the program, and the settings that they ask for.

use apcu_model::{Clock, Conf};
use conf_read::{ConfFault, Settings, Task, read_settings};
use std::alloc::Global;
use std::process::Abort;
use std::test::Fail;

// The program is called with these arguments after its name.
pub(crate) fn expect<R: Abort>(
    rt: &R,
    alloc: Global,
    options: &[&str],
    wanted: Result<Settings, ConfFault>,
) -> Result<(), Fail> {
    let mut words = Vec::new(alloc);
    words.push(String::from_str(alloc, "apcu_run")?)?;
    for option in options {
        words.push(String::from_str(alloc, option)?)?;
    }
    assert_eq!(rt; read_settings(alloc, &words), wanted);
    Ok(())
}

// The input's scripts are played, without a bundle and without a map.
pub(crate) const PLAY: Task = Task::Play {
    preload: None,
    map: false,
};

// The settings with the default clock and task.
fn by_line(conf: Conf) -> Settings {
    Settings {
        conf,
        clock: Clock::Line,
        task: PLAY,
    }
}

#[test]
fn words_in_order(rt: HostRuntime) -> Result<(), Fail> {
    for options in [[].as_slice(), &["--"]] {
        let conf = Conf::usual();
        expect(&rt, rt.alloc(), options, Ok(by_line(conf)))?;
    }
    for (options, words, slots, ttl) in [
        (["--slots", "32"].as_slice(), 4_194_304, 32, 0),
        (&["--slots=32"], 4_194_304, 32, 0),
        (&["--shm-size=64k"], 8192, 4096, 0),
        (&["--ttl", "4294967295"], 4_194_304, 4096, 4_294_967_295),
        (
            &["--shm-size", "4096", "--slots", "32", "--ttl", "7"],
            512,
            32,
            7,
        ),
        (
            &["--ttl", "7", "--shm-size", "4096", "--slots", "32"],
            512,
            32,
            7,
        ),
        (&["--slots", "32", "--ttl=7", "--shm-size=4096"], 512, 32, 7),
    ] {
        let conf = Conf {
            words,
            slots,
            ttl,
            ..Conf::usual()
        };
        expect(&rt, rt.alloc(), options, Ok(by_line(conf)))?;
    }
    Ok(())
}

#[test]
fn words_out_of_order(rt: HostRuntime) -> Result<(), Fail> {
    for options in [
        ["--help"].as_slice(),
        &["-h"],
        &["help"],
        &["--version"],
        &["--segment", "2"],
        &["--tt", "7"],
        &["-ttl", "7"],
        &["32"],
        &[""],
        &["-"],
        &["--slots", "32", "0"],
        &["--", "--slots"],
        &["--ttl"],
        &["--ttl", "--slots", "32"],
        &["--ttl", "-1"],
        &["--ttl", "7", "--ttl", "7"],
        &["--slots=32", "--ttl=7", "--slots=32"],
        &["--use-request-time"],
        &["--use-request-time="],
        &["--use-request-time", "--ttl", "7"],
        &["--use-request-time", "1", "1"],
        &["--use-request-time", "1", "--use-request-time", "1"],
        &["--use-request-time=0", "--ttl=7", "--use-request-time=1"],
        &["--use-request-tim", "1"],
        &["--request-time", "1"],
        // The other values are checked too.
        &["--use-request-time", "1", "--slots", "31"],
        &["--ttl", "4294967296", "--use-request-time", "1"],
        // The 4096 slots of a cache without `--slots` have no room in 256 bytes.
        &["--shm-size", "256"],
    ] {
        expect(&rt, rt.alloc(), options, Err(ConfFault::Usage))?;
    }
    Ok(())
}

#[test]
fn no_word_at_all(rt: HostRuntime) {
    assert_eq!(rt; read_settings(rt.alloc(), &[]), Err(ConfFault::Usage));
}

#[test]
fn values_in_their_range(rt: HostRuntime) -> Result<(), Fail> {
    for (size, slots, ttl, wanted) in [
        ("256", "2", "0", [32, 2, 0]),
        ("256", "16", "4294967295", [32, 16, 4_294_967_295]),
        ("0000004096", "00000000000000000032", "0", [512, 32, 0]),
        ("4k", "32", "00000000000000000010", [512, 32, 10]),
        ("1K", "32", "0", [128, 32, 0]),
        ("1m", "1048", "10", [131_072, 1048, 10]),
        ("1M", "1048", "10", [131_072, 1048, 10]),
        ("128M", "1048576", "0", [16_777_216, 1_048_576, 0]),
        ("134217728", "32", "0", [16_777_216, 32, 0]),
    ] {
        let [words, slots_wanted, ttl_wanted] = wanted;
        let options = ["--shm-size", size, "--slots", slots, "--ttl", ttl];
        let conf = Conf {
            words,
            slots: slots_wanted,
            ttl: ttl_wanted,
            ..Conf::usual()
        };
        expect(&rt, rt.alloc(), options.as_slice(), Ok(by_line(conf)))?;
    }
    Ok(())
}

#[test]
fn values_out_of_their_range(rt: HostRuntime) -> Result<(), Fail> {
    for (size, slots, ttl) in [
        ("4096", "31", "0"),
        ("4097", "32", "0"),
        ("4104", "32", "0"),
        ("240", "2", "0"),
        ("256", "18", "0"),
        ("4096", "0", "0"),
        ("128M", "1048578", "0"),
        ("134217744", "32", "0"),
        ("1G", "32", "0"),
        ("1g", "32", "0"),
        ("00000004096", "32", "0"),
        ("", "32", "0"),
        ("K", "32", "0"),
        ("4kk", "32", "0"),
        ("4x", "32", "0"),
        ("+4096", "32", "0"),
        ("4096", "", "0"),
        ("4096", "+32", "0"),
        ("4096", "000000000000000000032", "0"),
        ("4096", "18446744073709551648", "0"),
        ("4096", "32", "4294967296"),
        ("4096", "32", "18446744073709551615"),
        ("4096", "32", "18446744073709551616"),
        ("4096", "32", "99999999999999999999"),
        ("4096", "32", ""),
        ("4096", "32", "1s"),
    ] {
        let options = ["--shm-size", size, "--slots", slots, "--ttl", ttl];
        expect(&rt, rt.alloc(), options.as_slice(), Err(ConfFault::Usage))?;
    }
    Ok(())
}

#[test]
fn segments_in_their_range(rt: HostRuntime) -> Result<(), Fail> {
    for (size, segments, slots, wanted) in [
        ("4096", "2", "32", [1024, 2, 32]),
        ("4096", "0000000000000000001", "32", [512, 1, 32]),
        ("256", "64", "16", [2048, 64, 16]),
        ("272", "3", "18", [102, 3, 18]),
        ("2M", "64", "262128", [16_777_216, 64, 262_128]),
        ("64M", "2", "1048576", [16_777_216, 2, 1_048_576]),
        ("44739232", "3", "2", [16_777_212, 3, 2]),
        ("128M", "1", "1048576", [16_777_216, 1, 1_048_576]),
    ] {
        let options = ["--segments", segments, "--shm-size", size, "--slots", slots];
        let [words, segments_wanted, slots_wanted] = wanted;
        let conf = Conf {
            words,
            slots: slots_wanted,
            segments: segments_wanted,
            ..Conf::usual()
        };
        expect(&rt, rt.alloc(), options.as_slice(), Ok(by_line(conf)))?;
    }
    Ok(())
}

#[test]
fn segments_out_of_their_range(rt: HostRuntime) -> Result<(), Fail> {
    for (size, segments, slots) in [
        ("4096", "0", "32"),
        ("4096", "65", "32"),
        ("4096", "4294967297", "32"),
        ("4096", "18446744073709551617", "32"),
        ("4096", "000000000000000000001", "32"),
        ("4096", "", "32"),
        ("4096", "+2", "32"),
        ("4096", "-1", "32"),
        ("4096", "2 ", "32"),
        ("4096", "0x2", "32"),
        // Too large together, by the least that can be.
        ("44739248", "3", "32"),
        ("64M", "3", "32"),
        ("128M", "2", "32"),
        ("128M", "64", "32"),
        // A segment is of even words, whatever their sum.
        ("264", "2", "2"),
        ("4104", "64", "32"),
        ("240", "64", "2"),
        // The slots are in the first segment, and leave 16 words of it.
        ("256", "2", "18"),
        ("4096", "64", "498"),
        ("2M", "64", "262130"),
    ] {
        let options = ["--shm-size", size, "--slots", slots, "--segments", segments];
        expect(&rt, rt.alloc(), options.as_slice(), Err(ConfFault::Usage))?;
    }
    Ok(())
}

#[test]
fn clock_by_its_option(rt: HostRuntime) -> Result<(), Fail> {
    for (options, clock) in [
        (["--use-request-time", "0"].as_slice(), Clock::Line),
        (&["--use-request-time", "1"], Clock::Request),
        (&["--use-request-time=1"], Clock::Request),
        (&["--use-request-time", "01"], Clock::Request),
        (
            &["--use-request-time", "00000000000000000001"],
            Clock::Request,
        ),
        (&["--use-request-time", "00000000000000000000"], Clock::Line),
        (&["--use-request-time", "1", "--"], Clock::Request),
    ] {
        let settings = Settings {
            clock,
            ..by_line(Conf::usual())
        };
        expect(&rt, rt.alloc(), options, Ok(settings))?;
    }
    Ok(())
}

#[test]
fn values_of_no_clock(rt: HostRuntime) -> Result<(), Fail> {
    for value in [
        "2",
        "10",
        "",
        "-1",
        "+1",
        "1K",
        "1 ",
        " 1",
        "true",
        "000000000000000000001",
        // They are 1 in 32 and in 64 bits.
        "4294967297",
        "18446744073709551617",
    ] {
        let options = ["--use-request-time", value];
        expect(&rt, rt.alloc(), options.as_slice(), Err(ConfFault::Usage))?;
    }
    Ok(())
}

#[test]
fn all_options_in_any_order(rt: HostRuntime) -> Result<(), Fail> {
    let [clock, size, segments, slots, ttl] = [
        "--use-request-time=1",
        "--shm-size=4k",
        "--segments=2",
        "--slots=32",
        "--ttl=7",
    ];
    for options in [
        [clock, size, segments, slots, ttl],
        [size, segments, slots, ttl, clock],
        [segments, slots, ttl, clock, size],
        [slots, ttl, clock, size, segments],
        [ttl, clock, size, segments, slots],
        [ttl, slots, segments, size, clock],
        [slots, clock, ttl, segments, size],
    ] {
        let conf = Conf {
            words: 1024,
            slots: 32,
            ttl: 7,
            segments: 2,
        };
        let wanted = Settings {
            clock: Clock::Request,
            ..by_line(conf)
        };
        expect(&rt, rt.alloc(), options.as_slice(), Ok(wanted))?;
    }
    Ok(())
}
