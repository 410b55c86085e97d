//! The task of a run, by the program's arguments.

use crate::options::{PLAY, expect};
use apcu_model::{Clock, Conf};
use conf_read::{ConfFault, Settings, Task};
use std::test::Fail;

fn generate(seed: u64, workers: u32, calls: u32) -> Task {
    Task::Generate {
        seed,
        workers,
        calls,
    }
}

// The settings of a usual cache.
fn for_task(task: Task) -> Settings {
    Settings {
        conf: Conf::usual(),
        clock: Clock::Line,
        task,
    }
}

#[test]
fn generated_runs(rt: HostRuntime) -> Result<(), Fail> {
    for (options, task) in [
        (["--generate", "0"].as_slice(), generate(0, 4, 1000)),
        (&["--generate=7"], generate(7, 4, 1000)),
        (
            &["--generate", "18446744073709551615"],
            generate(u64::MAX, 4, 1000),
        ),
        (
            &["--generate", "0", "--workers", "1", "--calls", "0"],
            generate(0, 1, 0),
        ),
        (
            &["--calls", "1000000", "--generate", "9", "--workers", "64"],
            generate(9, 64, 1_000_000),
        ),
        (
            &["--workers=00000000000000000008", "--generate", "007"],
            generate(7, 8, 1000),
        ),
        // Without the number the other two are read, and the input is played.
        (&["--workers", "8"], PLAY),
        (&["--calls", "0", "--workers", "64"], PLAY),
    ] {
        expect(&rt, rt.alloc(), options, Ok(for_task(task)))?;
    }
    Ok(())
}

#[test]
fn numbers_of_no_generated_run(rt: HostRuntime) -> Result<(), Fail> {
    for options in [
        ["--generate", "18446744073709551616"].as_slice(),
        &["--generate", "000000000000000000000"],
        &["--generate", "-1"],
        &["--generate", "+1"],
        &["--generate", "1K"],
        &["--generate", ""],
        &["--generate"],
        &["--generate", "1", "--generate", "1"],
        // The other two are checked, with the number and without it.
        &["--generate", "1", "--workers", "0"],
        &["--generate", "1", "--workers", "65"],
        &["--generate", "1", "--calls", "1000001"],
        &["--workers", "0"],
        &["--workers", "65"],
        &["--workers", "4294967300"],
        &["--workers", ""],
        &["--calls", "1000001"],
        &["--calls", "4294967296"],
        &["--calls", "ten"],
        &["--calls"],
    ] {
        expect(&rt, rt.alloc(), options, Err(ConfFault::Usage))?;
    }
    Ok(())
}

#[test]
fn caches_of_generated_runs(rt: HostRuntime) -> Result<(), Fail> {
    for (size, slots, segments, words) in [
        ("8M", "4096", "1", 1_048_576),
        ("8388608", "2", "1", 1_048_576),
        ("128M", "4096", "1", 16_777_216),
    ] {
        let options = [
            "--generate",
            "3",
            "--shm-size",
            size,
            "--slots",
            slots,
            "--segments",
            segments,
            "--ttl",
            "7",
        ];
        let conf = Conf {
            words,
            slots: if slots == "2" { 2 } else { 4096 },
            ttl: 7,
            ..Conf::usual()
        };
        let settings = Settings {
            conf,
            ..for_task(generate(3, 4, 1000))
        };
        expect(&rt, rt.alloc(), options.as_slice(), Ok(settings))?;
    }
    Ok(())
}

#[test]
fn caches_of_no_generated_run(rt: HostRuntime) -> Result<(), Fail> {
    for (size, slots, segments) in [
        ("4096", "32", "1"),
        // Too small, or with too many slots, by the least that can be.
        ("8388592", "4096", "1"),
        ("8M", "4098", "1"),
        // Any number of segments except one.
        ("8M", "4096", "2"),
        ("2M", "4096", "4"),
        ("64M", "32", "2"),
        // Segments that are none at all.
        ("8M", "4096", "0"),
        ("8M", "4096", "65"),
    ] {
        let options = [
            "--generate",
            "0",
            "--shm-size",
            size,
            "--slots",
            slots,
            "--segments",
            segments,
        ];
        expect(&rt, rt.alloc(), options.as_slice(), Err(ConfFault::Usage))?;
    }
    Ok(())
}

fn play(preload: Option<u64>, map: bool) -> Task {
    Task::Play { preload, map }
}

fn verify(scripts: u64) -> Task {
    Task::Verify { scripts }
}

#[test]
fn bundles_maps_and_verdicts(rt: HostRuntime) -> Result<(), Fail> {
    for (options, task) in [
        (["--map", "0"].as_slice(), PLAY),
        (&["--map=1"], play(None, true)),
        (&["--preload", "0"], play(Some(0), false)),
        (&["--preload=67108864"], play(Some(67_108_864), false)),
        (&["--map=1", "--preload", "014"], play(Some(14), true)),
        (&["--verify", "0"], verify(0)),
        (&["--verify=67108864"], verify(67_108_864)),
        (&["--map=0", "--verify=52"], verify(52)),
        // The numbers of a generated run are read in any run.
        (&["--verify=52", "--workers=9", "--calls=0"], verify(52)),
        (&["--map=0", "--generate=3"], generate(3, 4, 1000)),
    ] {
        expect(&rt, rt.alloc(), options, Ok(for_task(task)))?;
    }
    Ok(())
}

#[test]
fn tasks_that_do_not_stand_together(rt: HostRuntime) -> Result<(), Fail> {
    for options in [
        ["--generate", "0", "--verify", "0"].as_slice(),
        &["--generate=0", "--preload=0"],
        &["--generate=0", "--map=1"],
        &["--verify=0", "--preload=0"],
        &["--verify=0", "--map=1"],
        &["--verify=0", "--preload=0", "--map=1"],
    ] {
        expect(&rt, rt.alloc(), options, Err(ConfFault::Usage))?;
    }
    Ok(())
}

#[test]
fn numbers_of_no_bundle_map_or_verdict(rt: HostRuntime) -> Result<(), Fail> {
    for options in [
        ["--map", "2"].as_slice(),
        &["--map", "yes"],
        &["--map="],
        &["--map"],
        &["--map=1", "--map=1"],
        &["--preload", "67108865"],
        &["--preload", "4294967296"],
        &["--preload", "-1"],
        &["--preload"],
        &["--preload=1", "--preload=1"],
        &["--verify", "67108865"],
        &["--verify", "1K"],
        &["--verify"],
        &["--verify=1", "--verify=1"],
        // They are checked in a run of another task too.
        &["--generate=0", "--map=2"],
        &["--verify=0", "--workers=0"],
    ] {
        expect(&rt, rt.alloc(), options, Err(ConfFault::Usage))?;
    }
    Ok(())
}
