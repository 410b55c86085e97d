//! Verdicts on outputs, as tables.

use crate::playing::CONF;
use apcu_model::Clock;
use row_search::{Maker, RefuseAll, RegexMaker};
use run_verify::{Verdict, VerifyFault, plays_are_short, verify};
use script_read::{event_count, read_scripts};
use std::alloc::Global;
use std::process::Abort;
use std::test::Fail;

// An output, and its verdict.
type Case = (&'static [u8], Verdict);

// The verdict on an output of these scripts, with a maker of regexes.
fn judged<M: Maker>(
    rt: &impl Abort,
    alloc: Global,
    maker: &M,
    clock: Clock,
    scripts: &[u8],
    output: &[u8],
) -> Result<Result<Verdict, VerifyFault>, Fail> {
    assert!(rt; scripts.len() < 1000);
    assert!(rt; CONF.good());
    let scripts = read_scripts(alloc, scripts)?;
    let Some(_events) = event_count(CONF.slots, &scripts) else {
        return Err(Fail::new("too many events"));
    };
    Ok(verify(alloc, maker, &CONF, clock, &scripts, output))
}

fn expect(rt: &impl Abort, alloc: Global, scripts: &[u8], cases: &[Case]) -> Result<(), Fail> {
    for (output, verdict) in cases {
        let judged = judged(rt, alloc, &RegexMaker, Clock::Line, scripts, output)?;
        assert_eq!(rt; judged, Ok(*verdict));
    }
    Ok(())
}

// A worker stores a number and fetches it.
const ONE: &[u8] = b"worker\napcu_store s:1:\"a\"; i:5;\napcu_fetch s:1:\"a\";\n";

#[test]
fn one_worker(rt: HostRuntime) -> Result<(), Fail> {
    let cases: [Case; 8] = [
        (
            b"worker 0\nb:1;\ni:5;b:1;\njournal\n0\n0\n0\n",
            Verdict::Yes,
        ),
        // Another reply.
        (
            b"worker 0\nb:1;\ni:6;b:1;\njournal\n0\n0\n0\n",
            Verdict::Byte(16),
        ),
        // A line of the worker twice, and not at all.
        (
            b"worker 0\nb:1;\nb:1;\ni:5;b:1;\njournal\n0\n0\n0\n",
            Verdict::Byte(14),
        ),
        (b"worker 0\ni:5;b:1;\njournal\n0\n0\n0\n", Verdict::Byte(9)),
        // A line feed missing, and one more.
        (
            b"worker 0\nb:1;i:5;b:1;\njournal\n0\n0\n0\n",
            Verdict::Byte(13),
        ),
        (
            b"worker 0\nb:1;\ni:5;b:1;\n\njournal\n0\n0\n0\n",
            Verdict::Byte(23),
        ),
        // Another worker, and a byte before the first.
        (
            b"worker 1\nb:1;\ni:5;b:1;\njournal\n0\n0\n0\n",
            Verdict::Byte(7),
        ),
        (
            b" worker 0\nb:1;\ni:5;b:1;\njournal\n0\n0\n0\n",
            Verdict::Byte(0),
        ),
    ];
    expect(&rt, rt.alloc(), ONE, &cases)
}

#[test]
fn journals_of_one(rt: HostRuntime) -> Result<(), Fail> {
    plays_are_short();
    let cases: [Case; 11] = [
        (b"", Verdict::NoJournal),
        (b"worker 0\nb:1;\ni:5;b:1;\n", Verdict::NoJournal),
        (b"journal\n", Verdict::Event(0)),
        // The last line missing, and its line feed missing.
        (
            b"worker 0\nb:1;\ni:5;b:1;\njournal\n0\n0\n",
            Verdict::Event(2),
        ),
        (
            b"worker 0\nb:1;\ni:5;b:1;\njournal\n0\n0\n0",
            Verdict::Event(2),
        ),
        // One more, and bytes after it.
        (
            b"worker 0\nb:1;\ni:5;b:1;\njournal\n0\n0\n0\n0\n",
            Verdict::Event(3),
        ),
        (
            b"worker 0\nb:1;\ni:5;b:1;\njournal\n0\n0\n0\n\n",
            Verdict::Event(3),
        ),
        // Other workers, and masks that none can have.
        (
            b"worker 0\nb:1;\ni:5;b:1;\njournal\n0\n1\n0\n",
            Verdict::Event(1),
        ),
        (
            b"worker 0\nb:1;\ni:5;b:1;\njournal\n0 0\n0\n0\n",
            Verdict::Event(0),
        ),
        (
            b"worker 0\nb:1;\ni:5;b:1;\njournal\n0\n0\n0 1\n",
            Verdict::Event(2),
        ),
        // The line before the journal twice.
        (
            b"worker 0\nb:1;\ni:5;b:1;\njournal\njournal\n0\n0\n0\n",
            Verdict::Byte(31),
        ),
    ];
    expect(&rt, rt.alloc(), ONE, &cases)
}

// One worker stores a number, and another one fetches it.
const TWO: &[u8] = b"worker\napcu_store s:1:\"a\"; i:5;\nworker\napcu_fetch s:1:\"a\";\n";

#[test]
fn two_workers(rt: HostRuntime) -> Result<(), Fail> {
    let cases: [Case; 5] = [
        (
            b"worker 0\nb:1;\nworker 1\ni:5;b:1;\njournal\n0\n1\n0\n1\n",
            Verdict::Yes,
        ),
        (
            b"worker 0\nb:1;\nworker 1\nb:0;b:0;\njournal\n1\n0\n0\n1\n",
            Verdict::Yes,
        ),
        // Their events in the other order.
        (
            b"worker 0\nb:1;\nworker 1\ni:5;b:1;\njournal\n1\n0\n0\n1\n",
            Verdict::Byte(23),
        ),
        (
            b"worker 0\nb:1;\nworker 1\nb:0;b:0;\njournal\n0\n1\n0\n1\n",
            Verdict::Byte(23),
        ),
        // A number is not copied outside the lock.
        (
            b"worker 0\nb:1;\nworker 1\ni:5;b:1;\njournal\n0\n1\n0 1\n1\n",
            Verdict::Event(2),
        ),
    ];
    expect(&rt, rt.alloc(), TWO, &cases)
}

// A worker fetches an array, and another one deletes it and lists the rows that were removed but
// are still held.
const HELD: &[u8] = b"worker\n\
    apcu_store s:1:\"a\"; a:1:{i:0;i:5;}\n\
    apcu_fetch s:1:\"a\";\n\
    worker\n\
    apcu_delete s:1:\"a\";\n\
    APCUIterator N; a:1:{i:0;s:3:\"key\";} i:100; s:7:\"deleted\";\n";

#[test]
fn masks(rt: HostRuntime) -> Result<(), Fail> {
    let cases: [Case; 7] = [
        // The copy is in progress while the row is deleted.
        (
            b"worker 0\nb:1;\na:1:{i:0;i:5;}b:1;\nworker 1\nb:1;\n\
                a:1:{i:0;a:1:{s:3:\"key\";s:1:\"a\";}}\njournal\n0\n0\n1 0\n1\n0\n1\n",
            Verdict::Yes,
        ),
        // It has ended before.
        (
            b"worker 0\nb:1;\na:1:{i:0;i:5;}b:1;\nworker 1\nb:1;\n\
                a:0:{}\njournal\n0\n0\n1\n1\n0\n1\n",
            Verdict::Yes,
        ),
        // The masks of one with the replies of the other.
        (
            b"worker 0\nb:1;\na:1:{i:0;i:5;}b:1;\nworker 1\nb:1;\n\
                a:1:{i:0;a:1:{s:3:\"key\";s:1:\"a\";}}\njournal\n0\n0\n1\n1\n0\n1\n",
            Verdict::Byte(49),
        ),
        (
            b"worker 0\nb:1;\na:1:{i:0;i:5;}b:1;\nworker 1\nb:1;\n\
                a:0:{}\njournal\n0\n0\n1 0\n1\n0\n1\n",
            Verdict::Byte(49),
        ),
        // A worker too many: the one itself, and one that does not exist.
        (
            b"worker 0\nb:1;\na:1:{i:0;i:5;}b:1;\nworker 1\nb:1;\n\
                a:0:{}\njournal\n0\n0\n1 0 1\n1\n0\n1\n",
            Verdict::Event(2),
        ),
        (
            b"worker 0\nb:1;\na:1:{i:0;i:5;}b:1;\nworker 1\nb:1;\n\
                a:0:{}\njournal\n0\n0\n1 0 2\n1\n0\n1\n",
            Verdict::Event(2),
        ),
        // The copy has ended with its worker.
        (
            b"worker 0\nb:1;\na:1:{i:0;i:5;}b:1;\nworker 1\nb:1;\n\
                a:0:{}\njournal\n0\n0\n0\n1 0\n1\n1\n",
            Verdict::Event(3),
        ),
    ];
    expect(&rt, rt.alloc(), HELD, &cases)
}

// A string has the bytes of a journal's first line.
const SPELLED: &[u8] =
    b"worker\napcu_store s:1:\"a\"; s:9:\"\njournal\n\";\napcu_fetch s:1:\"a\";\n";

#[test]
fn strings_that_spell_journals(rt: HostRuntime) -> Result<(), Fail> {
    let cases: [Case; 2] = [
        (
            b"worker 0\nb:1;\ns:9:\"\njournal\n\";b:1;\njournal\n0\n0\n0\n",
            Verdict::Yes,
        ),
        (
            b"worker 0\nb:1;\ns:9:\"\njournal\n\";b:1;\n",
            Verdict::Event(0),
        ),
    ];
    expect(&rt, rt.alloc(), SPELLED, &cases)
}

#[test]
fn nobody(rt: HostRuntime) -> Result<(), Fail> {
    let cases: [Case; 3] = [
        (b"journal\n", Verdict::Yes),
        (b"\njournal\n", Verdict::Byte(0)),
        (b"journal\n0\n", Verdict::Event(0)),
    ];
    expect(&rt, rt.alloc(), b"", &cases)
}

// A row that lasts for a second of the clock is looked for two seconds after its request began.
const AGED: &[u8] = b"worker\nrequest i:100;\napcu_store s:1:\"a\"; i:5; i:1;\ntime i:102;\n\
    apcu_exists s:1:\"a\";\n";

#[test]
fn clocks(rt: HostRuntime) -> Result<(), Fail> {
    let cases: [(Clock, &[u8], Verdict); 4] = [
        (Clock::Line, b"b:0;", Verdict::Yes),
        (Clock::Line, b"b:1;", Verdict::Byte(16)),
        (Clock::Request, b"b:1;", Verdict::Yes),
        (Clock::Request, b"b:0;", Verdict::Byte(16)),
    ];
    for (clock, reply, verdict) in &cases {
        let mut output = Vec::new(rt.alloc());
        output.extend_from_slice(b"worker 0\nb:1;\n")?;
        output.extend_from_slice(reply)?;
        output.extend_from_slice(b"\njournal\n0\n0\n0\n")?;
        let judged = judged(
            &rt,
            rt.alloc(),
            &RegexMaker,
            *clock,
            AGED,
            output.as_slice(),
        )?;
        assert_eq!(rt; judged, Ok(*verdict));
    }
    Ok(())
}

// A worker deletes the keys of a pattern, or those of a pool.
const SEARCHED: [&[u8]; 2] = [
    b"worker\nAPCUIterator_delete s:3:\"/a/\";\n",
    b"worker\npool_clear s:1:\"p\";\n",
];

#[test]
fn patterns(rt: HostRuntime) -> Result<(), Fail> {
    let output = b"worker 0\nb:1;\njournal\n0\n0\n";
    for scripts in &SEARCHED {
        let made = judged(&rt, rt.alloc(), &RegexMaker, Clock::Line, scripts, output)?;
        assert_eq!(rt; made, Ok(Verdict::Yes));
        let refused = judged(&rt, rt.alloc(), &RefuseAll, Clock::Line, scripts, output)?;
        assert_eq!(rt; refused, Err(VerifyFault::Pattern));
    }
    Ok(())
}

// A worker sets a key of one pool, looks for it in two, and clears the first.
const POOLS: &[u8] = b"worker\npool_set s:1:\"p\"; s:1:\"a\"; i:5;\n\
    pool_get s:1:\"p\"; s:1:\"a\"; i:9;\npool_get s:1:\"q\"; s:1:\"a\"; i:9;\n\
    pool_clear s:1:\"p\";\npool_has s:1:\"p\"; s:1:\"a\";\n";

#[test]
fn pools(rt: HostRuntime) -> Result<(), Fail> {
    let cases: [Case; 6] = [
        (
            b"worker 0\nb:1;\ni:5;\ni:9;\nb:1;\nb:0;\njournal\n0\n0\n0\n0\n0\n0\n",
            Verdict::Yes,
        ),
        // The default instead of the value, and the value for another pool.
        (
            b"worker 0\nb:1;\ni:9;\ni:9;\nb:1;\nb:0;\njournal\n0\n0\n0\n0\n0\n0\n",
            Verdict::Byte(16),
        ),
        (
            b"worker 0\nb:1;\ni:5;\ni:5;\nb:1;\nb:0;\njournal\n0\n0\n0\n0\n0\n0\n",
            Verdict::Byte(21),
        ),
        // The key still exists after the pool was cleared.
        (
            b"worker 0\nb:1;\ni:5;\ni:9;\nb:1;\nb:1;\njournal\n0\n0\n0\n0\n0\n0\n",
            Verdict::Byte(31),
        ),
        // An event too few, and one too many.
        (
            b"worker 0\nb:1;\ni:5;\ni:9;\nb:1;\nb:0;\njournal\n0\n0\n0\n0\n0\n",
            Verdict::Event(5),
        ),
        (
            b"worker 0\nb:1;\ni:5;\ni:9;\nb:1;\nb:0;\njournal\n0\n0\n0\n0\n0\n0\n0\n",
            Verdict::Event(6),
        ),
    ];
    expect(&rt, rt.alloc(), POOLS, &cases)
}

// A worker sets two keys of a pool, gets one of them and another, and sets one that has expired.
const POOL_KEYS: &[u8] = b"worker\n\
    pool_set_multiple s:1:\"p\"; a:2:{s:1:\"a\";i:1;s:1:\"b\";i:2;}\n\
    pool_get_multiple s:1:\"p\"; a:2:{i:0;s:1:\"b\";i:1;s:1:\"c\";} i:9;\n\
    pool_set s:1:\"p\"; s:1:\"b\"; i:3; i:0;\npool_has s:1:\"p\"; s:1:\"b\";\n";

#[test]
fn keys_of_a_pool(rt: HostRuntime) -> Result<(), Fail> {
    let cases: [Case; 3] = [
        (
            b"worker 0\nb:1;\na:2:{s:1:\"b\";i:2;s:1:\"c\";i:9;}\nb:1;\nb:0;\n\
                journal\n0\n0\n0\n0\n0\n0\n0\n",
            Verdict::Yes,
        ),
        // The default instead of the value that was set.
        (
            b"worker 0\nb:1;\na:2:{s:1:\"b\";i:9;s:1:\"c\";i:9;}\nb:1;\nb:0;\n\
                journal\n0\n0\n0\n0\n0\n0\n0\n",
            Verdict::Byte(29),
        ),
        // A value that had expired, still returned.
        (
            b"worker 0\nb:1;\na:2:{s:1:\"b\";i:2;s:1:\"c\";i:9;}\nb:1;\nb:1;\n\
                journal\n0\n0\n0\n0\n0\n0\n0\n",
            Verdict::Byte(52),
        ),
    ];
    expect(&rt, rt.alloc(), POOL_KEYS, &cases)
}
