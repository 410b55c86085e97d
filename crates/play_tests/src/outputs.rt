//! Tables of where journals begin, which marks their lines spell, and where outputs first differ.

use apcu_model::Mark;
use notation::ByteOut;
use run_verify::{difference, journal_at, line_end, lines_tell_marks, read_mark, yes_is_an_output};
use std::test::Fail;

#[test]
fn journals(rt: HostRuntime) -> Result<(), Fail> {
    let cases: [(&[u8], Option<usize>); 6] = [
        (b"", None),
        (b"journal", None),
        (b"x journal\n0\n", None),
        (b"journal\n", Some(8)),
        (b"worker 0\njournal\n0\njournal\n0 1\n", Some(27)),
        (b"worker 0\ns:9:\"\njournal\n\";\njournal\n0\n", Some(34)),
    ];
    for (output, part) in &cases {
        assert_eq!(rt; journal_at(output), *part);
    }
    Ok(())
}

#[test]
fn marks(rt: HostRuntime) -> Result<(), Fail> {
    let cases: [(&[u8], Option<(u32, u64)>); 14] = [
        (b"0\n", Some((0, 0))),
        (b"63\n", Some((63, 0))),
        (b"1 0 3\n", Some((1, 9))),
        (b"0 1 63\n", Some((0, 2 + (1 << 63)))),
        (b"64\n", None),
        (b"0 64\n", None),
        (b"01\n", None),
        (b"1  0\n", None),
        (b"1 3 0\n", None),
        (b"1 3 3\n", None),
        (b"1 \n", None),
        (b" 1\n", None),
        (b"1", None),
        (b"\n", None),
    ];
    for (line, mark) in &cases {
        let wanted = mark.map(|(worker, mask)| Mark { worker, mask });
        assert_eq!(rt; read_mark(line), wanted);
    }
    Ok(())
}

#[test]
fn ends(rt: HostRuntime) -> Result<(), Fail> {
    let cases: [(&[u8], usize, usize); 4] = [
        (b"\n", 0, 1),
        (b"0 1\n2\n", 0, 4),
        (b"0 1\n2\n", 4, 6),
        (b"0 1\n2", 4, 5),
    ];
    for (output, at, end) in &cases {
        if *at >= output.len() {
            return Err(Fail::new("no line"));
        }
        assert_eq!(rt; line_end(output, *at), *end);
    }
    lines_tell_marks();
    yes_is_an_output();
    Ok(())
}

#[test]
fn differences(rt: HostRuntime) -> Result<(), Fail> {
    let cases: [(&[u8], Option<usize>); 4] = [
        (b"worker 0\nb:1;\njournal\n0\n", None),
        (b"worker 0\nb:0;\njournal\n0\n", Some(11)),
        (b"worker 1\nb:1;\njournal\n0\n", Some(7)),
        (b"worker 0\nb:1;\n\njournal\n0\n", Some(14)),
    ];
    for (output, place) in &cases {
        let mut text = ByteOut::new(rt.alloc());
        text.push(b"b:1;\n")?;
        let mut texts = Vec::new(rt.alloc());
        texts.push(text)?;
        match journal_at(output) {
            Some(part) if part >= 8 && part <= output.len() => {
                assert_eq!(rt; difference(output, texts.as_slice(), part - 8), *place);
            }
            _ => return Err(Fail::new("no journal")),
        }
    }
    Ok(())
}
