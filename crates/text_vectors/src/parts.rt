//! A long text, which is read in parts by threads.

use project_text::read_project_in_threads;
use std::alloc::Global;
use std::test::Fail;
use std::thread::Threads;

/// How many lines a text of 1 MiB has, each of 512 octets.
const LINES: u32 = 2_048;

/// A text of 1 MiB, of which two lines are none of the language.
fn text_with(alloc: Global, wrong: (u32, u32)) -> Result<Vec<u8>, Fail> {
    let mut text = Vec::new(alloc);
    for line in 1..=LINES {
        let is_wrong = line == wrong.0 || line == wrong.1;
        let word = if is_wrong { b"gb" } else { b"ga" };
        text.extend_from_slice(word)?;
        text.extend_from_slice(b" 1/2/3 a-name ")?;
        text.extend_from_slice(&[b'#'; 495])?;
        text.push(b'\n')?;
    }
    Ok(text)
}

#[test]
fn the_first_wrong_line_of_all_parts_is_told(rt: HostRuntime) -> Result<(), Fail> {
    let table = [
        (1, 2_048),
        (512, 513),
        (1_024, 1_025),
        (1_025, 1_536),
        (1_537, 2_047),
        (2_048, 2_048),
    ];
    for wrong in table {
        let text = text_with(rt.alloc(), wrong)?;
        let refused = read_project_in_threads(&rt, rt.alloc(), text.as_slice())
            .err()
            .ok_or("a wrong line")?;
        assert_eq!(rt; refused.line, wrong.0);
    }
    Ok(())
}

/// How many statements a text has, and the line of the last one.
fn read_to<R: Threads + Sync>(rt: &R, alloc: Global, text: &[u8]) -> Result<(usize, u32), Fail> {
    let project = read_project_in_threads(rt, alloc, text)
        .ok()
        .ok_or("a project")?;
    let last = project.statements.as_slice().last().ok_or("a statement")?;
    Ok((project.statements.len(), last.line))
}

#[test]
fn the_lines_of_all_parts_are_read(rt: HostRuntime) -> Result<(), Fail> {
    let mut text = text_with(rt.alloc(), (0, 0))?;
    let read = read_to(&rt, rt.alloc(), text.as_slice())?;
    assert_eq!(rt; read, (2_048, 2_048));
    text.extend_from_slice(b"ga 1/2/3 without-a-last-feed")?;
    let read = read_to(&rt, rt.alloc(), text.as_slice())?;
    assert_eq!(rt; read, (2_049, 2_049));
    Ok(())
}

#[test]
fn a_short_text_is_read_at_once(rt: HostRuntime) -> Result<(), Fail> {
    for (text, statements) in [(b"".as_slice(), 0), (b"device 1.1.5 inline".as_slice(), 1)] {
        let project = read_project_in_threads(&rt, rt.alloc(), text)
            .ok()
            .ok_or("a project")?;
        assert_eq!(rt; project.statements.len(), statements);
    }
    Ok(())
}
