//! Projects that are printed, and made of statements.

use knx_model::{GroupAddr, Groups, IndAddr, List, Octets, Statement, What};
use project_text::{Project, print_project, read_project};
use std::alloc::Global;
use std::test::Fail;

const HALL: &[u8] =
    b"project hall\nga 1/2/3 light\nga 0/0/1 all\ndevice 1.1.5 inline\nobject 1.1.5 1 1 CWT\nobject 1.1.5 2 1 CW\nlink 1.1.5 1 1/2/3\nlink 1.1.5 2 0/0/1\n";

/// The statements of a text, printed.
fn printed(alloc: Global, text: &[u8]) -> Result<Octets, Fail> {
    let project = read_project(alloc, text).ok().ok_or("a project")?;
    let octets = print_project(alloc, &project).ok().ok_or("its text")?;
    Ok(octets)
}

#[test]
fn what_is_read_is_printed(rt: HostRuntime) -> Result<(), Fail> {
    let table = [
        (HALL, HALL),
        (b"".as_slice(), b"".as_slice()),
        (b"device 015.015.254 a", b"device 15.15.254 a\n"),
        (b"ga 31/7/255 a\nga 0/0/1 b", b"ga 31/7/255 a\nga 0/0/1 b\n"),
        (
            b"object 1.1.5 1 008 -\r\nobject 1.1.5 0xfF 112 IUTWRC",
            b"object 1.1.5 1 8 -\nobject 1.1.5 255 112 CRWTUI\n",
        ),
        (b"flags 1.1.5 9 TC # sends", b"flags 1.1.5 9 CT\n"),
        (
            b"param 1.1.5 b 0xFFFFFFFF\n\nparam 1.1.5 c 0000000000",
            b"param 1.1.5 b 4294967295\nparam 1.1.5 c 0\n",
        ),
        (
            b"# 2\nversion 0x2\nga 1/515 a\nlink 1.1.5 1 1/515 1 31/2047\nsend 1.1.5 1 65535",
            b"version 2\nga 1/2/3 a\nlink 1.1.5 1 1/2/3 0/0/1 31/7/255\nsend 1.1.5 1 31/7/255\n",
        ),
    ];
    for (text, wanted) in table {
        let octets = printed(rt.alloc(), text)?;
        assert_eq!(rt; octets.as_slice(), wanted);
    }
    Ok(())
}

#[test]
fn statements_in_ascending_lines_make_a_project(rt: HostRuntime) -> Result<(), Fail> {
    let device = IndAddr { raw: 0x1105 };
    for (first, second, is_project) in [(1, 7, true), (0, 1, false), (2, 2, false)] {
        let mut statements = List::new(rt.alloc());
        let flags = What::Flags {
            device,
            object: 1,
            flags: 0x17,
        };
        let link = What::Link {
            device,
            object: 1,
            groups: Groups::one(GroupAddr { raw: 1 }),
        };
        for (line, what) in [(first, flags), (second, link)] {
            let statement = Statement { line, what };
            statements.push(statement).ok().ok_or("memory")?;
        }
        assert_eq!(rt; Project::new(statements).is_some(), is_project);
    }
    Ok(())
}

/// A `link` line of two groups.
fn two_links<'a>(alloc: Global) -> Result<What<'a>, Fail> {
    let mut groups = Groups::one(GroupAddr { raw: 1 });
    groups
        .push(alloc, GroupAddr { raw: 2 })
        .ok()
        .ok_or("memory")?;
    Ok(What::Link {
        device: IndAddr { raw: 0x1105 },
        object: 1,
        groups,
    })
}

#[test]
fn a_version_is_told_first_and_lets_a_line_have_several_groups(
    rt: HostRuntime,
) -> Result<(), Fail> {
    for (told_at, is_project) in [(0, true), (1, false), (2, false)] {
        let mut statements = List::new(rt.alloc());
        for place in 0..2 {
            let what = if place == told_at {
                What::Version
            } else {
                two_links(rt.alloc())?
            };
            let statement = Statement {
                line: place + 1,
                what,
            };
            statements.push(statement).ok().ok_or("memory")?;
        }
        assert_eq!(rt; Project::new(statements).is_some(), is_project);
    }
    Ok(())
}
