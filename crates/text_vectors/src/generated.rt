//! Projects that a number makes: their text as another program works it out, and their counts.

ghost use Rattle.std.specs.Prelude.{◌≤◌};

use knx_gen::{GroupNames, project_from};
use knx_model::{Catalogue, Counts, NoMemory, Octets};
use project_check::check;
use project_text::print_project;
use std::alloc::Global;
use std::test::Fail;

/// The last lines of the project of one device that the number 7 makes.
const DEVICE: &[u8] =
    b"\nga 0/7/211 g2003\ndevice 1.1.1 inline\nobject 1.1.1 1 1 CRWTU\nobject 1.1.1 2 1 CRWTU\nobject 1.1.1 3 1 CRWTU\nobject 1.1.1 4 1 CRWTU\nobject 1.1.1 5 1 CRWTU\nobject 1.1.1 6 1 CRWTU\nobject 1.1.1 7 1 CRWTU\nobject 1.1.1 8 1 CRWTU\nlink 1.1.1 1 0/4/255\nlink 1.1.1 1 0/5/0\nlink 1.1.1 1 0/5/1\nlink 1.1.1 1 0/5/2\nlink 1.1.1 2 0/4/208\nlink 1.1.1 2 0/4/209\nlink 1.1.1 2 0/4/210\nlink 1.1.1 2 0/4/211\nlink 1.1.1 3 0/2/242\nlink 1.1.1 3 0/2/243\nlink 1.1.1 3 0/2/244\nlink 1.1.1 3 0/2/245\nlink 1.1.1 4 0/2/162\nlink 1.1.1 4 0/2/163\nlink 1.1.1 4 0/2/164\nlink 1.1.1 4 0/2/165\nlink 1.1.1 5 0/6/10\nlink 1.1.1 5 0/6/11\nlink 1.1.1 5 0/6/12\nlink 1.1.1 5 0/6/13\nlink 1.1.1 6 0/4/196\nlink 1.1.1 6 0/4/197\nlink 1.1.1 6 0/4/198\nlink 1.1.1 6 0/4/199\nlink 1.1.1 7 0/7/73\nlink 1.1.1 7 0/7/74\nlink 1.1.1 7 0/7/75\nlink 1.1.1 7 0/7/76\nlink 1.1.1 8 0/6/229\nlink 1.1.1 8 0/6/230\nlink 1.1.1 8 0/6/231\nlink 1.1.1 8 0/6/232\n";

/// The last links of the project of 254 devices that the greatest number makes.
const LAST_LINKS: &[u8] =
    b"link 1.1.254 7 0/0/76\nlink 1.1.254 8 0/0/242\nlink 1.1.254 8 0/0/243\nlink 1.1.254 8 0/0/244\nlink 1.1.254 8 0/0/245\n";

fn text(alloc: Global, n: u16, start: u64) -> Result<Octets, NoMemory>
    requires { n ≤ 254 }
{
    let names = GroupNames::new(alloc)?;
    let project = project_from(alloc, &names, n, start)?;
    print_project(alloc, &project)
}

#[test]
fn text_of_a_generated_project(rt: HostRuntime) -> Result<(), Fail> {
    let one = text(rt.alloc(), 1, 7).ok().ok_or("a text")?;
    assert!(rt; one.as_slice().starts_with(b"ga 0/0/1 g1\nga 0/0/2 g2\n"));
    assert!(rt; one.as_slice().ends_with(DEVICE));
    let all = text(rt.alloc(), 254, u64::MAX).ok().ok_or("a text")?;
    assert!(rt; all.as_slice().ends_with(LAST_LINKS));
    Ok(())
}

#[test]
fn counts_of_a_generated_project(rt: HostRuntime) -> Result<(), Fail> {
    let names = GroupNames::new(rt.alloc()).ok().ok_or("names")?;
    let project = project_from(rt.alloc(), &names, 60, 7)
        .ok()
        .ok_or("a project")?;
    let catalogue = Catalogue::empty(rt.alloc());
    let checked = check(rt.alloc(), &project, &catalogue)
        .ok()
        .ok_or("no rule is broken")?;
    let wanted = Counts {
        devices: 60,
        objects: 480,
        links: 1920,
    };
    assert_eq!(rt; checked.counts(), wanted);
    Ok(())
}
