//! Drives of generated requests, and their lines. The numbers of 10,000 requests were worked out by another program.
ghost use Rattle.std.specs.Prelude.{◌≤◌};

use den_drive::drive;
use std::alloc::Global;
use std::test::Fail;

// Whether a drive of so many requests gives this line.
fn gives(alloc: Global, count: u32, line: &str) -> Result<bool, Fail>
    requires { count ≤ 1000000 }
{
    let report = drive(alloc, count)?;
    let given = report.line(alloc)?;
    Ok(given.as_str() == line)
}

#[test]
fn reports_drives(rt: HostRuntime) -> Result<(), Fail> {
    let alloc = rt.alloc();
    assert!(rt; gives(alloc, 0, "requests=0 keys=0 index=1 bytes=25\n")?);
    assert!(rt; gives(alloc, 1, "requests=1 keys=1 index=2 bytes=67\n")?);
    Ok(())
}

#[test]
fn reports_the_same_again(rt: HostRuntime) -> Result<(), Fail> {
    let alloc = rt.alloc();
    let line = "requests=10000 keys=665 index=7501 bytes=216241\n";
    assert!(rt; gives(alloc, 10_000, line)?);
    assert!(rt; gives(alloc, 10_000, line)?);
    Ok(())
}
